//! The service of one row of a lane: the answer to it, and all that follows from it, up to rest (docs/rules/lanes.md).
#![tactic(auto)]

mod row;
mod services;
mod ticks;
mod turns;

pub use row::serve_row;
