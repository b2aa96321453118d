//! The balancing machine as it runs: it judges the entries that it is given and takes the legal ones, or it
//! draws the serial entries of its lanes itself (docs/rules/lanes.md, docs/rules/legality.md).
#![tactic(auto)]

pub mod laws;
mod state;

pub use state::State;
