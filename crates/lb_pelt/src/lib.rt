//! Load signals: sums over the time of a task that decay by half in 32 periods of 1,024 units, a
//! unit being 1,024 ns (docs/rules/signals.md).
#![tactic(auto)]

mod decaying;
pub mod laws;
mod signal;

pub use decaying::decay;
pub use signal::{Run, Signal, Value, advance, value_at};
