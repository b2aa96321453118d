//! The decision of a CPU about one of its domains: whether it pulls, from which CPU, and how much.
#![tactic(auto)]

mod balance;
mod decision;
mod destination;
mod imbalance;
pub mod laws;
mod levels;

pub use decision::{Decision, decide};
pub use destination::busy;
