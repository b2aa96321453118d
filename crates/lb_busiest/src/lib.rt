//! The busiest group of a domain, and the source queue that a pull takes from.
#![tactic(auto)]

mod group;
pub mod laws;
mod queue;

pub use group::busiest;
pub use queue::source;
