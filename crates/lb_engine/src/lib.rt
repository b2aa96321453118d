//! The engine: it holds the balancing machine as it runs, and the step of each kind of entry
//! (docs/rules/lanes.md).
#![tactic(auto)]

mod engine;

pub use engine::Engine;
