//! The text of a trace's topologies: over which domains and groups each CPU is balanced, version by
//! version.
#![tactic(auto)]

mod lines;
mod text;

pub use text::topology_text;
