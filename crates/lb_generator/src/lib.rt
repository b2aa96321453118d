//! Traces that are drawn from a number, for trials of any length.
#![tactic(auto)]

mod draws;
pub mod laws;
mod lines;
mod rows;
mod text;

pub use text::generate;
