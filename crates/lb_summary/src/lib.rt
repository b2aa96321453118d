//! The summary of a history: how many rows and entries it has, and how many tasks were pulled at each level,
//! pushed and stopped (docs/rules/generator.md).
#![tactic(auto)]

pub mod laws;
mod summary;
mod text;

pub use text::summary_text;
