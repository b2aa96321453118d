//! The judge of a history that was read from a text: it is legal, or it has one first fault, a ticket and
//! the rule that is broken there (docs/rules/legality.md).
#![tactic(auto)]

mod audit;
pub mod laws;
mod verdict;

pub use audit::check;
pub use verdict::Verdict;
