//! The judge of an entry: it says the rule that the entry breaks first (docs/rules/legality.md).
#![tactic(auto)]

mod answers;
mod ends;
mod figures;
mod judge;
mod leaving;
mod rows;
mod stage;
mod turns;
mod versions;

pub use judge::first_broken;
