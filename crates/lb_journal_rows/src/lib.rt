//! Worked histories as lists of a closed ticket book: merged back they are the history; lists that miss what the
//! merge asks for give a history that breaks a rule; and there are seats that keep all that is asked of owners
//! (docs/rules/legality.md).
#![tactic(auto)]

pub mod laws;
