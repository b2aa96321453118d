//! Worked histories as theorems: each function's contract says that a history is legal, or which
//! rule it breaks first and at which ticket. They are proved by computing the machine
//! (docs/rules/legality.md).
#![tactic(auto)]

pub mod balancing;
pub mod commands;
pub mod faults;
pub mod lanes;
pub mod requests;
