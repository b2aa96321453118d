//! A whole machine on threads: each lane serves its rows on a thread of its own, and once all are joined the lists of all
//! owners are put in the order of their tickets, as a legal history of the trace (docs/rules/threads.md).
#![tactic(auto)]

mod ending;
mod lanes;
mod rows;
mod run;

pub use run::run_lanes;
