//! A machine whose locks and lanes were taken apart, and its end: the entries that close its history, and the lists of all
//! owners (docs/rules/threads.md).
#![tactic(auto)]

mod booking;
mod drawing;
mod ended;
mod finish;
mod following;
mod requests;
mod serving;
mod steps;
mod stops;

pub use ended::Ended;
