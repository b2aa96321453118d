//! The run of a trace on one thread: the serial history, in which each row is served to its end
//! before the next is taken up (docs/rules/lanes.md).
#![tactic(auto)]

mod history;
mod run;

pub use history::serial;
