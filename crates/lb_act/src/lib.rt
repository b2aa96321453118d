//! What an entry does to the queue that draws it, and to the course of its lane, whoever holds the two
//! (docs/rules/lanes.md). What takes memory is made before the first change.
#![tactic(auto)]

mod closing;
mod commands;
mod hands;
mod opening;
mod pulls;
mod turns;

pub use closing::counters_left;
pub use commands::obey;
pub use hands::{arrive, blank_records, note_records};
pub use opening::opening_queues;
pub use pulls::{picks_of, views_of};
pub use turns::{blank_counters, open_turn, refuse_turn};
