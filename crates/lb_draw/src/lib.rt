//! The drawer: the entry that a lane draws next with the newest version and figures
//! (docs/rules/lanes.md).
#![tactic(auto)]

mod looks;
mod next;
mod owners;
mod queues;

pub use next::next_entry;
