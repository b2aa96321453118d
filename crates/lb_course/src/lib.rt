//! How a lane's course goes on: what it says, and one move for each kind of entry (docs/rules/lanes.md).
//! No move takes memory: what needs it is made before, and handed in.
#![tactic(auto)]

mod figures;
mod looks;
mod numbers;
mod opening;
mod readers;
mod rest;
mod rows;
mod tasks;
mod turns;

pub use figures::{NO_FIG, by_cpu, target_of, tickless_in};
pub use looks::{kicked, looked, scanned};
pub use numbers::drew;
pub use opening::opening_course;
pub use readers::{
    cause_of, is_all_pinned, is_pull, is_rebuild, is_settled, is_tick, is_wake, named_at,
    queue_due, source_of, task_of, ticked_cpu, turn_kind,
};
pub use rows::{answered, asked, ended, published};
pub use tasks::{landed, taken_off};
pub use turns::{close, go_on, taken_up, turn_ends, turn_opens};
