//! The run queue of a CPU: its tasks, its clock, what is asked of it, and the turns that balance it
//! (docs/rules/queue.md). Tasks go from queue to queue in hands, and none is lost.
#![tactic(auto)]

mod answers;
mod awake;
mod by_id;
mod hand;
pub mod laws;
mod lists;
mod queue;
mod record;
mod stops;
mod sums;
mod task;
mod views;

pub use answers::{AskReply, OpenTurn, OutCause, Reply, Stop, Taken, TurnReply};
pub use awake::{Awake, StopRequest};
pub use hand::Hand;
pub use queue::{MAX_SHAPES, NANOSECONDS_PER_MILLISECOND, Queue, tries};
pub use record::TaskRecord;
pub use task::Task;
