//! What contracts see of a task.
use lb_base::Mask;
use lb_pelt::Signal;

/// A task that was put down less than this many nanoseconds ago is hot.
pub const HOT_BELOW: u64 = 500_000;

/// What is known of a task, wherever it is (docs/rules/queue.md).
#[derive(Clone, Copy, Debug, PartialEq, Eq)]
pub struct TaskRecord {
    /// Its number.
    pub id: u32,
    /// Its nice value, -20 to 19.
    pub nice: i32,
    /// Where it may run. It is not empty.
    pub mask: Mask,
    /// Its load signal, as of its last change of state.
    pub signal: Signal,
    /// The moment when it was last put down, in nanoseconds; None if it never ran.
    pub put_down: Option<u64>,
}
