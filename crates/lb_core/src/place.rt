//! Where a task stands in the machine: awake, asleep or gone at a queue, or in the hand of a lane.

/// Where a declared task is (docs/rules/lanes.md).
#[derive(Clone, Copy, Debug, PartialEq, Eq)]
pub enum Place {
    /// It is awake on this CPU's queue.
    Awake(u32),
    /// It sleeps, and this CPU's queue keeps it.
    Asleep(u32),
    /// It has exited; this CPU's queue still knows it.
    Gone(u32),
    /// It is between two queues, in the hand of this lane.
    Hand(u32),
}
