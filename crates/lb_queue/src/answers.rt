//! What a queue answers to a command, a request, a turn and a take.
use lb_base::{Kind, Mask};

/// What a queue answers to a command on a task (docs/rules/queue.md).
#[derive(Clone, Copy, Debug, PartialEq, Eq)]
pub enum Reply {
    /// The command was carried out.
    Done,
    /// The task is awake already, or asleep already. Nothing but the clock changed.
    Already,
    /// The queue does not know the task. Nothing changed.
    NotHere,
    /// The task has ended here. Nothing but the clock changed.
    Gone,
    /// The mask is empty, or has a CPU past the machine. Nothing but the clock changed.
    BadMask,
}

/// Whether a request is new (docs/rules/queue.md).
#[derive(Clone, Copy, Debug, PartialEq, Eq)]
pub enum AskReply {
    /// It is pending now.
    New,
    /// One was pending before, and stays. Nothing but the clock changed.
    Old,
}

/// What a queue answers to a turn that wants to open (docs/rules/queue.md).
#[derive(Clone, Copy, Debug, PartialEq, Eq)]
pub enum TurnReply {
    /// It is open, with these positions.
    Opened(Mask),
    /// Another turn is open. Nothing but the clock changed, and the flag of a kick.
    TurnOpen,
}

/// Why tasks leave a queue for another (docs/rules/queue.md).
#[derive(Clone, Copy, Debug, PartialEq, Eq)]
pub enum OutCause {
    /// A task woke whose mask lacks the CPU.
    Wake,
    /// A stop request.
    Stop,
    /// A pull of balancing.
    Pull,
    /// An active request.
    Push,
}

/// A pending stop request.
#[derive(Clone, Copy, Debug, PartialEq, Eq)]
pub struct Stop {
    /// The task that is to leave.
    pub id: u32,
    /// The CPU to which it goes: the least of its mask.
    pub to: u32,
}

/// What a pull says of its examination (docs/rules/picked-list.md).
#[derive(Clone, Copy, Debug, PartialEq, Eq)]
pub struct Taken {
    /// A task was examined whose mask lacks the destination.
    pub some_pinned: bool,
    /// Tasks were examined, and the masks of all of them lack the destination.
    pub all_pinned: bool,
    /// What is left of the imbalance.
    pub left: u64,
}

/// A turn that is open at a queue (docs/rules/queue.md).
#[derive(Clone, Copy, Debug, PartialEq, Eq)]
pub struct OpenTurn {
    /// The lane that opened it.
    pub lane: u32,
    /// Why it was opened.
    pub kind: Kind,
    /// The positions that it balances.
    pub positions: Mask,
}
