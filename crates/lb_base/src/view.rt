//! What a pull moves, and what its examination sees of a task.
use crate::mask::Mask;

/// What a pull is to even out (docs/rules/decision.md).
#[derive(Clone, Copy, Debug, PartialEq, Eq)]
pub enum MoveKind {
    /// Load.
    Load,
    /// Utilisation, in 1/1024 of a CPU.
    Util,
    /// The number of tasks.
    Tasks,
}

/// An awake task as a pull sees it, at one moment (docs/rules/picked-list.md).
#[derive(Clone, Copy, Debug, PartialEq, Eq)]
pub struct TaskView {
    /// The task's number.
    pub id: u32,
    /// Where it may run.
    pub mask: Mask,
    /// It is the running task of its queue.
    pub running: bool,
    /// It ran less than 500,000 ns ago.
    pub hot: bool,
    /// Its load, at most its weight.
    pub load: u64,
    /// Its utilisation, in 1/1024 of a CPU.
    pub util: u64,
}
