//! Which tasks a pull takes out of a run queue, and in which order the others stay
//! (docs/rules/picked-list.md).
#![tactic(auto)]

mod examination;
pub mod laws;
mod picked;
mod refusal;

pub use examination::{EXAMINED_AT_MOST, picks};
use lb_base::MoveKind;
pub use picked::Picked;

/// What a pull asks for: the destination, and how much is to move.
#[derive(Clone, Copy, Debug, PartialEq, Eq)]
pub struct Env {
    /// The destination CPU.
    pub to: u32,
    /// The destination is not busy: it has no awake task, or the turn is newly idle.
    pub idle: bool,
    /// The turn is newly idle.
    pub newly: bool,
    /// What is to be evened out.
    pub kind: MoveKind,
    /// How much of it: load, utilisation in 1/1024 of a CPU, or a number of tasks.
    pub imbalance: u64,
    /// How often in a row the destination's domain has failed to balance.
    pub failures: u32,
    /// The domain's cache tries: a hot task stays while there are no more failures than these.
    pub tries: u32,
}
