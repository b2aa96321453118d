//! The course of a lane: what it has in work, and what it remembers (docs/rules/lanes.md).
use crate::lists::{CounterRows, Figs, Numbers, TaskRecords};
use lb_base::{Kind, Mask};
use lb_imbalance::Decision;
use lb_queue::{OutCause, Taken};
use lb_trace::{Command, Masks};

/// How far a lane is in the service of its row (docs/rules/lanes.md).
#[derive(Clone, Copy, Debug, PartialEq, Eq)]
pub enum Form {
    /// No row is in service.
    Rest,
    /// A row was drawn, and its answer is due.
    Asked,
    /// Tasks are in the lane's hand, and their landing is due.
    Flight,
    /// A tick was answered: its owed stops, its push and its turn are due, in this order.
    Serving,
    /// A turn of a CPU is due.
    Due,
    /// A version was taken up, and the queue's answer to the turn is due.
    Used,
    /// A look at a position is due.
    Position,
    /// A position was looked at: its take or its close is due.
    Looked,
    /// A take has landed: a further look or the close is due.
    Landed,
    /// A position was closed that asks for an active balance: the request is due.
    Closed,
    /// Each position is done, and the end of the turn is due.
    Done,
    /// A scan for tickless CPUs is due.
    ScanDue,
    /// A tickless CPU was found, and its kick is due.
    Kicking,
    /// The history has ended.
    Ended,
}

/// What a lane may do next (docs/rules/lanes.md). A field whose thing is not there is None, 0,
/// false or empty.
#[derive(Debug, Drop)]
pub struct Course {
    /// How far the lane is.
    pub form: Form,
    /// How many rows it drew.
    pub rows: u64,
    /// The moment of its last row, in nanoseconds.
    pub at: u64,
    /// What the row in service asks for.
    pub command: Option<Command>,
    /// Why the tasks in the hand left their queue.
    pub cause: Option<OutCause>,
    /// Where the hand goes.
    pub to: u32,
    /// The source's clock when they left, in nanoseconds.
    pub moment: u64,
    /// The tasks in the hand.
    pub hand: TaskRecords,
    /// The version of the last `use`.
    pub version: u64,
    /// The partition masks of that version.
    pub masks: Masks,
    /// The CPU of the turn that is due or open, else of the last one.
    pub cpu: u32,
    /// The kind of that turn.
    pub kind: Option<Kind>,
    /// The positions that the turn balances.
    pub positions: Mask,
    /// The position in work.
    pub position: u32,
    /// The counters that the turn found.
    pub counters: CounterRows,
    /// The CPUs that this position no longer looks at.
    pub excluded: Mask,
    /// What the last look decided.
    pub decision: Option<Decision>,
    /// Whether the destination was idle in that look.
    pub idle: bool,
    /// How many tasks the last take moved.
    pub took: u32,
    /// What else is known of the last take.
    pub taken: Option<Taken>,
    /// Of a tick: how many tasks were awake on its CPU when it was answered.
    pub awake: u32,
    /// Of a tick: whether it made its push.
    pub pushed: bool,
    /// The figures of the scan.
    pub figures: Figs,
    /// The greatest version that the lane used or published.
    pub named_version: u64,
    /// For each CPU the greatest figure number that the lane drew or named.
    pub named: Numbers,
}
