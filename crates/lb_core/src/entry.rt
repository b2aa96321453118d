//! What an entry of a history says, and whose it is (docs/rules/history-text.md).
use crate::lists::{FigNames, Ids};
use lb_base::{Fig, Kind, Mask};
use lb_imbalance::Decision;
use lb_queue::{AskReply, OutCause, Reply};
use lb_trace::Command;

/// How a balanced position ended, as the line `close` says it; the number of tasks that moved is
/// left out (docs/rules/counters.md).
#[derive(Clone, Copy, Debug, PartialEq, Eq)]
pub enum OutcomeWord {
    /// Another CPU of the local group balances this domain.
    NotMine,
    /// There was nothing to move.
    Balanced,
    /// The last take moved tasks.
    Moved,
    /// Affinity kept every examined task where it is.
    Pinned,
    /// The last take moved nothing.
    Failed,
    /// The last take moved nothing, and an active balance is asked for.
    Asking,
}

/// Names a published figure.
#[derive(Clone, Copy, Debug, PartialEq, Eq)]
pub struct FigName {
    /// The CPU whose queue published it.
    pub cpu: u32,
    /// After how many of that queue's entries; 0 names the opening figure.
    pub n: u64,
}

/// A figure, with the CPU whose queue published it.
#[derive(Clone, Copy, Debug, PartialEq, Eq)]
pub struct CpuFig {
    /// The CPU.
    pub cpu: u32,
    /// Its figure.
    pub fig: Fig,
}

/// Whose an entry is: each owner draws its entries one after the other (docs/rules/lanes.md).
/// As owners of a ticket book the publisher has number 0, lane l has number l + 1, and the queue
/// of CPU c has number 17 + c.
#[derive(Clone, Copy, Debug, PartialEq, Eq)]
pub enum Owner {
    /// The publisher of topologies.
    Publisher,
    /// A lane, from 0.
    Lane(u32),
    /// The queue of a CPU.
    Queue(u32),
}

/// What an entry says (docs/rules/lanes.md, docs/rules/history-text.md).
#[derive(Debug, Drop)]
pub enum What {
    /// A lane takes up its next row: the row's number from 1, its moment in nanoseconds, and what
    /// it asks for.
    Row {
        number: u64,
        at: u64,
        command: Command,
    },
    /// A lane takes up a published version for a turn of a CPU; the line `use`.
    Adopt {
        version: u64,
        kind: Kind,
        cpu: u32,
    },
    /// A lane reads the figures of a domain, without the excluded CPUs, and decides.
    Look {
        position: u32,
        excluded: Mask,
        figures: FigNames,
        decision: Decision,
    },
    /// A lane reads the figures of a CPU's widest domain, and finds a tickless CPU or none.
    Scan {
        figures: FigNames,
        target: Option<u32>,
    },
    /// Lane 0 ends the history: the CPUs whose active request nobody served.
    End {
        unserved: Mask,
    },
    /// A queue answers a command; never `NotHere`.
    Did {
        reply: Reply,
    },
    /// Tasks leave a queue: why, where to, and which.
    Out {
        cause: OutCause,
        to: u32,
        ids: Ids,
    },
    /// The tasks of the lane's last `Out` join a queue; the line `in`.
    Landed {
        ids: Ids,
    },
    /// A turn opens at a queue: the positions that it balances.
    Turn {
        positions: Mask,
    },
    /// A turn is refused, since one is open at the queue.
    Shut,
    /// A position of the open turn is done: how it ended, and the interval in milliseconds and
    /// the failures that it leaves.
    Close {
        position: u32,
        outcome: OutcomeWord,
        interval: u64,
        failures: u32,
    },
    /// A queue is asked to push a task at its CPU's next tick.
    Ask {
        reply: AskReply,
    },
    /// A tickless CPU is kicked.
    Kick {
        reply: AskReply,
    },
    /// The open turn ends.
    Over,
    /// The publisher publishes the masks of a `rebuild` as a new version.
    Pub {
        version: u64,
    },
}

/// An entry of a history. Its ticket is its place in the history, counted from 1.
#[derive(Debug, Drop)]
pub struct Entry {
    /// Whose entry it is.
    pub owner: Owner,
    /// The lane that drew it.
    pub lane: u32,
    /// The ticket of the lane's entry before it; 0 for the lane's first.
    pub prev: u64,
    /// What it says.
    pub what: What,
}
