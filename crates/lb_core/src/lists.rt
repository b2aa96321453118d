//! The lists that entries and courses are made of.
use crate::entry::{CpuFig, Entry, FigName};
use lb_base::Items;
use lb_interval::Counters;
use lb_queue::TaskRecord;

/// Numbers of tasks, in an order that counts.
pub type Ids = Items<u32>;

/// The figures that a look or a scan names, by rising CPU.
pub type FigNames = Items<FigName>;

/// The figures that were read for a look or a scan, by rising CPU.
pub type Figs = Items<CpuFig>;

/// Tasks in a hand, in the order in which they left their queue.
pub type TaskRecords = Items<TaskRecord>;

/// The counters of a queue, one for each domain of its CPU, from the bottom.
pub type CounterRows = Items<Counters>;

/// One number for each CPU, from CPU 0.
pub type Numbers = Items<u64>;

/// The entries of a history, in the order of their tickets, from ticket 1.
pub type Entries = Items<Entry>;
