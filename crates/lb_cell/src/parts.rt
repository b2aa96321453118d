//! The fields of a cell and of a lane as plain values. A call changes them step by step, and only what it leaves is a cell
//! or a lane again.
use crate::known::Known;
use crate::log::Log;
use lb_core::{Course, Ids};
use lb_journal::Journal;
use lb_queue::Queue;
use lb_ticket::Seat;

/// What stands behind the lock of a queue. While an entry is drawn its parts change one by one, and [`Cell`] says what
/// is kept of them between two entries.
///
/// [`Cell`]: crate::Cell
#[derive(Drop)]
pub struct CellParts {
    /// The queue.
    pub(crate) queue: Queue,
    /// Its entries, with its figures.
    pub(crate) log: Log,
    /// For how many entries room is kept that are booked.
    pub(crate) room: u64,
}

/// What a lane has of its own. [`Lane`] says what is kept of it between two entries.
///
/// [`Lane`]: crate::Lane
#[derive(Drop)]
pub struct LaneParts {
    /// Its number, from 0.
    pub(crate) number: u32,
    /// What it may do next.
    pub(crate) course: Course,
    /// What it knows of its last entry and of the figures.
    pub(crate) known: Known,
    /// Draws its own entries, and keeps them.
    pub(crate) seat: Seat<Journal>,
    /// The ids that its next landing names, while its tasks are in flight.
    pub(crate) landing: Ids,
}
