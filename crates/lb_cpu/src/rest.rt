//! A machine comes to rest: its locks and its lanes are taken apart, and what was read is compared with what was published.
ghost use Rattle.std.specs.Prelude.{ℕ, ◌≡◌, ◌++◌, ◌∷◌, Some, IfOk, length, map, slice_get};
ghost use Rattle.lb_cpu.specs.Ends.{LaneIsLeft, VersionsAreSeen};
ghost use Rattle.lb_end.specs.Ends.{NothingCloses};
ghost use Rattle.lb_cpu.specs.Numbering.{EachFrom};
ghost use Rattle.lb_lane.specs.Lanes.{LaneIs};

use crate::apart::{end_cells, end_lanes};
use crate::cpus::Cpus;
use lb_base::NoMemory;
use lb_cell::laws::{plain_is_kept, saw_is_read};
use lb_cell::{Names, Shared};
use lb_end::Ended;
use lb_journal::{Journal, Left};
use lb_lane::{Lane, Versions};
use lb_ticket::{Coding, Seat};
use std::alloc::Global;
use std::sync::Wait;

// The seats of all owners, in the order of their numbers.
fn all_seats(
    alloc: Global,
    publisher: Seat<Journal>,
    mut lanes: Vec<Seat<Journal>>,
    mut unused: Vec<Seat<Journal>>,
    mut queues: Vec<Seat<Journal>>,
) -> Result<Vec<Seat<Journal>>, NoMemory>
    ensures { IfOk result (λ all. all.items ≡ publisher ∷ lanes.items ++ unused.items ++ queues.items) }
{
    let mut all = Vec::with_capacity(alloc, 1)?;
    all.push_reserved(publisher);
    all.append(&mut lanes)?;
    all.append(&mut unused)?;
    all.append(&mut queues)?;
    Ok(all)
}

impl<N: Names + Versions> Cpus<N> {
    /// Takes the locks apart, with the lanes that `start` made, in the order of their numbers. What their readers and
    /// lookers saw is then known to have been published. It refuses for want of memory alone, and everything is dropped
    /// then. It waits while figures or versions are in use, which they are not any more.
    pub fn rest<R: Wait>(
        self,
        rt: &R,
        alloc: Global,
        lanes: Vec<Lane<N>>,
    ) -> Result<Ended<N>, NoMemory>
        requires lanes { EachFrom (λ k l. l.side.number ≡ k) 0 lanes.items × (length lanes.items ≡ N.header.lanes) }
        ensures left { IfOk result (λ e. (k : ℕ) (l : LaneIs) → slice_get lanes.items k ≡ Some l →
            LaneIsLeft ⟦<Left as Coding>⟧.coding e.seats k l) }
        ensures courses { IfOk result (λ e. e.courses ≡ map (λ l. l.side.course) lanes.items) }
        ensures tickets { IfOk result (λ e. e.tickets ≡ map (λ l. l.side.known.ticket) lanes.items) }
        ensures open { IfOk result (λ e. NothingCloses e.seats) }
        ensures versions { IfOk result (λ e. VersionsAreSeen N.header N.book N.versions e.seats (map (λ l. l.looker) lanes.items)) }
    {
        // what was seen of a beginning of the figures was published, and what a cell keeps is what the merge asks
        saw_is_read();
        plain_is_kept();
        let Cpus {
            header,
            machine: _,
            book,
            board,
            cells,
            publisher,
            unused,
        } = self;
        let shared = Shared::new(&header, &book, &board);
        let lanes = end_lanes(alloc, &shared, lanes)?;
        let cells = end_cells(rt, alloc, cells)?;
        let (publisher, seat) = publisher.into_inner().end();
        lb_board::gather(rt, board, cells.writers, lanes.readers);
        lb_topub::gather(rt, publisher, lanes.lookers);
        let seats = all_seats(alloc, seat, lanes.seats, unused, cells.seats)?;
        Ok(Ended::new(
            header,
            book,
            seats,
            cells.queues,
            lanes.courses,
            lanes.tickets,
            lanes.notes,
        ))
    }
}
