//! A lane and the publisher behind its lock are taken apart at the end.
ghost use Rattle.std.specs.Prelude.{◌≡◌, ◌≤◌, ◌++◌};
ghost use Rattle.lb_cell.specs.Cells.{LaneKeeps as SideKeeps};
ghost use Rattle.lb_cell.specs.LastEntries.{facts_of};
ghost use Rattle.lb_lane.specs.Lanes.{LaneKeeps};
ghost use Rattle.lb_lane.specs.Publishers.{PublisherKeeps};
ghost use Rattle.lb_ticket.specs.Seats.{KeepsList};

use crate::lane::Lane;
use crate::publisher::PublisherCell;
use crate::versions::Versions;
use lb_board::Reader;
use lb_cell::{Names, Shared};
use lb_core::Course;
use lb_journal::{Journal, Left};
use lb_ticket::{Coding, Note, Seat};
use lb_topub::{Looker, Publisher};

impl<N: Names + Versions> Lane<N> {
    /// Its seat, its reader, its looker, its course, and the ticket of its last entry, or 0 where it drew none. The seat
    /// learns that the last entry was drawn and what it left; but lane 0 hands its note out, since the entries that close
    /// the history quote it. What the lane kept is known of them.
    pub fn end(
        self,
        shared: &Shared<'_, N>,
    ) -> (Seat<Journal>, Reader, Looker, Course, u64, Option<Note>)
        ensures seat { KeepsList self.side.seat result.0 }
        ensures learnt { 1 ≤ self.side.number → result.0.known ≡ self.side.seat.known ++ facts_of self.side.known.note }
        ensures note { self.side.number ≡ 0 → result.5 ≡ self.side.known.note }
        ensures view { (result.0.fresh ≡ self.side.seat.fresh) × (result.0.read ≡ self.side.seat.read) }
        ensures reader { result.1 ≡ self.side.known.reader }
        ensures looker { result.2 ≡ self.looker }
        ensures last { (result.3 ≡ self.side.course) × (result.4 ≡ self.side.known.ticket) }
        ensures side { SideKeeps N.header N.book N.board ⟦<Left as Coding>⟧.coding self.side }
        ensures kept { LaneKeeps N.header N.board N.versions ⟦<Journal as Coding>⟧.coding self }
    {
        let Lane {
            side,
            looker,
            rows: _,
            vouched: _,
            turned: _,
            domains: _,
        } = self;
        let (seat, reader, course, last, note) = side.end(shared);
        (seat, reader, looker, course, last, note)
    }
}

impl<N: Names + Versions> PublisherCell<N> {
    /// The publisher, and the seat with its list. What was kept is known of them.
    pub fn end(self) -> (Publisher, Seat<Journal>)
        ensures parts { record { publisher = result.0; seat = result.1 } ≡ self }
        ensures kept { PublisherKeeps N.header N.book N.versions self }
    {
        let PublisherCell {
            publisher,
            seat,
            names: _,
        } = self;
        (publisher, seat)
    }
}
