//! The entry of the publisher's list that a lane draws.
ghost use Rattle.std.specs.Prelude.{◌≡◌, ◌<◌, length, map};
ghost use Rattle.lb_ticket.specs.Tickets.{pair};
ghost use Rattle.lb_journal.specs.Journal.{Fits};
ghost use Rattle.lb_cell.specs.Pubs.{DrewPub, pub_item};

use crate::draw::draw_noted;
use crate::lane::Lane;
use crate::names::Names;
use crate::shared::Shared;
use lb_base::Items;
use lb_core::{Entry, Owner, What};
use lb_course::published;
use lb_journal::Journal;
use lb_ticket::Seat;
use std::alloc::Global;
use std::snapshot::Snapshot;

impl<N: Names> Lane<N> {
    /// Draws the `pub` of a version in the publisher's list, which it fits, and answers its ticket. There has to be
    /// room for it, so it takes no memory.
    pub fn draw_pub(
        &mut self,
        alloc: Global,
        shared: &Shared<'_, N>,
        seat: &mut Seat<Journal>,
        version: u64,
    ) -> u64
        requires seat { (seat.old.table ≡ N.book) × (seat.old.number ≡ 0) × (0 < seat.old.spare) }
        requires fits { Fits (map pair seat.old.list) (pub_item N.header self.old (length seat.old.list) version) }
        ensures { DrewPub N.header self.old self.new seat.old seat.new version result }
    {
        let quoted = Snapshot::of(&self.parts.course);
        let masks = Items::new(alloc);
        let figs = Items::new(alloc);
        published(alloc, &mut self.parts.course, version);
        let entry = Entry {
            owner: Owner::Publisher,
            lane: self.parts.number,
            prev: self.parts.known.ticket,
            what: What::Pub { version },
        };
        let item = Journal::new(
            entry,
            Snapshot::of(shared.header),
            quoted,
            Snapshot::of(&self.parts.course),
            Snapshot::of(&masks),
            Snapshot::of(&figs),
        );
        draw_noted(shared.book, seat, &mut self.parts.known, item)
    }
}
