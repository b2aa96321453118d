//! What a lane does between two entries: it makes room for one, reads figures and other lists, and marks.
ghost use Rattle.std.specs.Prelude.{◌≡◌, ◌+◌, ◌<◌, ◌≤◌, ◌^◌, ◌++◌, ◌↔◌, IsTrue, OnOk, length, map, All};
ghost use mathlib.Core.List.{IsPrefix};
ghost use Rattle.lb_board.specs.Board.{Ends, see, seen_at};
ghost use Rattle.lb_ticket.specs.Facts.{HasRead, held_of};
ghost use Rattle.lb_ticket.specs.Tickets.{AllBelow};
ghost use Rattle.lb_cell.specs.Cells.{LaneKeeps};
ghost use Rattle.lb_cell.specs.Reads.{SameBut};

use crate::cell::Cell;
use crate::lane::Lane;
use crate::names::Names;
use crate::rooms::MAX_ENTRIES;
use crate::shared::Shared;
use lb_base::{Fig, NoMemory};
use lb_journal::{Journal, Left};
use lb_ticket::{Coding, Seat};
use std::sync::Wait;

impl<N: Names> Lane<N> {
    /// What every lane keeps.
    pub fn keeps(&self)
        ensures { LaneKeeps N.header N.book N.board ⟦<Left as Coding>⟧.coding self.now }
    {
        // reads a field of it, so that what it keeps is known
        let _number = self.parts.number;
    }

    /// Whether its own list can take an entry more.
    pub fn can_grow(&self) -> bool
        ensures { IsTrue result ↔ (length self.now.seat.list + 1 < 2 ^ 40) }
    {
        self.parts.seat.len() < MAX_ENTRIES - 1
    }

    /// Makes room for `k` entries of its own list. It refuses for want of memory alone.
    pub fn reserve(&mut self, k: u32) -> Result<(), NoMemory>
        requires { length self.old.seat.list + k < 2 ^ 40 }
        ensures same { SameBut self.old self.new }
        ensures view { (self.new.seat.read ≡ self.old.seat.read) × (self.new.seat.next ≡ self.old.seat.next) }
        ensures ok { OnOk result (k ≤ self.new.seat.spare) }
    {
        self.parts.seat.reserve(k as usize)
    }

    /// Each further ticket of the lane is above all that were drawn until now.
    pub fn mark(&mut self, shared: &Shared<'_, N>) -> u64
        ensures same { SameBut self.old self.new }
        ensures later { (self.old.seat.next ≤ result) × (self.new.seat.next ≡ result) }
        ensures view { (self.new.seat.read ≡ self.old.seat.read) × (self.new.seat.spare ≡ self.old.seat.spare) }
    {
        self.parts.seat.mark(shared.book)
    }

    /// Reads the list of another seat, which keeps it: each further ticket of the lane is above all of it.
    pub fn follow(&mut self, shared: &Shared<'_, N>, other: &mut Seat<Journal>)
        requires { other.old.table ≡ N.book }
        ensures other { other.new ≡ other.old }
        ensures same { SameBut self.old self.new }
        ensures read { self.new.seat.read ≡ self.old.seat.read ++ map (held_of ⟦<Journal as Coding>⟧.coding) other.old.list }
        ensures reads { All (HasRead ⟦<Journal as Coding>⟧.coding self.new.seat.read self.new.seat.next) other.old.list }
        ensures below { AllBelow self.new.seat.next other.old.list }
        ensures later { (self.old.seat.next ≤ self.new.seat.next) × (other.old.next ≤ self.new.seat.next) }
        ensures spare { self.new.seat.spare ≡ self.old.seat.spare }
    {
        self.parts.seat.follow(shared.book, other);
    }

    /// Each further ticket of the lane is above all that the queue has drawn, which it reads.
    pub fn follow_queue(&mut self, shared: &Shared<'_, N>, cell: &mut Cell<N>)
        ensures cell { cell.new ≡ cell.old }
        ensures same { SameBut self.old self.new }
        ensures read { self.new.seat.read
            ≡ self.old.seat.read ++ map (held_of ⟦<Journal as Coding>⟧.coding) cell.old.log.seat.list }
        ensures below { AllBelow self.new.seat.next cell.old.log.seat.list }
        ensures later { self.old.seat.next ≤ self.new.seat.next }
        ensures spare { self.new.seat.spare ≡ self.old.seat.spare }
    {
        let other = &mut cell.parts.log.seat;
        self.parts.seat.follow(shared.book, other);
    }

    /// The CPU's figure that is seen now, and no earlier one than the lane saw or was told of. It waits while the
    /// figure is written, and takes no memory.
    pub fn read<R: Wait>(&mut self, rt: &R, shared: &Shared<'_, N>, cpu: u32) -> Fig
        requires { cpu < length N.board }
        ensures same { (self.new.seat ≡ self.old.seat) × (self.new.course ≡ self.old.course)
            × (self.new.number ≡ self.old.number) }
        ensures known { (self.new.known.ticket ≡ self.old.known.ticket) × (self.new.landing ≡ self.old.landing) }
        ensures others { self.new.known.reader ≡ see self.old.known.reader cpu (seen_at self.new.known.reader cpu) }
        ensures later { IsPrefix (seen_at self.old.known.reader cpu) (seen_at self.new.known.reader cpu) }
        ensures figure { Ends result (seen_at self.new.known.reader cpu) }
    {
        self.parts.known.reader.read(rt, shared.board, cpu)
    }
}
