//! Room for entries, and what is booked.
ghost use Rattle.std.specs.Prelude.{◌≡◌, ◌<◌, ◌≤◌, ◌+◌, ◌-◌, ◌^◌, ◌↔◌, length, IsTrue, OnOk, OnErr};

use crate::cell::Cell;
use crate::names::Names;
use lb_base::NoMemory;

/// A seat draws fewer entries than this.
pub const MAX_ENTRIES: u64 = 1 << 40;

impl<N: Names> Cell<N> {
    /// Whether the list can take `k` entries more than are booked.
    pub fn can_grow(&self, k: u32) -> bool
        ensures { IsTrue result ↔ (length self.now.log.seat.list + self.now.room + k < 2 ^ 40) }
    {
        self.parts.log.seat.len() + self.parts.room + u64::from(k) < MAX_ENTRIES
    }

    /// Makes room for `k` entries more than are booked. It refuses for want of memory alone.
    pub fn reserve(&mut self, k: u32) -> Result<(), NoMemory>
        requires { length self.old.log.seat.list + self.old.room + k < 2 ^ 40 }
        ensures same { (self.new.queue ≡ self.old.queue) × (self.new.room ≡ self.old.room) }
        ensures log { (self.new.log.seat.list ≡ self.old.log.seat.list) × (self.new.log.writer ≡ self.old.log.writer) }
        ensures ok { OnOk result (self.old.room + k ≤ self.new.log.seat.spare) }
    {
        let room = self.parts.room + u64::from(k);
        self.parts.log.seat.reserve(room as usize)
    }

    /// Books the landing of `tasks` tasks, and room for `entries` entries. A refusal, for want of memory alone, books
    /// nothing.
    pub fn book(&mut self, tasks: u32, entries: u32) -> Result<(), NoMemory>
        requires entries { length self.old.log.seat.list + self.old.room + entries < 2 ^ 40 }
        requires tasks { self.old.queue.booked + tasks < 2 ^ 32 }
        ensures same { self.new.queue.state ≡ self.old.queue.state }
        ensures log { (self.new.log.seat.list ≡ self.old.log.seat.list) × (self.new.log.writer ≡ self.old.log.writer) }
        ensures ok { OnOk result
            ((self.new.queue.booked ≡ self.old.queue.booked + tasks) × (self.new.room ≡ self.old.room + entries)) }
        ensures refused { OnErr result ((self.new.queue.booked ≡ self.old.queue.booked) × (self.new.room ≡ self.old.room)) }
    {
        let room = self.parts.room + u64::from(entries);
        self.parts.log.seat.reserve(room as usize)?;
        self.parts.queue.book(u64::from(tasks))?;
        self.parts.room = room;
        Ok(())
    }

    /// Whether the landing of so many tasks is booked, and room for so many entries.
    pub fn can_unbook(&self, tasks: u32, entries: u32) -> bool
        ensures { IsTrue result ↔ ((tasks ≤ self.now.queue.booked) × (entries ≤ self.now.room)) }
    {
        u64::from(tasks) <= self.parts.queue.booked() && u64::from(entries) <= self.parts.room
    }

    /// Gives up booked landings, and booked room.
    pub fn unbook(&mut self, tasks: u32, entries: u32)
        requires entries { entries ≤ self.old.room }
        requires tasks { tasks ≤ self.old.queue.booked }
        ensures queue { self.new.queue ≡ record self.old.queue { booked = self.old.queue.booked - tasks } }
        ensures room { self.new.room ≡ self.old.room - entries }
        ensures log { self.new.log ≡ self.old.log }
    {
        self.parts.queue.unbook(u64::from(tasks));
        self.parts.room -= u64::from(entries);
    }
}
