//! Bookings of landings at a queue, and room for entries there. What is booked stands behind the queue's lock, so no
//! clause can say it: these calls promise what their types say, and a landing tests what it needs.
ghost use Rattle.std.specs.Prelude.{◌≡◌, ◌≤◌, ◌<◌, ◌+◌, ◌^◌, true, OnOk, length};
ghost use Rattle.std.specs.Sync.Mutex.{mutex_guard_value};
ghost use Rattle.lb_cell.specs.Cells.{HasRoom};

use crate::cpus::Cpus;
use lb_base::NoMemory;
use lb_cell::{Cell, Names};
use lb_lane::Versions;
use std::sync::{MutexGuard, Wait};

/// Fewer landings than this are booked at a queue.
const MAX_BOOKED: u64 = 1 << 32;

// Waits until the list can take an entry more than are booked. No run draws so many that it cannot, so the first test
// succeeds.
fn wait_until_it_can_grow<N: Names, R: Wait>(rt: &R, cell: &Cell<N>)
    ensures { length cell.now.log.seat.list + cell.now.room + 1 < 2 ^ 40 }
{
    for _ in rt.forever() {
        if cell.can_grow(1) {
            return;
        }
    }
    unreachable!()
}

/// Makes room for one entry more than are booked. It refuses for want of memory alone.
pub(crate) fn make_room<N: Names, R: Wait>(rt: &R, cell: &mut Cell<N>) -> Result<(), NoMemory>
    ensures queue { cell.new.queue ≡ cell.old.queue }
    ensures log { (cell.new.log.seat.list ≡ cell.old.log.seat.list) × (cell.new.log.writer ≡ cell.old.log.writer) }
    ensures ok { OnOk result (HasRoom cell.new) }
{
    wait_until_it_can_grow(rt, cell);
    cell.reserve(1)
}

// Whether so many landings more can be booked at a queue, and one entry.
fn can_book<N: Names>(cell: &Cell<N>, k: u64) -> bool
    ensures { (result ≡ true) → (cell.now.queue.booked + k < 2 ^ 32)
        × (length cell.now.log.seat.list + cell.now.room + 1 < 2 ^ 40) }
{
    let booked = cell.queue().booked();
    booked < MAX_BOOKED && k < MAX_BOOKED - booked && cell.can_grow(1)
}

// Whether so many landings are booked at a queue, and so many entries.
fn can_unbook<N: Names>(cell: &Cell<N>, k: u64, entries: u32) -> bool
    ensures { (result ≡ true) → (k < 2 ^ 32) × (k ≤ cell.now.queue.booked) × (entries ≤ cell.now.room) }
{
    k < MAX_BOOKED && cell.can_unbook(k as u32, entries)
}

impl<N: Names + Versions> Cpus<N> {
    // The queue of a CPU, where so many landings more can be booked, and one entry.
    fn lock_to_book<R: Wait>(&self, rt: &R, cpu: u32, k: u64) -> MutexGuard<'_, Cell<N>>
        requires { cpu < length N.header.cpus }
        ensures tasks { (mutex_guard_value result).queue.booked + k < 2 ^ 32 }
        ensures entries { length (mutex_guard_value result).log.seat.list + (mutex_guard_value result).room + 1 < 2 ^ 40 }
    {
        for _ in rt.forever() {
            let cell = self.lock(rt, cpu);
            if can_book(&*cell, k) {
                return cell;
            }
        }
        unreachable!()
    }

    // The queue of a CPU, where so many landings are booked, and so many entries.
    fn lock_to_unbook<R: Wait>(
        &self,
        rt: &R,
        cpu: u32,
        k: u64,
        entries: u32,
    ) -> MutexGuard<'_, Cell<N>>
        requires { cpu < length N.header.cpus }
        ensures small { k < 2 ^ 32 }
        ensures tasks { k ≤ (mutex_guard_value result).queue.booked }
        ensures entries { entries ≤ (mutex_guard_value result).room }
    {
        for _ in rt.forever() {
            let cell = self.lock(rt, cpu);
            if can_unbook(&*cell, k, entries) {
                return cell;
            }
        }
        unreachable!()
    }

    /// Books the landing of `k` tasks at the queue of a CPU, and room for the entry of that landing. It refuses for want of
    /// memory alone, and books nothing then. Whether so much can be booked is tested under the lock; it can in every run.
    pub fn book<R: Wait>(&self, rt: &R, cpu: u32, k: u64) -> Result<(), NoMemory>
        requires { cpu < length N.header.cpus }
    {
        let mut cell = self.lock_to_book(rt, cpu, k);
        cell.book(k as u32, 1)
    }

    /// Gives up a booking of `k` tasks on which nothing lands, with the room for the entry. That so much is booked is tested
    /// under the lock.
    pub fn unbook<R: Wait>(&self, rt: &R, cpu: u32, k: u64)
        requires { cpu < length N.header.cpus }
    {
        let mut cell = self.lock_to_unbook(rt, cpu, k, 1);
        cell.unbook(k as u32, 1);
    }

    /// Gives up `k` tasks of a booking, which its landing does not need; the room for the entry stays booked. That so much
    /// is booked is tested under the lock.
    pub fn unbook_tasks<R: Wait>(&self, rt: &R, cpu: u32, k: u64)
        requires { cpu < length N.header.cpus }
    {
        let mut cell = self.lock_to_unbook(rt, cpu, k, 0);
        cell.unbook(k as u32, 0);
    }
}
