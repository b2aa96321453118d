//! Which stop request is served next, and the room for its two entries, which is made before its task leaves.
ghost use Rattle.std.specs.Prelude.{ℕ, ◌≡◌, ◌<◌, ◌≤◌, ◌+◌, ◌^◌, Some, false, true, length, slice_get, OnOk};
ghost use Rattle.lb_queue.specs.Hands.{stop_to};
ghost use Rattle.lb_queue.specs.Queue.{knows};
ghost use Rattle.lb_queue.specs.Requests.{next_stop};
ghost use Rattle.lb_journal.specs.Owners.{lists_of};
ghost use Rattle.lb_end.specs.Closing.{pending_now};
ghost use Rattle.lb_end.specs.Drawing.{CanServe, booked_at, first_ticket, state_at};
ghost use Rattle.lb_end.specs.Seats.{list_at, next_at, spare_at};

use crate::ended::Ended;
use lb_base::NoMemory;
use lb_cell::{MAX_ENTRIES, Names};
use lb_queue::Stop;
use lb_queue::laws::next_stops;
use std::sync::Wait;

/// Fewer landings than this are booked at a queue.
const MAX_BOOKED: u64 = 1 << 32;

impl<N: Names> Ended<N> {
    // The next pending stop request of a queue that has one.
    pub(crate) fn next_stop(&self, cpu: u32) -> Stop
        requires pending { pending_now N.header self.now ≡ Some cpu }
        requires cpu { cpu < length N.header.cpus }
        ensures next { next_stop (state_at N.header self.now cpu) false ≡ Some result }
        ensures goes { stop_to (state_at N.header self.now cpu) result.id ≡ Some result.to }
    {
        // a request is next where one is pending
        next_stops();
        self.keeps();
        let Some(stop) = self.queues[cpu as usize].next_stop(false) else {
            unreachable!()
        };
        stop
    }

    // Whether the list of an owner can take an entry more.
    pub(crate) fn can_grow(&self, owner: usize) -> bool
        requires { owner < length self.now.seats }
        ensures { (result ≡ true) → length (list_at self.now.seats owner) + 1 < 2 ^ 40 }
    {
        self.seats[owner].len() < MAX_ENTRIES - 1
    }

    // Whether a task may land at a queue: it is not known there, and a landing can be booked.
    fn can_take(&self, cpu: u32, id: u32) -> bool
        requires { cpu < length N.header.cpus }
        ensures { (result ≡ true) → (knows (state_at N.header self.now cpu) id ≡ false) × (booked_at self.now cpu + 1 < 2 ^ 32) }
    {
        self.keeps();
        let queue = &self.queues[cpu as usize];
        !queue.knows(id) && queue.booked() < MAX_BOOKED - 1
    }

    // Whether a stop request can be served: it goes to another CPU of the machine, whose queue does not know its task, and
    // the bounds of bookings and entries are not met. In every run it can.
    fn can_serve(&self, cpu: u32, stop: Stop) -> bool
        requires { cpu < length N.header.cpus }
        ensures { (result ≡ true) → CanServe N.header self.now cpu stop }
    {
        self.keeps();
        if stop.to == cpu || stop.to as usize >= self.queues.len() {
            return false;
        }
        let room = self.can_grow(17 + cpu as usize) && self.can_grow(17 + stop.to as usize);
        room && self.can_take(stop.to, stop.id)
    }

    // Looks until the request can be served; the first look finds that it can.
    pub(crate) fn wait_until_served<R: Wait>(&self, rt: &R, cpu: u32, stop: Stop)
        requires { cpu < length N.header.cpus }
        ensures { CanServe N.header self.now cpu stop }
    {
        for _ in rt.forever() {
            if self.can_serve(cpu, stop) {
                return;
            }
        }
        unreachable!()
    }

    // Makes room for an entry in the list of an owner.
    pub(crate) fn reserve(&mut self, owner: usize) -> Result<(), NoMemory>
        requires inside { owner < length self.old.seats }
        requires short { length (list_at self.old.seats owner) + 1 < 2 ^ 40 }
        ensures ok { OnOk result (1 ≤ spare_at self.new.seats owner) }
        ensures room { (k : ℕ) → spare_at self.old.seats k ≤ spare_at self.new.seats k }
        ensures lists { lists_of self.new.seats ≡ lists_of self.old.seats }
        ensures nexts { (k : ℕ) → next_at self.new.seats k ≡ next_at self.old.seats k }
        ensures others { (k : ℕ) → (k ≡ owner → ⊥) → slice_get self.new.seats k ≡ slice_get self.old.seats k }
        ensures same { self.new ≡ record self.old { seats = self.new.seats } }
    {
        self.seats[owner].reserve(1)
    }

    // Books a landing at a queue.
    fn book(&mut self, cpu: u32) -> Result<(), NoMemory>
        requires cpu { cpu < length N.header.cpus }
        requires few { booked_at self.old cpu + 1 < 2 ^ 32 }
        ensures ok { OnOk result (1 ≤ booked_at self.new cpu) }
        ensures same { self.new ≡ record self.old { queues = self.new.queues } }
    {
        self.keeps();
        self.queues[cpu as usize].book(1)
    }

    // Makes room for both entries of a stop request, and books the landing of its task.
    pub(crate) fn make_room(&mut self, cpu: u32, stop: Stop) -> Result<(), NoMemory>
        requires cpu { cpu < length N.header.cpus }
        requires can { CanServe N.header self.old cpu stop }
        ensures lists { lists_of self.new.seats ≡ lists_of self.old.seats }
        ensures nexts { (k : ℕ) → next_at self.new.seats k ≡ next_at self.old.seats k }
        ensures others { (k : ℕ) → k < 17 → slice_get self.new.seats k ≡ slice_get self.old.seats k }
        ensures same { self.new ≡ record self.old { seats = self.new.seats; queues = self.new.queues } }
        ensures ok { OnOk result ((1 ≤ spare_at self.new.seats (17 + cpu)) × (1 ≤ spare_at self.new.seats (17 + stop.to))
            × (1 ≤ booked_at self.new stop.to)) }
    {
        self.keeps();
        self.reserve(17 + cpu as usize)?;
        self.reserve(17 + stop.to as usize)?;
        self.book(stop.to)
    }
}
