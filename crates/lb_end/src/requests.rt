//! The service of pending stop requests, one after the other, until there is none.
ghost use Rattle.std.specs.Prelude.{◌≡◌, ◌<◌, ◌≤◌, ◌+◌, ◌∷◌, [], None, Some, false, is_some, length, IfOk, OnOk};
ghost use Rattle.lb_queue.specs.Hands.{stop_to};
ghost use Rattle.lb_queue.specs.Requests.{has_pending, next_stop};
ghost use Rattle.lb_end.specs.Closing.{ClosesOn, pending_now};
ghost use Rattle.lb_end.specs.Drawing.{CanMove, booked_at, state_at};
ghost use Rattle.lb_end.specs.Finished.{AllRest};
ghost use Rattle.lb_end.specs.Seats.{spare_at};

use crate::ended::Ended;
use lb_act::blank_records;
use lb_base::{Items, NoMemory};
use lb_cell::Names;
use lb_core::{Ids, TaskRecords};
use lb_queue::laws::{calls_keep_rest, next_stops};
use lb_queue::{Hand, Queue, Stop};
use std::alloc::Global;
use std::sync::Wait;

// The list of one id.
fn one_id(alloc: Global, id: u32) -> Result<Ids, NoMemory>
    ensures { IfOk result (λ list. list ≡ id ∷ []) }
{
    let mut list = Items::new(alloc);
    list.push(id)?;
    Ok(list)
}

// Whether some task of a queue is asked to leave.
fn has_pending(queue: &Queue) -> bool
    ensures { result ≡ has_pending queue.now.state }
{
    // a request is next where one is pending
    next_stops();
    queue.next_stop(false).is_some()
}

impl<N: Names> Ended<N> {
    // Whether a stop request is pending at a CPU.
    fn is_pending(&self, cpu: u32) -> bool
        requires { cpu < length N.header.cpus }
        ensures { result ≡ has_pending (state_at N.header self.now cpu) }
    {
        self.keeps();
        has_pending(&self.queues[cpu as usize])
    }

    // The least CPU with a pending stop request.
    fn first_pending(&self) -> Option<u32>
        ensures { result ≡ pending_now N.header self.now }
    {
        self.keeps();
        for cpu in 0..self.queues.len() as u32 {
            if self.is_pending(cpu) {
                return Some(cpu);
            }
        }
        None
    }

    // The task of a stop request leaves and lands, with no refusal between: room and lists are made.
    fn move_task(
        &mut self,
        alloc: Global,
        cpu: u32,
        stop: Stop,
        mut hand: Hand,
        records: TaskRecords,
        out: Ids,
        landing: Ids,
    )
        requires pending { pending_now N.header self.old ≡ Some cpu }
        requires cpu { cpu < length N.header.cpus }
        requires rest { AllRest self.old.courses }
        requires can { CanMove N.header self.old cpu stop }
        requires stop { (next_stop (state_at N.header self.old cpu) false ≡ Some stop)
            × (stop_to (state_at N.header self.old cpu) stop.id ≡ Some stop.to) }
        requires room { (1 ≤ spare_at self.old.seats (17 + cpu)) × (1 ≤ spare_at self.old.seats (17 + stop.to))
            × (1 ≤ booked_at self.old stop.to) }
        requires hand { (hand.to ≡ stop.to) × (hand.tasks ≡ []) × (0 < hand.room) }
        requires lists { (length records ≡ 1) × (out ≡ stop.id ∷ []) × (landing ≡ stop.id ∷ []) }
        ensures on { ClosesOn N.header self.old self.new }
        ensures rest { AllRest self.new.courses }
    {
        // each queue stays that of its CPU
        calls_keep_rest();
        self.depart(alloc, cpu, stop, &mut hand, records, out);
        self.arrive(alloc, stop.to, hand, landing);
    }

    // Serves the next stop request of the least CPU with one.
    fn serve<R: Wait>(&mut self, rt: &R, alloc: Global, cpu: u32) -> Result<(), NoMemory>
        requires pending { pending_now N.header self.old ≡ Some cpu }
        requires cpu { cpu < length N.header.cpus }
        requires rest { AllRest self.old.courses }
        ensures on { OnOk result (ClosesOn N.header self.old self.new) }
        ensures rest { AllRest self.new.courses }
    {
        // the seats of lanes stand before those of the queues
        self.keeps();
        let stop = self.next_stop(cpu);
        self.wait_until_served(rt, cpu, stop);
        self.make_room(cpu, stop)?;
        let records = blank_records(alloc, 1)?;
        let out = one_id(alloc, stop.id)?;
        let landing = one_id(alloc, stop.id)?;
        let hand = Hand::empty(alloc, stop.to, 1)?;
        self.move_task(alloc, cpu, stop, hand, records, out, landing);
        Ok(())
    }

    /// Serves every pending stop request, CPUs rising and, at a CPU, tasks rising.
    pub(crate) fn serve_all<R: Wait>(&mut self, rt: &R, alloc: Global) -> Result<(), NoMemory>
        requires rest { AllRest self.old.courses }
        ensures on { OnOk result (ClosesOn N.header self.old self.new) }
        ensures none { OnOk result (pending_now N.header self.new ≡ None) }
        ensures rest { AllRest self.new.courses }
    {
        for _ in rt.forever() {
            match self.first_pending() {
                None => return Ok(()),
                Some(cpu) => self.serve(rt, alloc, cpu)?,
            }
        }
        unreachable!()
    }
}
