//! The landing of the tasks that a lane has in its hand.
ghost use Rattle.std.specs.Prelude.{ℕ, ◌≡◌, ◌<◌, ◌≤◌, ◌==◌, not, true, length};
ghost use Rattle.std.specs.List.{list_all};
ghost use Rattle.std.specs.Sync.Mutex.{mutex_guard_value};
ghost use Rattle.lb_cell.specs.Hands.{CanLand};
ghost use Rattle.lb_core.specs.declared.course.Form.TheVariants as form;
ghost use Rattle.lb_core.specs.declared.entry.What.TheVariants as what;
ghost use Rattle.lb_cpu.specs.Drawn.{DrewThere};
ghost use Rattle.lb_cpu.specs.Hands.{InFlight};
ghost use Rattle.lb_act.specs.Hands.{IsLoaded};
ghost use Rattle.lb_queue.specs.Tasks.{ids, occurs};

use crate::cpus::Cpus;
use lb_cell::{Cell, Names, Shared};
use lb_journal::Journal;
use lb_lane::{Lane, Versions};
use lb_queue::{Hand, OutCause, TaskRecord};
use lb_ticket::Coding;
use std::alloc::Global;
use std::sync::{MutexGuard, Wait};

// Whether none of the tasks has this id.
fn lacks(tasks: &[TaskRecord], id: u32) -> bool
    ensures { result ≡ list_all (λ t. not (t.id == id)) tasks.now }
{
    tasks.iter().all(|task| task.id != id)
}

// Whether the ids of the tasks differ. Those of a hand do.
fn differ(tasks: &[TaskRecord]) -> bool
    ensures { result ≡ true → (id : ℕ) → occurs id (ids tasks.now) ≤ 1 }
{
    let mut rest = tasks;
    while let Some((task, others)) = rest.split_first() {
        if !lacks(others, task.id) {
            return false;
        }
        rest = others;
    }
    true
}

// The tasks of the lane's hand land at a queue.
fn land_at<N: Names + Versions, R: Wait>(
    rt: &R,
    alloc: Global,
    shared: &Shared<'_, N>,
    lane: &mut Lane<N>,
    cell: &mut Cell<N>,
    hand: Hand,
)
    requires flight { lane.old.side.course.form ≡ form.Flight }
    requires hand { IsLoaded hand lane.old.side.course }
    requires can { CanLand cell.old lane.old.side.course hand }
    requires differ { (id : ℕ) → occurs id (ids lane.old.side.course.hand) ≤ 1 }
    requires here { cell.old.log.writer.cpu ≡ lane.old.side.course.to }
    ensures { DrewThere N.header N.book N.board ⟦<Journal as Coding>⟧.coding lane.old lane.new lane.old.side.course.to
        (what.Landed (ids lane.old.side.course.hand)) }
{
    cell.keeps();
    lane.land(rt, alloc, shared, cell, hand);
    lane.follow(shared, cell);
}

impl<N: Names + Versions> Cpus<N> {
    // The queue where the tasks of a hand land: room and the landings are booked, and none of the tasks is known there.
    fn lock_to_land<R: Wait>(&self, rt: &R, lane: &Lane<N>, hand: &Hand) -> MutexGuard<'_, Cell<N>>
        requires { lane.now.side.course.to < length N.header.cpus }
        ensures can { CanLand (mutex_guard_value result) lane.now.side.course hand.now }
        ensures differ { (id : ℕ) → occurs id (ids lane.now.side.course.hand) ≤ 1 }
        ensures here { (mutex_guard_value result).log.writer.cpu ≡ lane.now.side.course.to }
    {
        let side = lane.side();
        for _ in rt.forever() {
            let cell = self.lock(rt, side.course().to);
            if cell.can_land(side, hand) && differ(side.course().hand.as_slice()) {
                return cell;
            }
        }
        unreachable!()
    }

    /// The tasks of the lane's hand, which left a queue for this cause, land where they go, by an `in`. It has no refusal
    /// and takes no memory: room and the landings are booked there, and the lane has kept the list of the ids. That so
    /// much is booked, that no task of the hand is known there, and that their ids differ, is tested under the lock.
    pub fn land<R: Wait>(
        &self,
        rt: &R,
        alloc: Global,
        lane: &mut Lane<N>,
        cause: OutCause,
        hand: Hand,
    )
        requires { InFlight N.header lane.old.side.course cause hand }
        ensures { DrewThere N.header N.book N.board ⟦<Journal as Coding>⟧.coding lane.old lane.new lane.old.side.course.to
            (what.Landed (ids lane.old.side.course.hand)) }
    {
        let shared = self.shared();
        let mut cell = self.lock_to_land(rt, &*lane, &hand);
        land_at(rt, alloc, &shared, lane, &mut cell, hand);
    }
}
