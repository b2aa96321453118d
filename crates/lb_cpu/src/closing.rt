//! A position of a lane's turn is closed, and the turn ends.
ghost use Rattle.std.specs.Prelude.{◌≡◌, ◌<◌, true, IfOk, IsSome, OnOk, OnErr, length};
ghost use Rattle.std.specs.Sync.Mutex.{mutex_guard_value};
ghost use Rattle.lb_base.specs.declared.mask.TheConstants.{MAX_CPUS};
ghost use Rattle.lb_cell.specs.Draws.{IsDueAt};
ghost use Rattle.lb_cell.specs.Turns.{CanClose};
ghost use Rattle.lb_core.specs.declared.course.Form.TheVariants as form;
ghost use Rattle.lb_core.specs.declared.entry.What.TheVariants as what;
ghost use Rattle.lb_core.specs.Course.{turn_domain};
ghost use Rattle.lb_cpu.specs.Drawn.{DrewThere};
ghost use Rattle.lb_cpu.specs.Turns.{ClosedThere, IsDue, due_at};
ghost use Rattle.lb_queue.specs.Turns.{IsOpenAt};

use crate::booking::make_room;
use crate::cpus::Cpus;
use crate::due::due_at;
use lb_base::NoMemory;
use lb_cell::{Cell, Names, Shared};
use lb_domain::laws::domains_stand_in_order;
use lb_interval::Outcome;
use lb_journal::Journal;
use lb_lane::{Lane, Versions};
use lb_queue::Queue;
use lb_ticket::Coding;
use std::alloc::Global;
use std::sync::{MutexGuard, Wait};

// Whether the lane's own turn is open at a queue.
fn has_turn(queue: &Queue, lane: u32) -> bool
    ensures { (result ≡ true) → IsSome queue.now.state.open_turn }
{
    match queue.open_turn() {
        Some(turn) => turn.lane == lane,
        None => false,
    }
}

// Whether the lane's own turn is open at a queue, and balances a position.
fn has_turn_at(queue: &Queue, lane: u32, position: u32) -> bool
    requires { position < MAX_CPUS }
    ensures { (result ≡ true) → IsOpenAt queue.now.state.open_turn position }
{
    match queue.open_turn() {
        Some(turn) => turn.lane == lane && turn.positions.has(position),
        None => false,
    }
}

// The position in work is closed.
fn close_at<N: Names + Versions, R: Wait>(
    rt: &R,
    alloc: Global,
    shared: &Shared<'_, N>,
    lane: &mut Lane<N>,
    cell: &mut Cell<N>,
) -> Result<Outcome, NoMemory>
    requires due { CanClose N.header lane.old.side.course cell.old.log.writer.cpu }
    requires open { IsOpenAt cell.old.queue.state.open_turn lane.old.side.course.position }
    ensures closed { IfOk result (λ outcome. ClosedThere N.header N.book N.board ⟦<Journal as Coding>⟧.coding lane.old lane.new
        cell.old.log.writer.cpu outcome) }
    ensures refused { OnErr result (lane.new ≡ lane.old) }
{
    // the domain in work stands at its position
    domains_stand_in_order();
    make_room(rt, cell)?;
    cell.keeps();
    let outcome = lane.close(rt, alloc, shared, cell);
    lane.follow(shared, cell);
    Ok(outcome)
}

// The turn ends.
fn over_at<N: Names + Versions, R: Wait>(
    rt: &R,
    alloc: Global,
    shared: &Shared<'_, N>,
    lane: &mut Lane<N>,
    cell: &mut Cell<N>,
) -> Result<(), NoMemory>
    requires due { IsDueAt form.Done lane.old.side.course cell.old.log.writer.cpu }
    requires open { IsSome cell.old.queue.state.open_turn }
    ensures over { OnOk result (DrewThere N.header N.book N.board ⟦<Journal as Coding>⟧.coding lane.old lane.new
        cell.old.log.writer.cpu what.Over) }
    ensures refused { OnErr result (lane.new ≡ lane.old) }
{
    make_room(rt, cell)?;
    cell.keeps();
    lane.over(rt, alloc, shared, cell);
    lane.follow(shared, cell);
    Ok(())
}

impl<N: Names + Versions> Cpus<N> {
    // The queue of a CPU, where the lane's own turn is open, at the position in work.
    fn lock_to_close<R: Wait>(&self, rt: &R, lane: &Lane<N>, cpu: u32) -> MutexGuard<'_, Cell<N>>
        requires declared { cpu < length N.header.cpus }
        requires position { lane.now.side.course.position < MAX_CPUS }
        ensures here { (mutex_guard_value result).log.writer.cpu ≡ cpu }
        ensures open { IsOpenAt (mutex_guard_value result).queue.state.open_turn lane.now.side.course.position }
    {
        let side = lane.side();
        for _ in rt.forever() {
            let cell = self.lock(rt, cpu);
            if has_turn_at(cell.queue(), side.number(), side.course().position) {
                return cell;
            }
        }
        unreachable!()
    }

    // The queue of a CPU, where the lane's own turn is open.
    fn lock_to_end<R: Wait>(&self, rt: &R, lane: &Lane<N>, cpu: u32) -> MutexGuard<'_, Cell<N>>
        requires { cpu < length N.header.cpus }
        ensures here { (mutex_guard_value result).log.writer.cpu ≡ cpu }
        ensures open { IsSome (mutex_guard_value result).queue.state.open_turn }
    {
        let side = lane.side();
        for _ in rt.forever() {
            let cell = self.lock(rt, cpu);
            if has_turn(cell.queue(), side.number()) {
                return cell;
            }
        }
        unreachable!()
    }

    /// Closes the position in work of the lane's turn, by a `close`, and answers how it ended. That the turn is open there
    /// is tested under the lock. It refuses for want of memory alone, and draws nothing then.
    pub fn close<R: Wait>(
        &self,
        rt: &R,
        alloc: Global,
        lane: &mut Lane<N>,
    ) -> Result<Outcome, NoMemory>
        requires due { CanClose N.header lane.old.side.course (due_at lane.old.side.course) }
        requires declared { due_at lane.old.side.course < length N.header.cpus }
        ensures closed { IfOk result (λ outcome. ClosedThere N.header N.book N.board ⟦<Journal as Coding>⟧.coding
            lane.old lane.new (due_at lane.old.side.course) outcome) }
        ensures refused { OnErr result (lane.new ≡ lane.old) }
    {
        lane.side().keeps();
        let shared = self.shared();
        let cpu = due_at(lane.side().course());
        let mut cell = self.lock_to_close(rt, &*lane, cpu);
        close_at(rt, alloc, &shared, lane, &mut cell)
    }

    /// Ends the lane's turn, by an `over`. That the turn is open is tested under the lock. It refuses for want of memory
    /// alone, and draws nothing then.
    pub fn over<R: Wait>(&self, rt: &R, alloc: Global, lane: &mut Lane<N>) -> Result<(), NoMemory>
        requires { IsDue N.header form.Done lane.old.side.course }
        ensures over { OnOk result (DrewThere N.header N.book N.board ⟦<Journal as Coding>⟧.coding lane.old lane.new
            (due_at lane.old.side.course) what.Over) }
        ensures refused { OnErr result (lane.new ≡ lane.old) }
    {
        let shared = self.shared();
        let cpu = due_at(lane.side().course());
        let mut cell = self.lock_to_end(rt, &*lane, cpu);
        over_at(rt, alloc, &shared, lane, &mut cell)
    }
}
