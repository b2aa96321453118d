//! A turn of a CPU begins: a version is chosen, and its `use` and the answer to it are drawn under the lock.
ghost use Rattle.std.specs.Prelude.{◌≡◌, ◌<◌, true, IfOk, OnErr, length};
ghost use Rattle.std.specs.Sync.Mutex.{mutex_guard_value};
ghost use Rattle.lb_cpu.specs.Turns.{BeganAt, BeganThere, LooksOn};
ghost use Rattle.lb_lane.specs.Began.{TurnAsks};
ghost use Rattle.lb_lane.specs.Own.{DrewNothing};
ghost use Rattle.lb_lane.specs.Uses.{IsChosen, use_due};

use crate::booking::make_room;
use crate::cpus::Cpus;
use lb_act::blank_counters;
use lb_base::{Kind, NoMemory};
use lb_cell::{Cell, Names, Shared};
use lb_core::CounterRows;
use lb_journal::Journal;
use lb_lane::{Began, Chosen, Lane, Versions};
use lb_ticket::Coding;
use std::alloc::Global;
use std::sync::{MutexGuard, Wait};

// The turn over the chosen version begins at its queue.
fn turn_at<N: Names + Versions, R: Wait>(
    rt: &R,
    alloc: Global,
    shared: &Shared<'_, N>,
    lane: &mut Lane<N>,
    cell: &mut Cell<N>,
    chosen: Chosen,
    kind: Kind,
    counters: CounterRows,
) -> Result<Began, NoMemory>
    requires chosen { IsChosen N.header lane.old chosen }
    requires asks { TurnAsks cell.old lane.old chosen kind }
    requires counters { length counters ≡ length chosen.domains }
    ensures ok { IfOk result (λ began.
        BeganAt N.header N.book N.board ⟦<Journal as Coding>⟧.coding lane.old lane.new chosen kind chosen.cpu began) }
    ensures refused { OnErr result (DrewNothing lane.old lane.new) }
{
    make_room(rt, cell)?;
    cell.keeps();
    let began = lane.turn(rt, alloc, shared, cell, chosen, kind, counters)?;
    lane.follow(shared, cell);
    Ok(began)
}

impl<N: Names + Versions> Cpus<N> {
    // A version that the lane vouches for. Where it does not vouch for the version that it looked at, it reads the
    // publisher's list, and looks again.
    fn choose<R: Wait>(
        &self,
        rt: &R,
        alloc: Global,
        lane: &mut Lane<N>,
        cpu: u32,
    ) -> Result<Chosen, NoMemory>
        requires { cpu < length N.header.cpus }
        ensures chosen { IfOk result (λ x. IsChosen N.header lane.new x × (x.cpu ≡ cpu)) }
        ensures same { LooksOn lane.old lane.new }
    {
        let shared = self.shared();
        for _ in rt.forever() {
            if let Some(chosen) = lane.choose(rt, alloc, cpu)? {
                return Ok(chosen);
            }
            let mut publisher = self.publisher.lock(rt);
            publisher.vouch(rt, &shared, lane);
        }
        unreachable!()
    }

    // The queue of the chosen version's CPU, where a turn may be opened: it owes no stop at a tick, and has no counters of
    // the version, or one for each of the domains.
    fn lock_to_turn<R: Wait>(
        &self,
        rt: &R,
        lane: &Lane<N>,
        chosen: &Chosen,
        cpu: u32,
        kind: Kind,
    ) -> MutexGuard<'_, Cell<N>>
        requires { cpu < length N.header.cpus }
        ensures { TurnAsks (mutex_guard_value result) lane.now chosen.now kind }
    {
        for _ in rt.forever() {
            let cell = self.lock(rt, cpu);
            if lane.can_turn(&*cell, chosen, kind) {
                return cell;
            }
        }
        unreachable!()
    }

    /// Opens a turn of a CPU: the lane looks at a version and copies the CPU's domains, gives the look back, and then takes
    /// the version up and has the queue answer, in one hold of its lock. `PushFirst` comes exactly where the kind is a
    /// tick's, an active request is pending under the lock, and the lane's tick has made no push; then no entry was drawn,
    /// and the push comes first. It refuses for want of memory alone, and draws nothing then.
    pub fn turn<R: Wait>(
        &self,
        rt: &R,
        alloc: Global,
        lane: &mut Lane<N>,
        cpu: u32,
        kind: Kind,
    ) -> Result<Began, NoMemory>
        requires declared { cpu < length N.header.cpus }
        requires due { use_due lane.old.side.course.form lane.old.side.course kind cpu ≡ true }
        ensures ok { IfOk result (λ began.
            BeganThere N.header N.book N.board ⟦<Journal as Coding>⟧.coding lane.old lane.new kind cpu began) }
        ensures refused { OnErr result (LooksOn lane.old lane.new) }
    {
        let chosen = self.choose(rt, alloc, lane, cpu)?;
        let counters = blank_counters(alloc, chosen.count())?;
        let shared = self.shared();
        let mut cell = self.lock_to_turn(rt, &*lane, &chosen, cpu, kind);
        turn_at(rt, alloc, &shared, lane, &mut cell, chosen, kind, counters)
    }
}
