//! The take of a pull: the lock of the source is held, and the `out pull` that the last look asks for is drawn.
ghost use Rattle.std.specs.Prelude.{◌≡◌, ◌≤◌, ◌<◌, [], Some, true, IfOk, OnErr, length};
ghost use Rattle.lb_cell.specs.Draws.{IsDueAt};
ghost use Rattle.lb_core.specs.declared.course.Form.TheVariants as form;
ghost use Rattle.lb_core.specs.Course.{env_of, is_pull, source_of};
ghost use Rattle.lb_cpu.specs.Hands.{TookThere};

use crate::booking::make_room;
use crate::cpus::Cpus;
use lb_base::NoMemory;
use lb_cell::{Cell, Names, Shared};
use lb_detach::{EXAMINED_AT_MOST, Env};
use lb_journal::Journal;
use lb_lane::{Lane, Versions};
use lb_queue::{Hand, Taken};
use lb_ticket::Coding;
use std::alloc::Global;
use std::sync::Wait;

// What the last look asks for leaves the source.
fn take_at<N: Names + Versions, R: Wait>(
    rt: &R,
    alloc: Global,
    shared: &Shared<'_, N>,
    lane: &mut Lane<N>,
    cell: &mut Cell<N>,
    env: &Env,
    hand: &mut Hand,
) -> Result<Taken, NoMemory>
    requires due { IsDueAt form.Looked lane.old.side.course cell.old.log.writer.cpu }
    requires pull { (is_pull lane.old.side.course.decision ≡ true) × (env_of N.header lane.old.side.course ≡ Some env.now) }
    requires hand { (hand.old.to ≡ env.now.to) × (hand.old.tasks ≡ []) × (EXAMINED_AT_MOST ≤ hand.old.room) }
    ensures taken { IfOk result (λ t. TookThere N.header N.book N.board ⟦<Journal as Coding>⟧.coding lane.old lane.new
        cell.old.log.writer.cpu env.now hand.new t) }
    ensures refused { OnErr result ((lane.new ≡ lane.old) × (hand.new ≡ hand.old)) }
{
    lane.keeps();
    make_room(rt, cell)?;
    cell.keeps();
    let taken = lane.take(rt, alloc, shared, cell, env, hand)?;
    lane.follow(shared, cell);
    Ok(taken)
}

impl<N: Names + Versions> Cpus<N> {
    /// Takes from the source of the lane's last look what that look asks for, by an `out pull`, in a hand that goes to the
    /// turn's CPU, is empty and has room for a whole pull; its landing is booked there before. It answers what is known of
    /// the take. It refuses for want of memory alone: then no task was taken, no entry was drawn, and the hand is empty.
    pub fn take<R: Wait>(
        &self,
        rt: &R,
        alloc: Global,
        lane: &mut Lane<N>,
        source: u32,
        env: &Env,
        hand: &mut Hand,
    ) -> Result<Taken, NoMemory>
        requires form { lane.old.side.course.form ≡ form.Looked }
        requires pull { (is_pull lane.old.side.course.decision ≡ true) × (env_of N.header lane.old.side.course ≡ Some env.now) }
        requires source { (source ≡ source_of lane.old.side.course.decision) × (source < length N.header.cpus) }
        requires hand { (hand.old.to ≡ env.now.to) × (hand.old.tasks ≡ []) × (EXAMINED_AT_MOST ≤ hand.old.room) }
        ensures taken { IfOk result (λ t.
            TookThere N.header N.book N.board ⟦<Journal as Coding>⟧.coding lane.old lane.new source env.now hand.new t) }
        ensures refused { OnErr result ((lane.new ≡ lane.old) × (hand.new ≡ hand.old)) }
    {
        let shared = self.shared();
        let mut cell = self.lock(rt, source);
        take_at(rt, alloc, &shared, lane, &mut cell, env, hand)
    }
}
