//! What a lane asks of other queues: a push, and that they balance on behalf of idle CPUs.
ghost use Rattle.std.specs.Prelude.{◌≡◌, IfOk, OnErr};
ghost use Rattle.lb_cell.specs.Draws.{IsDueAt};
ghost use Rattle.lb_core.specs.declared.course.Form.TheVariants as form;
ghost use Rattle.lb_cpu.specs.Turns.{AskedThere, IsDue, KickedThere, due_at};

use crate::booking::make_room;
use crate::cpus::Cpus;
use crate::due::due_at;
use lb_base::NoMemory;
use lb_cell::{Cell, Names, Shared};
use lb_journal::Journal;
use lb_lane::{Lane, Versions};
use lb_queue::AskReply;
use lb_ticket::Coding;
use std::alloc::Global;
use std::sync::Wait;

// The source of a failed pull is asked for a push.
fn ask_at<N: Names + Versions, R: Wait>(
    rt: &R,
    alloc: Global,
    shared: &Shared<'_, N>,
    lane: &mut Lane<N>,
    cell: &mut Cell<N>,
) -> Result<AskReply, NoMemory>
    requires { IsDueAt form.Closed lane.old.side.course cell.old.log.writer.cpu }
    ensures asked { IfOk result (λ reply. AskedThere N.header N.book N.board ⟦<Journal as Coding>⟧.coding lane.old lane.new
        cell.old.log.writer.cpu reply) }
    ensures refused { OnErr result (lane.new ≡ lane.old) }
{
    make_room(rt, cell)?;
    cell.keeps();
    let reply = lane.ask(rt, alloc, shared, cell);
    lane.follow(shared, cell);
    Ok(reply)
}

// A tickless CPU is kicked.
fn kick_at<N: Names + Versions, R: Wait>(
    rt: &R,
    alloc: Global,
    shared: &Shared<'_, N>,
    lane: &mut Lane<N>,
    cell: &mut Cell<N>,
) -> Result<AskReply, NoMemory>
    requires { IsDueAt form.Kicking lane.old.side.course cell.old.log.writer.cpu }
    ensures kicked { IfOk result (λ reply. KickedThere N.header N.book N.board ⟦<Journal as Coding>⟧.coding lane.old lane.new
        cell.old.log.writer.cpu reply) }
    ensures refused { OnErr result (lane.new ≡ lane.old) }
{
    make_room(rt, cell)?;
    cell.keeps();
    let reply = lane.kick(rt, alloc, shared, cell);
    lane.follow(shared, cell);
    Ok(reply)
}

impl<N: Names + Versions> Cpus<N> {
    /// Asks the source of a failed pull for a push to the turn's CPU, by an `ask`; `Old` where a request is pending there.
    /// It refuses for want of memory alone, and draws nothing then.
    pub fn ask<R: Wait>(
        &self,
        rt: &R,
        alloc: Global,
        lane: &mut Lane<N>,
    ) -> Result<AskReply, NoMemory>
        requires { IsDue N.header form.Closed lane.old.side.course }
        ensures asked { IfOk result (λ reply. AskedThere N.header N.book N.board ⟦<Journal as Coding>⟧.coding
            lane.old lane.new (due_at lane.old.side.course) reply) }
        ensures refused { OnErr result (lane.new ≡ lane.old) }
    {
        let shared = self.shared();
        let cpu = due_at(lane.side().course());
        let mut cell = self.lock(rt, cpu);
        ask_at(rt, alloc, &shared, lane, &mut cell)
    }

    /// Kicks the tickless CPU that a scan found, by a `kick`; `Old` where it was kicked before, and had no turn since. It
    /// refuses for want of memory alone, and draws nothing then.
    pub fn kick<R: Wait>(
        &self,
        rt: &R,
        alloc: Global,
        lane: &mut Lane<N>,
    ) -> Result<AskReply, NoMemory>
        requires { IsDue N.header form.Kicking lane.old.side.course }
        ensures kicked { IfOk result (λ reply. KickedThere N.header N.book N.board ⟦<Journal as Coding>⟧.coding
            lane.old lane.new (due_at lane.old.side.course) reply) }
        ensures refused { OnErr result (lane.new ≡ lane.old) }
    {
        let shared = self.shared();
        let cpu = due_at(lane.side().course());
        let mut cell = self.lock(rt, cpu);
        kick_at(rt, alloc, &shared, lane, &mut cell)
    }
}
