//! The service of a lane's row.
ghost use Rattle.std.specs.Prelude.{◌≡◌, ◌<◌, false, Some, None, IfOk, OnOk, OnErr, length, slice_get};
ghost use Rattle.lb_cell.specs.Cells.{HasRoom};
ghost use Rattle.lb_cell.specs.Commands.{CanAnswer};
ghost use Rattle.lb_core.specs.declared.course.Form.TheVariants as form;
ghost use Rattle.lb_cpu.specs.Commands.{Answered, AtMostTook, Commanded, IsForTask, IsInService, MadeVersion, Served};
ghost use Rattle.lb_lane.specs.Own.{DrewNothing, TookRow};
ghost use Rattle.lb_lane.specs.Publishes.{RebuildAsks};
ghost use Rattle.lb_trace.specs.declared.trace.Command.TheVariants as command;

use crate::booking::make_room;
use crate::cpus::Cpus;
use lb_base::NoMemory;
use lb_cell::{Cell, Names, Shared};
use lb_journal::Journal;
use lb_lane::{Lane, PublisherCell, Versions};
use lb_levels::Machine;
use lb_queue::Reply;
use lb_ticket::Coding;
use lb_trace::{Command, Row};
use std::alloc::Global;
use std::sync::Wait;

/// A queue answers the command in service, which it may.
pub(crate) fn answer_at<N: Names + Versions, R: Wait>(
    rt: &R,
    alloc: Global,
    shared: &Shared<'_, N>,
    lane: &mut Lane<N>,
    cell: &mut Cell<N>,
) -> Result<Reply, NoMemory>
    requires { CanAnswer cell.old.queue.state cell.old.log.writer.cpu lane.old.side.course }
    ensures ok { IfOk result (λ reply. Answered N.header N.book N.board ⟦<Journal as Coding>⟧.coding lane.old lane.new reply) }
    ensures refused { OnErr result (lane.new ≡ lane.old) }
{
    make_room(rt, cell)?;
    cell.keeps();
    let reply = lane.answer(rt, alloc, shared, cell);
    lane.follow(shared, cell);
    Ok(reply)
}

// The masks of the `rebuild` in service are published, and the lane reads the `pub` in the same hold.
fn publish_in<N: Names + Versions, R: Wait>(
    rt: &R,
    alloc: Global,
    shared: &Shared<'_, N>,
    machine: &Machine,
    lane: &mut Lane<N>,
    publisher: &mut PublisherCell<N>,
) -> Result<Reply, NoMemory>
    requires machine { (machine.now.cpus ≡ N.header.cpus) × (machine.now.distances ≡ N.header.distances) }
    requires asked { RebuildAsks N.header lane.old.side.course }
    ensures ok { IfOk result (λ reply.
        MadeVersion N.header N.book N.versions ⟦<Journal as Coding>⟧.coding lane.old lane.new reply) }
    ensures refused { OnErr result (lane.new ≡ lane.old) }
{
    publisher.keeps();
    publisher.publish(rt, alloc, shared, machine, lane)?;
    publisher.vouch(rt, shared, lane);
    Ok(Reply::Done)
}

impl<N: Names + Versions> Cpus<N> {
    // The queue that knows the task answers.
    fn answer_task<R: Wait>(
        &self,
        rt: &R,
        alloc: Global,
        lane: &mut Lane<N>,
        task: u32,
    ) -> Result<Reply, NoMemory>
        requires { IsForTask lane.old.side.course task }
        ensures ok { IfOk result (λ reply.
            Answered N.header N.book N.board ⟦<Journal as Coding>⟧.coding lane.old lane.new reply) }
        ensures refused { OnErr result (lane.new ≡ lane.old) }
    {
        let shared = self.shared();
        let mut cell = self.lock_task(rt, task);
        answer_at(rt, alloc, &shared, lane, &mut cell)
    }

    // The queue of the ticked CPU answers.
    fn tick<R: Wait>(
        &self,
        rt: &R,
        alloc: Global,
        lane: &mut Lane<N>,
        cpu: u32,
    ) -> Result<Reply, NoMemory>
        requires declared { cpu < length N.header.cpus }
        requires asked { (lane.old.side.course.form ≡ form.Asked)
            × (lane.old.side.course.command ≡ Some (command.Tick cpu)) }
        ensures ok { IfOk result (λ reply.
            Answered N.header N.book N.board ⟦<Journal as Coding>⟧.coding lane.old lane.new reply) }
        ensures refused { OnErr result (lane.new ≡ lane.old) }
    {
        let shared = self.shared();
        let mut cell = self.lock_to_tick(rt, cpu);
        answer_at(rt, alloc, &shared, lane, &mut cell)
    }

    // The publisher answers.
    fn rebuild<R: Wait>(&self, rt: &R, alloc: Global, lane: &mut Lane<N>) -> Result<Reply, NoMemory>
        requires { RebuildAsks N.header lane.old.side.course }
        ensures ok { IfOk result (λ reply.
            MadeVersion N.header N.book N.versions ⟦<Journal as Coding>⟧.coding lane.old lane.new reply) }
        ensures refused { OnErr result (lane.new ≡ lane.old) }
    {
        let shared = self.shared();
        let mut publisher = self.publisher.lock(rt);
        publish_in(rt, alloc, &shared, &self.machine, lane, &mut publisher)
    }

    // Serves the row, which was taken up.
    fn serve<R: Wait>(
        &self,
        rt: &R,
        alloc: Global,
        lane: &mut Lane<N>,
        row: &Row,
    ) -> Result<Reply, NoMemory>
        requires { IsInService N.header lane.old.side.course row.now }
        ensures ok { IfOk result (λ reply.
            Served N.header N.book N.board N.versions ⟦<Journal as Coding>⟧.coding lane.old lane.new reply) }
        ensures refused { OnErr result (lane.new ≡ lane.old) }
    {
        match &row.command {
            Command::Wake { task } => self.wake(rt, alloc, lane, *task),
            Command::Sleep { task } => self.answer_task(rt, alloc, lane, *task),
            Command::Exit { task } => self.answer_task(rt, alloc, lane, *task),
            Command::SetMask { task, mask: _ } => self.answer_task(rt, alloc, lane, *task),
            Command::Nice { task, nice: _ } => self.answer_task(rt, alloc, lane, *task),
            Command::Tick { cpu } => self.tick(rt, alloc, lane, *cpu),
            Command::Rebuild { parts: _ } => self.rebuild(rt, alloc, lane),
        }
    }

    // Takes up the row, which is the lane's next.
    fn take_up<R: Wait>(
        &self,
        rt: &R,
        alloc: Global,
        lane: &mut Lane<N>,
        row: &Row,
    ) -> Result<(), NoMemory>
        requires rest { lane.old.side.course.form ≡ form.Rest }
        requires next { slice_get lane.old.rows lane.old.side.course.rows ≡ Some row.now }
        ensures took { OnOk result (TookRow N.header lane.old lane.new) }
        ensures service { OnOk result (IsInService N.header lane.new.side.course row.now) }
        ensures refused { OnErr result (DrewNothing lane.old lane.new) }
    {
        lane.keeps();
        lane.row(rt, alloc, &self.shared())
    }

    /// Serves the lane's next row, and answers what the queue answered. A task's command is answered by the queue where the
    /// task is; while the task is in a hand it looks again. A tick is answered by its CPU's queue, and a `rebuild` by the
    /// publisher, both with `Done`. A wake that leaves its queue for another is answered with `Done` by its `out`, and lands
    /// there. It refuses for want of memory alone: then at most the row was drawn, and no task is in a hand.
    pub fn command<R: Wait>(
        &self,
        rt: &R,
        alloc: Global,
        lane: &mut Lane<N>,
        row: &Row,
    ) -> Result<Reply, NoMemory>
        requires rest { lane.old.side.course.form ≡ form.Rest }
        requires next { slice_get lane.old.rows lane.old.side.course.rows ≡ Some row.now }
        ensures ok { IfOk result (λ reply.
            Commanded N.header N.book N.board N.versions ⟦<Journal as Coding>⟧.coding lane.old lane.new row.now reply) }
        ensures refused { OnErr result (AtMostTook N.header lane.old lane.new) }
    {
        self.take_up(rt, alloc, lane, row)?;
        self.serve(rt, alloc, lane, row)
    }
}
