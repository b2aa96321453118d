//! A wake: the task wakes where it sleeps, or leaves for the CPU where it has to wake.
ghost use Rattle.std.specs.Prelude.{◌≡◌, ◌<◌, [], Some, IfOk, IfSome, IfNone, MatchBool, OnOk, OnErr, length};
ghost use Rattle.lb_cell.specs.Hands.{WakesElsewhere};
ghost use Rattle.lb_core.specs.declared.course.Form.TheVariants as form;
ghost use Rattle.lb_cpu.specs.Commands.{DepartedToWake, Woke, WokeElsewhere, IsWake, HereOrAway};
ghost use Rattle.lb_trace.specs.declared.trace.Command.TheVariants as command;

use crate::booking::make_room;
use crate::command::answer_at;
use crate::cpus::Cpus;
use lb_base::NoMemory;
use lb_cell::{Cell, Names, Shared};
use lb_journal::Journal;
use lb_lane::{Lane, Versions};
use lb_queue::{Hand, OutCause, Reply};
use lb_ticket::Coding;
use std::alloc::Global;
use std::sync::Wait;

/// Where a task wakes.
#[derive(Clone, Copy, Debug, PartialEq, Eq)]
pub(crate) enum Woken {
    /// Where it sleeps: the queue has answered so.
    Here(Reply),
    /// At this CPU; nothing was drawn.
    Away(u32),
}

// The woken task leaves its queue in a hand.
fn leave_at<N: Names + Versions, R: Wait>(
    rt: &R,
    alloc: Global,
    shared: &Shared<'_, N>,
    lane: &mut Lane<N>,
    cell: &mut Cell<N>,
    hand: &mut Hand,
) -> Result<(), NoMemory>
    requires wake { WakesElsewhere cell.old.queue.state lane.old.side.course hand.old.to }
    requires hand { (hand.old.tasks ≡ []) × (0 < hand.old.room) }
    requires declared { hand.old.to < length N.header.cpus }
    ensures ok { OnOk result (DepartedToWake N.header N.book N.board ⟦<Journal as Coding>⟧.coding lane.old lane.new hand.new) }
    ensures to { OnOk result (hand.new.to ≡ hand.old.to) }
    ensures refused { OnErr result ((lane.new ≡ lane.old) × (hand.new ≡ hand.old)) }
{
    make_room(rt, cell)?;
    cell.keeps();
    lane.leave(rt, alloc, shared, cell, hand)?;
    lane.follow(shared, cell);
    Ok(())
}

impl<N: Names + Versions> Cpus<N> {
    // The queue answers a wake of a task that stays there, or says where the task has to wake.
    fn wake_here<R: Wait>(
        &self,
        rt: &R,
        alloc: Global,
        lane: &mut Lane<N>,
        task: u32,
    ) -> Result<Woken, NoMemory>
        requires { IsWake lane.old.side.course task }
        ensures ok { IfOk result (λ w. HereOrAway N.header N.book N.board ⟦<Journal as Coding>⟧.coding lane.old lane.new w) }
        ensures refused { OnErr result (lane.new ≡ lane.old) }
    {
        let shared = self.shared();
        let mut cell = self.lock_task(rt, task);
        match cell.queue().away(task) {
            None => {
                let reply = answer_at(rt, alloc, &shared, lane, &mut cell)?;
                Ok(Woken::Here(reply))
            }
            Some(to) => Ok(Woken::Away(to)),
        }
    }

    // The woken task leaves in a hand, if it still has to wake where the hand goes.
    fn leave<R: Wait>(
        &self,
        rt: &R,
        alloc: Global,
        lane: &mut Lane<N>,
        task: u32,
        hand: &mut Hand,
    ) -> Result<bool, NoMemory>
        requires wake { IsWake lane.old.side.course task }
        requires hand { (hand.old.tasks ≡ []) × (0 < hand.old.room) }
        requires declared { hand.old.to < length N.header.cpus }
        ensures left { IfOk result (λ b. MatchBool b
            (DepartedToWake N.header N.book N.board ⟦<Journal as Coding>⟧.coding lane.old lane.new hand.new)
            ((lane.new ≡ lane.old) × (hand.new ≡ hand.old))) }
        ensures refused { OnErr result ((lane.new ≡ lane.old) × (hand.new ≡ hand.old)) }
    {
        let shared = self.shared();
        let mut cell = self.lock_task(rt, task);
        if cell.queue().away(task) != Some(hand.to()) {
            return Ok(false);
        }
        leave_at(rt, alloc, &shared, lane, &mut cell, hand)?;
        Ok(true)
    }

    // The task leaves for a CPU where it has to wake, and lands there; None where it does not have to any more.
    fn wake_at<R: Wait>(
        &self,
        rt: &R,
        alloc: Global,
        lane: &mut Lane<N>,
        task: u32,
        to: u32,
    ) -> Result<Option<Reply>, NoMemory>
        requires wake { IsWake lane.old.side.course task }
        requires declared { to < length N.header.cpus }
        ensures woke { IfOk result (λ o. IfSome o (λ reply.
            WokeElsewhere N.header N.book N.board ⟦<Journal as Coding>⟧.coding lane.old lane.new reply)) }
        ensures none { IfOk result (λ o. IfNone o (lane.new ≡ lane.old)) }
        ensures refused { OnErr result (lane.new ≡ lane.old) }
    {
        let mut hand = Hand::empty(alloc, to, 1)?;
        if self.book(rt, to, 1).is_err() {
            hand.put_away();
            return Err(NoMemory);
        }
        match self.leave(rt, alloc, lane, task, &mut hand) {
            Ok(true) => {
                self.land(rt, alloc, lane, OutCause::Wake, hand);
                Ok(Some(Reply::Done))
            }
            Ok(false) => {
                self.unbook(rt, to, 1);
                hand.put_away();
                Ok(None)
            }
            Err(refused) => {
                self.unbook(rt, to, 1);
                hand.put_away();
                Err(refused)
            }
        }
    }

    // The same for any wake: None where the task came or went meanwhile.
    fn try_to_wake<R: Wait>(
        &self,
        rt: &R,
        alloc: Global,
        lane: &mut Lane<N>,
        task: u32,
    ) -> Result<Option<Reply>, NoMemory>
        requires { IsWake lane.old.side.course task }
        ensures woke { IfOk result (λ o. IfSome o (λ reply.
            Woke N.header N.book N.board ⟦<Journal as Coding>⟧.coding lane.old lane.new reply)) }
        ensures none { IfOk result (λ o. IfNone o (lane.new ≡ lane.old)) }
        ensures refused { OnErr result (lane.new ≡ lane.old) }
    {
        match self.wake_here(rt, alloc, lane, task)? {
            Woken::Here(reply) => Ok(Some(reply)),
            Woken::Away(to) => {
                if self.has(to) {
                    self.wake_at(rt, alloc, lane, task, to)
                } else {
                    Ok(None)
                }
            }
        }
    }

    /// Serves a wake: the queue where the task sleeps answers it, or the task leaves for the CPU where it has to wake, whose
    /// queue is booked before. It looks again where the task came or went meanwhile.
    pub(crate) fn wake<R: Wait>(
        &self,
        rt: &R,
        alloc: Global,
        lane: &mut Lane<N>,
        task: u32,
    ) -> Result<Reply, NoMemory>
        requires { IsWake lane.old.side.course task }
        ensures ok { IfOk result (λ reply. Woke N.header N.book N.board ⟦<Journal as Coding>⟧.coding lane.old lane.new reply) }
        ensures refused { OnErr result (lane.new ≡ lane.old) }
    {
        for _ in rt.forever() {
            if let Some(reply) = self.try_to_wake(rt, alloc, lane, task)? {
                return Ok(reply);
            }
        }
        unreachable!()
    }
}
