//! The owed stops and the push of a tick: what is due at the queue of the ticked CPU leaves it.
ghost use Rattle.std.specs.Prelude.{◌≡◌, ◌<◌, [], Some, IfOk, IfSome, IfNone, MatchBool, MatchOption, OnOk, OnErr, length};
ghost use Rattle.lb_cell.specs.Draws.{IsDueAt};
ghost use Rattle.lb_cell.specs.Serving.{out_target};
ghost use Rattle.lb_core.specs.declared.course.Form.TheVariants as form;
ghost use Rattle.lb_cpu.specs.Hands.{DepartedDue, NoneDue, OutDue};
ghost use Rattle.lb_cpu.specs.Turns.{IsDue, due_at};

use crate::booking::make_room;
use crate::cpus::Cpus;
use crate::due::due_at;
use lb_base::NoMemory;
use lb_cell::{Cell, Names, Shared};
use lb_journal::Journal;
use lb_lane::{Lane, Versions};
use lb_queue::Hand;
use lb_ticket::Coding;
use std::alloc::Global;
use std::sync::Wait;

// The tasks that are due leave the queue in a hand.
fn serve_at<N: Names + Versions, R: Wait>(
    rt: &R,
    alloc: Global,
    shared: &Shared<'_, N>,
    lane: &mut Lane<N>,
    cell: &mut Cell<N>,
    hand: &mut Hand,
) -> Result<(), NoMemory>
    requires due { IsDueAt form.Serving lane.old.side.course cell.old.log.writer.cpu }
    requires target { out_target lane.old.side.course cell.old.queue.state ≡ Some hand.old.to }
    requires hand { (hand.old.tasks ≡ []) × (0 < hand.old.room) }
    requires declared { hand.old.to < length N.header.cpus }
    ensures ok { OnOk result (DepartedDue N.header N.book N.board ⟦<Journal as Coding>⟧.coding lane.old lane.new
        cell.old.log.writer.cpu hand.new) }
    ensures to { OnOk result (hand.new.to ≡ hand.old.to) }
    ensures refused { OnErr result ((lane.new ≡ lane.old) × (hand.new ≡ hand.old)) }
{
    make_room(rt, cell)?;
    cell.keeps();
    lane.serve(rt, alloc, shared, cell, hand)?;
    lane.follow(shared, cell);
    Ok(())
}

// Where the tasks go that are due to leave the queue. Where none are, the lane reads the queue's list.
fn target_at<N: Names + Versions>(
    shared: &Shared<'_, N>,
    lane: &mut Lane<N>,
    cell: &mut Cell<N>,
) -> Option<u32>
    ensures none { IfNone result (NoneDue N.header N.book N.board ⟦<Journal as Coding>⟧.coding lane.old lane.new
        cell.old.log.writer.cpu) }
    ensures some { IfSome result (λ to. lane.new ≡ lane.old) }
{
    cell.keeps();
    if let Some(to) = lane.out_due(cell) {
        return Some(to);
    }
    lane.follow(shared, cell);
    None
}

impl<N: Names + Versions> Cpus<N> {
    // Where the tasks go that are due to leave the queue of the ticked CPU.
    fn target<R: Wait>(&self, rt: &R, lane: &mut Lane<N>) -> Option<u32>
        requires { IsDue N.header form.Serving lane.old.side.course }
        ensures none { IfNone result (NoneDue N.header N.book N.board ⟦<Journal as Coding>⟧.coding lane.old lane.new
            (due_at lane.old.side.course)) }
        ensures some { IfSome result (λ to. lane.new ≡ lane.old) }
    {
        let shared = self.shared();
        let cpu = due_at(lane.side().course());
        let mut cell = self.lock(rt, cpu);
        target_at(&shared, lane, &mut cell)
    }

    // The tasks that are due leave in a hand, if they still go where the hand goes.
    fn serve_due<R: Wait>(
        &self,
        rt: &R,
        alloc: Global,
        lane: &mut Lane<N>,
        hand: &mut Hand,
    ) -> Result<bool, NoMemory>
        requires due { IsDue N.header form.Serving lane.old.side.course }
        requires hand { (hand.old.tasks ≡ []) × (0 < hand.old.room) }
        requires declared { hand.old.to < length N.header.cpus }
        ensures left { IfOk result (λ b. MatchBool b
            (DepartedDue N.header N.book N.board ⟦<Journal as Coding>⟧.coding lane.old lane.new (due_at lane.old.side.course)
            hand.new)
            ((lane.new ≡ lane.old) × (hand.new ≡ hand.old))) }
        ensures to { hand.new.to ≡ hand.old.to }
        ensures refused { OnErr result ((lane.new ≡ lane.old) × (hand.new ≡ hand.old)) }
    {
        let shared = self.shared();
        let cpu = due_at(lane.side().course());
        let mut cell = self.lock(rt, cpu);
        if lane.out_due(&*cell) != Some(hand.to()) {
            return Ok(false);
        }
        serve_at(rt, alloc, &shared, lane, &mut cell, hand)?;
        Ok(true)
    }

    // The tasks that are due leave for a CPU, whose queue is booked before; None where they go there no more. What a push
    // that finds no task does not need of the booking is given back.
    fn serve_to<R: Wait>(
        &self,
        rt: &R,
        alloc: Global,
        lane: &mut Lane<N>,
        to: u32,
    ) -> Result<Option<Hand>, NoMemory>
        requires { IsDue N.header form.Serving lane.old.side.course }
        ensures left { IfOk result (λ o. IfSome o (λ hand. DepartedDue N.header N.book N.board ⟦<Journal as Coding>⟧.coding
            lane.old lane.new (due_at lane.old.side.course) hand)) }
        ensures none { IfOk result (λ o. IfNone o (lane.new ≡ lane.old)) }
        ensures refused { OnErr result (lane.new ≡ lane.old) }
    {
        if !self.has(to) {
            return Ok(None);
        }
        let mut hand = Hand::empty(alloc, to, 1)?;
        if self.book(rt, to, 1).is_err() {
            hand.put_away();
            return Err(NoMemory);
        }
        match self.serve_due(rt, alloc, lane, &mut hand) {
            Ok(true) => {
                if hand.len() == 0 {
                    self.unbook_tasks(rt, to, 1);
                }
                Ok(Some(hand))
            }
            Ok(false) => {
                self.unbook(rt, to, 1);
                hand.put_away();
                Ok(None)
            }
            Err(refused) => {
                self.unbook(rt, to, 1);
                hand.put_away();
                Err(refused)
            }
        }
    }

    /// The `out` of a stop or a push that is due at the queue of the ticked CPU, in a hand whose landing is booked. None
    /// exactly where none is due under the queue's lock, and then nothing was drawn. Where what is due has got another
    /// destination since that one was booked, it looks again. It refuses for want of memory alone, and draws nothing then.
    pub fn out_due<R: Wait>(
        &self,
        rt: &R,
        alloc: Global,
        lane: &mut Lane<N>,
    ) -> Result<Option<Hand>, NoMemory>
        requires { IsDue N.header form.Serving lane.old.side.course }
        ensures due { IfOk result (λ o. OutDue N.header N.book N.board ⟦<Journal as Coding>⟧.coding lane.old lane.new
            (due_at lane.old.side.course) o) }
        ensures refused { OnErr result (lane.new ≡ lane.old) }
    {
        for _ in rt.forever() {
            let Some(to) = self.target(rt, lane) else {
                return Ok(None);
            };
            if let Some(hand) = self.serve_to(rt, alloc, lane, to)? {
                return Ok(Some(hand));
            }
        }
        unreachable!()
    }
}
