//! The owed stops and the push of a tick.
ghost use Rattle.std.specs.Prelude.{◌≡◌, ◌<◌, [], None, Some, true, OnOk, OnErr};
ghost use Rattle.lb_queue.specs.Requests.{next_stop};
ghost use Rattle.lb_queue.specs.Hands.{stop_to};
ghost use Rattle.lb_queue.specs.Tasks.{ids};
ghost use Rattle.lb_queue.specs.declared.answers.OutCause.TheVariants as cause;
ghost use Rattle.lb_core.specs.declared.course.Form.TheVariants as form;
ghost use Rattle.lb_core.specs.declared.entry.What.TheVariants as what;
ghost use Rattle.lb_core.specs.Stage.{push_is_due};
ghost use Rattle.lb_act.specs.Hands.{IsLoaded};
ghost use Rattle.lb_cell.specs.Cells.{HasRoom};
ghost use Rattle.lb_cell.specs.Draws.{Drew, IsDueAt, Keeps};
ghost use Rattle.lb_cell.specs.Hands.{AreFor};
ghost use Rattle.lb_cell.specs.Serving.{out_cause, out_target};

use crate::before::Before;
use crate::cell::Cell;
use crate::lane::Lane;
use crate::leaving::depart;
use crate::lists::HandLists;
use crate::names::Names;
use crate::shared::Shared;
use lb_base::NoMemory;
use lb_queue::laws::next_stops;
use lb_queue::{Hand, OutCause, Stop};
use std::alloc::Global;
use std::sync::Wait;

impl<N: Names> Cell<N> {
    /// Where the tasks go that are due to leave at the tick which the lane serves: by the next owed stop, else by the
    /// push, where an active request is pending and this tick made no push. None exactly where none is due.
    pub fn out_due(&self, lane: &Lane<N>) -> Option<u32>
        ensures { result ≡ out_target lane.now.course self.now.queue.state }
    {
        match self.parts.queue.next_stop(true) {
            Some(stop) => Some(stop.to),
            None => {
                if self.parts.queue.active().is_some() && !lane.parts.course.pushed {
                    self.parts.queue.active()
                } else {
                    None
                }
            }
        }
    }

    // The task of an owed stop leaves.
    fn leave_by_stop<R: Wait>(
        &mut self,
        rt: &R,
        alloc: Global,
        shared: &Shared<'_, N>,
        lane: &mut Lane<N>,
        stop: Stop,
        hand: &mut Hand,
        lists: HandLists,
    )
        requires room { HasRoom self.old }
        requires due { IsDueAt form.Serving lane.old.course self.old.log.writer.cpu }
        requires stop { (next_stop self.old.queue.state true ≡ Some stop)
            × (stop_to self.old.queue.state stop.id ≡ Some hand.old.to) }
        requires to { stop.to ≡ hand.old.to }
        requires hand { (hand.old.tasks ≡ []) × (0 < hand.old.room) }
        requires lists { AreFor 1 lists }
        ensures drew { Drew N.header self.old self.new lane.old lane.new (what.Out cause.Stop hand.old.to (ids hand.new.tasks)) }
        ensures loaded { IsLoaded hand.new lane.new.course }
        ensures booked { Keeps self.old self.new }
    {
        // a stop is next where one is owed
        next_stops();
        let before = Before::of(self, lane);
        let at = lane.parts.course.at;
        self.parts.queue.take_stop(at, stop.id, hand);
        depart(
            rt,
            alloc,
            shared,
            before,
            &mut self.parts,
            &mut lane.parts,
            hand,
            lists,
            OutCause::Stop,
            None,
        );
    }

    // The task of the push leaves, if there is one.
    fn leave_by_push<R: Wait>(
        &mut self,
        rt: &R,
        alloc: Global,
        shared: &Shared<'_, N>,
        lane: &mut Lane<N>,
        hand: &mut Hand,
        lists: HandLists,
    )
        requires room { HasRoom self.old }
        requires due { IsDueAt form.Serving lane.old.course self.old.log.writer.cpu }
        requires stop { next_stop self.old.queue.state true ≡ None }
        requires push { (push_is_due lane.old.course self.old.queue.state ≡ true)
            × (self.old.queue.state.active ≡ Some hand.old.to) }
        requires hand { (hand.old.tasks ≡ []) × (0 < hand.old.room) }
        requires lists { AreFor 1 lists }
        ensures drew { Drew N.header self.old self.new lane.old lane.new (what.Out cause.Push hand.old.to (ids hand.new.tasks)) }
        ensures loaded { IsLoaded hand.new lane.new.course }
        ensures booked { Keeps self.old self.new }
    {
        let before = Before::of(self, lane);
        let pushed = self.parts.queue.take_push(lane.parts.course.at, hand);
        let lists = lists.only_if(alloc, pushed);
        depart(
            rt,
            alloc,
            shared,
            before,
            &mut self.parts,
            &mut lane.parts,
            hand,
            lists,
            OutCause::Push,
            None,
        );
    }

    /// The tasks that are due leave, by an `out stop` or an `out push`, in a hand that goes where they do and is empty;
    /// their landing is booked there. Where a push finds no task the hand stays empty, and still has to land. A refusal
    /// changes nothing.
    pub fn serve<R: Wait>(
        &mut self,
        rt: &R,
        alloc: Global,
        shared: &Shared<'_, N>,
        lane: &mut Lane<N>,
        hand: &mut Hand,
    ) -> Result<(), NoMemory>
        requires room { HasRoom self.old }
        requires due { IsDueAt form.Serving lane.old.course self.old.log.writer.cpu }
        requires target { out_target lane.old.course self.old.queue.state ≡ Some hand.old.to }
        requires hand { (hand.old.tasks ≡ []) × (0 < hand.old.room) }
        ensures drew { OnOk result (Drew N.header self.old self.new lane.old lane.new
            (what.Out (out_cause self.old.queue.state) hand.old.to (ids hand.new.tasks))) }
        ensures loaded { OnOk result (IsLoaded hand.new lane.new.course) }
        ensures booked { OnOk result (Keeps self.old self.new) }
        ensures refused { OnErr result ((self.new ≡ self.old) × (lane.new ≡ lane.old) × (hand.new ≡ hand.old)) }
    {
        let lists = HandLists::new(alloc, 1)?;
        match self.parts.queue.next_stop(true) {
            Some(stop) => self.leave_by_stop(rt, alloc, shared, lane, stop, hand, lists),
            None => self.leave_by_push(rt, alloc, shared, lane, hand, lists),
        }
        Ok(())
    }
}
