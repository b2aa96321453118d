//! The answer of a queue to a command.
ghost use Rattle.std.specs.Prelude.{◌≡◌};
ghost use Rattle.lb_core.specs.declared.entry.What.TheVariants as what;
ghost use Rattle.lb_core.specs.QueueAfter.{answer_to};
ghost use Rattle.lb_cell.specs.Cells.{HasRoom};
ghost use Rattle.lb_cell.specs.Draws.{Drew, Keeps};
ghost use Rattle.lb_cell.specs.Commands.{CanAnswer};

use crate::before::Before;
use crate::cell::Cell;
use crate::lane::Lane;
use crate::names::Names;
use crate::shared::Shared;
use lb_act::obey;
use lb_core::What;
use lb_course::answered;
use lb_queue::Reply;
use std::alloc::Global;
use std::sync::Wait;

impl<N: Names> Cell<N> {
    /// Answers the command of the lane's row, by a `did`. The task is known here, and the task of a wake stays; a tick
    /// passes no owed request over. It takes no memory.
    pub fn answer<R: Wait>(
        &mut self,
        rt: &R,
        alloc: Global,
        shared: &Shared<'_, N>,
        lane: &mut Lane<N>,
    ) -> Reply
        requires room { HasRoom self.old }
        requires asked { CanAnswer self.old.queue.state self.old.log.writer.cpu lane.old.course }
        ensures reply { result ≡ (answer_to lane.old.course.command lane.old.course.at self.old.queue.state).0 }
        ensures drew { Drew N.header self.old self.new lane.old lane.new (what.Did result) }
        ensures booked { Keeps self.old self.new }
    {
        let before = Before::of(self, lane);
        let was = self.parts.queue.len();
        let at = lane.parts.course.at;
        let reply = obey(&mut self.parts.queue, at, &lane.parts.course.command);
        let awake = self.parts.queue.len();
        // fewer are awake now: the task was
        let was_awake = awake < was;
        answered(
            alloc,
            &mut lane.parts.course,
            self.parts.log.writer.cpu(),
            was_awake,
            awake,
        );
        let what = What::Did { reply };
        before.enter(rt, alloc, shared, &mut self.parts, &mut lane.parts, what);
        reply
    }
}
