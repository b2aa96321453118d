//! What a lane asks of a queue: that it pushes a task, and that it balances on behalf of idle CPUs.
ghost use Rattle.std.specs.Prelude.{◌≡◌};
ghost use Rattle.lb_queue.specs.Requests.{ask_active, kick};
ghost use Rattle.lb_core.specs.declared.course.Form.TheVariants as form;
ghost use Rattle.lb_core.specs.declared.entry.What.TheVariants as what;
ghost use Rattle.lb_cell.specs.Cells.{HasRoom};
ghost use Rattle.lb_cell.specs.Draws.{Drew, IsDueAt, Keeps};

use crate::before::Before;
use crate::cell::Cell;
use crate::lane::Lane;
use crate::names::Names;
use crate::shared::Shared;
use lb_core::What;
use lb_course::{go_on, kicked};
use lb_queue::AskReply;
use std::alloc::Global;
use std::sync::Wait;

impl<N: Names> Cell<N> {
    /// Asks the source of a failed pull for a push to the turn's CPU, by an `ask`. `Old` where a request is pending. It
    /// takes no memory.
    pub fn ask<R: Wait>(
        &mut self,
        rt: &R,
        alloc: Global,
        shared: &Shared<'_, N>,
        lane: &mut Lane<N>,
    ) -> AskReply
        requires room { HasRoom self.old }
        requires due { IsDueAt form.Closed lane.old.course self.old.log.writer.cpu }
        ensures reply { result ≡ (ask_active self.old.queue.state lane.old.course.at lane.old.course.cpu).0 }
        ensures drew { Drew N.header self.old self.new lane.old lane.new (what.Ask result) }
        ensures booked { Keeps self.old self.new }
    {
        let before = Before::of(self, lane);
        let course = &lane.parts.course;
        let reply = self.parts.queue.ask_active(course.at, course.cpu);
        go_on(&mut lane.parts.course);
        let what = What::Ask { reply };
        before.enter(rt, alloc, shared, &mut self.parts, &mut lane.parts, what);
        reply
    }

    /// Kicks a tickless CPU, by a `kick`. `Old` where it was kicked before, and had no turn since. It takes no memory.
    pub fn kick<R: Wait>(
        &mut self,
        rt: &R,
        alloc: Global,
        shared: &Shared<'_, N>,
        lane: &mut Lane<N>,
    ) -> AskReply
        requires room { HasRoom self.old }
        requires due { IsDueAt form.Kicking lane.old.course self.old.log.writer.cpu }
        ensures reply { result ≡ (kick self.old.queue.state lane.old.course.at).0 }
        ensures drew { Drew N.header self.old self.new lane.old lane.new (what.Kick result) }
        ensures booked { Keeps self.old self.new }
    {
        let before = Before::of(self, lane);
        let reply = self.parts.queue.kick(lane.parts.course.at);
        kicked(alloc, &mut lane.parts.course, reply);
        let what = What::Kick { reply };
        before.enter(rt, alloc, shared, &mut self.parts, &mut lane.parts, what);
        reply
    }
}
