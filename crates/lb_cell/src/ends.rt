//! The close of a position, and the end of a turn.
ghost use Rattle.std.specs.Prelude.{◌≡◌, IsSome};
ghost use Rattle.lb_queue.specs.Turns.{IsOpenAt};
ghost use Rattle.lb_core.specs.declared.course.Form.TheVariants as form;
ghost use Rattle.lb_core.specs.declared.entry.What.TheVariants as what;
ghost use Rattle.lb_core.specs.Course.{outcome_of, turn_domain};
ghost use Rattle.lb_turn.specs.Turns.{ShowsDomains};
ghost use Rattle.lb_cell.specs.Cells.{HasRoom};
ghost use Rattle.lb_cell.specs.Draws.{Drew, IsDueAt, Keeps};
ghost use Rattle.lb_cell.specs.Turns.{CanClose, closing};

use crate::before::Before;
use crate::cell::Cell;
use crate::lane::Lane;
use crate::names::Names;
use crate::shared::Shared;
use lb_act::counters_left;
use lb_core::What;
use lb_course::{close, turn_ends};
use lb_domain::Domain;
use lb_interval::Outcome;
use lb_turn::{Turn, flag, word_of};
use std::alloc::Global;
use std::sync::Wait;

impl<N: Names> Cell<N> {
    /// Closes the position in work of the lane's open turn, by a `close`, and answers how it ended. The domains
    /// are those of the turn's CPU in the version that the lane took up. It takes no memory.
    #[tactic(auto, unfolding(lb_core::specs::Rules::closed_counters))]
    pub fn close<R: Wait>(
        &mut self,
        rt: &R,
        alloc: Global,
        shared: &Shared<'_, N>,
        domains: &[Domain],
        lane: &mut Lane<N>,
    ) -> Outcome
        requires room { HasRoom self.old }
        requires due { CanClose N.header lane.old.course self.old.log.writer.cpu }
        requires domains { ShowsDomains N.header domains.now lane.old.course }
        requires open { IsOpenAt self.old.queue.state.open_turn (turn_domain N.header lane.old.course).shape.position }
        ensures outcome { result ≡ outcome_of N.header lane.old.course }
        ensures drew { Drew N.header self.old self.new lane.old lane.new (closing N.header self.old lane.old) }
        ensures booked { Keeps self.old self.new }
    {
        let before = Before::of(self, lane);
        let position = lane.parts.course.position;
        let imb = flag(&lane.parts.course);
        let turn = Turn::with(shared.header, domains, &lane.parts.course);
        let shape = turn.shape();
        let outcome = turn.outcome();
        let at = lane.parts.course.at;
        let left = counters_left(&self.parts.queue, at, &shape, outcome, imb);
        self.parts.queue.close_look(at, &shape, outcome, imb);
        close(&mut lane.parts.course, word_of(outcome));
        let what = What::Close {
            position,
            outcome: word_of(outcome),
            interval: left.interval,
            failures: left.failures,
        };
        before.enter(rt, alloc, shared, &mut self.parts, &mut lane.parts, what);
        outcome
    }

    /// Ends the lane's open turn, by an `over`. The domains are those of the turn's CPU in the version that the lane took
    /// up. It takes no memory.
    pub fn over<R: Wait>(
        &mut self,
        rt: &R,
        alloc: Global,
        shared: &Shared<'_, N>,
        domains: &[Domain],
        lane: &mut Lane<N>,
    )
        requires room { HasRoom self.old }
        requires due { IsDueAt form.Done lane.old.course self.old.log.writer.cpu }
        requires domains { ShowsDomains N.header domains.now lane.old.course }
        requires open { IsSome self.old.queue.state.open_turn }
        ensures drew { Drew N.header self.old self.new lane.old lane.new what.Over }
        ensures booked { Keeps self.old self.new }
    {
        let before = Before::of(self, lane);
        let has_domains = Turn::with(shared.header, domains, &lane.parts.course).has_domains();
        self.parts.queue.end_turn(lane.parts.course.at);
        turn_ends(alloc, &mut lane.parts.course, has_domains);
        let what = What::Over;
        before.enter(rt, alloc, shared, &mut self.parts, &mut lane.parts, what);
    }
}
