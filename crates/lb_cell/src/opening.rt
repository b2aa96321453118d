//! The answer of a queue to the `use` of a lane: a turn opens, or is shut.
ghost use Rattle.std.specs.Prelude.{◌≡◌, nat_lt, true, false, length, is_some};
ghost use Rattle.lb_queue.specs.Turns.{opens, positions_found};
ghost use Rattle.lb_core.specs.declared.course.Form.TheVariants as form;
ghost use Rattle.lb_core.specs.declared.entry.What.TheVariants as what;
ghost use Rattle.lb_core.specs.Asks.{OpeningAsks};
ghost use Rattle.lb_core.specs.Course.{shapes_of, turn_domains, turn_kind};
ghost use Rattle.lb_turn.specs.Turns.{ShowsDomains};
ghost use Rattle.lb_cell.specs.Cells.{HasRoom};
ghost use Rattle.lb_cell.specs.Draws.{Drew, IsDueAt, Keeps, MayAnswerUse};
ghost use Rattle.lb_cell.specs.Turns.{turn_what};

use crate::before::Before;
use crate::cell::Cell;
use crate::lane::Lane;
use crate::names::Names;
use crate::shared::Shared;
use lb_act::{open_turn, refuse_turn};
use lb_base::{Mask, Shape};
use lb_core::{CounterRows, What};
use lb_course::turn_kind;
use lb_domain::Domain;
use lb_queue::TurnReply;
use lb_turn::Turn;
use std::alloc::Global;
use std::sync::Wait;

impl<N: Names> Cell<N> {
    // The turn opens.
    fn open_turn<R: Wait>(
        &mut self,
        rt: &R,
        alloc: Global,
        shared: &Shared<'_, N>,
        lane: &mut Lane<N>,
        shapes: &[Shape],
        positions: Mask,
        counters: CounterRows,
    )
        requires room { HasRoom self.old }
        requires due { IsDueAt form.Used lane.old.course self.old.log.writer.cpu }
        requires answers { MayAnswerUse self.old lane.old }
        requires closed { is_some self.old.queue.state.open_turn ≡ false }
        requires shapes { shapes.now ≡ shapes_of (turn_domains N.header lane.old.course) }
        requires asks { OpeningAsks N.header self.old.queue.state lane.old.course }
        requires positions { positions
            ≡ positions_found self.old.queue.state lane.old.course.at (turn_kind lane.old.course)
            lane.old.course.version shapes.now }
        requires counters { length counters ≡ length shapes.now }
        ensures drew { Drew N.header self.old self.new lane.old lane.new (what.Turn positions) }
        ensures booked { Keeps self.old self.new }
    {
        let before = Before::of(self, lane);
        open_turn(
            &mut self.parts.queue,
            &mut lane.parts.course,
            lane.parts.number,
            shapes,
            positions,
            counters,
        );
        let what = What::Turn { positions };
        before.enter(rt, alloc, shared, &mut self.parts, &mut lane.parts, what);
    }

    // The turn is shut.
    fn shut_turn<R: Wait>(
        &mut self,
        rt: &R,
        alloc: Global,
        shared: &Shared<'_, N>,
        lane: &mut Lane<N>,
        shapes: &[Shape],
        has_domains: bool,
    )
        requires room { HasRoom self.old }
        requires due { IsDueAt form.Used lane.old.course self.old.log.writer.cpu }
        requires answers { MayAnswerUse self.old lane.old }
        requires open { is_some self.old.queue.state.open_turn ≡ true }
        requires shapes { shapes.now ≡ shapes_of (turn_domains N.header lane.old.course) }
        requires asks { OpeningAsks N.header self.old.queue.state lane.old.course }
        requires domains { has_domains ≡ nat_lt 0 (length (turn_domains N.header lane.old.course)) }
        ensures drew { Drew N.header self.old self.new lane.old lane.new what.Shut }
        ensures booked { Keeps self.old self.new }
    {
        let before = Before::of(self, lane);
        refuse_turn(
            alloc,
            &mut self.parts.queue,
            &mut lane.parts.course,
            lane.parts.number,
            shapes,
            has_domains,
        );
        let what = What::Shut;
        before.enter(rt, alloc, shared, &mut self.parts, &mut lane.parts, what);
    }

    /// Answers the lane's `use`, the last entry that it drew: a turn opens, by a `turn`, and the lane has the counters
    /// that it found; or it is shut where one is open, by a `shut`. The domains are those of the turn's CPU in the
    /// version that the lane took up, and `counters` has one place for each of them. It takes no memory.
    pub fn answer_use<R: Wait>(
        &mut self,
        rt: &R,
        alloc: Global,
        shared: &Shared<'_, N>,
        domains: &[Domain],
        lane: &mut Lane<N>,
        counters: CounterRows,
    ) -> TurnReply
        requires room { HasRoom self.old }
        requires due { IsDueAt form.Used lane.old.course self.old.log.writer.cpu }
        requires answers { MayAnswerUse self.old lane.old }
        requires domains { ShowsDomains N.header domains.now lane.old.course }
        requires asks { OpeningAsks N.header self.old.queue.state lane.old.course }
        requires counters { length counters ≡ length (turn_domains N.header lane.old.course) }
        ensures reply { result ≡ opens self.old.queue.state lane.old.course.at (turn_kind lane.old.course)
            lane.old.course.version (shapes_of (turn_domains N.header lane.old.course)) }
        ensures drew { Drew N.header self.old self.new lane.old lane.new (turn_what result) }
        ensures booked { Keeps self.old self.new }
    {
        let queue = &self.parts.queue;
        let course = &lane.parts.course;
        let turn = Turn::with(shared.header, domains, course);
        let list = turn.shapes();
        let has_domains = turn.has_domains();
        let shapes = list.as_slice();
        let kind = turn_kind(course);
        let reply = queue.opens(course.at, kind, course.version, shapes);
        match reply {
            TurnReply::Opened(positions) => {
                self.open_turn(rt, alloc, shared, lane, shapes, positions, counters);
            }
            TurnReply::TurnOpen => {
                self.shut_turn(rt, alloc, shared, lane, shapes, has_domains);
            }
        }
        reply
    }
}
