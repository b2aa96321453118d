//! The steps of the entries of turns.
ghost use Rattle.std.specs.Prelude.{◌≡◌, ◌<◌, ◌≤◌, ℕ, nat_lt, [], length, is_some, unwrap_or, false, IsSome, IfOk, OnOk, OnErr};
ghost use Rattle.lb_base.specs.declared.mask.TheConstants.{MAX_CPUS};
ghost use Rattle.lb_base.specs.Sets.{least};
ghost use Rattle.lb_queue.specs.declared.queue.TheConstants.{MAX_SHAPES};
ghost use Rattle.lb_queue.specs.Turns.{AreInOrder, FitCounters, IsOpenAt, opened, shut, counters_found};
ghost use Rattle.lb_trace.specs.declared.trace.Header.{Header};
ghost use Rattle.lb_core.specs.declared.entry.What.TheVariants as what;
ghost use Rattle.lb_core.specs.Course.{turn_kind, turn_domains, turn_domain, shapes_of};
ghost use Rattle.lb_core.specs.CourseAfter.{goes_to, turn_ends};
ghost use Rattle.lb_core.specs.Machine.{course_at, queue_at};

use super::Engine;
use lb_act::{blank_counters, open_turn, refuse_turn};
use lb_base::{Mask, NoMemory};
use lb_core::OutcomeWord;
use lb_course::{close, turn_ends};
use lb_turn::{Turn, flag};
use std::alloc::Global;

impl Engine {
    ghost use Rattle.lb_core.specs.Asks.{OpeningAsks};
    ghost use Rattle.lb_engine.specs.Asks.{HasTurn, HasPosition};
    ghost use Rattle.lb_engine.specs.Steps.{becomes, of_queue, served};

    // The turn of a lane, over the version that it took up.
    pub(super) fn turn(&self, lane: u32) -> Turn<'_>
        requires lane { lane < length self.now.machine.courses }
        requires turn { HasTurn self.now.machine (course_at self.now.machine.courses lane) }
        ensures { result ≡ record { header = self.now.machine.header; course = course_at self.now.machine.courses lane } }
    {
        let course = &self.courses[lane as usize];
        let topology = self.versions.get((course.version - 1) as usize);
        Turn::new(&self.header, topology, course)
    }

    // A turn opens at a queue.
    pub(super) fn take_turn(
        &mut self,
        alloc: Global,
        lane: u32,
        cpu: u32,
        positions: Mask,
    ) -> Result<(), NoMemory>
        requires lane { lane < length self.old.machine.courses }
        requires cpu { cpu < length self.old.machine.queues }
        requires turn { HasTurn self.old.machine (course_at self.old.machine.courses lane) }
        requires asks { OpeningAsks self.old.machine.header (queue_at self.old.machine.queues cpu) (course_at self.old.machine.courses lane) }
        requires closed { is_some (queue_at self.old.machine.queues cpu).open_turn ≡ false }
        ensures ok { OnOk result (self.new ≡ becomes (served self.old.machine (of_queue cpu lane (what.Turn positions))) self.old) }
        ensures refused { OnErr result (self.new ≡ self.old) }
    {
        let shapes = self.turn(lane).shapes();
        let counters = blank_counters(alloc, shapes.as_slice().len())?;
        let course = &mut self.courses[lane as usize];
        let queue = &mut self.queues[cpu as usize];
        open_turn(queue, course, lane, shapes.as_slice(), positions, counters);
        Ok(())
    }

    // A turn is refused, since one is open at the queue.
    pub(super) fn take_shut(&mut self, alloc: Global, lane: u32, cpu: u32)
        requires lane { lane < length self.old.machine.courses }
        requires cpu { cpu < length self.old.machine.queues }
        requires few { length self.old.machine.header.cpus ≤ MAX_CPUS }
        requires turn { HasTurn self.old.machine (course_at self.old.machine.courses lane) }
        requires asks { OpeningAsks self.old.machine.header (queue_at self.old.machine.queues cpu) (course_at self.old.machine.courses lane) }
        requires open { IsSome (queue_at self.old.machine.queues cpu).open_turn }
        ensures { self.new ≡ becomes (served self.old.machine (of_queue cpu lane what.Shut)) self.old }
    {
        let turn = self.turn(lane);
        let shapes = turn.shapes();
        let has_domains = turn.has_domains();
        let course = &mut self.courses[lane as usize];
        let queue = &mut self.queues[cpu as usize];
        refuse_turn(alloc, queue, course, lane, shapes.as_slice(), has_domains);
    }

    // A position of the open turn is done.
    pub(super) fn take_close(&mut self, lane: u32, cpu: u32, word: OutcomeWord)
        requires lane { lane < length self.old.machine.courses }
        requires cpu { cpu < length self.old.machine.queues }
        requires work { HasPosition self.old.machine (course_at self.old.machine.courses lane) }
        requires position { (course_at self.old.machine.courses lane).position < MAX_CPUS }
        requires open { IsOpenAt (queue_at self.old.machine.queues cpu).open_turn
            (turn_domain self.old.machine.header (course_at self.old.machine.courses lane)).shape.position }
        ensures { (p i f : ℕ) → self.new ≡ becomes (served self.old.machine (of_queue cpu lane (what.Close p word i f))) self.old }
    {
        let turn = self.turn(lane);
        let shape = turn.shape();
        let outcome = turn.outcome();
        let course = &mut self.courses[lane as usize];
        let imbalanced = flag(course);
        self.queues[cpu as usize].close_look(course.at, &shape, outcome, imbalanced);
        close(course, word);
    }

    // The open turn ends.
    pub(super) fn take_over(&mut self, alloc: Global, lane: u32, cpu: u32)
        requires lane { lane < length self.old.machine.courses }
        requires cpu { cpu < length self.old.machine.queues }
        requires few { length self.old.machine.header.cpus ≤ MAX_CPUS }
        requires turn { HasTurn self.old.machine (course_at self.old.machine.courses lane) }
        requires open { IsSome (queue_at self.old.machine.queues cpu).open_turn }
        ensures { self.new ≡ becomes (served self.old.machine (of_queue cpu lane what.Over)) self.old }
    {
        let has_domains = self.turn(lane).has_domains();
        let course = &mut self.courses[lane as usize];
        self.queues[cpu as usize].end_turn(course.at);
        turn_ends(alloc, course, has_domains);
    }
}
