//! The turn of a CPU: a lane takes up a version, and the queue answers, in one hold of its lock.
ghost use Rattle.std.specs.Prelude.{◌≡◌, ◌↔◌, true, false, None, IfOk, IsTrue, OnErr, length, if◌then◌else◌};
ghost use Rattle.lb_cell.specs.Cells.{HasRoom};
ghost use Rattle.lb_cell.specs.Draws.{Drew, IsDueAt, Keeps, MayAnswerUse};
ghost use Rattle.lb_cell.specs.Turns.{turn_what};
ghost use Rattle.lb_core.specs.declared.course.Form.TheVariants as form;
ghost use Rattle.lb_core.specs.Asks.{OpeningAsks};
ghost use Rattle.lb_core.specs.Course.{shapes_of, turn_domains};
ghost use Rattle.lb_core.specs.Stage.{waits_for_push, waits_for_stop};
ghost use Rattle.lb_lane.specs.Began.{TurnAsks, TurnBegan};
ghost use Rattle.lb_lane.specs.Own.{DrewNothing, SameRest};
ghost use Rattle.lb_lane.specs.Uses.{IsChosen, use_due};
ghost use Rattle.lb_queue.specs.Turns.{FitCounters};

use crate::chosen::Chosen;
use crate::lane::Lane;
use crate::versions::Versions;
use lb_base::{Kind, NoMemory};
use lb_cell::laws::{look_sees_more, saw_stays};
use lb_cell::{Cell, Names, Shared};
use lb_core::{CounterRows, Course, Form};
use lb_course::{ticked_cpu, turn_kind};
use lb_domain::laws::domains_stand_in_order;
use lb_queue::laws::next_stops;
use lb_queue::{Queue, TurnReply};
use std::alloc::Global;
use std::sync::Wait;

/// What came of a turn that a lane wants to open.
#[derive(Clone, Copy, Debug, PartialEq, Eq)]
pub enum Began {
    /// The lane drew its `use`, and the queue answered so.
    Turn(TurnReply),
    /// Nothing was drawn: an active request to this CPU is pending, and the lane's tick has made no push. The push comes
    /// first.
    PushFirst(u32),
}

// Where the push goes that has to come before a turn of this kind, if one has to.
fn push_first(queue: &Queue, course: &Course, kind: Kind) -> Option<u32>
    ensures { result ≡ (if waits_for_push kind course.now queue.now.state then queue.now.state.active else None) }
{
    match kind {
        Kind::Tick => {
            if queue.active().is_some() && !course.pushed {
                queue.active()
            } else {
                None
            }
        }
        Kind::Idle | Kind::Nohz => None,
    }
}

// Whether a `use` for a turn of this kind of the CPU is due.
fn use_due(course: &Course, kind: Kind, cpu: u32) -> bool
    ensures { result ≡ use_due course.now.form course.now kind cpu }
{
    match course.form {
        Form::Serving => kind == Kind::Tick && ticked_cpu(&course.command) == Some(cpu),
        Form::Due => kind == turn_kind(course) && cpu == course.cpu,
        _ => false,
    }
}

// Whether a stop is owed that has to come before a turn of this kind.
fn waits_for_stop(queue: &Queue, kind: Kind) -> bool
    ensures { result ≡ waits_for_stop kind queue.now.state }
{
    // a stop is next where one is owed
    next_stops();
    kind == Kind::Tick && queue.next_stop(true).is_some()
}

// Whether the queue has no counters of the version, or one for each of so many domains.
fn fit_counters(queue: &Queue, chosen: &Chosen) -> bool
    ensures { IsTrue result ↔ FitCounters queue.now.state chosen.now.version (shapes_of chosen.now.domains) }
{
    match queue.all_counters() {
        Some(counters) if chosen.version == queue.version() => counters.len()
            == chosen.domains.len(),
        _ => true,
    }
}

impl<N: Names + Versions> Lane<N> {
    /// Whether a turn of this kind may be opened at the queue, over the domains of a chosen version.
    pub fn can_turn(&self, cell: &Cell<N>, chosen: &Chosen, kind: Kind) -> bool
        ensures { IsTrue result ↔ TurnAsks cell.now self.now chosen.now kind }
    {
        let queue = cell.queue();
        use_due(self.side.course(), kind, chosen.cpu)
            && chosen.cpu == cell.cpu()
            && !waits_for_stop(queue, kind)
            && fit_counters(queue, chosen)
    }

    // The queue answers the `use` that the lane drew last, over the domains that the lane has, as by `Cell::answer_use`.
    fn answer_use<R: Wait>(
        &mut self,
        rt: &R,
        alloc: Global,
        shared: &Shared<'_, N>,
        cell: &mut Cell<N>,
        counters: CounterRows,
    ) -> TurnReply
        requires room { HasRoom cell.old }
        requires due { IsDueAt form.Used self.old.side.course cell.old.log.writer.cpu }
        requires answers { MayAnswerUse cell.old self.old.side }
        requires asks { OpeningAsks N.header cell.old.queue.state self.old.side.course }
        requires counters { length counters ≡ length (turn_domains N.header self.old.side.course) }
        ensures drew { Drew N.header cell.old cell.new self.old.side self.new.side (turn_what result) }
        ensures booked { Keeps cell.old cell.new }
        ensures rest { SameRest self.old self.new }
    {
        // what it saw is seen still
        look_sees_more();
        saw_stays();
        self.side.keeps();
        cell.keeps();
        let domains = self.domains.as_slice();
        cell.answer_use(rt, alloc, shared, domains, &mut self.side, counters)
    }

    /// Opens a turn of the queue's CPU: the lane takes up the chosen version, by a `use` that is later than all entries of
    /// the queue, and the queue answers it, over the domains that the lane has then. `PushFirst` comes exactly where the
    /// kind is a tick's, an active request is pending, and the lane's tick has made no push. `counters` has one place for
    /// each of the domains. It refuses for want of memory alone, and draws nothing then.
    pub fn turn<R: Wait>(
        &mut self,
        rt: &R,
        alloc: Global,
        shared: &Shared<'_, N>,
        cell: &mut Cell<N>,
        chosen: Chosen,
        kind: Kind,
        counters: CounterRows,
    ) -> Result<Began, NoMemory>
        requires room { HasRoom cell.old }
        requires chosen { IsChosen N.header self.old chosen }
        requires asks { TurnAsks cell.old self.old chosen kind }
        requires counters { length counters ≡ length chosen.domains }
        ensures ok { IfOk result (λ began. TurnBegan N.header cell.old cell.new self.old self.new chosen kind began) }
        ensures booked { Keeps cell.old cell.new }
        ensures refused { OnErr result ((cell.new ≡ cell.old) × DrewNothing self.old self.new) }
    {
        if let Some(to) = push_first(cell.queue(), self.side.course(), kind) {
            return Ok(Began::PushFirst(to));
        }
        // the domains stand at their positions
        domains_stand_in_order();
        self.adopt(rt, alloc, shared, cell, chosen, kind)?;
        let reply = self.answer_use(rt, alloc, shared, cell, counters);
        Ok(Began::Turn(reply))
    }
}
