//! A lane looks at the figures of the domain in work, and decides.
ghost use Rattle.std.specs.Prelude.{ℕ, ◌≡◌, ◌<◌, true, IfOk, OnErr, length, All};
ghost use Rattle.lb_base.specs.Mask.{has, members};
ghost use Rattle.lb_imbalance.specs.Conditions.{HaveSmallSums};
ghost use Rattle.lb_core.specs.Course.{turn_domain};
ghost use Rattle.lb_core.specs.Sight.{by_cpu};
ghost use Rattle.lb_lane.specs.Figures.{AreOf, Sees};
ghost use Rattle.lb_lane.specs.Looks.{CanDecide, LaneLooked, LookAsks, Looked, MayLook, decides, looked_at};
ghost use Rattle.lb_lane.specs.Own.{SameRest, Unmoved};

use crate::enter::enter_above;
use crate::figures::{names_of, read_all};
use crate::lane::Lane;
use crate::sums::are_small;
use crate::versions::Versions;
use lb_base::NoMemory;
use lb_cell::laws::saw_stays;
use lb_cell::{Lane as Side, Names, Shared};
use lb_core::{Course, CpuFig, Figs, What};
use lb_course::{by_cpu, turn_kind};
use lb_domain::Domain;
use lb_domain::laws::{groups_part_the_span, spans_lie_inside};
use lb_imbalance::laws::decision_is_the_choice;
use lb_imbalance::{Decision, decide};
use lb_journal::laws::uses_stay;
use std::alloc::Global;
use std::sync::Wait;

// The figures of a domain without the excluded CPUs, read again until their sums are small enough to decide on. Those of
// every run are, so the first are.
fn read_small<N: Names, R: Wait>(
    rt: &R,
    alloc: Global,
    shared: &Shared<'_, N>,
    side: &mut Side<N>,
    domain: &Domain,
) -> Result<Figs, NoMemory>
    requires { (k : ℕ) → has domain.now.shape.span k ≡ true → k < length N.board }
    ensures sees { Sees side.old side.new }
    ensures figs { IfOk result (λ figs.
        AreOf side.old.known.reader side.new.known.reader (members (looked_at domain.now side.old.course)) figs) }
    ensures inside { IfOk result (λ figs. All (λ f. f.cpu < length N.board) figs) }
    ensures sums { IfOk result (λ figs. HaveSmallSums (by_cpu figs) side.old.course.excluded domain.now.groups) }
{
    let excluded = side.course().excluded;
    let due = domain.shape.span.without(excluded);
    for _ in rt.forever() {
        let figs = read_all(rt, alloc, shared, side, due)?;
        if are_small(&by_cpu(figs.as_slice()), excluded, domain.groups.as_slice()) {
            return Ok(figs);
        }
    }
    unreachable!()
}

// What the figures of a domain decide.
fn decide_on(course: &Course, domain: &Domain, figs: &[CpuFig]) -> Decision
    requires domain { (n : ℕ) × CanDecide n domain.now course.now }
    requires sums { HaveSmallSums (by_cpu figs.now) course.now.excluded domain.now.groups }
    ensures { result ≡ decides domain.now course.now figs.now }
{
    decide(
        &domain.shape,
        domain.groups.as_slice(),
        &by_cpu(figs),
        course.cpu,
        turn_kind(course),
        course.excluded,
    )
}

// The look, of the lane's side alone.
fn look_at<N: Names, R: Wait>(
    rt: &R,
    alloc: Global,
    shared: &Shared<'_, N>,
    side: &mut Side<N>,
    domain: &Domain,
) -> Result<Decision, NoMemory>
    requires domain { domain.now ≡ turn_domain N.header side.old.course }
    requires may { MayLook N.header (length N.board) side.old }
    ensures ok { IfOk result (λ d. Looked N.header (length N.board) side.old side.new d) }
    ensures refused { OnErr result (Unmoved side.old side.new) }
{
    // the source of the decision is a CPU of the machine
    decision_is_the_choice();
    side.keeps();
    let figs = read_small(rt, alloc, shared, side, domain)?;
    let figures = names_of(alloc, figs.as_slice())?;
    let decision = decide_on(side.course(), domain, figs.as_slice());
    let what = What::Look {
        position: side.course().position,
        excluded: side.course().excluded,
        figures,
        decision,
    };
    enter_above(rt, alloc, shared, side, what, figs)?;
    Ok(decision)
}

impl<N: Names + Versions> Lane<N> {
    /// Looks at the domain in work: reads a figure of each CPU that is not excluded, decides on just these, and draws the
    /// look above their tickets. It refuses for want of memory alone, and draws nothing then. It waits while figures
    /// are written.
    pub fn look<R: Wait>(
        &mut self,
        rt: &R,
        alloc: Global,
        shared: &Shared<'_, N>,
    ) -> Result<Decision, NoMemory>
        requires { LookAsks N.header self.old }
        ensures ok { IfOk result (λ d. LaneLooked N.header (length N.board) self.old self.new d) }
        ensures refused { OnErr result (Unmoved self.old.side self.new.side) }
        ensures rest { SameRest self.old self.new }
    {
        // what it saw and read stays; the groups of a domain make up its span, which lies within the machine
        saw_stays();
        uses_stay();
        groups_part_the_span();
        spans_lie_inside();
        self.side.keeps();
        let position = self.side.course().position;
        let domain = self.domains.get(position as usize);
        let decision = look_at(rt, alloc, shared, &mut self.side, domain)?;
        Ok(decision)
    }
}
