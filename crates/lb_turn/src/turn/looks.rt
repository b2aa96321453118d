//! What a look reads, and what it decides.
ghost use Rattle.std.specs.Prelude.{◌≡◌};
ghost use Rattle.lb_imbalance.specs.Decision.{decision, group_at};
ghost use Rattle.lb_core.specs.Course.{turn_domain, turn_kind, env_of, looks_again, others_left};
ghost use Rattle.lb_core.specs.Rules.{figures_due};
ghost use Rattle.lb_core.specs.Sight.{Sight};
ghost use Rattle.lb_turn.specs.Turns.{HasDomain, HasDue, MayDecide};

use super::Turn;
use lb_base::{Fig, Kind, Mask};
use lb_core::Form;
use lb_course::{is_all_pinned, turn_kind};
use lb_detach::Env;
use lb_domain::Domain;
use lb_imbalance::{Decision, decide};

/// The group of a domain that has the domain's own CPU: the first one.
pub fn local_group(domain: &Domain) -> Mask
    ensures { result ≡ group_at domain.now.groups 0 }
{
    let groups = domain.groups.as_slice();
    if groups.is_empty() {
        Mask::none()
    } else {
        groups[0]
    }
}

impl<'a> Turn<'a> {
    /// The CPUs whose figures are due: of a look those of the domain in work, of a scan those of the widest
    /// domain, each without the excluded ones.
    pub fn figures_due(&self) -> Mask
        requires { HasDue self.now.course.form self.now.header self.now.course }
        ensures { (s : Sight) → s.header ≡ self.now.header → s.course ≡ self.now.course
            → result ≡ figures_due s.course.form s }
    {
        let position = if self.course.form == Form::ScanDue {
            self.count() - 1
        } else {
            self.course.position
        };
        let due = self.domains[position as usize].shape.span;
        due.without(self.course.excluded)
    }

    /// What the figures decide about the domain in work: `figs` has one for each CPU, from CPU 0
    /// (docs/rules/decision.md).
    pub fn decision(&self, figs: &[Fig]) -> Decision
        requires inside { HasDomain self.now }
        requires asks { MayDecide (turn_domain self.now.header self.now.course) figs.now self.now.course }
        ensures { result ≡ decision
            (turn_domain self.now.header self.now.course).shape
            (turn_domain self.now.header self.now.course).groups
            figs.now self.now.course.cpu (turn_kind self.now.course) self.now.course.excluded }
    {
        let domain = &self.domains[self.course.position as usize];
        decide(
            &domain.shape,
            domain.groups.as_slice(),
            figs,
            self.course.cpu,
            turn_kind(self.course),
            self.course.excluded,
        )
    }

    /// What the take that is due asks for; None where the last look does not pull.
    pub fn env(&self) -> Option<Env>
        requires { HasDomain self.now }
        ensures { result ≡ env_of self.now.header self.now.course }
    {
        match self.course.decision {
            Some(
                Decision::Pull {
                    source: _,
                    kind,
                    imbalance,
                },
            ) => Some(Env {
                to: self.course.cpu,
                idle: self.course.idle,
                newly: turn_kind(self.course) == Kind::Idle,
                kind,
                imbalance,
                failures: self.counters().failures,
                tries: self.tries(),
            }),
            Some(Decision::NotMine | Decision::Balanced) | None => None,
        }
    }

    /// Whether a further look is due after a take: all that it examined was pinned, and a CPU of another
    /// group is left.
    pub fn looks_again(&self) -> bool
        requires { HasDomain self.now }
        ensures { result ≡ looks_again self.now.header self.now.course }
    {
        is_all_pinned(self.course) && self.others_left().first().is_some()
    }

    // The CPUs of the domain in work that are neither excluded nor of the CPU's own group.
    fn others_left(&self) -> Mask
        requires { HasDomain self.now }
        ensures { result ≡ others_left self.now.header self.now.course }
    {
        let span = self.shape().span;
        span.without(self.course.excluded)
            .without(local_group(&self.domains[self.course.position as usize]))
    }
}
