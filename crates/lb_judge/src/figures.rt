//! The rules `figure` and `decision`: which figures a look and a scan read, and what these decide.
ghost use Rattle.std.specs.Prelude.{◌≡◌, ◌||◌, nat_lt, map, false};
ghost use Rattle.std.specs.List.{list_any};
ghost use Rattle.lb_base.specs.Mask.{members};
ghost use Rattle.lb_core.specs.declared.rule.Rule.TheVariants as rule;
ghost use Rattle.lb_core.specs.Course.{named_at};
ghost use Rattle.lb_core.specs.Same.{same_numbers};
ghost use Rattle.lb_core.specs.Sight.{Sight};
ghost use Rattle.lb_core.specs.Rules.{are_wrong};
ghost use Rattle.lb_core.specs.Machine.{entries_at};
ghost use Rattle.lb_core.specs.Step.{breaks};
ghost use Rattle.lb_ready.specs.Ready.{IsReady};
ghost use Rattle.lb_turn.specs.Turns.{HasDue};
ghost use Rattle.lb_engine.specs.Asks.{HasTurn};

use lb_base::Mask;
use lb_core::{Course, Entry, FigName, What};
use lb_due::{decision_among, entries_at, figures_due, target_among};
use lb_engine::Engine;
use lb_ready::laws::calls_may_be_made;

/// Whether the entry breaks the rule `figure`.
#[tactic(auto, unfolding(lb_core::specs::Machine::sight))]
pub(crate) fn breaks_figure(engine: &Engine, entry: &Entry) -> bool
    requires ready { IsReady engine.now.machine }
    requires stage { breaks engine.now.machine entry.now rule.Stage ≡ false }
    ensures { result ≡ breaks engine.now.machine entry.now rule.Figure }
{
    let course = engine.course(entry.lane);
    match &entry.what {
        What::Look {
            position: _,
            excluded: _,
            figures,
            decision: _,
        } => are_wrong(engine, course, figures.as_slice()),
        What::Scan { figures, target: _ } => are_wrong(engine, course, figures.as_slice()),
        _ => false,
    }
}

// Whether the figures are not those that are due, or one is older than the lane named, or not published.
fn are_wrong(engine: &Engine, course: &Course, names: &[FigName]) -> bool
    requires ready { IsReady engine.now.machine }
    requires turn { HasTurn engine.now.machine course.now }
    requires due { HasDue course.now.form engine.now.machine.header course.now }
    ensures { (s : Sight) → s.header ≡ engine.now.machine.header → s.course ≡ course.now
        → result ≡ (are_wrong s names.now || list_any (λ f. nat_lt (entries_at engine.now.machine f.cpu) f.n) names.now) }
{
    if !are_of(names, figures_due(engine, course)) {
        return true;
    }
    are_old(names, course) || are_unpublished(engine, names)
}

// Whether there is one name for each CPU of the mask, in their order.
fn are_of(names: &[FigName], mask: Mask) -> bool
    ensures { result ≡ same_numbers (map (λ f. f.cpu) names.now) (members mask) }
{
    let mut next = mask.first();
    for name in names {
        if next != Some(name.cpu) {
            return false;
        }
        next = mask.next_after(name.cpu);
    }
    next.is_none()
}

// Whether the lane drew or named a newer figure of one of the CPUs.
fn are_old(names: &[FigName], course: &Course) -> bool
    ensures { result ≡ list_any (λ f. nat_lt f.n (named_at course.now f.cpu)) names.now }
{
    names.iter().any(|name| name.n < named_at(course, name.cpu))
}

// The greatest number of a CPU's figures that the lane drew or named.
fn named_at(course: &Course, cpu: u32) -> u64
    ensures { result ≡ named_at course.now cpu }
{
    match course.named.as_slice().get(cpu as usize) {
        None => 0,
        Some(number) => *number,
    }
}

// Whether one of the figures is not published.
fn are_unpublished(engine: &Engine, names: &[FigName]) -> bool
    requires { IsReady engine.now.machine }
    ensures { result ≡ list_any (λ f. nat_lt (entries_at engine.now.machine f.cpu) f.n) names.now }
{
    names
        .iter()
        .any(|name| name.n > entries_at(engine, name.cpu))
}

/// Whether the entry breaks the rule `decision`.
#[tactic(auto, unfolding(lb_core::specs::Machine::sight))]
pub(crate) fn breaks_decision(engine: &Engine, entry: &Entry) -> bool
    requires ready { IsReady engine.now.machine }
    requires stage { breaks engine.now.machine entry.now rule.Stage ≡ false }
    requires figure { breaks engine.now.machine entry.now rule.Figure ≡ false }
    ensures { result ≡ breaks engine.now.machine entry.now rule.Decision }
{
    // a look at the figures that are due meets what a decision asks
    calls_may_be_made();
    let course = engine.course(entry.lane);
    match &entry.what {
        What::Look {
            position,
            excluded,
            figures,
            decision,
        } => {
            *position != course.position
                || *excluded != course.excluded
                || *decision != decision_among(engine, course, figures.as_slice())
        }
        What::Scan { figures, target } => *target != target_among(engine, figures.as_slice()),
        What::Close {
            position,
            outcome: _,
            interval: _,
            failures: _,
        } => *position != course.position,
        _ => false,
    }
}
