//! What the turn of a course fixes: its positions, and how one of them ends.
ghost use Rattle.std.specs.Prelude.{◌≡◌, false, is_some};
ghost use Rattle.lb_imbalance.specs.Decision.{decision};
ghost use Rattle.lb_queue.specs.Turns.{opens};
ghost use Rattle.lb_core.specs.Course.{env_of, looks_again, outcome_of, turn_domain, turn_domains, shapes_of, turn_kind};
ghost use Rattle.lb_core.specs.Rules.{closed_counters, figures_due, positions_due, word_of};
ghost use Rattle.lb_core.specs.Sight.{Sight};
ghost use Rattle.lb_ready.specs.Calls.{TurnAsks};
ghost use Rattle.lb_ready.specs.Next.{bare};
ghost use Rattle.lb_turn.specs.Turns.{HasDue, MayDecide};
ghost use Rattle.lb_engine.specs.Asks.{HasTurn, HasPosition};

use lb_act::counters_left;
use lb_base::{Fig, Mask};
use lb_core::{Course, OutcomeWord, What};
use lb_course::turn_kind;
use lb_detach::Env;
use lb_engine::Engine;
use lb_imbalance::Decision;
use lb_interval::Counters;
use lb_queue::{Queue, TurnReply};
use lb_turn::{Turn, flag, word_of};

// The turn of a course.
fn turn_of<'a>(engine: &'a Engine, course: &'a Course) -> Turn<'a>
    requires { HasTurn engine.now.machine course.now }
    ensures { result ≡ record { header = engine.now.machine.header; course = course.now } }
{
    Turn::new(engine.header(), engine.topology_of(course.version), course)
}

/// Whether a further look is due after a take.
pub fn looks_again(engine: &Engine, course: &Course) -> bool
    requires { HasPosition engine.now.machine course.now }
    ensures { result ≡ looks_again engine.now.machine.header course.now }
{
    turn_of(engine, course).looks_again()
}

/// What the take that is due asks for; None where the last look does not pull.
pub fn env_due(engine: &Engine, course: &Course) -> Option<Env>
    requires { HasPosition engine.now.machine course.now }
    ensures { result ≡ env_of engine.now.machine.header course.now }
{
    turn_of(engine, course).env()
}

/// The word for how the position in work ends, if it ends now.
pub fn word_due(engine: &Engine, course: &Course) -> OutcomeWord
    requires { HasPosition engine.now.machine course.now }
    ensures { result ≡ word_of (outcome_of engine.now.machine.header course.now) }
{
    word_of(turn_of(engine, course).outcome())
}

/// What the queue of the turn's CPU answers to the turn that is due.
pub fn turn_due(engine: &Engine, course: &Course, queue: &Queue) -> TurnReply
    requires turn { HasTurn engine.now.machine course.now }
    requires asks { TurnAsks (bare engine.now.machine course.now queue.now.state) }
    ensures { result ≡ opens queue.now.state course.now.at (turn_kind course.now) course.now.version
        (shapes_of (turn_domains engine.now.machine.header course.now)) }
{
    let shapes = turn_of(engine, course).shapes();
    queue.opens(
        course.at,
        turn_kind(course),
        course.version,
        shapes.as_slice(),
    )
}

/// The positions of the turn that is due, where no turn is open.
pub fn positions_due(engine: &Engine, course: &Course, queue: &Queue) -> Mask
    requires turn { HasTurn engine.now.machine course.now }
    requires asks { TurnAsks (bare engine.now.machine course.now queue.now.state) }
    requires none { is_some queue.now.state.open_turn ≡ false }
    ensures { result ≡ positions_due (bare engine.now.machine course.now queue.now.state) }
{
    match turn_due(engine, course, queue) {
        TurnReply::Opened(positions) => positions,
        TurnReply::TurnOpen => unreachable!(),
    }
}

/// The counters that the position in work leaves, if it ends now.
#[tactic(auto, unfolding(lb_core::specs::Rules::closed_counters))]
pub fn counters_due(engine: &Engine, course: &Course, queue: &Queue) -> Counters
    requires { HasPosition engine.now.machine course.now }
    ensures { result ≡ closed_counters (bare engine.now.machine course.now queue.now.state) }
{
    let turn = turn_of(engine, course);
    counters_left(
        queue,
        course.at,
        &turn.shape(),
        turn.outcome(),
        flag(course),
    )
}

/// The CPUs whose figures are due.
pub fn figures_due(engine: &Engine, course: &Course) -> Mask
    requires turn { HasTurn engine.now.machine course.now }
    requires due { HasDue course.now.form engine.now.machine.header course.now }
    ensures { (s : Sight) → s.header ≡ engine.now.machine.header → s.course ≡ course.now → result ≡ figures_due s.course.form s }
{
    turn_of(engine, course).figures_due()
}

/// What figures, one for each CPU, decide about the position in work.
pub fn decision_by(engine: &Engine, course: &Course, figs: &[Fig]) -> Decision
    requires position { HasPosition engine.now.machine course.now }
    requires asks { MayDecide (turn_domain engine.now.machine.header course.now) figs.now course.now }
    ensures { result ≡ decision
        (turn_domain engine.now.machine.header course.now).shape
        (turn_domain engine.now.machine.header course.now).groups
        figs.now course.now.cpu (turn_kind course.now) course.now.excluded }
{
    turn_of(engine, course).decision(figs)
}
