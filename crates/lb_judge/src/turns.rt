//! The rule `counters`: the positions of a turn, and how one of them ends.
ghost use Rattle.std.specs.Prelude.{◌≡◌, false};
ghost use Rattle.lb_core.specs.declared.rule.Rule.TheVariants as rule;
ghost use Rattle.lb_core.specs.Step.{breaks};
ghost use Rattle.lb_ready.specs.Ready.{IsReady};

use lb_core::{Entry, What};
use lb_due::{counters_due, positions_due, queue_of, word_due};
use lb_engine::Engine;
use lb_ready::laws::calls_may_be_made;

/// Whether the entry breaks the rule `counters`.
#[tactic(auto, unfolding(lb_core::specs::Machine::sight, lb_core::specs::Rules::closed_counters))]
pub(crate) fn breaks_counters(engine: &Engine, entry: &Entry) -> bool
    requires ready { IsReady engine.now.machine }
    requires stage { breaks engine.now.machine entry.now rule.Stage ≡ false }
    requires reply { breaks engine.now.machine entry.now rule.Reply ≡ false }
    ensures { result ≡ breaks engine.now.machine entry.now rule.Counters }
{
    // a turn that a lane may open meets what the queue asks
    calls_may_be_made();
    let course = engine.course(entry.lane);
    match &entry.what {
        What::Turn { positions } => {
            *positions != positions_due(engine, course, queue_of(engine, entry.owner))
        }
        What::Close {
            position: _,
            outcome: word,
            interval,
            failures,
        } => {
            let counters = counters_due(engine, course, queue_of(engine, entry.owner));
            *word != word_due(engine, course)
                || *interval != counters.interval
                || *failures != counters.failures
        }
        _ => false,
    }
}
