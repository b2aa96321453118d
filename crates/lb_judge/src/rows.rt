//! The rule `row`: the next number, and what is declared.
ghost use Rattle.std.specs.Prelude.{◌≡◌, ◌==◌, ◌+◌, false};
ghost use Rattle.lb_core.specs.declared.rule.Rule.TheVariants as rule;
ghost use Rattle.lb_core.specs.Step.{breaks};
ghost use Rattle.lb_ready.specs.Ready.{IsReady};

use lb_core::{Entry, What};
use lb_due::{is_undeclared, ticked_elsewhere};
use lb_engine::Engine;

/// Whether the entry breaks the rule `row`.
#[tactic(auto, unfolding(lb_core::specs::Machine::sight))]
pub(crate) fn breaks_row(engine: &Engine, entry: &Entry) -> bool
    requires ready { IsReady engine.now.machine }
    requires stage { breaks engine.now.machine entry.now rule.Stage ≡ false }
    ensures { result ≡ breaks engine.now.machine entry.now rule.Row }
{
    match &entry.what {
        What::Row {
            number,
            at: _,
            command,
        } => {
            !is_next(*number, engine.course(entry.lane).rows)
                || is_undeclared(engine, command)
                || ticked_elsewhere(engine, entry.lane, command)
        }
        _ => false,
    }
}

/// Whether a number is the next one after another.
pub(crate) fn is_next(number: u64, last: u64) -> bool
    ensures { result ≡ (number == last + 1) }
{
    number > 0 && number - 1 == last
}
