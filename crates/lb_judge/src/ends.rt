//! The rule `end`: nothing comes after it, and it names the CPUs whose active request nobody served.
ghost use Rattle.std.specs.Prelude.{◌≡◌};
ghost use Rattle.lb_core.specs.declared.rule.Rule.TheVariants as rule;
ghost use Rattle.lb_core.specs.Step.{breaks};
ghost use Rattle.lb_ready.specs.Ready.{IsReady};

use lb_core::{Entry, What};
use lb_due::unserved;
use lb_engine::Engine;

/// Whether the entry breaks the rule `end`.
pub(crate) fn breaks_end(engine: &Engine, entry: &Entry) -> bool
    requires { IsReady engine.now.machine }
    ensures { result ≡ breaks engine.now.machine entry.now rule.End }
{
    if engine.has_ended() {
        return true;
    }
    match &entry.what {
        What::End { unserved: cpus } => *cpus != unserved(engine),
        _ => false,
    }
}
