//! The rule `version`: a published one, and none older than the lane used or published.
ghost use Rattle.std.specs.Prelude.{◌≡◌, false};
ghost use Rattle.lb_core.specs.declared.rule.Rule.TheVariants as rule;
ghost use Rattle.lb_core.specs.Step.{breaks};
ghost use Rattle.lb_ready.specs.Ready.{IsReady};

use lb_core::{Entry, What};
use lb_engine::Engine;

/// Whether the entry breaks the rule `version`.
#[tactic(auto, unfolding(lb_core::specs::Machine::sight))]
pub(crate) fn breaks_version(engine: &Engine, entry: &Entry) -> bool
    requires ready { IsReady engine.now.machine }
    requires stage { breaks engine.now.machine entry.now rule.Stage ≡ false }
    ensures { result ≡ breaks engine.now.machine entry.now rule.Version }
{
    match &entry.what {
        What::Adopt {
            version,
            kind: _,
            cpu: _,
        } => {
            *version < engine.course(entry.lane).named_version.max(1) || *version > engine.version()
        }
        _ => false,
    }
}
