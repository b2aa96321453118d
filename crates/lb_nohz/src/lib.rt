//! Kicks of idle CPUs that have stopped their tick (docs/rules/counters.md).
#![tactic(auto)]

ghost use Rattle.std.specs.Prelude.{◌≡◌, ℕ, ◌&&◌};
ghost use Rattle.lb_base.specs.Mask.{has};
ghost use Rattle.lb_base.specs.Sets.{least};
ghost use Rattle.lb_base.specs.Figures.{fig_at, AllHaveFigures, is_tickless};
ghost use Rattle.lb_nohz.specs.Kick.{tickless_cpus};

use lb_base::{Fig, MAX_CPUS, Mask};

/// The CPU that is kicked: the least CPU of `span` whose figure has the tickless flag, or None
/// where there is none. `figs` has the figure of each CPU, from CPU 0 (docs/rules/counters.md).
pub fn kick_target(figs: &[Fig], span: Mask) -> Option<u32>
    requires { AllHaveFigures figs.now span }
    ensures { result ≡ least (tickless_cpus figs.now span) }
{
    turns(figs, span).first()
}

/// The CPUs for which a kick starts a turn: those of `span` whose figure has the tickless flag.
/// `figs` has the figure of each CPU, from CPU 0 (docs/rules/counters.md).
pub fn turns(figs: &[Fig], span: Mask) -> Mask
    requires { AllHaveFigures figs.now span }
    ensures value { result ≡ tickless_cpus figs.now span }
    ensures cpus { (k : ℕ) → has result k ≡ (has span k && is_tickless (fig_at figs.now k)) }
{
    let mut found = Mask::none();
    for cpu in 0..MAX_CPUS {
        if span.has(cpu) && tickless(&figs[cpu as usize]) {
            found = found.or(Mask::one(cpu));
        }
    }
    found
}

// The tickless flag is bit 0 of a figure's flags.
#[tactic(auto, unfolding(lb_base::specs::Figures::is_tickless))]
fn tickless(fig: &Fig) -> bool
    ensures { result ≡ is_tickless fig.now }
{
    fig.flags & 1 == 1
}
