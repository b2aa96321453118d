//! Whether a CPU is the one that balances for its group (docs/rules/decision.md).
ghost use Rattle.std.specs.Prelude.{◌≡◌, ◌<◌, length, true};
ghost use Rattle.lb_base.specs.Mask.{has};
ghost use Rattle.lb_base.specs.Figures.{AllHaveFigures};
ghost use Rattle.lb_imbalance.specs.Destination.{balancer_of, first_idle, is_busy, may_balance};

use lb_base::{Fig, Kind, MAX_CPUS, Mask};

/// Whether the destination has tasks, and did not become idle just now (docs/rules/decision.md).
/// `figs` has the figure of each CPU, from CPU 0.
pub fn busy(kind: Kind, figs: &[Fig], cpu: u32) -> bool
    requires { cpu < length figs.now }
    ensures { result ≡ is_busy kind figs.now cpu }
{
    match kind {
        Kind::Idle => false,
        Kind::Tick | Kind::Nohz => figs[cpu as usize].nr > 0,
    }
}

/// Whether the CPU is the one that balances for its group.
#[tactic(auto, using(crate::proofs::Groups::below_all))]
pub fn balances(kind: Kind, figs: &[Fig], group: Mask, cpu: u32) -> bool
    requires { AllHaveFigures figs.now group }
    ensures value { result ≡ may_balance kind figs.now group cpu }
    ensures below { has group cpu ≡ true → cpu < MAX_CPUS }
{
    match kind {
        Kind::Idle => true,
        Kind::Tick | Kind::Nohz => match balancer(figs, group) {
            Some(balancer) => balancer == cpu,
            None => false,
        },
    }
}

// The first idle CPU of the group, or its first one where none is idle.
#[tactic(auto, unfolding(crate::specs::Destination::balancer_of))]
fn balancer(figs: &[Fig], group: Mask) -> Option<u32>
    requires { AllHaveFigures figs.now group }
    ensures { result ≡ balancer_of figs.now group }
{
    match first_idle(figs, group) {
        Some(cpu) => Some(cpu),
        None => group.first(),
    }
}

fn first_idle(figs: &[Fig], group: Mask) -> Option<u32>
    requires { AllHaveFigures figs.now group }
    ensures { result ≡ first_idle figs.now group }
{
    let mut next = group.first();
    while let Some(cpu) = next {
        if figs[cpu as usize].nr == 0 {
            return Some(cpu);
        }
        next = group.next_after(cpu);
    }
    None
}
