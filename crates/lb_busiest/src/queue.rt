//! The source queue of a group (docs/rules/decision.md).
ghost use Rattle.std.specs.Prelude.{◌≡◌, ◌+◌, ◌<◌};
ghost use Rattle.lb_base.specs.Figures.{AllHaveFigures};
ghost use Rattle.lb_base.specs.Greatest.{Picks};
ghost use Rattle.lb_busiest.specs.Sources.{can_give, has_more, may_be_source, source_of, value_of, AnswersSource};

use lb_base::{Fig, MAX_CPUS, Mask, MoveKind};

/// The CPU of `group` that a pull takes from, or None where no CPU of it has something to give
/// (docs/rules/decision.md). No CPU is excluded: pass the group without those that are.
///
/// `imbalance` is what is to move: load, utilisation or tasks, by `kind`.
pub fn source(figs: &[Fig], group: Mask, kind: MoveKind, imbalance: u64) -> Option<u32>
    requires { AllHaveFigures figs.now group }
    ensures value { result ≡ source_of figs.now group kind imbalance }
    ensures first { AnswersSource figs.now group kind imbalance result }
{
    let mut best = None;
    let mut next = group.first();
    while let Some(cpu) = next {
        best = with_cpu(figs, group, kind, imbalance, cpu, best);
        next = group.next_after(cpu);
    }
    best
}

// The source queue among the CPUs up to `cpu`.
#[tactic(auto, unfolding(crate::specs::Sources::has_more))]
fn with_cpu(
    figs: &[Fig],
    group: Mask,
    kind: MoveKind,
    imbalance: u64,
    cpu: u32,
    best: Option<u32>,
) -> Option<u32>
    requires figures { AllHaveFigures figs.now group }
    requires in_range { cpu < MAX_CPUS }
    requires so_far { Picks (may_be_source figs.now group kind imbalance) (has_more figs.now kind) cpu best }
    ensures { Picks (may_be_source figs.now group kind imbalance) (has_more figs.now kind) (cpu + 1) result }
{
    if !is_source(figs, group, kind, imbalance, cpu) {
        return best;
    }
    match best {
        None => Some(cpu),
        Some(held) => {
            if value(&figs[cpu as usize], kind) > value(&figs[held as usize], kind) {
                Some(cpu)
            } else {
                Some(held)
            }
        }
    }
}

// Whether a pull may take from the CPU.
#[tactic(auto, unfolding(crate::specs::Sources::may_be_source))]
fn is_source(figs: &[Fig], group: Mask, kind: MoveKind, imbalance: u64, cpu: u32) -> bool
    requires figures { AllHaveFigures figs.now group }
    requires in_range { cpu < MAX_CPUS }
    ensures { result ≡ may_be_source figs.now group kind imbalance cpu }
{
    if !group.has(cpu) {
        return false;
    }
    let fig = figs[cpu as usize];
    if fig.nr == 0 {
        return false;
    }
    match kind {
        MoveKind::Load => fig.load > 0 && (fig.nr != 1 || fig.load <= imbalance),
        MoveKind::Util => fig.nr > 1 && fig.util > 0,
        MoveKind::Tasks => true,
    }
}

// How much the CPU has of what is to move.
fn value(fig: &Fig, kind: MoveKind) -> u64
    ensures { result ≡ value_of kind fig.now }
{
    match kind {
        MoveKind::Load => fig.load,
        MoveKind::Util => fig.util,
        MoveKind::Tasks => fig.nr,
    }
}
