//! The last figures, and what named figures decide.
ghost use Rattle.std.specs.Prelude.{◌≡◌, ◌==◌, ◌<◌, find, IfOk};
ghost use Rattle.std.specs.List.{slice_index_or};
ghost use Rattle.lb_base.specs.Figures.{no_fig};
ghost use Rattle.lb_base.specs.Mask.{members};
ghost use Rattle.lb_base.specs.Sets.{least};
ghost use Rattle.lb_imbalance.specs.Decision.{decision};
ghost use Rattle.lb_core.specs.Course.{turn_kind, turn_domain};
ghost use Rattle.lb_core.specs.Sight.{by_cpu, fig_or_none, tickless_in};
ghost use Rattle.lb_core.specs.Machine.{entries_at, figures_at, figures_named};
ghost use Rattle.lb_ready.specs.Ready.{IsReady};
ghost use Rattle.lb_ready.specs.Calls.{DecideAsks};
ghost use Rattle.lb_ready.specs.Next.{newest};
ghost use Rattle.lb_engine.specs.Asks.{HasPosition};
ghost use Rattle.lb_due.specs.Turns.{named_sight};

use crate::turns::decision_by;
use lb_base::{Fig, Items, MAX_CPUS, Mask, NoMemory};
use lb_core::{Course, FigName, FigNames, What};
use lb_course::NO_FIG;
use lb_engine::Engine;
use lb_imbalance::Decision;
use lb_nohz::kick_target;
use std::alloc::Global;

/// How many entries a queue drew: the number of its last figure. A CPU past the machine has none.
pub fn entries_at(engine: &Engine, cpu: u32) -> u64
    requires { IsReady engine.now.machine }
    ensures { result ≡ entries_at engine.now.machine cpu }
{
    if cpu >= engine.cpus() {
        return 0;
    }
    (engine.figures(cpu).len() as u64).saturating_sub(1)
}

/// The names of the last figures that are due.
pub fn newest(alloc: Global, engine: &Engine, mask: Mask) -> Result<FigNames, NoMemory>
    requires { IsReady engine.now.machine }
    ensures { IfOk result (λ names. names ≡ newest engine.now.machine (members mask)) }
{
    let mut names = Items::new(alloc);
    let mut next = mask.first();
    while let Some(cpu) = next {
        names.push(FigName {
            cpu,
            n: entries_at(engine, cpu),
        })?;
        next = mask.next_after(cpu);
    }
    Ok(names)
}

// The figure of a CPU among those that are named.
fn fig_of(engine: &Engine, names: &[FigName], cpu: u32) -> Fig
    requires { IsReady engine.now.machine }
    ensures { result ≡ fig_or_none (find (λ f. f.cpu == cpu) (figures_named engine.now.machine.figures names.now)) }
{
    for name in names {
        if name.cpu == cpu {
            return figure_at(engine, cpu, name.n);
        }
    }
    NO_FIG
}

// A figure of a CPU by its number, or none.
fn figure_at(engine: &Engine, cpu: u32, number: u64) -> Fig
    requires { IsReady engine.now.machine }
    ensures { result ≡ slice_index_or (figures_at engine.now.machine.figures cpu) number no_fig }
{
    if cpu >= engine.cpus() {
        return NO_FIG;
    }
    match engine.figures(cpu).get(number as usize) {
        None => NO_FIG,
        Some(fig) => *fig,
    }
}

/// The named figures, one for each CPU, from CPU 0. A CPU that is not named has none.
pub fn figs_named(engine: &Engine, names: &[FigName]) -> [Fig; MAX_CPUS as usize]
    requires { IsReady engine.now.machine }
    ensures { result ≡ by_cpu (figures_named engine.now.machine.figures names.now) }
{
    let mut figs = [NO_FIG; MAX_CPUS as usize];
    for cpu in 0..MAX_CPUS {
        figs[cpu as usize] = fig_of(engine, names, cpu);
    }
    figs
}

/// The least CPU that the named figures show tickless.
#[tactic(auto, unfolding(lb_core::specs::Sight::tickless_in))]
pub fn target_among(engine: &Engine, names: &[FigName]) -> Option<u32>
    requires { IsReady engine.now.machine }
    ensures { result ≡ least (tickless_in (figures_named engine.now.machine.figures names.now)) }
{
    kick_target(&figs_named(engine, names), Mask::all(MAX_CPUS))
}

/// What the named figures decide about the position in work.
pub fn decision_among(engine: &Engine, course: &Course, names: &[FigName]) -> Decision
    requires ready { IsReady engine.now.machine }
    requires position { HasPosition engine.now.machine course.now }
    requires asks { DecideAsks (named_sight engine.now.machine course.now names.now) }
    ensures { result ≡ decision
        (turn_domain engine.now.machine.header course.now).shape
        (turn_domain engine.now.machine.header course.now).groups
        (by_cpu (figures_named engine.now.machine.figures names.now))
        course.now.cpu (turn_kind course.now) course.now.excluded }
{
    decision_by(engine, course, &figs_named(engine, names))
}
