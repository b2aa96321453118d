//! Figures that were read, as a table with a place for each CPU, and the tickless CPUs that they show.
ghost use Rattle.std.specs.Prelude.{◌≡◌, ◌==◌, find};
ghost use Rattle.lb_base.specs.Figures.{no_fig};
ghost use Rattle.lb_core.specs.Sight.{fig_or_none, by_cpu, tickless_in};
ghost use Rattle.lb_core.specs.Stage.{target_of};

use lb_base::{Fig, MAX_CPUS, Mask};
use lb_core::{Course, CpuFig};
use lb_nohz::turns;

/// Stands where a CPU has no figure.
pub const NO_FIG: Fig = Fig {
    n: 0,
    ticket: 0,
    nr: 0,
    load: 0,
    util: 0,
    runnable: 0,
    flags: 0,
};

// The figure of a CPU among those that were read.
fn fig_of(figures: &[CpuFig], cpu: u32) -> Fig
    ensures { result ≡ fig_or_none (find (λ f. f.cpu == cpu) figures.now) }
{
    for figure in figures {
        if figure.cpu == cpu {
            return figure.fig;
        }
    }
    NO_FIG
}

/// The figures that were read, one for each CPU, from CPU 0. A CPU of which none was read has none.
pub fn by_cpu(figures: &[CpuFig]) -> [Fig; MAX_CPUS as usize]
    ensures { result ≡ by_cpu figures.now }
{
    let mut figs = [NO_FIG; MAX_CPUS as usize];
    for cpu in 0..MAX_CPUS as usize {
        figs[cpu] = fig_of(figures, cpu as u32);
    }
    figs
}

/// The CPUs that the figures of a scan show tickless.
#[tactic(auto, unfolding(lb_core::specs::Sight::tickless_in))]
pub fn tickless_in(figures: &[CpuFig]) -> Mask
    ensures { result ≡ tickless_in figures.now }
{
    turns(&by_cpu(figures), Mask::all(MAX_CPUS))
}

/// The CPU that the scan found: the least of those that its figures show tickless.
pub fn target_of(course: &Course) -> Option<u32>
    ensures { result ≡ target_of course.now }
{
    tickless_in(course.figures.as_slice()).first()
}
