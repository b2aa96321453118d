//! The statistics of a group, from the figures of its CPUs (docs/rules/decision.md).
ghost use Rattle.std.specs.Prelude.{◌≡◌, ◌+◌, ◌<◌, ◌≤◌, ◌^◌, ◌||◌, if◌then◌else◌, length, take, drop, All};
ghost use Rattle.lb_base.specs.Mask.{without};
ghost use Rattle.lb_base.specs.Figures.{AllHaveFigures, total};
ghost use Rattle.lb_stats.specs.Statistics.{average_of, stats_of, stats_of_groups, any_marked, idle_count, is_idle, is_marked, HasSmallSums};

use crate::types::classify;
use lb_base::{Fig, MAX_CPUS, Mask, Stats};

/// The statistics of the CPUs of `group`, in a domain at `position` whose imbalance percentage is
/// `pct` (docs/rules/decision.md). No CPU is excluded: pass the group without those that are.
#[tactic(auto, unfolding(crate::specs::Statistics::stats_of))]
pub fn group_stats(figs: &[Fig], group: Mask, position: u32, pct: u64) -> Stats
    requires figures { AllHaveFigures figs.now group }
    requires sums { HasSmallSums figs.now group }
    ensures { result ≡ stats_of figs.now group position pct }
{
    let sums = sums_of(figs, group, position);
    let weight = group.weight();
    let cap = 1024 * u64::from(weight);
    Stats {
        nr: sums.nr,
        load: sums.load,
        util: sums.util,
        runnable: sums.runnable,
        cap,
        weight,
        idle: sums.idle,
        avg: average(sums.load, cap),
        group: classify(
            sums.nr,
            weight,
            cap,
            sums.util,
            sums.runnable,
            sums.marked,
            pct,
        ),
    }
}

/// Sets the first places of `row` to the statistics of the groups, in their order, in a domain at
/// `position` whose imbalance percentage is `pct` (docs/rules/decision.md). The `excluded` CPUs count
/// nowhere. The other places stay as they are, and no memory is taken.
pub fn stats_row(
    figs: &[Fig],
    groups: &[Mask],
    excluded: Mask,
    position: u32,
    pct: u64,
    row: &mut [Stats],
)
    requires figures { All (λ g. AllHaveFigures figs.now (without g excluded)) groups.now }
    requires sums { All (λ g. HasSmallSums figs.now (without g excluded)) groups.now }
    requires places { length groups.now ≤ length row.old }
    ensures groups { take (length groups.now) row.new ≡ stats_of_groups figs.now groups.now excluded position pct }
    ensures rest { drop (length groups.now) row.new ≡ drop (length groups.now) row.old }
{
    for i in 0..groups.len() {
        let group = groups[i].without(excluded);
        row[i] = group_stats(figs, group, position, pct);
    }
}

// What is counted over the CPUs of a group.
#[derive(Clone, Copy, Debug)]
struct Sums {
    nr: u64,
    load: u64,
    util: u64,
    runnable: u64,
    idle: u32,
    marked: bool,
}

impl Sums {
    // The sums with one more CPU.
    fn add(&mut self, fig: &Fig, position: u32)
        requires nr { self.old.nr + fig.now.nr < 2 ^ 64 }
        requires load { self.old.load + fig.now.load < 2 ^ 64 }
        requires util { self.old.util + fig.now.util < 2 ^ 64 }
        requires runnable { self.old.runnable + fig.now.runnable < 2 ^ 64 }
        requires idle { self.old.idle < MAX_CPUS }
        ensures nr { self.new.nr ≡ self.old.nr + fig.now.nr }
        ensures load { self.new.load ≡ self.old.load + fig.now.load }
        ensures util { self.new.util ≡ self.old.util + fig.now.util }
        ensures runnable { self.new.runnable ≡ self.old.runnable + fig.now.runnable }
        ensures idle { self.new.idle ≡ self.old.idle + (if is_idle fig.now then 1 else 0) }
        ensures marked { self.new.marked ≡ (self.old.marked || is_marked position fig.now) }
    {
        self.nr += fig.nr;
        self.load += fig.load;
        self.util += fig.util;
        self.runnable += fig.runnable;
        self.idle += if fig.nr == 0 { 1 } else { 0 };
        self.marked |= marked(fig, position);
    }
}

// Whether the domain below the one at `position` is marked imbalanced.
#[tactic(auto, using(crate::proofs::Flags::marked_high, crate::proofs::Flags::marked_bit))]
fn marked(fig: &Fig, position: u32) -> bool
    ensures { result ≡ is_marked position fig.now }
{
    let flags = fig.flags;
    if position == 0 {
        return false;
    }
    if position > 56 {
        return false;
    }
    (flags >> (7 + position)) & 1 == 1
}

fn sums_of(figs: &[Fig], group: Mask, position: u32) -> Sums
    requires figures { AllHaveFigures figs.now group }
    requires sums { HasSmallSums figs.now group }
    ensures nr { result.nr ≡ total (λ fig. fig.nr) figs.now group }
    ensures load { result.load ≡ total (λ fig. fig.load) figs.now group }
    ensures util { result.util ≡ total (λ fig. fig.util) figs.now group }
    ensures runnable { result.runnable ≡ total (λ fig. fig.runnable) figs.now group }
    ensures idle { result.idle ≡ idle_count figs.now group }
    ensures marked { result.marked ≡ any_marked position figs.now group }
{
    let mut sums = Sums {
        nr: 0,
        load: 0,
        util: 0,
        runnable: 0,
        idle: 0,
        marked: false,
    };
    let mut next = group.first();
    while let Some(cpu) = next {
        sums.add(&figs[cpu as usize], position);
        next = group.next_after(cpu);
    }
    sums
}

// The load of one CPU's capacity.
fn average(load: u64, cap: u64) -> u64
    requires { load < 2 ^ 40 }
    ensures { result ≡ average_of load cap }
{
    if cap == 0 { 0 } else { load * 1024 / cap }
}
