//! What the turn of a CPU that becomes idle may spend (docs/rules/counters.md).
#![tactic(auto)]

ghost use Rattle.std.specs.Prelude.{◌≡◌, ◌≤◌};
ghost use Rattle.lb_newidle.specs.Budget.{goes_on, average_after};

/// What a level costs for each CPU of its span, in nanoseconds.
pub const COST_PER_CPU: u64 = 1_000;

/// The greatest average idle time, in nanoseconds: a millisecond. A CPU starts with it.
pub const MAX_AVERAGE: u64 = 1_000_000;

/// Whether a newly-idle turn goes on to a level whose span has `weight` CPUs. `avg_idle` is the
/// average time for which the CPU stays idle, `spent` what the turn has cost so far, both in
/// nanoseconds; a level costs [`COST_PER_CPU`] for each CPU of its span (docs/rules/counters.md).
pub fn next_level(avg_idle: u64, spent: u64, weight: u32) -> bool
    ensures { result ≡ goes_on avg_idle spent weight }
{
    u128::from(avg_idle) >= u128::from(spent) + u128::from(COST_PER_CPU) * u128::from(weight)
}

/// The average idle time of a CPU after it was idle for `sample`, both in nanoseconds: it goes an
/// eighth of the way to the sample, and is at most [`MAX_AVERAGE`] (docs/rules/counters.md).
pub fn idle_average(avg: u64, sample: u64) -> u64
    ensures value { result ≡ average_after avg sample }
    ensures at_most { result ≤ MAX_AVERAGE }
{
    let moved = if sample >= avg {
        avg + (sample - avg) / 8
    } else {
        avg - (avg - sample) / 8
    };
    moved.min(MAX_AVERAGE)
}
