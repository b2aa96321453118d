//! When a position of a CPU's domains is balanced next, and how often its balancing failed: the
//! counters of a position (docs/rules/counters.md).
#![tactic(auto)]

ghost use Rattle.std.specs.Prelude.{◌≡◌, ◌≤◌};
ghost use Rattle.lb_interval.specs.After.{fresh_counters, is_due, failures_after, idle_failures, interval_after, flag_after, counters_after};

use lb_base::Kind;

/// A busy CPU waits so many intervals, less a millisecond.
pub const BUSY_FACTOR: u128 = 16;

/// No position waits longer than so many milliseconds for each CPU of the machine.
pub const WAIT_PER_CPU: u128 = 100;

/// An interval below so many milliseconds is doubled where affinity hinders.
pub const PINNED_BELOW: u64 = 512;

/// The balance counters of a position (docs/rules/counters.md).
#[derive(Clone, Copy, Debug, PartialEq, Eq)]
pub struct Counters {
    /// When the position was last balanced, in milliseconds.
    pub last: u64,
    /// How long it waits from then on, in milliseconds.
    pub interval: u64,
    /// How many balancings in a row took nothing.
    pub failures: u32,
    /// The imbalance flag: the last take was hindered by affinity.
    pub imb: bool,
}

/// What the balancing of a position came to (docs/rules/counters.md).
#[derive(Clone, Copy, Debug, PartialEq, Eq)]
pub enum Outcome {
    /// Another CPU of the group is to balance it.
    NotMine,
    /// The first look found nothing to even out.
    Balanced,
    /// The last take took that many tasks, at least one.
    Moved(u32),
    /// Affinity hindered every task of a source, and no further source was left.
    Pinned,
    /// The last take took nothing.
    Failed,
    /// The same once too often: the source is asked to push its tasks.
    Asking,
}

/// The counters of a new position at `now_ms`, in milliseconds; `weight` is the number of CPUs of
/// its span.
pub fn fresh(weight: u32, now_ms: u64) -> Counters
    ensures { result ≡ fresh_counters weight now_ms }
{
    Counters {
        last: now_ms,
        interval: u64::from(weight),
        failures: 0,
        imb: false,
    }
}

/// Whether the position is due at `now_ms`, in milliseconds. `busy` says that somebody is awake on
/// the CPU, `cpus` is the number of the machine's CPUs (docs/rules/counters.md).
pub fn due(c: &Counters, busy: bool, cpus: u32, now_ms: u64) -> bool
    requires { 1 ≤ cpus }
    ensures { result ≡ is_due c.now busy cpus now_ms }
{
    let plain = u128::from(c.interval);
    let stretched = if busy {
        (plain * BUSY_FACTOR).saturating_sub(1)
    } else {
        plain
    };
    let wait = stretched.max(1).min(WAIT_PER_CPU * u128::from(cpus));
    u128::from(c.last) + wait <= u128::from(now_ms)
}

/// The counters after an outcome at `now_ms`, in milliseconds. `imb` is what the position's last
/// take says of the imbalance flag, None without a take; `weight` is the number of CPUs of the
/// span, `tries` the domain's cache tries (docs/rules/counters.md).
#[tactic(auto, unfolding(crate::specs::After::counters_after))]
pub fn after(
    c: &Counters,
    kind: Kind,
    outcome: Outcome,
    imb: Option<bool>,
    weight: u32,
    tries: u32,
    now_ms: u64,
) -> Counters
    ensures { result ≡ counters_after c.now kind outcome imb weight tries now_ms }
{
    let imb = flag(outcome, imb, c.imb);
    match kind {
        Kind::Idle => Counters {
            last: c.last,
            interval: c.interval,
            failures: failures_at_idle(outcome, c.failures, tries),
            imb,
        },
        Kind::Tick | Kind::Nohz => Counters {
            last: now_ms,
            interval: interval(outcome, c.interval, weight),
            failures: failures(outcome, c.failures, tries),
            imb,
        },
    }
}

fn failures(outcome: Outcome, failures: u32, tries: u32) -> u32
    ensures { result ≡ failures_after outcome failures tries }
{
    match outcome {
        Outcome::NotMine => failures,
        Outcome::Balanced | Outcome::Moved(_) | Outcome::Pinned => 0,
        Outcome::Failed => failures.saturating_add(1),
        Outcome::Asking => tries.saturating_add(1),
    }
}

fn failures_at_idle(outcome: Outcome, failed: u32, tries: u32) -> u32
    ensures { result ≡ idle_failures outcome failed tries }
{
    match outcome {
        Outcome::Failed => failed,
        Outcome::NotMine
        | Outcome::Balanced
        | Outcome::Moved(_)
        | Outcome::Pinned
        | Outcome::Asking => failures(outcome, failed, tries),
    }
}

fn interval(outcome: Outcome, interval: u64, weight: u32) -> u64
    ensures { result ≡ interval_after outcome interval weight }
{
    let weight = u64::from(weight);
    match outcome {
        Outcome::NotMine => interval,
        Outcome::Balanced => {
            if interval < 2 * weight {
                2 * interval
            } else {
                interval
            }
        }
        Outcome::Pinned => {
            if interval < 2 * weight || interval < PINNED_BELOW {
                2 * interval
            } else {
                interval
            }
        }
        Outcome::Moved(_) | Outcome::Failed | Outcome::Asking => weight,
    }
}

fn flag(outcome: Outcome, said: Option<bool>, old: bool) -> bool
    ensures { result ≡ flag_after outcome said old }
{
    match said {
        Some(said) => said,
        None => match outcome {
            Outcome::Balanced => false,
            Outcome::NotMine
            | Outcome::Moved(_)
            | Outcome::Pinned
            | Outcome::Failed
            | Outcome::Asking => old,
        },
    }
}
