//! The load signals of a task: their sums, how they advance, their values (docs/rules/signals.md).
ghost use Rattle.std.specs.Prelude.{◌≡◌, ◌==◌, ◌&&◌, ◌≤◌, ◌<◌, ◌^◌, ℕ};
ghost use Rattle.lb_pelt.specs.Signal.{kept, contribution, awake_share, running_share, zero_signal, advanced, signal_value, IsBounded, IsWithin};

use crate::decaying::decay;
use std::marker::Model;

/// What a task did since its signal was last advanced.
#[derive(Clone, Copy, Debug, PartialEq, Eq)]
pub enum Run {
    /// It slept.
    Asleep,
    /// It was awake and waited for the CPU.
    Waiting,
    /// It was awake and had the CPU.
    Running,
}

/// The load signal of a task: how much of the recent past it was awake, and how much of it it ran.
/// Every signal keeps the bounds of docs/rules/signals.md.
#[derive(Clone, Copy, Debug, PartialEq, Eq)]
pub struct Signal {
    /// The moment up to which time is counted, in nanoseconds.
    pub stamp: u64,
    /// How much of the current period is counted, in units of 1,024 ns; below 1,024.
    pub part: u32,
    /// The decayed units in which the task was awake; at most `46718 + part`.
    pub load_sum: u64,
    /// The same in 1/1024 of a unit.
    pub runnable_sum: u64,
    /// The decayed units in which the task ran, in 1/1024 of a unit.
    pub util_sum: u64,
}

impl Model for Signal {
    ghost use Rattle.lb_pelt.specs.Signal.{Sums, IsBounded};

    ghost Value = { Sums };

    ghost view = { λ s. record { stamp = s.stamp; part = s.part; load_sum = s.load_sum; runnable_sum = s.runnable_sum; util_sum = s.util_sum } };

    ghost invariant = { λ s. IsBounded (record {
      stamp = s.stamp;
      part = s.part;
      load_sum = s.load_sum;
      runnable_sum = s.runnable_sum;
      util_sum = s.util_sum;
    }) };

    ghost inverse = { λ v. record { stamp = v.stamp; part = v.part; load_sum = v.load_sum; runnable_sum = v.runnable_sum; util_sum = v.util_sum } };
}

impl Signal {
    /// The signal that every task begins with.
    pub fn zero() -> Signal
        ensures { result ≡ zero_signal }
    {
        Signal {
            stamp: 0,
            part: 0,
            load_sum: 0,
            runnable_sum: 0,
            util_sum: 0,
        }
    }

    // Whether nothing is left of the time in which the task was awake.
    fn is_nothing(&self) -> bool
        ensures { result ≡ (self.now.load_sum == 0 && self.now.runnable_sum == 0 && self.now.util_sum == 0) }
    {
        self.load_sum == 0 && self.runnable_sum == 0 && self.util_sum == 0
    }
}

/// What a signal says at one moment (docs/rules/signals.md).
#[derive(Clone, Copy, Debug, PartialEq, Eq)]
pub struct Value {
    /// The task's weight times the part of the recent past in which it was awake; at most its
    /// weight.
    pub load: u64,
    /// The part of the recent past in which the task was awake, in 1/1024; at most 1,025.
    pub runnable: u64,
    /// The part of the recent past in which the task ran, in 1/1024 of a CPU; at most 1,025.
    pub util: u64,
}

/// The signal at the moment `now`, in nanoseconds, after a time of `run` since its stamp. Whole
/// units alone are counted; a moment before the stamp changes nothing (docs/rules/signals.md).
#[tactic(auto, unfolding(crate::specs::Signal::advanced, crate::specs::Signal::advanced_by))]
pub fn advance(s: &Signal, run: Run, now: u64) -> Signal
    ensures value { result ≡ advanced s.now run now }
    ensures bounds { IsBounded result }
{
    let units = now.saturating_sub(s.stamp) / 1024;
    if units == 0 {
        return *s;
    }
    let part = u64::from(s.part);
    let reached = part + units;
    let periods = reached / 1024;
    let awake = when_awake(run, part, units);
    let running = when_running(run, awake);
    Signal {
        stamp: s.stamp + 1024 * units,
        part: (reached % 1024) as u32,
        load_sum: keep(s.load_sum, periods) + awake,
        runnable_sum: keep(s.runnable_sum, periods) + 1024 * awake,
        util_sum: keep(s.util_sum, periods) + 1024 * running,
    }
}

// What a sum keeps over some periods. Of nothing nothing is left.
#[tactic(auto, using(crate::proofs::Decays::kept_nothing))]
fn keep(v: u64, periods: u64) -> u64
    ensures { result ≡ kept periods v }
{
    if v == 0 {
        return 0;
    }
    if periods == 0 { v } else { decay(v, periods) }
}

// What some units add, from a part of a period on.
fn share_of(part: u64, units: u64) -> u64
    requires part_in { part < 1024 }
    requires units_in { units < 2 ^ 54 }
    ensures { result ≡ contribution part units }
{
    let reached = part + units;
    let periods = reached / 1024;
    if periods == 0 {
        units
    } else {
        let rest = decay(1024 - part, periods);
        rest + (47742 - decay(47742, periods) - 1024) + reached % 1024
    }
}

// What they add to the time in which a task was awake. Where it slept, nothing is computed.
fn when_awake(run: Run, part: u64, units: u64) -> u64
    requires part_in { part < 1024 }
    requires units_in { units < 2 ^ 54 }
    ensures value { result ≡ awake_share run (contribution part units) }
    ensures at_most { result ≤ contribution part units }
{
    match run {
        Run::Asleep => 0,
        Run::Waiting | Run::Running => share_of(part, units),
    }
}

// What they add to the time in which it ran, of which it was awake.
fn when_running(run: Run, awake: u64) -> u64
    ensures value { (share : ℕ) → awake ≡ awake_share run share → result ≡ running_share run share }
    ensures at_most { result ≤ awake }
{
    match run {
        Run::Asleep | Run::Waiting => 0,
        Run::Running => awake,
    }
}

/// What the signal says at the moment `now`, in nanoseconds, of a task of this load weight that
/// was in `run` since the signal's stamp (docs/rules/signals.md).
#[tactic(auto, unfolding(crate::specs::Signal::signal_value))]
pub fn value_at(s: &Signal, run: Run, weight: u64, now: u64) -> Value
    requires { weight ≤ 88761 }
    ensures value { result ≡ signal_value (advanced s.now run now) weight }
    ensures bounds { IsWithin weight result }
{
    let at = advance(s, run, now);
    if at.is_nothing() {
        return Value {
            load: 0,
            runnable: 0,
            util: 0,
        };
    }
    let divider = 46718 + u64::from(at.part);
    Value {
        load: weight * at.load_sum / divider,
        runnable: at.runnable_sum / divider,
        util: at.util_sum / divider,
    }
}
