//! Whether the sums of figures are small enough for a decision.
ghost use Rattle.std.specs.Prelude.{◌≡◌, ◌+◌, ◌<◌, ◌^◌, true, IfSome, length, sum_by};
ghost use Rattle.lb_base.specs.declared.mask.TheConstants.{MAX_CPUS};
ghost use Rattle.lb_base.specs.Figures.{total};
ghost use Rattle.lb_base.specs.Mask.{without};
ghost use Rattle.lb_imbalance.specs.Conditions.{HaveSmallSums};
ghost use Rattle.lb_lane.specs.Figures.{number_of};

use lb_base::{Fig, Mask};

/// The sums of figures that a decision takes are below this.
const LIMIT: u64 = 1 << 40;

/// The numbers of a figure that are summed.
#[derive(Clone, Copy, Debug, PartialEq, Eq)]
pub(crate) enum Number {
    /// The awake tasks.
    Nr,
    /// Their load.
    Load,
    /// Their utilisation.
    Util,
    /// Their runnable average.
    Runnable,
}

impl Number {
    // The number of a figure.
    fn of(self, fig: &Fig) -> u64
        ensures { result ≡ number_of self fig.now }
    {
        match self {
            Number::Nr => fig.nr,
            Number::Load => fig.load,
            Number::Util => fig.util,
            Number::Runnable => fig.runnable,
        }
    }
}

// A sum with one more number; None where it is not below the limit.
fn add(sum: u64, number: u64) -> Option<u64>
    requires { sum < 2 ^ 40 }
    ensures { IfSome result (λ n. (n ≡ sum + number) × (n < 2 ^ 40)) }
{
    if number < LIMIT - sum {
        Some(sum + number)
    } else {
        None
    }
}

// A sum with the numbers of all CPUs of a group; None where it is not below the limit.
fn add_group(figs: &[Fig], group: Mask, number: Number, before: u64) -> Option<u64>
    requires figs { length figs.now ≡ MAX_CPUS }
    requires before { before < 2 ^ 40 }
    ensures { IfSome result (λ n. (n ≡ before + total (number_of number) figs.now group) × (n < 2 ^ 40)) }
{
    let mut sum = before;
    let mut next = group.first();
    while let Some(cpu) = next {
        sum = add(sum, number.of(&figs[cpu as usize]))?;
        next = group.next_after(cpu);
    }
    Some(sum)
}

// Whether the sum over all groups, without the excluded CPUs, is below the limit.
fn is_small(figs: &[Fig], excluded: Mask, groups: &[Mask], number: Number) -> bool
    requires { length figs.now ≡ MAX_CPUS }
    ensures { result ≡ true → sum_by (λ g. total (number_of number) figs.now (without g excluded)) groups.now < 2 ^ 40 }
{
    let mut sum = 0;
    for i in 0..groups.len() {
        match add_group(figs, groups[i].without(excluded), number, sum) {
            Some(more) => sum = more,
            None => return false,
        }
    }
    true
}

/// Whether the sums of the figures over all groups, without the excluded CPUs, are below 2^40.
pub(crate) fn are_small(figs: &[Fig], excluded: Mask, groups: &[Mask]) -> bool
    requires { length figs.now ≡ MAX_CPUS }
    ensures { result ≡ true → HaveSmallSums figs.now excluded groups.now }
{
    is_small(figs, excluded, groups, Number::Nr)
        && is_small(figs, excluded, groups, Number::Load)
        && is_small(figs, excluded, groups, Number::Util)
        && is_small(figs, excluded, groups, Number::Runnable)
}
