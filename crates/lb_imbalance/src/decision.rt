//! The whole decision of a CPU about a domain (docs/rules/decision.md).
ghost use Rattle.std.specs.Prelude.{◌≡◌, ◌<◌, ◌≤◌, ◌^◌, ℕ, true, false, length, sum_by, All, take};
ghost use Rattle.lb_base.specs.Mask.{has, without};
ghost use Rattle.lb_base.specs.Figures.{AllHaveFigures};
ghost use Rattle.lb_stats.specs.Statistics.{HasSmallSums};
ghost use Rattle.lb_imbalance.specs.Decision.{all_stats, decision, decision_over, domain_average, group_at, pull_or_balanced, pull_from, pull_from_group};
ghost use Rattle.lb_imbalance.specs.Conditions.{HaveSmallSums, IsInRange, IsUnion};

use crate::balance::level;
use crate::destination::{balances, busy};
use crate::imbalance::{Imbalance, imbalance_between};
use crate::levels::percent;
use lb_base::{Fig, GroupType, Kind, MAX_CPUS, Mask, MoveKind, Shape, Stats};
use lb_busiest::{busiest, source};
use lb_stats::stats_row;

/// What a CPU does about one of its domains.
#[derive(Clone, Copy, Debug, PartialEq, Eq)]
pub enum Decision {
    /// Another CPU of its group balances the domain.
    NotMine,
    /// Nothing is to move.
    Balanced,
    /// The CPU pulls from another one.
    Pull {
        /// The CPU that it pulls from.
        source: u32,
        /// What is to move.
        kind: MoveKind,
        /// How much of it.
        imbalance: u64,
    },
}

/// The decision of `cpu` about one of its domains, of the given shape and groups
/// (docs/rules/decision.md).
///
/// The groups, at most 64, make up the span, and stand in ring order from the local one, which has
/// `cpu`. `figs` has a figure for each CPU of the span, from CPU 0; their sums over all groups are
/// below 2^40. `excluded` are CPUs of other groups from which nothing could be pulled: they count
/// nowhere.
#[tactic(auto, unfolding(crate::specs::Decision::decision))]
pub fn decide(
    shape: &Shape,
    groups: &[Mask],
    figs: &[Fig],
    cpu: u32,
    kind: Kind,
    excluded: Mask,
) -> Decision
    requires count { length groups.now ≤ MAX_CPUS }
    requires union { IsUnion shape.now.span groups.now }
    requires local { has (group_at groups.now 0) cpu ≡ true }
    requires kept { (k : ℕ) → has (group_at groups.now 0) k ≡ true → has excluded k ≡ false }
    requires figures { AllHaveFigures figs.now shape.now.span }
    requires sums { HaveSmallSums figs.now excluded groups.now }
    ensures { result ≡ decision shape.now groups.now figs.now cpu kind excluded }
{
    let local = groups[0];
    if balances(kind, figs, local, cpu) {
        let stats = stats_of_groups(shape, groups, figs, excluded);
        decide_over(
            shape,
            groups,
            figs,
            busy(kind, figs, cpu),
            excluded,
            &stats[..groups.len()],
        )
    } else {
        Decision::NotMine
    }
}

// The statistics of the groups without the excluded CPUs, in the first places.
#[tactic(auto, unfolding(crate::specs::Decision::all_stats))]
fn stats_of_groups(
    shape: &Shape,
    groups: &[Mask],
    figs: &[Fig],
    excluded: Mask,
) -> [Stats; MAX_CPUS as usize]
    requires count { length groups.now ≤ MAX_CPUS }
    requires figures { All (λ g. AllHaveFigures figs.now (without g excluded)) groups.now }
    requires sums { All (λ g. HasSmallSums figs.now (without g excluded)) groups.now }
    ensures { take (length groups.now) result ≡ all_stats shape.now groups.now figs.now excluded }
{
    let mut all = [Stats {
        nr: 0,
        load: 0,
        util: 0,
        runnable: 0,
        cap: 0,
        weight: 0,
        idle: 0,
        avg: 0,
        group: GroupType::HasSpare,
    }; MAX_CPUS as usize];
    stats_row(
        figs,
        groups,
        excluded,
        shape.position,
        percent(shape.name),
        &mut all,
    );
    all
}

// The decision of a CPU that may balance, over the statistics of the groups.
#[tactic(auto, unfolding(crate::specs::Decision::decision_over, crate::specs::Decision::pull_from_group))]
fn decide_over(
    shape: &Shape,
    groups: &[Mask],
    figs: &[Fig],
    busy: bool,
    excluded: Mask,
    stats: &[Stats],
) -> Decision
    requires some { 0 < length groups.now }
    requires each { length stats.now ≡ length groups.now }
    requires figures { All (λ g. AllHaveFigures figs.now (without g excluded)) groups.now }
    requires ranges { All IsInRange stats.now }
    requires load { sum_by (λ s. s.load) stats.now < 2 ^ 40 }
    requires some_cap { 1024 ≤ sum_by (λ s. s.cap) stats.now }
    requires cap { sum_by (λ s. s.cap) stats.now < 2 ^ 40 }
    ensures { result ≡ decision_over shape.now groups.now figs.now busy excluded stats.now }
{
    let Some(at) = busiest(stats) else {
        return Decision::Balanced;
    };
    let average = average(stats);
    if level(shape, busy, average, &stats[0], &stats[at]) {
        return Decision::Balanced;
    }
    let imbalance = imbalance_between(shape, busy, average, &stats[0], &stats[at]);
    pull_or_balanced(figs, groups[at].without(excluded), imbalance)
}

// The load of one CPU's capacity over the whole domain.
#[tactic(auto, unfolding(crate::specs::Decision::domain_average))]
fn average(stats: &[Stats]) -> u64
    requires load { sum_by (λ s. s.load) stats.now < 2 ^ 40 }
    requires some_cap { 1024 ≤ sum_by (λ s. s.cap) stats.now }
    requires cap { sum_by (λ s. s.cap) stats.now < 2 ^ 40 }
    ensures value { result ≡ domain_average stats.now }
    ensures small { result < 2 ^ 40 }
{
    let cap: u64 = stats.iter().map(|s| s.cap).sum();
    let load: u64 = stats.iter().map(|s| s.load).sum();
    load * 1024 / cap
}

// The pull of an imbalance from a group, if there is one.
#[tactic(auto, unfolding(crate::specs::Decision::pull_or_balanced))]
fn pull_or_balanced(figs: &[Fig], group: Mask, imbalance: Imbalance) -> Decision
    requires { AllHaveFigures figs.now group }
    ensures { result ≡ pull_or_balanced figs.now group imbalance }
{
    if imbalance.amount == 0 {
        return Decision::Balanced;
    }
    match source(figs, group, imbalance.kind, imbalance.amount) {
        None => Decision::Balanced,
        Some(source) => Decision::Pull {
            source,
            kind: imbalance.kind,
            imbalance: imbalance.amount,
        },
    }
}
