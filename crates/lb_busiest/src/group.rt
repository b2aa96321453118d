//! The busiest group of a domain (docs/rules/decision.md).
ghost use Rattle.std.specs.Prelude.{◌≡◌, ◌+◌, ◌<◌, length};
ghost use Rattle.lb_base.specs.Greatest.{Picks};
ghost use Rattle.lb_busiest.specs.Ranking.{busiest_of, is_busier, is_busier_at, may_be_busiest, rank, AnswersBusiest};

use lb_base::{GroupType, Stats};

/// The place of the busiest group among the statistics of a domain's groups, or None where no group
/// but the local one has tasks (docs/rules/decision.md).
///
/// The local group stands at place 0, and the others follow in ring order.
pub fn busiest(stats: &[Stats]) -> Option<usize>
    ensures value { result ≡ busiest_of stats.now }
    ensures first { AnswersBusiest stats.now result }
{
    let mut best = None;
    for i in 0..stats.len() {
        best = with_group(stats, i, best);
    }
    best
}

// The busiest of the groups up to the i-th.
fn with_group(stats: &[Stats], i: usize, best: Option<usize>) -> Option<usize>
    requires in_range { i < length stats.now }
    requires so_far { Picks (may_be_busiest stats.now) (is_busier_at stats.now) i best }
    ensures { Picks (may_be_busiest stats.now) (is_busier_at stats.now) (i + 1) result }
{
    if !is_candidate(stats, i) {
        return best;
    }
    match best {
        None => Some(i),
        Some(held) => {
            if beats(stats, i, held) {
                Some(i)
            } else {
                Some(held)
            }
        }
    }
}

// Whether the i-th group is not the local one, and has tasks.
#[tactic(auto, unfolding(crate::specs::Ranking::may_be_busiest))]
fn is_candidate(stats: &[Stats], i: usize) -> bool
    requires { i < length stats.now }
    ensures { result ≡ may_be_busiest stats.now i }
{
    i > 0 && stats[i].nr > 0
}

// Whether the i-th group is busier than the j-th.
#[tactic(auto, unfolding(crate::specs::Ranking::is_busier_at))]
fn beats(stats: &[Stats], i: usize, j: usize) -> bool
    requires i_in { i < length stats.now }
    requires j_in { j < length stats.now }
    ensures { result ≡ is_busier_at stats.now i j }
{
    is_busier(&stats[i], &stats[j])
}

// Whether `x` is the busier group.
#[tactic(auto, unfolding(crate::specs::Ranking::is_busier))]
fn is_busier(x: &Stats, y: &Stats) -> bool
    ensures { result ≡ is_busier x.now y.now }
{
    let here = rank_of(x.group);
    let there = rank_of(y.group);
    if here != there {
        return here > there;
    }
    match x.group {
        GroupType::HasSpare => x.idle < y.idle || (x.idle == y.idle && x.nr > y.nr),
        GroupType::FullyBusy | GroupType::Overloaded => x.avg > y.avg,
        GroupType::Imbalanced => false,
    }
}

fn rank_of(group: GroupType) -> u8
    ensures { result ≡ rank group }
{
    match group {
        GroupType::HasSpare => 0,
        GroupType::FullyBusy => 1,
        GroupType::Imbalanced => 2,
        GroupType::Overloaded => 3,
    }
}
