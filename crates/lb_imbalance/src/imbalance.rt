//! How much is to move, and of what (docs/rules/decision.md).
ghost use Rattle.std.specs.Prelude.{◌≡◌, ◌<◌, ◌^◌};
ghost use Rattle.lb_imbalance.specs.Amount.{half_of_difference, imbalance_of, imbalance_as, is_pressed, load_to_average, one_task, spare_room};
ghost use Rattle.lb_imbalance.specs.Conditions.{IsInRange};

use crate::levels::{above_cache, siblings};
use lb_base::{GroupType, MoveKind, Shape, Stats};

/// What is to move between two groups, and how much (docs/rules/decision.md).
#[derive(Clone, Copy, Debug, PartialEq, Eq)]
pub struct Imbalance {
    /// What is to move.
    pub kind: MoveKind,
    /// How much of it; 0 where nothing is to move.
    pub amount: u64,
}

/// The imbalance between two groups that are not level.
#[tactic(auto, unfolding(crate::specs::Amount::imbalance_of))]
pub fn imbalance_between(
    shape: &Shape,
    busy: bool,
    average: u64,
    local: &Stats,
    busiest: &Stats,
) -> Imbalance
    requires local { IsInRange local.now }
    requires busiest { IsInRange busiest.now }
    requires average { average < 2 ^ 40 }
    ensures { result ≡ imbalance_of shape.now busy average local.now busiest.now }
{
    match busiest.group {
        GroupType::Imbalanced => one_task(),
        GroupType::HasSpare | GroupType::FullyBusy | GroupType::Overloaded => match local.group {
            GroupType::HasSpare => {
                if pressed(busiest.group) && above_cache(shape.name) {
                    spare_room(busy, local)
                } else {
                    half_of_difference(shape, local, busiest)
                }
            }
            GroupType::FullyBusy | GroupType::Imbalanced | GroupType::Overloaded => {
                load_to_average(average, local, busiest)
            }
        },
    }
}

fn one_task() -> Imbalance
    ensures { result ≡ one_task }
{
    Imbalance {
        kind: MoveKind::Tasks,
        amount: 1,
    }
}

// Whether the type is above FullyBusy.
fn pressed(group: GroupType) -> bool
    ensures { result ≡ is_pressed group }
{
    match group {
        GroupType::HasSpare | GroupType::FullyBusy => false,
        GroupType::Imbalanced | GroupType::Overloaded => true,
    }
}

// The utilisation that the local group has room for.
fn spare_room(busy: bool, local: &Stats) -> Imbalance
    ensures { result ≡ spare_room busy local.now }
{
    let room = local.cap.max(local.util) - local.util;
    if room == 0 && !busy {
        one_task()
    } else {
        Imbalance {
            kind: MoveKind::Util,
            amount: room,
        }
    }
}

// Half of the difference in tasks or in idle CPUs.
fn half_of_difference(shape: &Shape, local: &Stats, busiest: &Stats) -> Imbalance
    ensures { result ≡ half_of_difference shape.now local.now busiest.now }
{
    let amount = if busiest.weight == 1 || siblings(shape.below) {
        busiest.nr.saturating_sub(local.nr) / 2
    } else {
        u64::from(local.idle.saturating_sub(busiest.idle)) / 2
    };
    Imbalance {
        kind: MoveKind::Tasks,
        amount,
    }
}

// The load that brings either group to the domain's average, whichever is less.
fn load_to_average(average: u64, local: &Stats, busiest: &Stats) -> Imbalance
    requires local { IsInRange local.now }
    requires busiest { IsInRange busiest.now }
    requires average { average < 2 ^ 40 }
    ensures { result ≡ load_to_average average local.now busiest.now }
{
    let amount = if local.avg < busiest.avg && local.avg < average {
        let above = busiest.avg.saturating_sub(average) * busiest.cap;
        let below = (average - local.avg) * local.cap;
        above.min(below) / 1024
    } else {
        0
    };
    Imbalance {
        kind: MoveKind::Load,
        amount,
    }
}
