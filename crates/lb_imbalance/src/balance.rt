//! Whether a domain is balanced as it is (docs/rules/decision.md).
ghost use Rattle.std.specs.Prelude.{◌≡◌, ◌<◌, ◌^◌, ◌&&◌, not};
ghost use Rattle.lb_imbalance.specs.Balance.{is_level, is_level_as, is_level_by_idle, is_level_by_load, prefers_sibling};
ghost use Rattle.lb_imbalance.specs.Conditions.{IsInRange};

use crate::levels::{percent, siblings};
use lb_base::{GroupType, Shape, Stats};

/// Whether the groups are level, so that nothing is to move.
#[tactic(auto, unfolding(crate::specs::Balance::is_level))]
pub fn level(shape: &Shape, busy: bool, average: u64, local: &Stats, busiest: &Stats) -> bool
    requires local { IsInRange local.now }
    requires busiest { IsInRange busiest.now }
    ensures { result ≡ is_level shape.now busy average local.now busiest.now }
{
    match busiest.group {
        GroupType::HasSpare => match local.group {
            GroupType::HasSpare => level_beside_spare(shape, busy, local, busiest),
            GroupType::FullyBusy | GroupType::Imbalanced | GroupType::Overloaded => true,
        },
        GroupType::FullyBusy => match local.group {
            GroupType::HasSpare => level_beside_spare(shape, busy, local, busiest),
            GroupType::FullyBusy => level_by_idle(busy, local, busiest),
            GroupType::Imbalanced | GroupType::Overloaded => true,
        },
        GroupType::Imbalanced => false,
        GroupType::Overloaded => match local.group {
            GroupType::Overloaded => level_by_load(percent(shape.name), average, local, busiest),
            GroupType::HasSpare | GroupType::FullyBusy | GroupType::Imbalanced => false,
        },
    }
}

// Beside a local group with spare CPUs: siblings are evened out first.
fn level_beside_spare(shape: &Shape, busy: bool, local: &Stats, busiest: &Stats) -> bool
    requires local { IsInRange local.now }
    requires busiest { IsInRange busiest.now }
    ensures { result ≡ (not (prefers_sibling shape.now local.now busiest.now) && is_level_by_idle busy local.now busiest.now) }
{
    let prefers_sibling = siblings(shape.below) && busiest.nr > local.nr + 1;
    !prefers_sibling && level_by_idle(busy, local, busiest)
}

fn level_by_idle(busy: bool, local: &Stats, busiest: &Stats) -> bool
    requires { IsInRange busiest.now }
    ensures { result ≡ is_level_by_idle busy local.now busiest.now }
{
    busy || (busiest.weight > 1 && local.idle <= busiest.idle + 1) || busiest.nr == 1
}

fn level_by_load(percent: u64, average: u64, local: &Stats, busiest: &Stats) -> bool
    requires percent { percent < 2 ^ 10 }
    requires local { IsInRange local.now }
    requires busiest { IsInRange busiest.now }
    ensures { result ≡ is_level_by_load percent average local.now busiest.now }
{
    local.avg >= busiest.avg || local.avg >= average || 100 * busiest.avg <= percent * local.avg
}
