//! The type of a group (docs/rules/decision.md).
ghost use Rattle.std.specs.Prelude.{◌≡◌};
ghost use Rattle.lb_stats.specs.Types.{type_of};

use lb_base::GroupType;

/// How busy a group of `weight` CPUs is (docs/rules/decision.md).
///
/// It has `nr` awake tasks, the capacity `cap`, the utilisation `util` and the runnable average
/// `runnable`, all three in 1/1024 of a CPU. `imbalanced` says that a pull below it was hindered by
/// affinity, and `pct` is the domain's imbalance percentage.
pub fn classify(
    nr: u64,
    weight: u32,
    cap: u64,
    util: u64,
    runnable: u64,
    imbalanced: bool,
    pct: u64,
) -> GroupType
    ensures { result ≡ type_of nr weight cap util runnable imbalanced pct }
{
    if weight == 0 {
        return GroupType::HasSpare;
    }
    let percent = u128::from(pct);
    let whole = u128::from(cap) * 100;
    let allowed = u128::from(cap) * percent;
    let used = u128::from(util) * percent;
    let waited = u128::from(runnable) * 100;
    let weight = u64::from(weight);
    if nr > weight && (whole < used || allowed < waited) {
        GroupType::Overloaded
    } else if imbalanced {
        GroupType::Imbalanced
    } else if nr < weight || (allowed >= waited && whole > used) {
        GroupType::HasSpare
    } else {
        GroupType::FullyBusy
    }
}
