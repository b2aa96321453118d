//! What differs from level to level (docs/rules/decision.md).
ghost use Rattle.std.specs.Prelude.{◌≡◌};
ghost use Rattle.lb_imbalance.specs.Levels.{has_siblings, is_above_cache, percent_of};

use lb_base::LevelName;

/// The imbalance percentage of a level.
pub fn percent(name: LevelName) -> u64
    ensures { result ≡ percent_of name }
{
    match name {
        LevelName::Smt => 110,
        LevelName::Mc | LevelName::Pkg | LevelName::Numa(_) => 117,
    }
}

/// Whether the level is above the one whose CPUs share a cache.
pub fn above_cache(name: LevelName) -> bool
    ensures { result ≡ is_above_cache name }
{
    match name {
        LevelName::Smt | LevelName::Mc => false,
        LevelName::Pkg | LevelName::Numa(_) => true,
    }
}

/// Whether there is a kept domain below that is not a NUMA one.
pub fn siblings(below: Option<LevelName>) -> bool
    ensures { result ≡ has_siblings below }
{
    match below {
        None => false,
        Some(LevelName::Numa(_)) => false,
        Some(LevelName::Smt | LevelName::Mc | LevelName::Pkg) => true,
    }
}
