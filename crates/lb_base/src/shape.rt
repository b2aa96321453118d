//! The kinds of turns, the levels of domains, and what balancing needs to know of a domain.
use crate::mask::Mask;

/// Why a CPU's domains are balanced (docs/rules/lanes.md).
#[derive(Clone, Copy, Debug, PartialEq, Eq)]
pub enum Kind {
    /// At the CPU's tick.
    Tick,
    /// When the CPU becomes idle.
    Idle,
    /// On behalf of an idle CPU that has stopped its tick.
    Nohz,
}

/// What the CPUs of a level's span share, from the least to the most (docs/rules/domains.md).
#[derive(Clone, Copy, Debug, PartialEq, Eq)]
pub enum LevelName {
    /// A core.
    Smt,
    /// A last-level cache.
    Mc,
    /// A node.
    Pkg,
    /// All nodes within this distance.
    Numa(u32),
}

/// One kept scheduling domain of a CPU, without its groups (docs/rules/domains.md).
#[derive(Clone, Copy, Debug, PartialEq, Eq)]
pub struct Shape {
    /// Its level.
    pub name: LevelName,
    /// The level of the kept domain below it, if there is one.
    pub below: Option<LevelName>,
    /// Its place among the CPU's kept domains, from 0 at the bottom.
    pub position: u32,
    /// The CPUs that it balances.
    pub span: Mask,
}
