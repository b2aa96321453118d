//! What a machine says of a CPU.

/// What a CPU is part of (docs/rules/domains.md).
#[derive(Clone, Copy, Debug, PartialEq, Eq)]
pub struct CpuRow {
    /// The number of its core, 0 to 63.
    pub core: u32,
    /// The number of its last-level cache, 0 to 63.
    pub cache: u32,
    /// The number of its node, 0 to 15.
    pub node: u32,
}
