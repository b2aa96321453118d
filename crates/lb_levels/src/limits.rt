//! The largest machine: its nodes, their distances, and its levels (docs/rules/domains.md).

/// Nodes are numbered below this.
pub const MAX_NODES: u32 = 16;

/// Distances between nodes are at most this, and at least 1.
pub const MAX_DISTANCE: u32 = 255;

/// A machine has at most this many levels: two more than nodes.
pub const MAX_LEVELS: u32 = MAX_NODES + 2;
