//! A scheduling domain of a CPU: its shape, and its groups in ring order.
use lb_base::{Items, Mask, Shape};

/// One kept scheduling domain of a CPU (docs/rules/domains.md).
#[derive(Debug, Drop)]
pub struct Domain {
    /// Its level, its position and its span.
    pub shape: Shape,
    /// Its groups in ring order. The first has the CPU.
    pub groups: Items<Mask>,
}
