//! What a turn looks at: the domains of its CPU in the version that its lane took up, the figures that are
//! due, what they decide, and how a position ends (docs/rules/lanes.md).
#![tactic(auto)]

mod turn;

pub use turn::{Shapes, Turn, flag, local_group, word_of};
