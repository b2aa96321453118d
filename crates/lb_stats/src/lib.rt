//! The statistics of a group of CPUs, and how busy the group is.
#![tactic(auto)]

mod statistics;
mod types;

pub use statistics::{group_stats, stats_row};
pub use types::classify;
