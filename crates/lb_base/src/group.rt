//! What is known of a group of CPUs: its type and its statistics.

/// How busy a group of CPUs is, in rising order (docs/rules/decision.md).
#[derive(Clone, Copy, Debug, PartialEq, Eq)]
pub enum GroupType {
    /// It could run more.
    HasSpare,
    /// It is used up, and nobody waits longer for that than the domain allows.
    FullyBusy,
    /// A pull below it was hindered by affinity.
    Imbalanced,
    /// It has more tasks than CPUs, and more demand than capacity.
    Overloaded,
}

/// The statistics of a group, over those of its CPUs that are not excluded
/// (docs/rules/decision.md).
#[derive(Clone, Copy, Debug, PartialEq, Eq)]
pub struct Stats {
    /// Awake tasks.
    pub nr: u64,
    /// The sum of the loads.
    pub load: u64,
    /// The sum of the utilisations, in 1/1024 of a CPU.
    pub util: u64,
    /// The sum of the runnable averages, in 1/1024 of a CPU.
    pub runnable: u64,
    /// The capacity, in 1/1024 of a CPU.
    pub cap: u64,
    /// The number of CPUs.
    pub weight: u32,
    /// How many of them have no awake task.
    pub idle: u32,
    /// The load per capacity of one CPU; 0 where there is no CPU.
    pub avg: u64,
    /// How busy the group is.
    pub group: GroupType,
}
