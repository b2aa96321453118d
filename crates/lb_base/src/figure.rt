//! The figure of a CPU: what its run queue shows to balancing.

/// What a CPU's run queue published after one of its entries (docs/rules/queue.md).
#[derive(Clone, Copy, Debug, PartialEq, Eq)]
pub struct Fig {
    /// How many entries the queue had drawn; 0 for the opening figure.
    pub n: u64,
    /// The ticket of the last of them; 0 for the opening figure.
    pub ticket: u64,
    /// The number of awake tasks.
    pub nr: u64,
    /// The sum of the loads of awake and sleeping tasks.
    pub load: u64,
    /// The sum of the utilisations of awake and sleeping tasks, in 1/1024 of a CPU.
    pub util: u64,
    /// The sum of the runnable averages of the awake tasks, in 1/1024 of a CPU.
    pub runnable: u64,
    /// Bit 0: the CPU is tickless. Bit 8 + p: the domain at position p is marked imbalanced.
    pub flags: u64,
}
