//! Why rows are no machine, and why masks part no machine.
ghost use Rattle.std.specs.Prelude.{◌≡◌};
ghost use Rattle.lb_levels.specs.declared.faults.MachineError.TheVariants.{NoMemory as no_memory};

use lb_base::NoMemory;

/// Why rows of CPUs and a table of distances are no machine (docs/rules/domains.md).
#[derive(Clone, Copy, Debug, PartialEq, Eq)]
pub enum MachineError {
    /// This CPU, from 0, is the first that shares a core with an earlier CPU of another cache or
    /// node, or a cache with an earlier CPU of another node.
    BadCpu {
        /// The CPU.
        cpu: u32,
    },
    /// This row of the table, from 0, is the first that is missing, too many or of the wrong size;
    /// or, in a square table, the first whose entries cannot be distances.
    BadDistance {
        /// The row.
        row: u32,
    },
    /// This is the least distance at which the sets of nodes within it are neither equal nor
    /// disjoint.
    NotNested {
        /// The distance.
        distance: u32,
    },
    /// Memory ran out.
    NoMemory,
}

impl From<NoMemory> for MachineError {
    ghost from_gives = { λ _ made. made ≡ no_memory };

    fn from(_: NoMemory) -> Self {
        MachineError::NoMemory
    }
}

/// Why masks do not part a machine's CPUs (docs/rules/domains.md).
#[derive(Clone, Copy, Debug, PartialEq, Eq)]
pub enum PartsFault {
    /// This mask, from 0, is the first with a CPU past the machine.
    NoSuchCpu {
        /// The mask.
        part: u32,
    },
    /// The second of these masks is the first that shares a CPU with one before it, and the first
    /// of them is the first that it shares one with.
    Overlap {
        /// The earlier mask.
        first: u32,
        /// The later mask.
        second: u32,
    },
}
