//! What the program can be asked to do.

/// What the program is asked to do (README.md).
#[derive(Clone, Copy, Debug, PartialEq, Eq)]
pub enum Work {
    /// Writes the history of a trace that one thread makes: `step`.
    Step,
    /// Writes the history of a trace that a thread for each lane makes: `run`.
    Run,
    /// Writes the scheduling domains of a trace: `topo`.
    Topo,
    /// Judges a history: `check`.
    Check,
    /// Writes a generated trace: `gen NUMBER ROWS`.
    Gen {
        /// The number that the generator starts from.
        number: u32,
        /// The number of rows, at most 100,000.
        rows: u32,
    },
    /// Writes the summary of the history of a generated trace: `sum NUMBER ROWS`.
    Sum {
        /// The number that the generator starts from.
        number: u32,
        /// The number of rows, at most 100,000.
        rows: u32,
    },
}
