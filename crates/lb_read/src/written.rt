//! What is read of the text of a history.
ghost use Rattle.std.specs.Prelude.{◌≡◌};
ghost use Rattle.lb_read.specs.declared.written.RecordError.TheVariants.{NoMemory as no_memory};

use lb_base::{Items, NoMemory};
use lb_core::Entry;
use lb_trace::Header;

/// An entry as a history's text has it (docs/rules/history-text.md).
#[derive(Debug, Drop)]
pub struct WrittenEntry {
    /// The ticket that is written on its line, whatever its place.
    pub ticket: u64,
    /// The entry. Its numbers are in the ranges of its text.
    pub entry: Entry,
}

/// The entries of a text, in the order of their lines.
pub type Written = Items<WrittenEntry>;

/// What a text that reads as a history says.
#[derive(Debug, Drop)]
pub struct Read {
    /// The machine, its partition, its lanes and its tasks.
    pub header: Header,
    /// The entries, each with the ticket that is written on its line.
    pub entries: Written,
}

/// Why a text gave no history.
#[derive(Clone, Copy, Debug, PartialEq, Eq)]
pub enum RecordError {
    /// The first line that is no line of a history at its place.
    BadLine {
        /// The line, from 1. Where the text ends too early, it is the line after the last.
        line: u64,
    },
    /// Memory ran out.
    NoMemory,
}

impl From<NoMemory> for RecordError {
    ghost from_gives = { λ _ made. made ≡ no_memory };

    fn from(_: NoMemory) -> Self {
        RecordError::NoMemory
    }
}
