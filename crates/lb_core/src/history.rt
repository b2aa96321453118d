//! A history: the header of a trace, and entries whose tickets are their places.
use crate::lists::Entries;
use lb_trace::Header;

/// The last ticket at which an entry is drawn, 2^40. It only has to lie between two numbers: a history of an
/// accepted trace has fewer than 2^37 entries, so an entry that is asked for beyond it is none of a trace;
/// and tickets, rows, versions and numbers of figures, none of which is greater, stay far from the end of
/// 64 bits.
pub const MAX_TICKET: u64 = 1_099_511_627_776;

/// A history: what the trace declares, and the entries in the order of their tickets. An entry's
/// ticket is its place in the list, from 1 (docs/rules/legality.md).
#[derive(Debug, Drop)]
pub struct History {
    /// The machine, its partition, its lanes and its tasks.
    pub header: Header,
    /// The entries.
    pub entries: Entries,
}
