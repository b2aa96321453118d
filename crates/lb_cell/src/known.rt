//! What a lane holds of its last entry, and what it has seen of the figures.
use lb_board::Reader;
use lb_ticket::Note;

/// What a lane knows of what was drawn: its own last entry, and the figures of the queues.
#[derive(Drop)]
pub struct Known {
    /// The ticket of its last entry; 0 before its first.
    pub(crate) ticket: u64,
    /// That this entry was drawn, and what it left; None before its first.
    pub(crate) note: Option<Note>,
    /// The figures that it has seen.
    pub(crate) reader: Reader,
}
