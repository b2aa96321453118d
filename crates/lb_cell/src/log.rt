//! A queue's list of entries with its published figures.
use lb_board::Writer;
use lb_journal::Journal;
use lb_ticket::Seat;

/// The entries of a queue, and the figures that it published after them.
#[derive(Drop)]
pub struct Log {
    /// Draws its entries, and keeps them.
    pub(crate) seat: Seat<Journal>,
    /// Publishes its figures.
    pub(crate) writer: Writer,
}
