//! What all threads share, as one value that is handed to each call.
ghost use Rattle.std.specs.Prelude.{◌≡◌, ◌≤◌, length};
ghost use Rattle.lb_base.specs.declared.mask.TheConstants.{MAX_CPUS};

use crate::names::Names;
use lb_board::Board;
use lb_journal::Journal;
use lb_ticket::Book;
use lb_trace::Header;
use std::marker::{Model, PhantomData};

/// What all threads share: what the trace declares, the ticket book, and the board of figures.
#[derive(Drop)]
pub struct Shared<'a, N: Names> {
    pub(crate) header: &'a Header,
    pub(crate) book: &'a Book<Journal>,
    pub(crate) board: &'a Board,
    pub(crate) names: PhantomData<N>,
}

impl<'a, N: Names> Model for Shared<'a, N> {
    ghost use Rattle.lb_cell.specs.Shares.{IsShared, SharedIs};

    ghost Value = { SharedIs };

    ghost view = { λ s. record { header = s.header.now; book = s.book.now.table; board = s.board.now } };

    ghost invariant = { λ s.
        IsShared N.header N.book N.board (record { header = s.header.now; book = s.book.now.table; board = s.board.now }) };
}

impl<'a, N: Names> Shared<'a, N> {
    /// The header, the book and the board that `N` names. A machine has at most `MAX_CPUS` CPUs.
    pub fn new(header: &'a Header, book: &'a Book<Journal>, board: &'a Board) -> Shared<'a, N>
        requires names { (header.now ≡ N.header) × (book.now.table ≡ N.book) × (board.now ≡ N.board) }
        requires few { length header.now.cpus ≤ MAX_CPUS }
    {
        Shared {
            header,
            book,
            board,
            names: PhantomData,
        }
    }
}
