//! What lanes of a machine share: its queues and its publisher, each behind a lock, the ticket book and the board.
use lb_board::Board;
use lb_cell::{Cell, Names, Shared};
use lb_journal::Journal;
use lb_lane::{PublisherCell, Versions};
use lb_levels::Machine;
use lb_ticket::{Book, Seat};
use lb_trace::Header;
use std::marker::Model;
use std::sync::Mutex;

/// The run queues of a machine, each behind a lock of its own, the publisher behind another, and what all threads share.
#[derive(Drop)]
pub struct Cpus<N: Names + Versions> {
    pub(crate) header: Header,
    pub(crate) machine: Machine,
    pub(crate) book: Book<Journal>,
    pub(crate) board: Board,
    /// One for each CPU, in their order.
    pub(crate) cells: Vec<Mutex<Cell<N>>>,
    pub(crate) publisher: Mutex<PublisherCell<N>>,
    /// The seats of the lanes that the trace does not have. The book wants them back at its end.
    pub(crate) unused: Vec<Seat<Journal>>,
}

impl<N: Names + Versions> Model for Cpus<N> {
    ghost use Rattle.std.specs.Prelude.{vec_len};
    ghost use Rattle.lb_cpu.specs.Cpus.{CpusIs, CpusKeeps};

    ghost Value = { CpusIs };

    ghost view = { λ c. record {
      header = c.header;
      layout = c.machine;
      book = c.book;
      board = c.board;
      cells = vec_len c.cells;
      unused = c.unused.items;
    } };

    ghost invariant = { λ c.
        CpusKeeps N.header N.book N.board
        (record {
          header = c.header;
          layout = c.machine;
          book = c.book;
          board = c.board;
          cells = vec_len c.cells;
          unused = c.unused.items;
        }) };
}

impl<N: Names + Versions> Cpus<N> {
    /// What all threads share.
    pub fn shared(&self) -> Shared<'_, N> {
        Shared::new(&self.header, &self.book, &self.board)
    }
}
