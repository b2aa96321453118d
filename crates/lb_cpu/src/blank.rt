//! A machine before any entry.
ghost use Rattle.std.specs.Prelude.{◌≡◌, map, IfOk};
ghost use Rattle.std.specs.List.{range_with_len};
ghost use Rattle.lb_trace.specs.Accepted.{IsTrace};
ghost use Rattle.lb_core.specs.OfTrace.{of_lane};

use crate::cut::cut;
use crate::rows::rows_of_lanes;
use lb_act::opening_queues;
use lb_base::NoMemory;
use lb_board::{Board, Reader, Writer};
use lb_domain::Topology;
use lb_journal::Journal;
use lb_levels::Machine;
use lb_queue::Queue;
use lb_ticket::{Book, Seat};
use lb_topub::{Looker, Publisher};
use lb_trace::{Header, Rows, Trace};
use std::alloc::Global;
use std::marker::Model;
use std::sync::Wait;

/// What the locks of the queues are made of: one of each for each CPU, in order.
#[derive(Drop)]
pub(crate) struct ForCells {
    pub(crate) queues: Vec<Queue>,
    pub(crate) seats: Vec<Seat<Journal>>,
    pub(crate) writers: Vec<Writer>,
}

/// What the lanes are made of: one of each for each lane of the trace, in order.
#[derive(Drop)]
pub(crate) struct ForLanes {
    pub(crate) rows: Vec<Rows>,
    pub(crate) seats: Vec<Seat<Journal>>,
    pub(crate) readers: Vec<Reader>,
    pub(crate) lookers: Vec<Looker>,
}

/// A machine before any entry: what its locks and its lanes are made of, and what they share. Contracts see what is
/// declared, which book, board and versions they are, and the rows of each lane.
#[derive(Drop)]
pub struct Blank {
    pub(crate) header: Header,
    pub(crate) machine: Machine,
    pub(crate) book: Book<Journal>,
    pub(crate) board: Board,
    pub(crate) publisher: Publisher,
    pub(crate) seat: Seat<Journal>,
    pub(crate) cells: ForCells,
    pub(crate) lanes: ForLanes,
    pub(crate) unused: Vec<Seat<Journal>>,
}

impl Model for Blank {
    ghost use Rattle.std.specs.Prelude.{◌≡◌, length};
    ghost use Rattle.lb_cpu.specs.Blanks.{BlankIs, FitCpus, FitLanes, FitShared, FitUnused};

    ghost Value = { BlankIs };

    ghost view = { λ b. record {
      header = b.header;
      book = b.book.table;
      board = b.board;
      versions = b.publisher.book;
      rows = b.lanes.rows.items;
    } };

    ghost invariant = { λ b.
        FitShared b.header b.machine b.book b.board b.publisher b.seat
        × FitCpus b.header b.book.table b.board 0 b.cells.queues.items b.cells.seats.items b.cells.writers.items
        × (length b.cells.queues.items ≡ length b.header.cpus)
        × FitLanes b.header b.book.table b.board b.publisher.book 0 b.lanes.rows.items b.lanes.seats.items
        b.lanes.readers.items b.lanes.lookers.items
        × (length b.lanes.rows.items ≡ b.header.lanes)
        × FitUnused b.header b.book.table b.unused.items };
}

impl Blank {
    /// The machine of an accepted trace before any entry: a book with a seat for each owner, a board with the opening
    /// figures, version 1 with the masks of the header, the queues with the tasks that are declared, and the rows of each
    /// lane in their order. It refuses for want of memory alone. It waits while a looker's place is refused.
    pub fn new<R: Wait>(rt: &R, alloc: Global, trace: &Trace) -> Result<Blank, NoMemory>
        requires { IsTrace trace.now }
        ensures header { IfOk result (λ b. b.header ≡ trace.now.header) }
        ensures rows { IfOk result (λ b. b.rows ≡ map (λ lane. of_lane lane trace.now.rows) (range_with_len 0 trace.now.header.lanes)) }
    {
        let header = trace.header.copy(alloc)?;
        let machine = header.machine(alloc)?;
        let cpus = header.cpus.len() as u32;
        let lanes = header.lanes;
        let rows = rows_of_lanes(alloc, trace.rows.as_slice(), lanes)?;
        let queues = opening_queues(alloc, &header)?;
        let (board, writers, readers) = Board::new(alloc, cpus, lanes)?;
        let (book, seats) = Book::new(alloc, 17 + cpus)?;
        let seats = cut(seats, lanes)?;
        let first = Topology::of(alloc, &machine, header.parts.as_slice())?;
        let (publisher, lookers) = Publisher::new(rt, alloc, first, lanes)?;
        Ok(Blank {
            header,
            machine,
            book,
            board,
            publisher,
            seat: seats.publisher,
            cells: ForCells {
                queues,
                seats: seats.queues,
                writers,
            },
            lanes: ForLanes {
                rows,
                seats: seats.lanes,
                readers,
                lookers,
            },
            unused: seats.unused,
        })
    }
}
