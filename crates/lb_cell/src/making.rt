//! A cell and a lane before any entry, and the names that a caller picks for them.
ghost use Rattle.std.specs.Prelude.{◌≡◌, ◌+◌, ◌<◌, [], ◌∷◌, None, length};
ghost use Rattle.lb_core.specs.Course.{opening_course};
ghost use Rattle.lb_core.specs.Machine.{opening_queue};
ghost use Rattle.lb_board.specs.Board.{IsOfBoard, opening};

use crate::cell::Cell;
use crate::known::Known;
use crate::lane::Lane;
use crate::log::Log;
use crate::names::Names;
use crate::parts::{CellParts, LaneParts};
use lb_base::Items;
use lb_board::{Reader, Writer};
use lb_core::Course;
use lb_journal::Journal;
use lb_queue::Queue;
use lb_ticket::Seat;
use std::alloc::Global;
use std::marker::{Brand, PhantomData};

/// A call that passes `Brand` picks the header, the book and the board itself.
impl Names for Brand {
    ghost use Rattle.std.specs.Prelude.{[]};

    ghost header = { record { cpus = []; distances = []; parts = []; lanes = 0; tasks = [] } };

    ghost book = { record { words = 0; slots = 0; views_name = 0; atom = 0; block = 0; offset = 0; slot_names = [] } };

    ghost board = { [] };
}

impl<N: Names> Cell<N> {
    /// The cell of a CPU before any entry: its queue as the header declares it, its seat, which drew nothing, and its
    /// writer, which published the opening figure alone.
    pub fn new(queue: Queue, seat: Seat<Journal>, writer: Writer) -> Cell<N>
        requires cpu { writer.cpu < length N.header.cpus }
        requires queue { queue ≡ record { state = opening_queue N.header writer.cpu; booked = 0 } }
        requires seat { (seat.table ≡ N.book) × (seat.number ≡ 17 + writer.cpu) × (seat.list ≡ []) }
        requires writer { IsOfBoard N.board writer × (writer.figures ≡ opening ∷ []) }
        ensures { result ≡ record { queue = queue; log = record { seat = seat; writer = writer }; room = 0 } }
    {
        Cell {
            parts: CellParts {
                queue,
                log: Log { seat, writer },
                room: 0,
            },
            names: PhantomData,
        }
    }
}

impl<N: Names> Lane<N> {
    /// A lane before its first entry: its course is the opening one, its seat drew nothing, and its reader is one of
    /// the board.
    pub fn new(
        alloc: Global,
        number: u32,
        course: Course,
        seat: Seat<Journal>,
        reader: Reader,
    ) -> Lane<N>
        requires number { number < N.header.lanes }
        requires course { course ≡ opening_course (length N.header.cpus) }
        requires seat { (seat.table ≡ N.book) × (seat.number ≡ number + 1) × (seat.list ≡ []) }
        requires reader { reader.cells ≡ N.board }
        ensures { result ≡ record {
          number = number;
          course = course;
          known = record { ticket = 0; note = None; reader = reader };
          seat = seat;
          landing = [];
        } }
    {
        Lane {
            parts: LaneParts {
                number,
                course,
                known: Known {
                    ticket: 0,
                    note: None,
                    reader,
                },
                seat,
                landing: Items::new(alloc),
            },
            names: PhantomData,
        }
    }
}
