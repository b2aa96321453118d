//! A machine begins: its queues and its publisher go behind their locks, and its lanes are made.
ghost use Rattle.std.specs.Prelude.{◌≡◌, ◌+◌, ◌<◌, ◌≤◌, [], Some, All, IfOk, length, map, slice_get, true, vec_len};
ghost use Rattle.lb_trace.specs.Accepted.{IsHeader};
ghost use Rattle.lb_cpu.specs.Blanks.{FitCpus, FitLanes, IsLooker, IsReader, IsRows, IsSeat};
ghost use Rattle.lb_cpu.specs.Numbering.{EachFrom};
ghost use Rattle.lb_cpu.specs.Starts.{IsNew};

use crate::blank::{Blank, ForCells, ForLanes};
use crate::cpus::Cpus;
use lb_base::NoMemory;
use lb_board::Reader;
use lb_cell::{Cell, Lane as Side, Names};
use lb_course::opening_course;
use lb_journal::Journal;
use lb_lane::{Lane, PublisherCell, Versions};
use lb_ticket::Seat;
use lb_topub::Looker;
use lb_trace::{Header, Rows};
use std::alloc::Global;
use std::sync::Mutex;

// The queues behind their locks, in the order of their CPUs.
fn new_cells<N: Names>(alloc: Global, parts: ForCells) -> Result<Vec<Mutex<Cell<N>>>, NoMemory>
    requires { FitCpus N.header N.book N.board 0 parts.queues.items parts.seats.items parts.writers.items }
    ensures { IfOk result (λ cells. vec_len cells ≡ length parts.queues.items) }
{
    let ForCells {
        queues,
        seats,
        writers,
    } = parts;
    let mut cells = Vec::with_capacity(alloc, queues.len())?;
    let mut seats = seats.into_iter();
    let mut writers = writers.into_iter();
    for queue in queues {
        let Some(seat) = seats.next() else {
            unreachable!()
        };
        let Some(writer) = writers.next() else {
            unreachable!()
        };
        cells.push_reserved(Mutex::new(Cell::new(queue, seat, writer)));
    }
    Ok(cells)
}

// A lane before any entry.
fn new_lane<N: Names + Versions>(
    alloc: Global,
    header: &Header,
    number: u32,
    rows: Rows,
    seat: Seat<Journal>,
    reader: Reader,
    looker: Looker,
) -> Result<Lane<N>, NoMemory>
    requires header { (header.now ≡ N.header) × IsHeader N.header × (length N.board ≡ length N.header.cpus) }
    requires number { number < N.header.lanes }
    requires rows { IsRows N.header number rows }
    requires seat { IsSeat N.book 1 number seat }
    requires reader { IsReader N.header N.board reader }
    requires looker { IsLooker N.header N.versions looker }
    ensures lane { IfOk result (λ lane. IsNew N.header number lane) }
    ensures rows { IfOk result (λ lane. lane.rows ≡ rows) }
{
    let course = opening_course(alloc, header.cpus.len())?;
    let side = Side::new(alloc, number, course, seat, reader);
    Ok(Lane::new(alloc, side, looker, rows))
}

// The lanes before any entry, in order.
fn new_lanes<N: Names + Versions>(
    alloc: Global,
    header: &Header,
    parts: ForLanes,
) -> Result<Vec<Lane<N>>, NoMemory>
    requires header { (header.now ≡ N.header) × IsHeader N.header × (length N.board ≡ length N.header.cpus) }
    requires parts { FitLanes N.header N.book N.board N.versions 0 parts.rows.items parts.seats.items parts.readers.items
        parts.lookers.items }
    requires count { length parts.rows.items ≡ N.header.lanes }
    ensures new { IfOk result (λ lanes. EachFrom (IsNew N.header) 0 lanes.items) }
    ensures rows { IfOk result (λ lanes. map (λ l. l.rows) lanes.items ≡ parts.rows.items) }
{
    let ForLanes {
        rows,
        seats,
        readers,
        lookers,
    } = parts;
    let mut lanes = Vec::with_capacity(alloc, rows.len())?;
    let mut seats = seats.into_iter();
    let mut readers = readers.into_iter();
    let mut lookers = lookers.into_iter();
    for own in rows {
        let Some(seat) = seats.next() else {
            unreachable!()
        };
        let Some(reader) = readers.next() else {
            unreachable!()
        };
        let Some(looker) = lookers.next() else {
            unreachable!()
        };
        let number = lanes.len() as u32;
        let lane = new_lane(alloc, header, number, own, seat, reader, looker)?;
        lanes.push_reserved(lane);
    }
    Ok(lanes)
}

impl<N: Names + Versions> Cpus<N> {
    /// Puts the queues and the publisher of a blank behind their locks, and makes one lane for each lane of the trace, in
    /// the order of their numbers, at rest, with its rows. `N` names what the blank is made of. It refuses for want of
    /// memory alone.
    pub fn start(alloc: Global, blank: Blank) -> Result<(Cpus<N>, Vec<Lane<N>>), NoMemory>
        requires header { blank.header ≡ N.header }
        requires names { (blank.book ≡ N.book) × (blank.board ≡ N.board) × (blank.versions ≡ N.versions) }
        ensures new { IfOk result (λ r. EachFrom (IsNew N.header) 0 r.1.items) }
        ensures rows { IfOk result (λ r. map (λ l. l.rows) r.1.items ≡ blank.rows) }
        ensures count { IfOk result (λ r. length r.1.items ≡ N.header.lanes) }
    {
        let Blank {
            header,
            machine,
            book,
            board,
            publisher,
            seat,
            cells,
            lanes,
            unused,
        } = blank;
        let cells = new_cells(alloc, cells)?;
        let lanes = new_lanes(alloc, &header, lanes)?;
        let publisher = Mutex::new(PublisherCell::new(publisher, seat));
        let cpus = Cpus {
            header,
            machine,
            book,
            board,
            cells,
            publisher,
            unused,
        };
        Ok((cpus, lanes))
    }
}
