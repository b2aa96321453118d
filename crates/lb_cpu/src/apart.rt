//! The cells and the lanes of a machine are taken apart, one after the other.
ghost use Rattle.std.specs.Prelude.{◌≡◌, ◌<◌, ◌≤◌, ◌^◌, IfOk, length, map, vec_len};
ghost use Rattle.lb_cpu.specs.Ends.{LeftCell, LeftLane, LeftNote};
ghost use Rattle.lb_cpu.specs.Numbering.{EachFrom, EachOfThree, EachOfTwo};

use lb_base::NoMemory;
use lb_board::{Reader, Writer};
use lb_cell::{Cell, Names, Shared};
use lb_core::Course;
use lb_journal::{Journal, Left};
use lb_lane::{Lane, Versions};
use lb_queue::Queue;
use lb_ticket::{Coding, Note, Seat};
use lb_topub::Looker;
use std::alloc::Global;
use std::sync::{Mutex, Wait};

/// What is left of the cells, in the order of their CPUs.
#[derive(Drop)]
pub(crate) struct FromCells {
    pub(crate) queues: Vec<Queue>,
    pub(crate) seats: Vec<Seat<Journal>>,
    pub(crate) writers: Vec<Writer>,
}

/// What is left of the lanes, in the order of their numbers.
#[derive(Drop)]
pub(crate) struct FromLanes {
    pub(crate) seats: Vec<Seat<Journal>>,
    pub(crate) readers: Vec<Reader>,
    pub(crate) lookers: Vec<Looker>,
    pub(crate) courses: Vec<Course>,
    pub(crate) tickets: Vec<u64>,
    pub(crate) notes: Vec<Option<Note>>,
}

// Waits until the cell is that of the CPU. The cells of a machine stand in the order of their CPUs, so the first test
// succeeds.
fn wait_until_it_is_of<N: Names, R: Wait>(rt: &R, cell: &Cell<N>, cpu: u32)
    ensures { cell.now.log.writer.cpu ≡ cpu }
{
    for _ in rt.forever() {
        if cell.cpu() == cpu {
            return;
        }
    }
    unreachable!()
}

// The cell of a CPU, out of its lock.
fn end_cell<N: Names, R: Wait>(
    rt: &R,
    lock: Mutex<Cell<N>>,
    cpu: u32,
) -> (Queue, Seat<Journal>, Writer)
    ensures { LeftCell N.header N.book N.board cpu result.0 result.1 result.2 }
{
    let cell = lock.into_inner();
    wait_until_it_is_of(rt, &cell, cpu);
    cell.end()
}

/// The cells of all CPUs, out of their locks.
pub(crate) fn end_cells<N: Names, R: Wait>(
    rt: &R,
    alloc: Global,
    locks: Vec<Mutex<Cell<N>>>,
) -> Result<FromCells, NoMemory>
    requires { vec_len locks < 2 ^ 32 }
    ensures cells { IfOk result (λ c. EachOfThree (LeftCell N.header N.book N.board) c.queues.items c.seats.items c.writers.items) }
    ensures count { IfOk result (λ c. length c.queues.items ≡ vec_len locks) }
{
    let mut queues = Vec::with_capacity(alloc, locks.len())?;
    let mut seats = Vec::with_capacity(alloc, locks.len())?;
    let mut writers = Vec::with_capacity(alloc, locks.len())?;
    for lock in locks {
        let (queue, seat, writer) = end_cell(rt, lock, queues.len() as u32);
        queues.push_reserved(queue);
        seats.push_reserved(seat);
        writers.push_reserved(writer);
    }
    Ok(FromCells {
        queues,
        seats,
        writers,
    })
}

// What is left of a lane: its seat, its reader, its looker, its course, the ticket of its last entry, and the note of lane 0.
fn end_lane<N: Names + Versions>(
    shared: &Shared<'_, N>,
    lane: Lane<N>,
) -> (Seat<Journal>, Reader, Looker, Course, u64, Option<Note>)
    ensures left { LeftLane N.header N.book N.board N.versions ⟦<Journal as Coding>⟧.coding ⟦<Left as Coding>⟧.coding
        lane.side.number lane result.0 }
    ensures note { LeftNote N.book ⟦<Left as Coding>⟧.coding (length N.header.cpus) lane.side.number lane result.5 }
    ensures seen { (result.1 ≡ lane.side.known.reader) × (result.2 ≡ lane.looker) }
    ensures last { (result.3 ≡ lane.side.course) × (result.4 ≡ lane.side.known.ticket) }
{
    let (seat, reader, looker, course, ticket, note) = lane.end(shared);
    reader.keeps();
    (seat, reader, looker, course, ticket, note)
}

/// What is left of all lanes.
pub(crate) fn end_lanes<N: Names + Versions>(
    alloc: Global,
    shared: &Shared<'_, N>,
    lanes: Vec<Lane<N>>,
) -> Result<FromLanes, NoMemory>
    requires { EachFrom (λ k l. l.side.number ≡ k) 0 lanes.items }
    ensures lanes { IfOk result (λ r. EachOfTwo (LeftLane N.header N.book N.board N.versions ⟦<Journal as Coding>⟧.coding
        ⟦<Left as Coding>⟧.coding) lanes.items r.seats.items) }
    ensures readers { IfOk result (λ r. r.readers.items ≡ map (λ l. l.side.known.reader) lanes.items) }
    ensures lookers { IfOk result (λ r. r.lookers.items ≡ map (λ l. l.looker) lanes.items) }
    ensures courses { IfOk result (λ r. r.courses.items ≡ map (λ l. l.side.course) lanes.items) }
    ensures tickets { IfOk result (λ r. r.tickets.items ≡ map (λ l. l.side.known.ticket) lanes.items) }
    ensures notes { IfOk result (λ r. EachOfTwo (LeftNote N.book ⟦<Left as Coding>⟧.coding (length N.header.cpus)) lanes.items
        r.notes.items) }
{
    let count = lanes.len();
    let mut seats = Vec::with_capacity(alloc, count)?;
    let mut readers = Vec::with_capacity(alloc, count)?;
    let mut lookers = Vec::with_capacity(alloc, count)?;
    let mut courses = Vec::with_capacity(alloc, count)?;
    let mut tickets = Vec::with_capacity(alloc, count)?;
    let mut notes = Vec::with_capacity(alloc, count)?;
    for lane in lanes {
        let (seat, reader, looker, course, ticket, note) = end_lane(shared, lane);
        seats.push_reserved(seat);
        readers.push_reserved(reader);
        lookers.push_reserved(looker);
        courses.push_reserved(course);
        tickets.push_reserved(ticket);
        notes.push_reserved(note);
    }
    Ok(FromLanes {
        seats,
        readers,
        lookers,
        courses,
        tickets,
        notes,
    })
}
