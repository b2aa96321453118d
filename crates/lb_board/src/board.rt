//! The board: a cell for each CPU. A new board comes with a writer for each CPU and a reader for each lane.
ghost use Rattle.std.specs.Prelude.{◌≡◌, length, map, replicate, IfOk};
ghost use Rattle.lb_board.specs.Board.{cell_of, seen_by, first_writer, first_writers, sight_of_all};

use crate::cell::{Figures, Holder};
use crate::posted::Posted;
use crate::reader::Reader;
use crate::writer::Writer;
use crossbeam_utils::atomic::seq_cell::RuledSeqCell;
use lb_base::{Fig, NoMemory};
use lb_seen::Telling;
use std::alloc::Global;
use std::marker::Model;

/// The cells of all CPUs, by their numbers. Contracts see which cells they are.
#[derive(Drop)]
pub struct Board {
    pub(crate) cells: Vec<Figures>,
}

impl Model for Board {
    ghost use Rattle.std.specs.Prelude.{List, map};
    ghost use Rattle.atomic_table.specs.Seated.{TableId};

    ghost Value = { List TableId };

    ghost view = { λ b. map (λ c. c.table.shared.table_id) b.cells.items };
}

// A cell with the opening figure, and the right to write it.
fn open(alloc: Global, cpu: u32) -> Result<(Figures, Writer), NoMemory>
    ensures { IfOk result (λ r. r.1 ≡ first_writer cpu r.0.table.shared.table_id) }
{
    let fig = Fig {
        n: 0,
        ticket: 0,
        nr: 0,
        load: 0,
        util: 0,
        runnable: 0,
        flags: 0,
    };
    let Ok((cell, pass)) = RuledSeqCell::ruled(alloc, Posted { fig }) else {
        return Err(NoMemory);
    };
    Ok((cell, Writer { cpu, pass }))
}

// A further holder of a writer's cell, which has seen what the writer has published.
fn new_holder(cell: &Figures, writer: &mut Writer) -> Holder
    requires { writer.old.cell ≡ cell.now.table.shared.table_id }
    ensures writer { writer.new ≡ writer.old }
    ensures holder { (cell_of result ≡ writer.old.cell) × (seen_by result ≡ writer.old.figures) }
{
    cell.split_pass::<Telling>(&mut writer.pass)
}

// A reader that has seen what the writers have published.
fn new_reader(alloc: Global, cells: &[Figures], writers: &mut [Writer]) -> Result<Reader, NoMemory>
    requires { map (λ w. w.cell) writers.old ≡ map (λ c. c.table.shared.table_id) cells.now }
    ensures writers { writers.new ≡ writers.old }
    ensures reader { IfOk result (λ r. r ≡ sight_of_all writers.old) }
{
    let Ok(mut passes) = Vec::with_capacity(alloc, cells.len()) else {
        return Err(NoMemory);
    };
    for i in 0..cells.len() {
        passes.push_reserved(new_holder(&cells[i], &mut writers[i]));
    }
    Ok(Reader { passes })
}

impl Board {
    /// A cell with an opening figure for each of `cpus` CPUs, a writer for each CPU and a reader for each of `lanes`
    /// lanes. A machine has at most 64 CPUs and 16 lanes. It refuses for want of memory alone.
    pub fn new(
        alloc: Global,
        cpus: u32,
        lanes: u32,
    ) -> Result<(Board, Vec<Writer>, Vec<Reader>), NoMemory>
        ensures board { IfOk result (λ r. length r.0 ≡ cpus) }
        ensures writers { IfOk result (λ r. r.1.items ≡ first_writers 0 r.0) }
        ensures readers { IfOk result (λ r. r.2.items ≡ replicate lanes (sight_of_all r.1.items)) }
    {
        let Ok(mut cells) = Vec::with_capacity(alloc, cpus as usize) else {
            return Err(NoMemory);
        };
        let Ok(mut writers) = Vec::with_capacity(alloc, cpus as usize) else {
            return Err(NoMemory);
        };
        for cpu in 0..cpus {
            let (cell, writer) = open(alloc, cpu)?;
            cells.push_reserved(cell);
            writers.push_reserved(writer);
        }
        let Ok(mut readers) = Vec::with_capacity(alloc, lanes as usize) else {
            return Err(NoMemory);
        };
        for lane in 0..lanes {
            readers.push_reserved(new_reader(alloc, cells.as_slice(), writers.as_mut_slice())?);
        }
        Ok((Board { cells }, writers, readers))
    }
}
