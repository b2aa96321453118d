//! The end of a board: what its readers saw is compared with what its writers published.
ghost use Rattle.std.specs.Prelude.{◌≡◌, ◌+◌, ◌<◌, ◌^◌, ◌≤◌, All, sum_by, length, map};
ghost use mathlib.Core.List.{IsPrefix};
ghost use Rattle.lb_board.specs.Board.{cell_of, seen_by, sight_of, Witnesses};

use crate::board::Board;
use crate::cell::{Figures, Holder, look, look_told};
use crate::reader::Reader;
use crate::writer::Writer;
use std::sync::Wait;

// A writer, which has seen all of its list, is told what a holder saw: that is then a beginning of the list. It
// answers the number of the writer's last figure.
fn check_holder<R: Wait>(rt: &R, cell: &Figures, writer: &mut Writer, pass: &mut Holder) -> u64
    requires cell { (writer.old.cell ≡ cell.now.table.shared.table_id) × (cell_of pass.old ≡ cell.now.table.shared.table_id) }
    ensures writer { writer.new ≡ writer.old }
    ensures pass { (cell_of pass.new ≡ cell_of pass.old) × (seen_by pass.new ≡ seen_by pass.old) }
    ensures seen { IsPrefix (seen_by pass.old) writer.old.figures }
    ensures number { result + 1 ≡ length writer.old.figures }
{
    look_told(rt, cell, &mut writer.pass, pass).fig.n
}

// The same for each CPU.
fn check_holders<R: Wait>(
    rt: &R,
    cells: &[Figures],
    writers: &mut [Writer],
    passes: &mut Vec<Holder>,
)
    requires writers { map (λ w. w.cell) writers.old ≡ map (λ c. c.table.shared.table_id) cells.now }
    requires passes { map cell_of passes.old.items ≡ map (λ c. c.table.shared.table_id) cells.now }
    ensures writers { writers.new ≡ writers.old }
    ensures passes { sight_of passes.new.items ≡ sight_of passes.old.items }
    ensures seen { Witnesses (length cells.now) writers.old (sight_of passes.old.items) }
{
    for i in 0..cells.len() {
        check_holder(rt, &cells[i], &mut writers[i], &mut passes[i]);
    }
}

// The same for a reader.
fn check_reader<R: Wait>(rt: &R, cells: &[Figures], writers: &mut [Writer], reader: &mut Reader)
    requires writers { map (λ w. w.cell) writers.old ≡ map (λ c. c.table.shared.table_id) cells.now }
    requires reader { reader.old.cells ≡ map (λ c. c.table.shared.table_id) cells.now }
    ensures writers { writers.new ≡ writers.old }
    ensures reader { reader.new ≡ reader.old }
    ensures seen { Witnesses (length cells.now) writers.old reader.old }
{
    check_holders(rt, cells, writers, &mut reader.passes);
}

// The number of a writer's last figure.
fn last_number<R: Wait>(rt: &R, cell: &Figures, writer: &mut Writer) -> u64
    requires { writer.old.cell ≡ cell.now.table.shared.table_id }
    ensures writer { writer.new ≡ writer.old }
    ensures number { result + 1 ≡ length writer.old.figures }
    ensures small { result < 2 ^ 40 }
{
    look(rt, cell, &mut writer.pass).fig.n
}

// How many figures were published, the opening ones not counted.
fn count<R: Wait>(rt: &R, cells: &[Figures], writers: &mut [Writer]) -> u64
    requires writers { map (λ w. w.cell) writers.old ≡ map (λ c. c.table.shared.table_id) cells.now }
    requires few { length cells.now ≤ 64 }
    ensures writers { writers.new ≡ writers.old }
    ensures count { result + length cells.now ≡ sum_by (λ w. length w.figures) writers.old }
{
    let mut total = 0;
    for i in 0..cells.len() {
        total += last_number(rt, &cells[i], &mut writers[i]);
    }
    total
}

/// Spends the board, its writers and its readers, and answers how many figures were published, the opening ones not
/// counted. What each reader saw of a CPU is a beginning of what was published there: so each figure that was read
/// is the one published at its place. It waits while a cell is written, and takes no memory.
pub fn gather<R: Wait>(
    rt: &R,
    board: Board,
    mut writers: Vec<Writer>,
    mut readers: Vec<Reader>,
) -> u64
    requires writers { map (λ w. w.cell) writers.items ≡ board }
    requires readers { All (λ s. s.cells ≡ board) readers.items }
    requires few { length board ≤ 64 }
    ensures count { result + length board ≡ sum_by (λ w. length w.figures) writers.items }
    ensures seen { All (Witnesses (length board) writers.items) readers.items }
{
    for j in 0..readers.len() {
        check_reader(
            rt,
            board.cells.as_slice(),
            writers.as_mut_slice(),
            &mut readers[j],
        );
    }
    count(rt, board.cells.as_slice(), writers.as_mut_slice())
}
