//! The writer of one CPU's figures.
ghost use Rattle.std.specs.Prelude.{◌≡◌, ◌<◌, ◌^◌, length};
ghost use Rattle.lb_board.specs.Board.{IsOfBoard, add_figure};

use crate::board::Board;
use crate::cell::{Adding, Holder};
use crate::posted::Posted;
use lb_base::Fig;
use std::marker::Model;
use std::sync::Wait;

/// The right to publish the figures of one CPU. Contracts see the CPU, its cell and all that was published.
#[derive(Drop)]
pub struct Writer {
    pub(crate) cpu: u32,
    pub(crate) pass: Holder,
}

impl Model for Writer {
    ghost use Rattle.lb_board.specs.Board.{WriterIs, IsWriting, cell_of, seen_by};

    ghost Value = { WriterIs };

    ghost view = { λ w. record { cpu = w.cpu; cell = cell_of w.pass; figures = seen_by w.pass } };

    ghost invariant = { λ w. IsWriting w.pass };
}

impl Writer {
    /// The CPU's number.
    pub fn cpu(&self) -> u32
        ensures { result ≡ self.now.cpu }
    {
        self.cpu
    }

    /// Adds a figure to those that the CPU published. Its number is the next one: the opening figure has number 0.
    /// It waits while the cell is written, and takes no memory.
    pub fn publish<R: Wait>(&mut self, rt: &R, board: &Board, fig: Fig)
        requires board { IsOfBoard board.now self.old }
        requires next { (fig.n ≡ length self.old.figures) × (fig.n < 2 ^ 40) }
        ensures { self.new ≡ add_figure self.old fig }
    {
        let cell = &board.cells[self.cpu as usize];
        cell.swap_as::<Adding, R>(rt, &mut self.pass, Posted { fig });
    }
}
