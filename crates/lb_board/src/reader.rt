//! The reader of one lane: it looks at the last figure of any CPU, and never goes back (docs/rules/threads.md).
ghost use Rattle.std.specs.Prelude.{◌≡◌, ◌<◌, length};
ghost use mathlib.Core.List.{IsPrefix};
ghost use Rattle.lb_board.specs.Board.{Ends, IsOfBoard, see, seen_at};

use crate::board::Board;
use crate::cell::{Holder, look, look_told};
use crate::writer::Writer;
use lb_base::Fig;
use std::marker::Model;
use std::sync::Wait;

/// Reads the figures of all CPUs. Contracts see what it has seen of each: the figures that were published up to
/// some moment, all of them and in order.
#[derive(Drop)]
pub struct Reader {
    pub(crate) passes: Vec<Holder>,
}

impl Model for Reader {
    ghost use Rattle.lb_board.specs.Board.{Sight, sight_of};

    ghost Value = { Sight };

    ghost view = { λ r. sight_of r.passes.items };
}

impl Reader {
    /// What every reader keeps: it has a list of figures for each cell of the board.
    pub fn keeps(&self)
        ensures { length self.now.seen ≡ length self.now.cells }
    {
        // reads a field of it, so that what it keeps is known
        let _passes = self.passes.len();
    }

    /// One of the CPU's published figures: the last that is seen now, and no earlier one than this reader saw or
    /// was told of. It waits while the cell is written, and takes no memory.
    pub fn read<R: Wait>(&mut self, rt: &R, board: &Board, cpu: u32) -> Fig
        requires board { (self.old.cells ≡ board.now) × (cpu < length board.now) }
        ensures others { self.new ≡ see self.old cpu (seen_at self.new cpu) }
        ensures later { IsPrefix (seen_at self.old cpu) (seen_at self.new cpu) }
        ensures figure { Ends result (seen_at self.new cpu) }
    {
        let at = cpu as usize;
        look(rt, &board.cells[at], &mut self.passes[at]).fig
    }

    /// Makes known all that the writer has published, so that a lane reads its own work back. It waits while the
    /// cell is written, and takes no memory.
    pub fn told<R: Wait>(&mut self, rt: &R, board: &Board, writer: &mut Writer)
        requires board { (self.old.cells ≡ board.now) × IsOfBoard board.now writer.old }
        ensures writer { writer.new ≡ writer.old }
        ensures others { self.new ≡ see self.old writer.old.cpu (seen_at self.new writer.old.cpu) }
        ensures later { IsPrefix (seen_at self.old writer.old.cpu) (seen_at self.new writer.old.cpu) }
        ensures told { IsPrefix writer.old.figures (seen_at self.new writer.old.cpu) }
    {
        let cpu = writer.cpu as usize;
        let pass = &mut self.passes[cpu];
        look_told(rt, &board.cells[cpu], pass, &mut writer.pass);
    }
}
