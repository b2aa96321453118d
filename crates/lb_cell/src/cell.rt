//! What stands behind the lock of a queue, as a type; the calls on it stand in the files beside.
use crate::names::Names;
use crate::parts::CellParts;
use lb_queue::Queue;
use lb_queue::laws::calls_keep_rest;
use std::marker::{Model, PhantomData};

/// What stands behind the lock of a queue: the queue, its entries with its figures, and for how many entries room is
/// kept that are booked.
#[derive(Drop)]
pub struct Cell<N: Names> {
    pub(crate) parts: CellParts,
    pub(crate) names: PhantomData<N>,
}

impl<N: Names> Model for Cell<N> {
    ghost use Rattle.lb_cell.specs.Cells.{CellIs, CellKeeps, cell_of};

    ghost Value = { CellIs };

    ghost view = { λ c. cell_of c.parts };

    ghost invariant = { λ c. CellKeeps N.header N.book N.board (cell_of c.parts) };
}

impl<N: Names> Cell<N> {
    ghost use Rattle.std.specs.Prelude.{◌≡◌};
    ghost use Rattle.lb_cell.specs.Cells.{CellKeeps};

    /// The queue.
    pub fn queue(&self) -> &Queue
        ensures { result.now ≡ self.now.queue }
    {
        &self.parts.queue
    }

    /// The CPU of the queue.
    pub fn cpu(&self) -> u32
        ensures cpu { result ≡ self.now.log.writer.cpu }
        ensures own { self.now.queue.state.cpu ≡ result }
    {
        // whatever entries the queue drew, it is that of its CPU
        calls_keep_rest();
        self.parts.log.writer.cpu()
    }

    /// What every cell keeps.
    pub fn keeps(&self)
        ensures { CellKeeps N.header N.book N.board self.now }
    {
        // reads a field of it, so that what it keeps is known
        let _room = self.parts.room;
    }
}
