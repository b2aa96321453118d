//! The cell and the lane as they were before an entry, for the draw at its end.
ghost use Rattle.std.specs.Prelude.{◌≡◌};

use crate::cell::Cell;
use crate::lane::Lane;
use crate::names::Names;
use lb_core::Course;
use lb_journal::Left;
use lb_ticket::Coding;
use std::marker::Model;
use std::snapshot::Snapshot;

/// What an entry of a queue is drawn upon: the cell and the lane as they were before it. It has no bytes.
#[derive(Drop)]
pub(crate) struct Before<N: Names> {
    pub(crate) cell: Snapshot<Cell<N>>,
    pub(crate) lane: Snapshot<Lane<N>>,
    pub(crate) course: Snapshot<Course>,
}

impl<N: Names> Model for Before<N> {
    ghost use Rattle.std.specs.Prelude.{◌≡◌};
    ghost use Rattle.lb_cell.specs.Cells.{CellKeeps, LaneKeeps};
    ghost use Rattle.lb_cell.specs.Draws.{BeforeIs};

    ghost Value = { BeforeIs };

    ghost view = { λ b. record { cell = b.cell.value; lane = b.lane.value } };

    ghost invariant = { λ b.
        CellKeeps N.header N.book N.board b.cell.value
        × LaneKeeps N.header N.book N.board ⟦<Left as Coding>⟧.coding b.lane.value
        × (b.course.value ≡ b.lane.value.course) };
}

impl<N: Names> Before<N> {
    /// The cell and the lane as they are now.
    pub(crate) fn of(cell: &Cell<N>, lane: &Lane<N>) -> Before<N>
        ensures { result ≡ record { cell = cell.now; lane = lane.now } }
    {
        // reads a field of it, so that what it keeps is known
        let _room = cell.parts.room;
        Before {
            cell: Snapshot::of(cell),
            lane: Snapshot::of(lane),
            course: Snapshot::of(&lane.parts.course),
        }
    }
}
