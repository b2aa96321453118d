//! A lane's side of the entries that it draws, as a type; what a whole lane has is `lb_lane`'s type of that name.
use crate::names::Names;
use crate::parts::LaneParts;
use lb_core::Course;
use lb_journal::Left;
use lb_ticket::Coding;
use std::marker::{Model, PhantomData};

/// What a lane has of its own: its number and course, what it knows of its last entry and of the figures, its own
/// entries, and, while its tasks are in flight, the ids that their landing names.
#[derive(Drop)]
pub struct Lane<N: Names> {
    pub(crate) parts: LaneParts,
    pub(crate) names: PhantomData<N>,
}

impl<N: Names> Model for Lane<N> {
    ghost use Rattle.lb_cell.specs.Cells.{LaneIs, LaneKeeps, lane_of};

    ghost Value = { LaneIs };

    ghost view = { λ l. lane_of l.parts };

    ghost invariant = { λ l. LaneKeeps N.header N.book N.board ⟦<Left as Coding>⟧.coding (lane_of l.parts) };
}

impl<N: Names> Lane<N> {
    ghost use Rattle.std.specs.Prelude.{◌≡◌};

    /// The lane's number, from 0.
    pub fn number(&self) -> u32
        ensures { result ≡ self.now.number }
    {
        self.parts.number
    }

    /// What the lane may do next.
    pub fn course(&self) -> &Course
        ensures { result.now ≡ self.now.course }
    {
        &self.parts.course
    }
}
