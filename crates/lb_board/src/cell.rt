//! The cell of one CPU, its rule, and the two steps that its holders take: a look, and a look after being told.
ghost use Rattle.std.specs.Prelude.{◌≡◌, [], ◌∷◌};
ghost use Rattle.crossbeam_utils.specs.Seq.{cell_view, IsSamePass};
ghost use Rattle.lb_seen.specs.Seen.{informed, Looks, Kept, Adds, writer};
ghost use Rattle.lb_board.specs.Board.{Posts, opening};

use crate::posted::Posted;
use crossbeam_utils::atomic::seq_cell::{Pass, RuledSeqCell};
use crossbeam_utils::rule::{Outcome, Protocol};
use lb_base::Fig;
use lb_seen::{Telling, View};
use std::sync::Wait;

/// The rule of a cell: it has the last of the figures that were published.
pub struct Published;

impl Protocol<Posted, View<Fig>> for Published {
    ghost holds = { Kept Posts };

    ghost first = { writer (opening ∷ []) };
}

/// A load tells all that was published so far.
pub struct Looking;

impl Outcome<Posted, View<Fig>> for Looking {
    ghost then = { Looks Posts };
}

/// A store adds a figure to all that were published.
pub struct Adding;

impl Outcome<Posted, View<Fig>> for Adding {
    ghost then = { Adds (λ p. p.fig) };
}

pub(crate) type Figures = RuledSeqCell<Posted, View<Fig>, Published, 7>;

pub(crate) type Holder = Pass<Posted, View<Fig>>;

// The figure that is there now, and all that were published before it are seen.
pub(crate) fn look<R: Wait>(rt: &R, cell: &Figures, pass: &mut Holder) -> Posted
    requires { pass.old.table_id ≡ cell.now.table.shared.table_id }
    ensures pass { IsSamePass pass.old pass.new }
    ensures look { Looks Posts (cell_view pass.old) result result (cell_view pass.new) }
{
    cell.load_as::<Looking, R>(rt, pass)
}

// A holder is told what another one saw, and looks.
pub(crate) fn look_told<R: Wait>(
    rt: &R,
    cell: &Figures,
    pass: &mut Holder,
    other: &mut Holder,
) -> Posted
    requires cell { (pass.old.table_id ≡ cell.now.table.shared.table_id) × (other.old.table_id ≡ cell.now.table.shared.table_id) }
    ensures pass { IsSamePass pass.old pass.new }
    ensures other { IsSamePass other.old other.new × (cell_view other.new ≡ cell_view other.old) }
    ensures look { Looks Posts (informed (cell_view pass.old) (cell_view other.old)) result result (cell_view pass.new) }
{
    let part = cell.split_pass::<Telling>(other);
    cell.join_pass::<Telling>(pass, part);
    look(rt, cell, pass)
}
