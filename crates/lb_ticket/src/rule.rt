//! The rule of the ticket word, and the kinds of step that keep it.
ghost use Rattle.std.specs.Prelude.{◌≡◌, ℕ, List, [], ◌∷◌};
ghost use Rattle.lb_ticket.specs.Bare.{BareKept, BareDraws, BareMarks, bare_opening, bare_cut_left, bare_cut_right, bare_both, bare_spent, bare_note_left, bare_note_right, bare_learnt, bare_told};

use crate::item::Item;
use crate::view::Bare;
use atomic_table::{Join, Play, Split, TableRule};
use std::marker::{Brand, PhantomData};

/// The rule: the word is one above the number of entries, and each seat and note knows only what was drawn.
pub struct Tickets<I> {
    of: PhantomData<I>,
}

impl<I: Item> TableRule<(), Bare, u32> for Tickets<I> {
    ghost holds = { λ owners s. BareKept I.means I.row.coded I.Left.row.coded owners s.words s.views };

    ghost first = { bare_opening };
}

/// The item of a draw. Each call picks it.
pub trait PicksItem<I> {
    /// The item alone.
    ghost picked: { List I };
}

impl<I> PicksItem<I> for Brand {
    ghost picked = { [] };
}

/// A fetch-and-add: the ticket goes to the drawer's list.
pub struct Draw<I, J> {
    of: PhantomData<(I, J)>,
}

impl<I: Item, J: PicksItem<I>> Play<(), Bare> for Draw<I, J> {
    ghost then = { λ _ me found after.
        BareDraws I.means I.row.coded I.Left.row.coded J.picked me.0 found after.0 × (after.1 ≡ me.1) };
}

/// A load: what was found is above all that the loader knows.
pub struct Load;

impl Play<(), Bare> for Load {
    ghost then = { λ _ me found after. BareMarks me.0 found after.0 × (after.1 ≡ me.1) };
}

/// A seat is split from the first one.
pub struct MakeSeat;

impl Split<Bare> for MakeSeat {
    ghost left = { bare_cut_left };

    ghost right = { bare_cut_right };
}

/// The ticket of a note. Each call picks it.
pub trait PicksTicket {
    /// The ticket.
    ghost picked: { ℕ };
}

impl PicksTicket for Brand {
    ghost picked = { 0 };
}

/// A note is split from a seat.
pub struct CutNote<J> {
    of: PhantomData<J>,
}

impl<J: PicksTicket> Split<Bare> for CutNote<J> {
    ghost left = { bare_note_left J.picked };

    ghost right = { bare_note_right J.picked };
}

/// What a seat drew is split from it, for another to read. The seat keeps all.
pub struct Tell;

impl Split<Bare> for Tell {
    ghost left = { λ v. v };

    ghost right = { bare_told };
}

/// A note, or what a seat tells, is joined to a seat.
pub struct Learn;

impl Join<Bare> for Learn {
    ghost both = { bare_learnt };

    ghost spent = { bare_spent };
}

/// A seat is joined to the last one, at the end.
pub struct Gather;

impl Join<Bare> for Gather {
    ghost both = { bare_both };

    ghost spent = { bare_spent };
}
