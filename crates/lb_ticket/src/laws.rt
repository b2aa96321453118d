//! What the users of a ticket book conclude from its calls, and of each seat and note: the contract of each function
//! is the law, and it does nothing.
ghost use Rattle.std.specs.Prelude.{◌≡◌, [], ◌∷◌};
ghost use Rattle.lb_ticket.specs.declared.view.Fact.{Fact};
ghost use Rattle.lb_ticket.specs.Tickets.{AllBelow};
ghost use Rattle.lb_ticket.specs.Facts.{FactsBelow, HeldBelow};
ghost use Rattle.lb_ticket.specs.Laws.{FactsStay, LearntIsKnown, ListsRise};

use crate::item::Item;
use crate::note::Note;
use crate::seat::Seat;

/// Once a note is learnt, its fact is known, so that it may be quoted, and its ticket is below the next one.
pub fn learnt_is_known()
    ensures { LearntIsKnown }
{}

/// A fact that a seat holds stays with it as more are learnt, and as entries of other tickets are quoted or noted.
pub fn facts_stay()
    ensures { FactsStay }
{}

/// Whatever a seat drew, holds a fact of or has read, its ticket is below the seat's next one.
pub fn seat_is_below<I: Item>(seat: &Seat<I>)
    ensures drawn { AllBelow seat.now.next seat.now.list }
    ensures facts { FactsBelow seat.now.next seat.now.fresh × FactsBelow seat.now.next seat.now.known }
    ensures read { HeldBelow seat.now.next seat.now.read }
{
    // what holds of every seat is known once it is looked into
    let _number = seat.number;
}

/// A note is of one ticket.
pub fn note_is_of_one(note: &Note)
    ensures { (f : Fact) × (note.now.facts ≡ f ∷ []) }
{
    // as for seats
    let _token = &note.token;
}

/// On each list of a closed book the tickets rise.
pub fn lists_rise<I: Item>()
    ensures { ListsRise I.means }
{}
