//! Seats that read what others drew, so that their next tickets stand above it.
ghost use Rattle.std.specs.Prelude.{◌≡◌, ◌<◌, length};
ghost use Rattle.lb_ticket.specs.Seats.{Numbered};
ghost use Rattle.lb_end.specs.Seats.{Followed};

use lb_journal::Journal;
use lb_ticket::{Book, Coding, Seat};

/// The seat of one owner reads what another drew so far: its next ticket is above all of that, and not below the other's
/// next one.
pub(crate) fn follow(book: &Book<Journal>, seats: &mut [Seat<Journal>], a: usize, b: usize)
    requires book { Numbered book.now.table 0 seats.old }
    requires apart { a ≡ b → ⊥ }
    requires inside { (a < length seats.old) × (b < length seats.old) }
    ensures { Followed ⟦<Journal as Coding>⟧.coding a b seats.old seats.new }
{
    if a < b {
        let (low, high) = seats.split_at_mut(b);
        low[a].follow(book, &mut high[0]);
    } else {
        let (low, high) = seats.split_at_mut(a);
        high[0].follow(book, &mut low[b]);
    }
}
