//! The steps on the ticket word, by the token of a seat.
ghost use Rattle.std.specs.Prelude.{◌≡◌, ℕ, ◌<◌, ◌≤◌, List, [], ◌∷◌, ◌++◌};
ghost use Rattle.lb_ticket.specs.declared.item.Drawn.{Drawn};
ghost use Rattle.lb_ticket.specs.Facts.{fact_at, IsOnlyFact};
ghost use Rattle.lb_ticket.specs.Bare.{BareMayDraw, bare_drew, bare_note_left, bare_note_right, BareMarks, bare_told, bare_learnt, IsBareBelow};

use crate::item::Item;
use crate::rule::{CutNote, Draw, Learn, Load, PicksItem, PicksTicket, Tell, Tickets};
use crate::view::Bare;
use atomic_table::{Seat as Token, Shared};

// One fetch-and-add of the ticket word.
pub(crate) fn draw_as<I: Item, J: PicksItem<I>>(
    shared: &Shared<(), Bare, u32, Tickets<I>>,
    token: &mut Token<(), Bare>,
    item: &I,
) -> u64
    requires pick { J.picked ≡ item.now ∷ [] }
    requires table { (token.old.table_id ≡ shared.now.table_id) × (shared.now.table_id.words ≡ 1) }
    requires may { BareMayDraw I.means I.row.coded I.Left.row.coded token.old.me.0 item.now }
    ensures table { (token.new.table_id ≡ token.old.table_id) × (token.new.me.1 ≡ token.old.me.1) }
    ensures drew { token.new.me.0 ≡ bare_drew I.means I.row.coded I.Left.row.coded token.old.me.0 item.now result }
    ensures later { (token.old.me.0.seen ≤ result) × (0 < result) }
    ensures new { IsOnlyFact (fact_at I.means I.Left.row.coded result item.now) token.new.me.0.fresh }
    ensures below { (ds : List (Drawn I)) → IsBareBelow ds token.old.me.0 →
        IsBareBelow (ds ++ record { ticket = result; item = item.now } ∷ []) token.new.me.0 }
{
    shared.fetch_add::<Draw<I, J>>(token, 0, 1)
}

// The note of a ticket.
pub(crate) fn note_as<I: Item, J: PicksTicket>(
    shared: &Shared<(), Bare, u32, Tickets<I>>,
    token: &mut Token<(), Bare>,
    k: u64,
) -> Token<(), Bare>
    requires pick { J.picked ≡ k }
    requires table { (token.old.table_id ≡ shared.now.table_id) × (shared.now.table_id.words ≡ 1) }
    ensures table { (token.new.table_id ≡ token.old.table_id) × (result.table_id ≡ token.old.table_id) }
    ensures rest { token.new.me ≡ (bare_note_left k token.old.me.0, token.old.me.1) }
    ensures note { result.me ≡ (bare_note_right k token.old.me.0, []) }
    ensures below { (ds : List (Drawn I)) → IsBareBelow ds token.old.me.0 → IsBareBelow ds token.new.me.0 }
{
    shared.split_seat::<CutNote<J>>(token)
}

// What a seat drew, for another to read.
pub(crate) fn tell<I: Item>(
    shared: &Shared<(), Bare, u32, Tickets<I>>,
    token: &mut Token<(), Bare>,
) -> Token<(), Bare>
    requires table { (token.old.table_id ≡ shared.now.table_id) × (shared.now.table_id.words ≡ 1) }
    ensures table { (token.new.table_id ≡ token.old.table_id) × (result.table_id ≡ token.old.table_id) }
    ensures views { (token.new.me ≡ token.old.me) × (result.me ≡ (bare_told token.old.me.0, [])) }
{
    shared.split_seat::<Tell>(token)
}

// The next ticket at this moment.
pub(crate) fn load<I: Item>(
    shared: &Shared<(), Bare, u32, Tickets<I>>,
    token: &mut Token<(), Bare>,
) -> u64
    requires table { (token.old.table_id ≡ shared.now.table_id) × (shared.now.table_id.words ≡ 1) }
    ensures table { (token.new.table_id ≡ token.old.table_id) × (token.new.me.1 ≡ token.old.me.1) }
    ensures marks { BareMarks token.old.me.0 result token.new.me.0 }
    ensures below { (ds : List (Drawn I)) → IsBareBelow ds token.old.me.0 → IsBareBelow ds token.new.me.0 }
{
    shared.load::<Load>(token, 0)
}

// What another knows or tells goes to a seat, which then loads the ticket word.
pub(crate) fn take_in<I: Item>(
    shared: &Shared<(), Bare, u32, Tickets<I>>,
    token: &mut Token<(), Bare>,
    other: Token<(), Bare>,
) -> u64
    requires table { (token.old.table_id ≡ shared.now.table_id) × (shared.now.table_id.words ≡ 1) }
    requires same { other.table_id ≡ shared.now.table_id }
    requires other { (other.me.0.vacant ≡ 0) × (other.me.0.columns ≡ []) × (other.me.0.fresh ≡ []) × (other.me.1 ≡ []) }
    ensures table { (token.new.table_id ≡ token.old.table_id) × (token.new.me.1 ≡ token.old.me.1) }
    ensures marks { BareMarks (bare_learnt token.old.me.0 other.me.0) result token.new.me.0 }
    ensures below { (ds : List (Drawn I)) → IsBareBelow ds token.old.me.0 → IsBareBelow ds token.new.me.0 }
{
    shared.join_seat::<Learn>(token, other);
    load(shared, token)
}
