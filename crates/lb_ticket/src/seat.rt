//! A seat: it draws tickets for the items of one owner.
ghost use Rattle.std.specs.Prelude.{◌≡◌, ◌+◌, ◌<◌, ◌≤◌, ◌^◌, [], ◌∷◌, ◌++◌, length, map, OnOk, OnErr, All};
ghost use Rattle.lb_ticket.specs.Tickets.{pair, quoted_by, AllBelow};
ghost use Rattle.lb_ticket.specs.Seats.{KeepsList, KeepsView};
ghost use Rattle.lb_ticket.specs.Facts.{fact_at, QuoteIsKnown, without_fact, only_facts, IsOnlyFact, FactsBelow, HasRead, HeldBelow, held_of};

use crate::book::Book;
use crate::coding::Coding;
use crate::item::{Drawn, Item};
use crate::note::Note;
use crate::steps::{draw_as, load, note_as, take_in, tell};
use crate::view::Bare;
use atomic_table::Seat as Token;
use lb_base::NoMemory;
use std::marker::{Brand, Model};

/// The seat of one owner of a book: it draws tickets, and keeps what it drew.
#[derive(Drop)]
pub struct Seat<I: Coding> {
    pub(crate) token: Token<(), Bare>,
    pub(crate) number: u32,
    pub(crate) list: Vec<Drawn<I>>,
    pub(crate) spare: usize,
}

impl<I: Coding> Model for Seat<I> {
    ghost use Rattle.std.specs.Prelude.{◌≡◌, ◌+◌, ◌^◌, ◌≤◌, ◌<◌, vec_len, vec_capacity, length};
    ghost use Rattle.lb_ticket.specs.Seats.{SeatIs};
    ghost use Rattle.lb_ticket.specs.Bare.{HasBareList, IsBareBelow};

    ghost Value = { SeatIs I };

    ghost view = { λ s. record {
      table = s.token.table_id;
      number = s.number;
      list = s.list.items;
      spare = s.spare;
      fresh = s.token.me.0.fresh;
      known = s.token.me.0.known;
      read = s.token.me.0.read;
      next = s.token.me.0.seen;
    } };

    ghost invariant = { λ s.
        HasBareList I.coding s.number s.list.items s.token.me
        × (vec_len s.list + s.spare ≤ vec_capacity s.list)
        × (length s.list.items + s.spare < 2 ^ 40)
        × IsBareBelow s.list.items s.token.me.0 };
}

impl<I: Item> Seat<I> {
    /// The number of the owner, from 0.
    pub fn number(&self) -> u32
        ensures { result ≡ self.now.number }
    {
        self.number
    }

    /// How many items were drawn.
    pub fn len(&self) -> u64
        ensures { result ≡ length self.now.list }
    {
        self.list.len() as u64
    }

    /// Makes room for at least `k` more draws, and gives none up. A refusal, for want of memory alone, leaves all as
    /// it was. A list and its room stay below 2^40 items, so no ticket comes to the end of its type.
    pub fn reserve(&mut self, k: usize) -> Result<(), NoMemory>
        requires { length self.old.list + k < 2 ^ 40 }
        ensures same { (self.new.table ≡ self.old.table) × (self.new.number ≡ self.old.number) }
        ensures list { self.new.list ≡ self.old.list }
        ensures view { KeepsView self.old self.new }
        ensures ok { OnOk result (k ≤ self.new.spare) }
        ensures spare { self.old.spare ≤ self.new.spare }
        ensures refused { OnErr result (self.new.spare ≡ self.old.spare) }
    {
        if k <= self.spare {
            return Ok(());
        }
        if self.list.reserve(k).is_err() {
            return Err(NoMemory);
        }
        self.spare = k;
        Ok(())
    }

    /// Draws the next ticket for an item, and answers it; the first ticket of a book is 1. It is above the one that
    /// the item quotes and above all that this seat drew before. The item has to fit those, and what it quotes has
    /// to be known here: the quote is then used up. There has to be room for it, so it takes no memory.
    pub fn draw(&mut self, book: &Book<I>, item: I) -> u64
        requires book { self.old.table ≡ book.now.table }
        requires spare { 0 < self.old.spare }
        requires owner { I.means.owner item ≡ self.old.number }
        requires fits { I.means.fits (map pair self.old.list) item }
        requires quote { QuoteIsKnown I.means I.Left.row.coded self.old.known item (I.means.quote item) }
        ensures same { (self.new.table ≡ self.old.table) × (self.new.number ≡ self.old.number) }
        ensures list { self.new.list ≡ self.old.list ++ record { ticket = result; item = item } ∷ [] }
        ensures spare { self.old.spare ≡ self.new.spare + 1 }
        ensures fresh { self.new.fresh ≡ self.old.fresh ++ fact_at I.means I.Left.row.coded result item ∷ [] }
        ensures new { IsOnlyFact (fact_at I.means I.Left.row.coded result item) self.new.fresh }
        ensures known { self.new.known ≡ without_fact (quoted_by (I.means.quote item)) self.old.known }
        ensures read { (self.new.read ≡ self.old.read) × HeldBelow result self.old.read }
        ensures later { (self.old.next ≤ result) × (self.new.next ≡ result + 1) × (0 < result) }
        ensures above { (quoted_by (I.means.quote item) < result) × AllBelow result self.old.list }
    {
        let ticket = draw_as::<I, Brand>(&book.table.shared, &mut self.token, &item);
        self.list.push_reserved(Drawn { ticket, item });
        self.spare -= 1;
        ticket
    }

    /// The note of the ticket `k`, which this seat drew and did not note before.
    pub fn note(&mut self, book: &Book<I>, k: u64) -> Note
        requires book { self.old.table ≡ book.now.table }
        requires fresh { (f : _) × (only_facts k self.old.fresh ≡ f ∷ []) }
        ensures same { KeepsList self.old self.new }
        ensures note { (result.table ≡ self.old.table) × (result.facts ≡ only_facts k self.old.fresh) }
        ensures fresh { self.new.fresh ≡ without_fact k self.old.fresh }
        ensures view { (self.new.known ≡ self.old.known) × (self.new.read ≡ self.old.read) × (self.new.next ≡ self.old.next) }
    {
        let token = note_as::<I, Brand>(&book.table.shared, &mut self.token, k);
        Note { token }
    }

    /// Learns a note, which is spent: this seat may quote its ticket, and each later ticket of this seat is above it.
    pub fn learn(&mut self, book: &Book<I>, note: Note)
        requires book { (self.old.table ≡ book.now.table) × (note.table ≡ book.now.table) }
        ensures same { KeepsList self.old self.new }
        ensures known { self.new.known ≡ self.old.known ++ note.facts }
        ensures later { FactsBelow self.new.next self.new.known × (self.old.next ≤ self.new.next) }
        ensures view { (self.new.fresh ≡ self.old.fresh) × (self.new.read ≡ self.old.read) }
    {
        let Note { token } = note;
        take_in(&book.table.shared, &mut self.token, token);
    }

    /// The next ticket at this moment: each later ticket of this seat is that or a greater one.
    pub fn mark(&mut self, book: &Book<I>) -> u64
        requires book { self.old.table ≡ book.now.table }
        ensures same { KeepsList self.old self.new }
        ensures later { (self.old.next ≤ result) × (self.new.next ≡ result) }
        ensures view { (self.new.fresh ≡ self.old.fresh) × (self.new.known ≡ self.old.known) × (self.new.read ≡ self.old.read) }
    {
        load(&book.table.shared, &mut self.token)
    }

    /// Reads what another seat drew so far, which that one keeps. Each later ticket of this seat is above all of it,
    /// and not below the other's next one.
    pub fn follow(&mut self, book: &Book<I>, other: &mut Seat<I>)
        requires book { (self.old.table ≡ book.now.table) × (other.old.table ≡ book.now.table) }
        ensures other { other.new ≡ other.old }
        ensures same { KeepsList self.old self.new }
        ensures read { self.new.read ≡ self.old.read ++ map (held_of I.row.coded) other.old.list }
        ensures reads { All (HasRead I.row.coded self.new.read self.new.next) other.old.list }
        ensures below { AllBelow self.new.next other.old.list }
        ensures later { (self.old.next ≤ self.new.next) × (other.old.next ≤ self.new.next) }
        ensures view { (self.new.fresh ≡ self.old.fresh) × (self.new.known ≡ self.old.known) }
    {
        let told = tell(&book.table.shared, &mut other.token);
        take_in(&book.table.shared, &mut self.token, told);
    }
}
