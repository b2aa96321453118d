//! The book: how it is made, and how it is closed.
ghost use Rattle.std.specs.Prelude.{◌≡◌, ◌≤◌, All, List, [], length, map, vec_capacity, IfOk};
ghost use Rattle.lb_ticket.specs.Tickets.{Closes, QuotesHold};
ghost use Rattle.lb_ticket.specs.Facts.{AllUnquoted, AllDrawn};
ghost use Rattle.lb_ticket.specs.Bare.{bare_opening, IsBareRoot};
ghost use Rattle.lb_ticket.specs.Seats.{Numbered, AllEmpty, all_facts};

use crate::item::{Drawn, Item};
use crate::rule::{Gather, MakeSeat, Tickets};
use crate::seat::Seat;
use crate::view::Bare;
use atomic_table::{Seat as Token, Shared, Table};
use lb_base::NoMemory;
use std::alloc::Global;
use std::marker::Model;

/// A ticket book: the word that its seats draw from. Threads share it by reference.
#[derive(Drop)]
pub struct Book<I: Item> {
    pub(crate) table: Table<(), Bare, u32, Tickets<I>, Global>,
    of: Vec<Vec<Drawn<I>>>,
    owners: u32,
}

impl<I: Item> Model for Book<I> {
    ghost use Rattle.std.specs.Prelude.{◌≡◌, ◌≤◌, vec_capacity, []};
    ghost use Rattle.lb_ticket.specs.Seats.{BookIs};

    ghost Value = { BookIs };

    ghost view = { λ b. record { table = b.table.shared.table_id; owners = b.owners } };

    ghost invariant = { λ b.
        (b.table.shared.table_id.words ≡ 1) × (b.table.shared.table_id.slots ≡ 0) × (b.table.shared.key ≡ b.owners)
        × (1 ≤ b.owners) × (b.of.items ≡ []) × (b.owners ≤ vec_capacity b.of) };
}

/// The lists of all owners, by their numbers. Contracts see a list of lists.
#[derive(Drop)]
pub struct Lists<I> {
    /// `of[i]` is what the seat of number `i` drew, in the order of its draws.
    pub of: Vec<Vec<Drawn<I>>>,
}

impl<I> Model for Lists<I> {
    ghost use Rattle.std.specs.Prelude.{List, map};
    ghost use Rattle.lb_ticket.specs.declared.item.Drawn.{Drawn};

    ghost Value = { List (List (Drawn I)) };

    ghost view = { λ l. map (λ v. v.items) l.of.items };
}

// The seats, made from the root.
fn make_seats<I: Item>(
    alloc: Global,
    shared: &Shared<(), Bare, u32, Tickets<I>>,
    root: &mut Token<(), Bare>,
    owners: u32,
    seats: &mut Vec<Seat<I>>,
)
    requires table { (root.old.table_id ≡ shared.now.table_id) × (shared.now.table_id.words ≡ 1) }
    requires root { root.old.me ≡ (bare_opening owners, []) }
    requires room { (seats.old.items ≡ []) × (owners ≤ vec_capacity seats.old) }
    ensures root { (root.new.table_id ≡ root.old.table_id) × IsBareRoot root.new.me }
    ensures seats { Numbered shared.now.table_id 0 seats.new.items × (length seats.new.items ≡ owners) }
    ensures empty { AllEmpty seats.new.items }
{
    for number in 0..owners {
        let token = shared.split_seat::<MakeSeat>(root);
        seats.push_reserved(Seat {
            token,
            number,
            list: Vec::new(alloc),
            spare: 0,
        });
    }
}

impl<I: Item> Book<I> {
    /// A book of `owners` owners, at most 4,096, and the seat of each, with the numbers from 0. Nothing is drawn yet.
    pub fn new(alloc: Global, owners: u32) -> Result<(Book<I>, Vec<Seat<I>>), NoMemory>
        requires { (1 ≤ owners) × (owners ≤ 4096) }
        ensures seats { IfOk result (λ r. (r.0.owners ≡ owners) × (length r.1.items ≡ owners) × Numbered r.0.table 0 r.1.items) }
        ensures empty { IfOk result (λ r. AllEmpty r.1.items) }
    {
        let Ok((table, mut root)) = Table::of_words(alloc, &[1], &owners) else {
            return Err(NoMemory);
        };
        let Ok(of) = Vec::with_capacity(alloc, owners as usize) else {
            return Err(NoMemory);
        };
        let Ok(mut seats) = Vec::with_capacity(alloc, owners as usize) else {
            of.destroy_empty();
            return Err(NoMemory);
        };
        make_seats(alloc, &table.shared, &mut root, owners, &mut seats);
        let book = Book { table, of, owners };
        Ok((book, seats))
    }

    /// Takes all seats back, in the order of their numbers, and answers their lists. They hold every ticket from 1
    /// to their count once, rise, and fit item by item; each quote names an earlier entry of its lane with what
    /// that left, and no two quote one entry (`tickets`, `quotes`). Nobody quotes what a seat still holds the fact
    /// of (`unquoted`), and what a seat had read of others stands in the lists (`read`).
    pub fn close(self, mut seats: Vec<Seat<I>>) -> Lists<I>
        requires seats { Numbered self.table 0 seats.items × (length seats.items ≡ self.owners) }
        ensures lists { result ≡ map (λ s. s.list) seats.items }
        ensures tickets { Closes I.means result }
        ensures quotes { QuotesHold I.means result }
        ensures unquoted { AllUnquoted I.means I.Left.row.coded (all_facts seats.items) result }
        ensures read { All (λ s. AllDrawn I.row.coded s.read result) seats.items }
    {
        let Book {
            table,
            mut of,
            owners: _,
        } = self;
        let Some(last) = seats.pop() else {
            unreachable!()
        };
        let Seat {
            token: mut root,
            number: _,
            list,
            spare: _,
        } = last;
        of.push_reserved(list);
        while let Some(seat) = seats.pop() {
            let Seat {
                token,
                number: _,
                list,
                spare: _,
            } = seat;
            table.shared.join_seat::<Gather>(&mut root, token);
            of.push_reserved(list);
        }
        seats.destroy_empty();
        of.reverse();
        table.close_with(root).free();
        Lists { of }
    }
}
