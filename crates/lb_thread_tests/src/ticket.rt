//! Two owners draw from a ticket book, one after the other and at the same time.
ghost use Rattle.std.specs.Prelude.{Option, ℕ, ◌≡◌, ◌≤◌};

use crate::seats::{in_order, two_seats};
use lb_ticket::{Book, Item, Lists, Seat};
use std::thread::join;

// An item that may quote any entry of its lane, and fits any list.
#[derive(Drop)]
struct Plain {
    owner: u32,
    lane: u32,
    quoted: Option<(u64, u32)>,
    left: u32,
}

impl Item for Plain {
    type Left = u32;

    ghost means = { record {
      owner = λ i. i.owner;
      lane = λ i. i.lane;
      quote = λ i. i.quoted;
      leaves = λ i. i.left;
      fits = λ _ _. Unit {0};
    } };

    fn owner(&self) -> u32 {
        self.owner
    }

    fn lane(&self) -> u32 {
        self.lane
    }

    fn quote(&self) -> Option<u64> {
        match self.quoted {
            Some((ticket, _)) => Some(ticket),
            None => None,
        }
    }
}

// An item of lane 3.
fn item_of(owner: u32, quoted: Option<(u64, u32)>) -> Plain
    ensures { result ≡ record { owner = owner; lane = 3; quoted = quoted; left = 7 } }
{
    Plain {
        owner,
        lane: 3,
        quoted,
        left: 7,
    }
}

#[test]
fn a_note_is_quoted(rt: HostRuntime) {
    let (book, mut first, mut second) = two_seats(&rt, rt.alloc(), 1);
    let one = first.draw(&book, item_of(0, None));
    let note = first.note(&book, one);
    second.learn(&book, note);
    let mark = second.mark(&book);
    let two = second.draw(&book, item_of(1, Some((one, 7))));
    assert!(rt; one == 1 && mark == 2 && two == 2);
    assert!(rt; first.len() == 1 && second.number() == 1);
    let seats = in_order(&rt, rt.alloc(), first, second);
    assert!(rt; has_one_and_two(book.close(seats)));
}

#[test]
fn a_seat_follows_another(rt: HostRuntime) {
    let (book, mut first, mut second) = two_seats(&rt, rt.alloc(), 1);
    let ahead = second.draw(&book, item_of(1, None));
    first.follow(&book, &mut second);
    let behind = first.draw(&book, item_of(0, None));
    assert!(rt; ahead == 1 && behind == 2);
}

// Whether the first owner's list has the ticket 1, and the second's the ticket 2.
fn has_one_and_two(lists: Lists<Plain>) -> bool {
    match lists.of.as_slice() {
        [first, second] => {
            first.len() == 1 && second.len() == 1 && first[0].ticket == 1 && second[0].ticket == 2
        }
        _ => false,
    }
}

fn draw_many(book: &Book<Plain>, mut seat: Seat<Plain>, owner: u32, count: usize) -> Seat<Plain>
    requires { (seat.table ≡ book.now.table) × (seat.number ≡ owner) × (count ≤ seat.spare) }
    ensures { (result.table ≡ seat.table) × (result.number ≡ seat.number) }
{
    for turn in 0..count {
        seat.draw(book, item_of(owner, None));
    }
    seat
}

#[test]
fn two_threads_draw(rt: HostRuntime) {
    let (book, first, second) = two_seats(&rt, rt.alloc(), 1000);
    let shared = &book;
    let (first, second) = join(
        &rt,
        move ||
            requires { (first.table ≡ shared.now.table) × (first.number ≡ 0) × (1000 ≤ first.spare) }
            ensures { (result.table ≡ first.table) × (result.number ≡ first.number) }
        { draw_many(shared, first, 0, 1000) },
        move ||
            requires { (second.table ≡ shared.now.table) × (second.number ≡ 1) × (1000 ≤ second.spare) }
            ensures { (result.table ≡ second.table) × (result.number ≡ second.number) }
        { draw_many(shared, second, 1, 1000) },
    );
    let seats = in_order(&rt, rt.alloc(), first, second);
    assert!(rt; has_all_of_2000(book.close(seats)));
}

// Whether each owner has half of the tickets up to 2000, so that the last stands at the end of a list.
fn has_all_of_2000(lists: Lists<Plain>) -> bool {
    match lists.of.as_slice() {
        [first, second] => {
            first.len() == 1000
                && second.len() == 1000
                && (first[999].ticket == 2000 || second[999].ticket == 2000)
        }
        _ => false,
    }
}
