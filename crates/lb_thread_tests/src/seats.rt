//! Books of two owners, for the tests that draw.
ghost use Rattle.std.specs.Prelude.{◌≡◌, ◌<◌, ◌^◌, ◌∷◌, []};
ghost use Rattle.lb_thread_tests.specs.Seats.{HasRoom};

use lb_ticket::{Book, Item, Seat};
use std::alloc::Global;
use std::process::Abort;

/// A book of two owners and their seats, which have room for so many entries.
pub fn two_seats<I: Item + Drop>(
    rt: &impl Abort,
    alloc: Global,
    room: usize,
) -> (Book<I>, Seat<I>, Seat<I>)
    requires { room < 2 ^ 40 }
    ensures owners { result.0.owners ≡ 2 }
    ensures first { HasRoom result.0.table 0 room result.1 }
    ensures second { HasRoom result.0.table 1 room result.2 }
{
    let Ok((book, mut seats)) = Book::<I>::new(alloc, 2) else {
        panic!(rt; "no book")
    };
    let Some(mut second) = seats.pop() else {
        panic!(rt; "no seat")
    };
    let Some(mut first) = seats.pop() else {
        panic!(rt; "no seat")
    };
    assert!(rt; first.reserve(room).is_ok());
    assert!(rt; second.reserve(room).is_ok());
    (book, first, second)
}

/// The two seats by their numbers.
pub fn in_order<I: Item + Drop>(
    rt: &impl Abort,
    alloc: Global,
    first: Seat<I>,
    second: Seat<I>,
) -> Vec<Seat<I>>
    ensures { result.items ≡ first ∷ second ∷ [] }
{
    let mut seats = Vec::new(alloc);
    let Ok(()) = seats.push(first) else {
        panic!(rt; "no room")
    };
    let Ok(()) = seats.push(second) else {
        panic!(rt; "no room")
    };
    seats
}
