//! The two copies of what is shown, as the publisher holds them.
ghost use Rattle.std.specs.Prelude.{◌≡◌, ◌<◌, ◌≤◌, [], ◌∷◌, ◌++◌, drop, IfOk, IfErr};
ghost use Rattle.left_right.specs.Sides.{view};
ghost use Rattle.lb_topub.specs.Shown.{Knows};
ghost use Rattle.lb_topub.specs.Copies.{last_of};

use crate::history::Known;
use crate::looker::Looker;
use crate::shown::{Finds, OneBook, Shown, Telling};
use core::mem::replace_with;
use lb_base::NoMemory;
use left_right::writer::Writer;
use std::alloc::{AllocError, Global};
use std::sync::Wait;

pub(crate) type Copies = Writer<Shown, Shown, Option<Known>, OneBook>;

// Shows all that is pending.
fn turn<R: Wait>(copies: Copies, by: (&R, &Known)) -> (Copies, Result<(), AllocError>)
    requires last { last_of copies.desk.shown.value.known (drop copies.behind copies.log.items) ≡ by.1.now }
    requires book { by.1.now.book ≡ copies.desk.shown.value.known.book }
    ensures ok { IfOk result.1 (λ _. (result.0.desk.shown.value.known ≡ by.entry.1.now) × Knows by.entry.1.now.book (view result.0.desk.place)) }
    ensures refused { IfErr result.1 (λ _. (result.0.desk.shown.value.known ≡ copies.desk.shown.value.known)
        × (drop result.0.behind result.0.log.items ≡ drop copies.behind copies.log.items)) }
{
    copies.publish_as::<Finds, R>(by.0)
}

// Shows all that is pending. A version is taken in by a second owner of its topology, which can be had, so the first
// try succeeds.
fn settle<R: Wait>(rt: &R, copies: &mut Copies, known: &Known)
    requires last { last_of copies.old.desk.shown.value.known (drop copies.old.behind copies.old.log.items) ≡ known.now }
    requires book { known.now.book ≡ copies.old.desk.shown.value.known.book }
    ensures shown { copies.new.desk.shown.value.known ≡ known.now }
    ensures knows { Knows known.now.book (view copies.new.desk.place) }
{
    for _ in rt.forever() {
        if replace_with(copies, (rt, known), turn::<R>).is_ok() {
            return;
        }
    }
    unreachable!()
}

// Puts a version behind what is pending. `of` has made room for it, so the first try succeeds.
fn append<R: Wait>(rt: &R, copies: &mut Copies, next: Shown)
    ensures desk { copies.new.desk ≡ copies.old.desk }
    ensures pending { drop copies.new.behind copies.new.log.items ≡ drop copies.old.behind copies.old.log.items ++ next ∷ [] }
{
    let mut next = next;
    for _ in rt.forever() {
        match copies.append(next) {
            Ok(()) => return,
            Err(back) => next = back,
        }
    }
    unreachable!()
}

// Shows a version.
pub(crate) fn show<R: Wait>(rt: &R, copies: &mut Copies, next: Shown)
    requires book { next.known.book ≡ copies.old.desk.shown.value.known.book }
    ensures shown { copies.new.desk.shown.value.known ≡ next.known }
    ensures knows { Knows next.known.book (view copies.new.desk.place) }
{
    let known = next.known.again();
    append(rt, copies, next);
    settle(rt, copies, &known);
}

// The copies of a first version, for so many lookers. They take the version in once more, which makes room for what
// comes later: at most two versions are pending at any time.
pub(crate) fn of<R: Wait>(
    rt: &R,
    alloc: Global,
    first: Shown,
    lookers: u32,
) -> Result<Copies, NoMemory>
    requires { (0 < lookers) × (lookers ≤ 16) }
    ensures shown { IfOk result (λ c. c.desk.shown.value.known ≡ first.known) }
    ensures knows { IfOk result (λ c. Knows first.known.book (view c.desk.place)) }
{
    let known = first.known.again();
    let (Ok(second), Ok(third)) = (first.another(), first.another()) else {
        return Err(NoMemory);
    };
    let Ok(mut copies) = Writer::new(alloc, first, second, lookers as usize) else {
        return Err(NoMemory);
    };
    if copies.append(third).is_err() {
        drop(copies.take(rt));
        return Err(NoMemory);
    }
    settle(rt, &mut copies, &known);
    Ok(copies)
}

// A looker that knows what is shown. It asks again for a place that is refused.
pub(crate) fn new_looker<R: Wait>(rt: &R, copies: &mut Copies, known: &Known) -> Looker
    requires { Knows known.now.book (view copies.old.desk.place) }
    ensures looker { result ≡ known.now }
    ensures copies { (copies.new.desk.shown ≡ copies.old.desk.shown) × (view copies.new.desk.place ≡ view copies.old.desk.place) }
{
    for _ in rt.forever() {
        if let Ok(mut side) = copies.factory().reader() {
            side.learn::<Telling>(copies.tell::<Telling>());
            return Looker {
                side,
                known: known.again(),
            };
        }
    }
    unreachable!()
}
