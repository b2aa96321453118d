//! The versions of one publisher, as a list that only grows and that stands in proofs alone. What threads share of it
//! is how long it is; who knows a beginning of it may copy that knowledge.
ghost use Rattle.std.specs.Prelude.{◌≡◌, ◌<◌, ◌≤◌, ◌^◌, ◌+◌, [], length, IsTrue};
ghost use mathlib.Core.List.{IsPrefix};
ghost use Rattle.lb_topub.specs.Versions.{add_version};
ghost use Rattle.lb_topub.specs.History.{head_of};

use lb_domain::Topology;
use logbook::{Gain, Offer, Plain, Play, Rule, Seen, Start, Word};
use std::marker::Model;
use std::sync::Wait;

/// The rule of the list: the word is its length.
pub struct Law;

impl Rule<Topology, u64> for Law {
    ghost use Rattle.std.specs.Prelude.{[]};
    ghost use base.Fml.{ftrue};
    ghost use Rattle.lb_topub.specs.History.{IsKept};

    ghost holds = { λ cells log. IsKept cells log };

    ghost first = { [] };

    ghost hinted = { λ n log. Unit {0} };

    ghost shows = { λ log. [] };

    ghost keeps = { λ names log. ftrue };

    ghost moves = { λ ask before after answer. Unit {0} };
}

/// Callers trade nothing.
pub struct Nothing;

impl Gain<Topology, u64> for Nothing {
    ghost use base.Fml.{ftrue};

    ghost after = { λ names about answer. ftrue };
}

/// A step that adds a version.
pub struct Add;

impl Play<Topology, u64> for Add {
    ghost use Rattle.lb_topub.specs.History.{Adds};

    ghost then = { Adds };
}

impl Plain<Topology, Topology, u64> for Add {
    ghost use Rattle.std.specs.Prelude.{None};

    ghost ask = { λ next. next };

    ghost state = { λ next. None };
}

pub(crate) type Head = Word<Topology, u64, Law>;

/// A beginning of the list, with its length. Contracts see which list it is of, and its topologies.
#[derive(Drop)]
pub struct Known {
    count: u64,
    seen: Seen<Topology, u64, Law>,
}

impl Model for Known {
    ghost use Rattle.std.specs.Prelude.{◌≡◌, length};
    ghost use Rattle.lb_topub.specs.Versions.{VersionsSeen};

    ghost Value = { VersionsSeen };

    ghost view = { λ k. record { book = k.seen.book; topologies = k.seen.log } };

    ghost invariant = { λ k. k.count ≡ length k.seen.log };
}

impl Known {
    // A new list, with no version, and its word.
    pub(crate) fn open() -> (Head, Known)
        ensures head { result.0 ≡ head_of result.1.book }
        ensures empty { result.1.topologies ≡ [] }
    {
        let (seen, mut first, _second) = Seen::open(Start::alone(), 0, 0);
        (Word::tracked(0, &mut first), Known { count: 0, seen })
    }

    pub(crate) fn len(&self) -> u64
        ensures { result ≡ length self.now.topologies }
    {
        self.count
    }

    pub(crate) fn again(&self) -> Known
        ensures { result ≡ self.now }
    {
        Known {
            count: self.count,
            seen: self.seen.again(),
        }
    }

    // Of two beginnings of one list the shorter begins the longer.
    pub(crate) fn begins(&self, other: &Known)
        requires book { other.now.book ≡ self.now.book }
        requires shorter { length self.now.topologies ≤ length other.now.topologies }
        ensures { IsPrefix self.now.topologies other.now.topologies }
    {
        let mut both = self.seen.again();
        both.learn(&other.seen);
    }

    // Adds a version to what is known, and says whether it did. It did not where the list is longer.
    fn add(&mut self, head: &Head, next: &Topology) -> bool
        requires head { head.now ≡ head_of self.old.book }
        requires room { length self.old.topologies + 1 < 2 ^ 64 }
        ensures { IsTrue result → self.new ≡ add_version self.old next.now }
    {
        let mut offer: Offer<Topology, u64, Law, Nothing> = self
            .seen
            .plain::<Nothing, Topology, Add>(next);
        let mut pen = self.seen.no_pen();
        let count = self.count;
        let found = head.compare_exchange::<Add, Nothing>(
            count,
            count + 1,
            &mut self.seen,
            &mut offer,
            &mut pen,
        );
        self.count = if found == count { count + 1 } else { found };
        found == count
    }

    // What is known with one version more. Only the publisher adds versions, so the first try succeeds.
    pub(crate) fn with<R: Wait>(&self, rt: &R, head: &Head, next: &Topology) -> Known
        requires head { head.now ≡ head_of self.now.book }
        requires room { length self.now.topologies + 1 < 2 ^ 64 }
        ensures { result ≡ add_version self.now next.now }
    {
        for _ in rt.forever() {
            let mut longer = self.again();
            if longer.add(head, next) {
                return longer;
            }
        }
        unreachable!()
    }
}
