//! The end of a publisher: what its lookers saw is compared with what it published.
ghost use Rattle.std.specs.Prelude.{◌≡◌, All, length};
ghost use mathlib.Core.List.{IsPrefix};

use crate::history::Known;
use crate::looker::Looker;
use crate::publisher::Publisher;
use std::sync::Wait;

// What a looker has seen is a beginning of what was published. Nothing but versions that were published is seen, so
// the first test succeeds.
fn check<R: Wait>(rt: &R, seen: &Known, published: &Known)
    requires { seen.now.book ≡ published.now.book }
    ensures { IsPrefix seen.now.topologies published.now.topologies }
{
    for _ in rt.forever() {
        if seen.len() <= published.len() {
            seen.begins(published);
            return;
        }
    }
    unreachable!()
}

/// Spends a publisher and its lookers, and answers the last version. What each looker saw is a beginning of what was
/// published: so each topology that was looked at is the one published as that version.
pub fn gather<R: Wait>(rt: &R, publisher: Publisher, lookers: Vec<Looker>) -> u64
    requires lookers { All (λ l. l.book ≡ publisher.book) lookers.items }
    ensures last { result ≡ length publisher.topologies }
    ensures seen { All (λ l. IsPrefix l.topologies publisher.topologies) lookers.items }
{
    for i in 0..lookers.len() {
        check(rt, &lookers[i].known, &publisher.known);
    }
    drop(lookers);
    publisher.end(rt)
}
