//! The view of one holder, and how it is told to another.
ghost use Rattle.std.specs.Prelude.{[]};
ghost use Rattle.lb_seen.specs.Seen.{informed, reader};

use atomic_table::{Join, Split};
use std::collections::LinkedList;

/// What one holder knows of the list: `seen` is a beginning of it, and so is `told`, which another holder has told
/// and which the next look takes in. It stands in proofs alone: no value of it is made.
pub struct View<T> {
    /// Whether this is the holder that adds to the list.
    pub writes: bool,
    /// All that it has seen; of the writer, the whole list.
    pub seen: LinkedList<T>,
    /// What it was told since its last look.
    pub told: LinkedList<T>,
}

/// What one holder has seen is told to another. Both stay holders, and the first keeps what it knows.
pub struct Telling;

impl<T> Split<View<T>> for Telling {
    ghost left = { λ v. v };

    ghost right = { λ v. reader v.seen };
}

impl<T> Join<View<T>> for Telling {
    ghost both = { informed };

    ghost spent = { reader [] };
}
