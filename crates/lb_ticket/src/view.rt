//! What a seat or a note knows, as the rule of the ticket word sees it. No value of these types is made.
ghost use base.Stored.{Gv};
ghost use base.Fml.{ftrue};
ghost use Rattle.atomic_table.specs.Seated.{itself};

use crate::item::Drawn;
use std::collections::LinkedList;
use std::marker::Model;

/// The list of one owner.
pub struct Column<I> {
    pub owner: u64,
    pub drawn: LinkedList<Drawn<I>>,
}

/// The seats that it has made and may still make; the columns of the owners that it stands for; the entries that
/// it drew and did not note, those that it knows and did not quote, those that it read in other columns; and
/// a number that the word has reached.
pub struct View<I> {
    pub made: u64,
    pub vacant: u64,
    pub columns: LinkedList<Column<I>>,
    pub fresh: LinkedList<Drawn<I>>,
    pub known: LinkedList<Drawn<I>>,
    pub read: LinkedList<Drawn<I>>,
    pub seen: u64,
}

/// An entry, by the code of its item.
pub struct Held {
    pub ticket: u64,
    pub ghost item: { Gv } by { itself },
}

impl Model for Held {
    ghost also_owns = { λ _. ftrue };
}

/// What is known of an entry: its lane, and the code of what it leaves.
pub struct Fact {
    pub ticket: u64,
    pub lane: u32,
    pub ghost left: { Gv } by { itself },
}

impl Model for Fact {
    ghost also_owns = { λ _. ftrue };
}

/// A column, with codes in place of items.
pub struct BareColumn {
    pub owner: u64,
    pub drawn: LinkedList<Held>,
}

/// A view, with codes in place of items.
pub struct Bare {
    pub made: u64,
    pub vacant: u64,
    pub columns: LinkedList<BareColumn>,
    pub fresh: LinkedList<Fact>,
    pub known: LinkedList<Fact>,
    pub read: LinkedList<Held>,
    pub seen: u64,
}
