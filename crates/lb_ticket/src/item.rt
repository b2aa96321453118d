//! What a book asks of its items, and an item with its ticket.
ghost use Rattle.std.specs.Prelude.{◌≡◌};
ghost use Rattle.lb_ticket.specs.Tickets.{Meaning, ticket_of};

/// What a ticket is drawn for.
pub trait Item {
    /// What an item leaves, as plain data. The book asks only whether two such values are equal.
    type Left;

    /// What an item means: its owner, its lane, which entry it quotes and what that one left, what it leaves
    /// itself, and whether it fits what its owner drew before.
    ghost means: { Meaning Self Self.Left };

    /// The number of the owner whose seat draws it.
    fn owner(&self) -> u32
        ensures { result ≡ means.owner self.now };

    /// Its lane. An item quotes only an entry of its own lane.
    fn lane(&self) -> u32
        ensures { result ≡ means.lane self.now };

    /// The ticket that it quotes, if it quotes one.
    fn quote(&self) -> Option<u64>
        ensures { result ≡ ticket_of (means.quote self.now) };
}

/// An item with its ticket, which is 1 or more.
#[derive(Drop)]
pub struct Drawn<I> {
    /// The ticket: the place of the entry among all entries, from 1.
    pub ticket: u64,
    /// What it was drawn for.
    pub item: I,
}
