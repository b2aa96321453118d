//! What is said of a history that was read: legal, or the ticket and the rule of its first fault.
use lb_core::Rule;

/// What is said of a history that was read from a text (docs/rules/legality.md).
#[derive(Clone, Copy, Debug, PartialEq, Eq)]
pub enum Verdict {
    /// Each entry may be added to the machine that those before it leave, and has its place as its ticket;
    /// and the last one is the end.
    Legal,
    /// The first fault.
    Illegal {
        /// Where it is: the place of the entry, from 1, whatever ticket is written there. Where the end is
        /// missing, it is the place behind the last entry.
        ticket: u64,
        /// The first rule that is broken there.
        rule: Rule,
    },
}
