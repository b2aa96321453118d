//! What each owner of entries keeps of its own, as items of a ticket book, and the law of the merge: the entries
//! of a closed book, in the order of their tickets, are a legal history of the trace (docs/rules/legality.md).
//!
//! Whoever draws an entry sees the list of its owner and the course that it quotes, and nothing else of the
//! machine. From these alone a further item is judged. The laws say what the owners have to keep of their lists
//! so that all of them together are one run of the machine.
#![tactic(auto)]

mod journal;
pub mod laws;
mod order;

pub use journal::{Journal, Left};
pub use order::{close_in_order, in_order};
