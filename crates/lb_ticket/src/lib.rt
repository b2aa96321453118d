//! The ticket book. Owners draw tickets for items by one fetch-and-add of one word; each keeps its own list, and
//! when the book is closed the lists hold every ticket once (docs/rules/threads.md).
//!
//! A seat draws for its owner. A note, which can be sent to another seat, tells that an entry was drawn and what
//! it leaves; whoever learnt it may quote that entry, once. A seat can also follow another, and then knows what
//! that one drew. None of these calls waits for another thread.
#![tactic(auto)]

mod book;
mod coding;
mod item;
pub mod laws;
mod note;
mod rule;
mod seat;
mod steps;
mod view;

pub use book::{Book, Lists};
pub use coding::Coding;
pub use item::{Drawn, Item};
pub use note::Note;
pub use seat::Seat;
