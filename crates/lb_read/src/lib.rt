//! Reading histories: what a text says that reads as one, or its first bad line. Each text reads as at
//! most one history (docs/rules/history-text.md).
#![tactic(auto)]

mod command;
mod decision;
mod entry;
mod fields;
mod header;
mod kinds;
pub mod laws;
mod lines;
mod owner;
mod read;
mod repeats;
mod what;
mod words;
mod written;

pub use read::read_history;
pub use written::{Read, RecordError, Written, WrittenEntry};
