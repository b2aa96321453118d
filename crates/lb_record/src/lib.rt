//! The text of histories: the lines of a header, the line of an entry, and the whole text. Each
//! history has one text (docs/rules/history-text.md).
#![tactic(auto)]

mod entry;
mod fields;
mod header;
mod history;
pub mod laws;
mod words;

pub use entry::put_entry;
pub use header::put_header;
pub use history::{MAX_HISTORY_BYTES, history_text};
