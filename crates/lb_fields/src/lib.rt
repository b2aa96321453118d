//! The lines of a trace and their fields. A text is cut into lines at its line feeds, and `csv` reads
//! the fields of one line after the other (docs/rules/trace.md).
#![tactic(auto)]

mod fields;
mod plain;

pub use fields::{next_fields, start};
pub use lb_text::Pieces;
pub use plain::is_plain;
