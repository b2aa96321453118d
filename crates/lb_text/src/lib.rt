//! How numbers and lists of CPUs are spelled in traces and histories: read exactly, with the first
//! byte that is wrong, and written in one spelling.
#![tactic(auto)]

mod bad_text;
pub mod laws;
mod list;
mod marks;
mod number;
mod pieces;
mod put;

pub use bad_text::BadText;
pub use list::list_of;
pub use marks::{COLON, COMMA, LINE_FEED, MINUS, SEMICOLON, SPACE, ZERO};
pub use number::{nice_of, number_of, number_within};
pub use pieces::Pieces;
pub use put::{put_list, put_number};
