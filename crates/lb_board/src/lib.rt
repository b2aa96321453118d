//! The board: of each CPU the figures that its run queue published, in order, and what each lane has seen of them
//! (docs/rules/threads.md).
//!
//! A CPU has one cell, with the last of its figures. Its writer adds to them; readers look at the cell, each from a
//! thread of its own. A reader never goes back behind a figure that it saw or was told of, and each figure that it
//! reads is the one published at its place.
#![tactic(auto)]

mod board;
mod cell;
mod closing;
mod posted;
mod reader;
mod writer;

pub use board::Board;
pub use closing::gather;
pub use reader::Reader;
pub use writer::Writer;
