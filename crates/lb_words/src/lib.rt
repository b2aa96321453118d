//! The words of the command line, read with `clap`.
#![tactic(auto)]

mod parser;
mod words;
mod work;

pub use words::{MAX_NUMBER, work_of};
pub use work::Work;
