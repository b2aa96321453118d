//! A run queue with its entries and its published figures, as they stand behind one lock, and a lane's side of each
//! entry that it draws there (docs/rules/threads.md).
//!
//! Each call of a [`Cell`] that draws, draws one entry: the queue makes its step, the entry joins the queue's list at the next
//! ticket, the queue's new figure is published, and the lane goes on along its course.
#![tactic(auto)]

mod answer;
mod before;
mod cell;
mod draw;
mod ending;
mod ends;
mod enter;
mod known;
mod landing;
mod lane;
pub mod laws;
mod leaving;
mod lists;
mod log;
mod making;
mod names;
mod opening;
mod own;
mod parts;
mod publish;
mod pulling;
mod reading;
mod requests;
mod rooms;
mod serving;
mod shared;

pub use cell::Cell;
pub use known::Known;
pub use lane::Lane;
pub use log::Log;
pub use names::Names;
pub use rooms::MAX_ENTRIES;
pub use shared::Shared;
