//! The balancing machine: what an entry of a history is, what a lane may draw next, and when a
//! history is legal. The definitions stand in `specs/`, the laws of every legal front in `laws`.
#![tactic(auto)]

mod course;
mod entry;
mod history;
pub mod laws;
mod lists;
mod place;
mod rule;

pub use course::{Course, Form};
pub use entry::{CpuFig, Entry, FigName, OutcomeWord, Owner, What};
pub use history::{History, MAX_TICKET};
pub use lb_queue::TaskRecord;
pub use lists::{CounterRows, Entries, FigNames, Figs, Ids, Numbers, TaskRecords};
pub use place::Place;
pub use rule::Rule;
