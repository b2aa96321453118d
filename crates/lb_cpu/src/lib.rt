//! The run queues of a machine behind their locks, the calls by which lanes draw entries there, and how a machine begins
//! and ends (docs/rules/threads.md).
//!
//! No call holds two locks. A lock tells nothing of what lies behind it but what its type keeps, so what a call asks of a
//! queue beyond that it tests while it holds the lock, and looks again where the test fails.
#![tactic(auto)]

mod apart;
mod blank;
mod booking;
mod closing;
mod command;
mod cpus;
mod cut;
mod due;
mod landing;
mod locks;
mod looking;
mod requests;
mod rest;
mod rows;
mod serving;
mod start;
mod taking;
mod turning;
mod waking;

pub use blank::Blank;
pub use cpus::Cpus;
pub use lb_end::Ended;
