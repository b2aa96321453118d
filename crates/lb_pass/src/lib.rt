//! One position of a lane's open turn: its looks, takes and landings, and its close (docs/rules/threads.md).
//!
//! A lane that passes a gate holds no lock. A landing is booked at the turn's CPU before tasks leave their queue, so no want
//! of memory comes while they are in the hand.
#![tactic(auto)]

mod asked;
mod passing;
mod pulling;
mod trying;

pub use passing::pass;
