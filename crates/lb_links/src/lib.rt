//! A doubly linked list of values with ids (docs/ARCHITECTURE.md). Its nodes stand in a slab, and
//! each is found by its id; nodes are reserved, so that what is added takes no memory.
#![tactic(auto)]

mod chain;
mod links;
mod node;
mod places;

pub use links::Links;
