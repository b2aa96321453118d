//! The scheduling domains of every CPU, for a machine and a list of partition masks.
#![tactic(auto)]

mod build;
mod domain;
pub mod laws;
mod ring;
mod topology;

pub use domain::Domain;
pub use topology::{BuildError, Topology};
