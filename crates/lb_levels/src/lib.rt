//! The machine that is balanced: its CPUs, its levels, and the span of a CPU at a level.
#![tactic(auto)]

mod cpu_row;
mod faults;
pub mod laws;
mod limits;
mod machine;
mod parts;
mod rows;
mod span;

pub use cpu_row::CpuRow;
pub use faults::{MachineError, PartsFault};
pub use limits::{MAX_DISTANCE, MAX_LEVELS, MAX_NODES};
pub use machine::Machine;
pub use parts::parts_fault;
