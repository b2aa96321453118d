//! What every layer of `lb` speaks of: sets of CPUs, the weights of nice values, lists, and the
//! plain types that the balancing rules pass to one another.
#![tactic(auto)]

mod buffer;
mod figure;
mod group;
mod items;
pub mod laws;
mod mask;
mod memory;
mod shape;
mod view;
mod weight;

pub use buffer::Buffer;
pub use figure::Fig;
pub use group::{GroupType, Stats};
pub use items::Items;
pub use mask::{MAX_CPUS, Mask};
pub use memory::NoMemory;
pub use shape::{Kind, LevelName, Shape};
pub use view::{MoveKind, TaskView};
pub use weight::weight_of_nice;
