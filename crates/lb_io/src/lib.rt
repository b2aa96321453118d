//! Where bytes come from and where they go: sources and sinks that count their faults, over std's
//! streams and in memory, the calls that move a whole text, and the gate that lanes pass.
#![tactic(auto)]

mod gate;
mod memory;
mod standard;
mod stream;
mod whole;

pub use gate::{Gate, OpenGate, Point};
pub use memory::{MemSink, MemSource};
pub use standard::{ReadSource, WriteSink};
pub use stream::{Failed, Sink, Source};
pub use whole::{ReadError, read_all, write_all};
