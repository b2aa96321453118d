//! What a trace says, and reading one from its text.
#![tactic(auto)]

mod copies;
mod fields;
mod header_lines;
mod kind;
pub mod laws;
mod line_error;
mod machine;
mod masks;
mod read;
mod reading;
mod row_lines;
mod trace;

pub use trace::{
    Code, Command, CpuRows, Distances, Header, MAX_BYTES, MAX_CORE, MAX_DISTANCE, MAX_ID,
    MAX_LANES, MAX_MOMENT, MAX_NODES, MAX_ROWS, MAX_TASKS, Masks, Row, Rows, TaskRow, TaskRows,
    Trace, TraceError,
};
