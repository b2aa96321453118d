//! A whole text is read as a trace, or its first bad line is named with its code (docs/rules/trace.md).
ghost use Rattle.std.specs.Prelude.{◌≤◌, [], length, IfOk, ◌≡◌};
ghost use Rattle.lb_fields.specs.Pieces.{pieces};
ghost use Rattle.lb_trace.specs.Grammar.{lines_from, nothing_read, trace_of, reading_of, Gives};
ghost use Rattle.lb_trace.specs.Ticked.{AreTicked};

use crate::line_error::LineError;
use crate::reading::Reading;
use crate::trace::{Code, Header, MAX_BYTES, Trace, TraceError};
use csv::ByteRecord;
use lb_base::{Items, MAX_CPUS, Mask, NoMemory};
use lb_fields::{Pieces, start};
use lb_text::LINE_FEED;
use std::alloc::Global;

// No CPU has ticked yet.
fn none_ticked() -> [Option<u64>; MAX_CPUS as usize]
    ensures { AreTicked [] result }
{
    [None; MAX_CPUS as usize]
}

// Reads all lines of a text.
#[tactic(auto, unfolding(crate::specs::Grammar::lines_from))]
fn lines_from(alloc: Global, text: &[u8]) -> Result<Reading, TraceError>
    requires { length text.now ≤ MAX_BYTES }
    ensures reading { Gives result (lines_from nothing_read (pieces LINE_FEED text.now)) }
    ensures few { IfOk result (λ read. length read.cpus ≤ MAX_CPUS) }
{
    let mut reading = Reading::new(alloc);
    let mut reader = start(alloc, text);
    let mut fields = ByteRecord::new(alloc);
    let mut ticked = none_ticked();
    let mut lines = Pieces::new(text, LINE_FEED);
    let Some(mut line) = lines.next_piece() else {
        return Ok(reading);
    };
    while let Some(next) = lines.next_piece() {
        let number = reading.line;
        match reading.take_line(alloc, line, &mut reader, &mut fields, &mut ticked) {
            Ok(()) => line = next,
            Err(LineError::Bad(code)) => return Err(TraceError::Refused { line: number, code }),
            Err(LineError::NoMemory) => return Err(TraceError::NoMemory),
        }
    }
    match reading.test_last(line) {
        Ok(()) => Ok(reading),
        Err(LineError::Bad(code)) => Err(TraceError::Refused {
            line: reading.line,
            code,
        }),
        Err(LineError::NoMemory) => Err(TraceError::NoMemory),
    }
}

// The trace that was read.
#[tactic(auto, unfolding(crate::specs::Grammar::trace_of))]
fn trace_of(alloc: Global, reading: Reading) -> Result<Trace, NoMemory>
    requires { length reading.cpus ≤ MAX_CPUS }
    ensures { IfOk result (λ trace. trace ≡ trace_of reading) }
{
    let Reading {
        line: _,
        cpus,
        distances,
        parts,
        lanes,
        tasks,
        rows,
    } = reading;
    let parts = match parts {
        Some(parts) => parts,
        None => Items::from_slice(alloc, &[Mask::all(cpus.len() as u32)])?,
    };
    let header = Header {
        cpus,
        distances,
        parts,
        lanes: lanes.unwrap_or(0),
        tasks,
    };
    Ok(Trace { header, rows })
}

impl Trace {
    /// The trace that a text is, or its first bad line with that line's first code
    /// (docs/rules/trace.md).
    #[tactic(auto, unfolding(crate::specs::Grammar::reading_of))]
    pub fn read(alloc: Global, bytes: &[u8]) -> Result<Trace, TraceError>
        ensures { Gives result (reading_of bytes.now) }
    {
        if bytes.len() as u64 > MAX_BYTES {
            return Err(TraceError::Refused {
                line: 0,
                code: Code::TooLong,
            });
        }
        let reading = lines_from(alloc, bytes)?;
        Ok(trace_of(alloc, reading)?)
    }
}
