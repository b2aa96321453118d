//! Reading the header of a history: its lines without `= ` are read as a trace.
ghost use Rattle.std.specs.Prelude.{◌≡◌, [], ◌∷◌, ◌++◌, ◌≤◌, ◌+◌, length, IfOk, IfErr, OnOk, Ok};
ghost use Rattle.lb_text.specs.declared.marks.TheConstants.{LINE_FEED};
ghost use Rattle.lb_read.specs.Texts.{lines_of, trace_text, head_behind, line_after, header_in, Refuses};

use crate::lines::{cut_line, repeated};
use crate::repeats::{can_follow, parted_by};
use crate::written::RecordError;
use lb_base::NoMemory;
use lb_text::LINE_FEED;
use lb_trace::{Header, MAX_BYTES, Trace, TraceError};
use std::alloc::Global;

// The first line of a trace.
fn first_line(alloc: Global) -> Result<Vec<u8>, NoMemory>
    ensures { IfOk result (λ trace. trace.items ≡ trace_text []) }
{
    let mut trace = Vec::new(alloc);
    trace.extend_from_slice(b"lbtrace,1\n")?;
    Ok(trace)
}

// Adds a line to a trace.
fn add_line(trace: &mut Vec<u8>, body: &[u8]) -> Result<(), NoMemory>
    ensures { OnOk result (trace.new.items ≡ (trace.old.items ++ body.now) ++ LINE_FEED ∷ []) }
{
    trace.extend_from_slice(body)?;
    trace.extend_from_slice(&[LINE_FEED])?;
    Ok(())
}

// The lines at the head that can be repeated: the trace that they are, how many there are, whether a
// line behind `= ` ends them, and the text that is left.
#[derive(Drop)]
struct Head<'a> {
    trace: Vec<u8>,
    lines: u64,
    stopped: bool,
    rest: &'a [u8],
}

// Reads the lines at the head that can be repeated.
fn head_of<'a>(alloc: Global, text: &'a [u8]) -> Result<Head<'a>, NoMemory>
    ensures trace { IfOk result (λ head. head.trace.items ≡ trace_text (head_behind (lines_of text.now)).bodies) }
    ensures lines { IfOk result (λ head. head.lines ≡ length (head_behind (lines_of text.now)).bodies) }
    ensures few { IfOk result (λ head. head.lines ≤ MAX_BYTES) }
    ensures stopped { IfOk result (λ head. head.stopped ≡ (head_behind (lines_of text.now)).stopped) }
    ensures rest { IfOk result (λ head. lines_of head.rest.now ≡ (head_behind (lines_of text.now)).rest) }
    ensures within { IfOk result (λ head. length head.rest.now ≤ length text.now) }
{
    let mut trace = first_line(alloc)?;
    let mut parted = false;
    let mut lines = 0;
    let mut rest = text;
    while let Some((line, after)) = cut_line(rest) {
        let Some(body) = repeated(line) else {
            return Ok(Head {
                trace,
                lines,
                stopped: false,
                rest,
            });
        };
        if !can_follow(alloc, parted, body, trace.len())? {
            return Ok(Head {
                trace,
                lines,
                stopped: true,
                rest,
            });
        }
        add_line(&mut trace, body)?;
        parted = parted_by(parted, body);
        lines += 1;
        rest = after;
    }
    Ok(Head {
        trace,
        lines,
        stopped: false,
        rest,
    })
}

/// The header at the head of a text, the number of the line after it, and the text that is left. Line 1
/// stands before the text.
#[tactic(auto, unfolding(crate::specs::Texts::header_in))]
pub(crate) fn header_in<'a>(
    alloc: Global,
    text: &'a [u8],
) -> Result<(Header, u64, &'a [u8]), RecordError>
    ensures header { IfOk result (λ found. header_in (head_behind (lines_of text.now)) ≡ Ok found.0) }
    ensures first { IfOk result (λ found. found.1 ≡ line_after (head_behind (lines_of text.now)).bodies) }
    ensures few { IfOk result (λ found. found.1 ≤ MAX_BYTES + 2) }
    ensures rest { IfOk result (λ found. lines_of found.2.now ≡ (head_behind (lines_of text.now)).rest) }
    ensures within { IfOk result (λ found. length found.2.now ≤ length text.now) }
    ensures bad { IfErr result (λ refused. Refuses refused (header_in (head_behind (lines_of text.now)))) }
{
    let Head {
        trace,
        lines,
        stopped,
        rest,
    } = head_of(alloc, text)?;
    match Trace::read(alloc, trace.as_slice()) {
        Err(TraceError::NoMemory) => Err(RecordError::NoMemory),
        // line 1 of a history stands for line 1 of the trace
        Err(TraceError::Refused { line, code: _ }) => Err(RecordError::BadLine { line }),
        Ok(_) if stopped => Err(RecordError::BadLine { line: lines + 2 }),
        Ok(trace) => Ok((trace.header, lines + 2, rest)),
    }
}
