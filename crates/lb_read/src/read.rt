//! A whole text is read as a history, or its first bad line is named.
ghost use Rattle.std.specs.Prelude.{◌≤◌, ◌+◌, ◌<◌, ◌^◌, length, IfOk, IfErr};
ghost use Rattle.lb_read.specs.Texts.{lines_of, entries_in, read_from, read_of, Gives};
ghost use Rattle.lb_read.specs.Whole.{ReadsAs};
ghost use Rattle.lb_read.specs.FirstBad.{IsRefusal};

use crate::entry::entry_of;
use crate::header::header_in;
use crate::lines::cut_line;
use crate::written::{Read, RecordError, Written};
use lb_base::Items;
use lb_trace::Header;
use std::alloc::Global;

// The entries of a text, of which the first is this line.
#[tactic(auto, using(crate::proofs::TextFacts::entry_some, crate::proofs::TextFacts::entry_none, crate::proofs::TextFacts::entries_end, crate::proofs::TextFacts::entries_cut, crate::proofs::TextFacts::entries_start))]
fn entries_in(alloc: Global, text: &[u8], first: u64) -> Result<Written, RecordError>
    requires { first + length text.now < 2 ^ 64 }
    ensures { Gives result (entries_in first (lines_of text.now)) }
{
    let mut entries = Items::new(alloc);
    let mut number = first;
    let mut rest = text;
    while let Some((line, after)) = cut_line(rest) {
        let Some(entry) = entry_of(alloc, line)? else {
            return Err(RecordError::BadLine { line: number });
        };
        entries.push(entry)?;
        number += 1;
        rest = after;
    }
    if rest.is_empty() {
        Ok(entries)
    } else {
        Err(RecordError::BadLine { line: number })
    }
}

// The history of a header and of the entries of a text, of which the first is this line.
fn read_from(alloc: Global, header: Header, text: &[u8], first: u64) -> Result<Read, RecordError>
    requires { first + length text.now < 2 ^ 64 }
    ensures { Gives result (read_from header (entries_in first (lines_of text.now))) }
{
    let entries = entries_in(alloc, text, first)?;
    Ok(Read { header, entries })
}

// The history that a text reads as, line after line.
#[tactic(auto, using(crate::proofs::TextFacts::read_none, crate::proofs::TextFacts::read_other, crate::proofs::TextFacts::read_bad_header))]
fn read_lines(alloc: Global, bytes: &[u8]) -> Result<Read, RecordError>
    ensures { Gives result (read_of bytes.now) }
{
    let Some((line, rest)) = cut_line(bytes) else {
        return Err(RecordError::BadLine { line: 1 });
    };
    if line != b"lbhist 1".as_slice() {
        return Err(RecordError::BadLine { line: 1 });
    }
    let (header, first, rest) = header_in(alloc, rest)?;
    read_from(alloc, header, rest, first)
}

/// The history that a text reads as, or its first line that is no line of a history at its place
/// (docs/rules/history-text.md).
pub fn read_history(alloc: Global, bytes: &[u8]) -> Result<Read, RecordError>
    ensures read { IfOk result (λ read. ReadsAs bytes.now read) }
    ensures bad { IfErr result (λ error. IsRefusal error bytes.now) }
{
    read_lines(alloc, bytes)
}
