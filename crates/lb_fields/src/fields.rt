//! The fields of one line after the other, read with `csv`.
ghost use Rattle.std.specs.Prelude.{◌≡◌, ◌≢◌, [], ◌∷◌, ◌++◌, ℕ, List, true, OnOk};
ghost use Rattle.csv.specs.Reading.{strip_bom};
ghost use Rattle.csv.specs.Records.{fields_of};
ghost use Rattle.lb_fields.specs.Pieces.{pieces, is_plain};
ghost use Rattle.lb_fields.specs.Standing.{Stands};

use csv::{ByteRecord, Reader, ReaderBuilder, Terminator};
use lb_base::NoMemory;
use lb_text::{COMMA, LINE_FEED};
use std::alloc::Global;

/// A reader of the fields of a text's lines, which stands at the start of the first one.
///
/// `csv` passes over a byte order mark at the start of a text. No plain line begins with one, so the
/// reader has the whole text before it wherever the first line is plain.
pub fn start<'a>(alloc: Global, text: &'a [u8]) -> Reader<&'a [u8]>
    ensures unmarked { strip_bom text.now ≡ text.now → Stands result text.now }
    ensures plain { (line : List ℕ) (lines : List (List ℕ)) → pieces LINE_FEED text.now ≡ line ∷ lines
        → is_plain line ≡ true → Stands result text.now }
{
    ReaderBuilder::new()
        .has_headers(false)
        .flexible(true)
        .quoting(false)
        .terminator(Terminator::Any(LINE_FEED))
        .from_reader(alloc, text)
}

/// Reads the fields of the next line into `row`: the pieces of the line between its commas, one more
/// than it has commas, of which some may be empty. The reader then stands at the start of the line
/// after it.
///
/// `line` is that next line, without the line feed that ends it. It is plain (docs/rules/trace.md),
/// and not empty, since `csv` passes over an empty line.
///
/// `NoMemory` says nothing of the reader, which is not used again.
pub fn next_fields(
    reader: &mut Reader<&[u8]>,
    line: &[u8],
    row: &mut ByteRecord,
) -> Result<(), NoMemory>
    requires full { line.now ≢ [] }
    requires plain { is_plain line.now ≡ true }
    ensures { (tail : List ℕ) → Stands reader.old (line.now ++ LINE_FEED ∷ tail)
        → OnOk result ((fields_of row.new ≡ pieces COMMA line.now) × Stands reader.new tail) }
{
    match reader.read_byte_record(row) {
        Ok(_) => Ok(()),
        Err(_) => Err(NoMemory),
    }
}
