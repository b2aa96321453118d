//! The kinds of lines, by their first word (docs/rules/trace.md).
ghost use Rattle.std.specs.Prelude.{◌≡◌};
ghost use Rattle.csv.specs.Records.{fields_of};
ghost use Rattle.lb_trace.specs.Kinds.{kind_named, line_kind};

use csv::ByteRecord;

/// The kinds of row.
#[derive(Clone, Copy, Debug, PartialEq, Eq)]
pub enum RowKind {
    Wake,
    Sleep,
    Exit,
    Mask,
    Nice,
    Tick,
    Rebuild,
}

/// The kinds of line.
#[derive(Clone, Copy, Debug, PartialEq, Eq)]
pub enum LineKind {
    Version,
    Cpu,
    Dist,
    Parts,
    Lanes,
    Task,
    Row(RowKind),
}

// The kind that a word names.
fn kind_named(word: &[u8]) -> Option<LineKind>
    ensures { result ≡ kind_named word.now }
{
    if word == b"lbtrace".as_slice() {
        Some(LineKind::Version)
    } else if word == b"cpu".as_slice() {
        Some(LineKind::Cpu)
    } else if word == b"dist".as_slice() {
        Some(LineKind::Dist)
    } else if word == b"parts".as_slice() {
        Some(LineKind::Parts)
    } else if word == b"lanes".as_slice() {
        Some(LineKind::Lanes)
    } else if word == b"task".as_slice() {
        Some(LineKind::Task)
    } else if word == b"wake".as_slice() {
        Some(LineKind::Row(RowKind::Wake))
    } else if word == b"sleep".as_slice() {
        Some(LineKind::Row(RowKind::Sleep))
    } else if word == b"exit".as_slice() {
        Some(LineKind::Row(RowKind::Exit))
    } else if word == b"mask".as_slice() {
        Some(LineKind::Row(RowKind::Mask))
    } else if word == b"nice".as_slice() {
        Some(LineKind::Row(RowKind::Nice))
    } else if word == b"tick".as_slice() {
        Some(LineKind::Row(RowKind::Tick))
    } else if word == b"rebuild".as_slice() {
        Some(LineKind::Row(RowKind::Rebuild))
    } else {
        None
    }
}

/// The kind of a line, by its fields.
#[tactic(auto, unfolding(crate::specs::Kinds::line_kind))]
pub fn line_kind(fields: &ByteRecord) -> Option<LineKind>
    ensures { result ≡ line_kind (fields_of fields.now) }
{
    let word = fields.get(0)?;
    kind_named(word)
}
