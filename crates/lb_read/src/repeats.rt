//! The lines of a trace that the header of a history repeats.
ghost use Rattle.std.specs.Prelude.{◌≡◌, ◌≤◌, ◌-◌, ◌&&◌, ◌||◌, drop, IfOk};
ghost use Rattle.std.specs.List.{list_all};
ghost use Rattle.lb_read.specs.Repeats.{is_spelled, can_repeat, is_parts, has_room};

use crate::fields::is_spelling;
use lb_base::NoMemory;
use lb_text::{COMMA, Pieces, list_of};
use lb_trace::MAX_BYTES;
use std::alloc::Global;

// Whether a text is a list of CPUs in its one spelling; an empty list is empty.
#[tactic(auto, unfolding(crate::specs::Repeats::is_spelled))]
fn is_spelled(alloc: Global, text: &[u8]) -> Result<bool, NoMemory>
    ensures { IfOk result (λ is. is ≡ is_spelled text.now) }
{
    if text.is_empty() {
        return Ok(true);
    }
    match list_of(text) {
        Ok(mask) => is_spelling(alloc, text, mask),
        Err(_) => Ok(false),
    }
}

// Whether all fields that are left are such texts.
fn are_spelled(alloc: Global, fields: &mut Pieces) -> Result<bool, NoMemory>
    ensures { IfOk result (λ are. are ≡ list_all is_spelled fields.old) }
{
    while let Some(field) = fields.next_piece() {
        if !is_spelled(alloc, field)? {
            return Ok(false);
        }
    }
    Ok(true)
}

// Passes over a field.
fn pass(fields: &mut Pieces)
    ensures { fields.new ≡ drop 1 fields.old }
{
    let _ = fields.next_piece();
}

// Whether the line of a trace can be repeated, after a line `parts` or before.
#[tactic(auto, unfolding(crate::specs::Repeats::can_repeat))]
fn can_repeat(alloc: Global, parted: bool, body: &[u8]) -> Result<bool, NoMemory>
    ensures { IfOk result (λ can. can ≡ can_repeat parted body.now) }
{
    let mut fields = Pieces::new(body, COMMA);
    let Some(word) = fields.next_piece() else {
        return Ok(false);
    };
    if word == b"parts".as_slice() {
        return are_spelled(alloc, &mut fields);
    }
    if word == b"task".as_slice() {
        // its id, nice value and home
        pass(&mut fields);
        pass(&mut fields);
        pass(&mut fields);
        return are_spelled(alloc, &mut fields);
    }
    if word == b"lanes".as_slice() {
        return Ok(parted);
    }
    Ok(word == b"cpu".as_slice() || word == b"dist".as_slice())
}

/// Whether the line of a trace can be repeated, after a line `parts` or before, where so many bytes of
/// the trace stand before it.
pub(crate) fn can_follow(
    alloc: Global,
    parted: bool,
    body: &[u8],
    used: usize,
) -> Result<bool, NoMemory>
    requires { used ≤ MAX_BYTES }
    ensures { IfOk result (λ can. can ≡ (can_repeat parted body.now && has_room (MAX_BYTES - used) body.now)) }
{
    if !can_repeat(alloc, parted, body)? {
        return Ok(false);
    }
    Ok((body.len() as u64) < MAX_BYTES - used as u64)
}

// Whether the line of a trace is its partition.
#[tactic(auto, unfolding(crate::specs::Repeats::is_parts))]
fn is_parts(body: &[u8]) -> bool
    ensures { result ≡ is_parts body.now }
{
    let mut fields = Pieces::new(body, COMMA);
    match fields.next_piece() {
        None => false,
        Some(word) => word == b"parts".as_slice(),
    }
}

/// Whether a line `parts` stands before what follows a line.
pub(crate) fn parted_by(parted: bool, body: &[u8]) -> bool
    ensures { result ≡ (parted || is_parts body.now) }
{
    if parted {
        return true;
    }
    is_parts(body)
}
