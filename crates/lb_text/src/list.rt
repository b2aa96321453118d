//! A list of CPUs is read, such as `0-2;5`, or its first bad byte is named (docs/rules/history-text.md).
ghost use Rattle.std.specs.Prelude.{◌≡◌, ℕ, false, ◌∷◌, ◌++◌, ◌<◌, ◌≤◌, ◌+◌, ◌==◌, ◌&&◌, All, IfOk, IfErr, MatchOption, Some, None, length, nat_le, take, drop};
ghost use Rattle.lb_base.specs.Mask.{has};
ghost use Rattle.lb_text.specs.Lists.{item_of, is_item, list_of, is_list};
ghost use Rattle.lb_text.specs.Prefixes.{IsFirstBad};

use crate::bad_text::BadText;
use crate::marks::{MINUS, SEMICOLON};
use crate::number::{number_of, number_within};
use crate::pieces::Pieces;
use lb_base::{MAX_CPUS, Mask};

// The greatest number of a CPU.
const MAX_CPU: u64 = (MAX_CPUS - 1) as u64;

// The CPUs from `first` to `last`.
fn run_of(first: u32, last: u32) -> Mask
    requires ordered { first ≤ last }
    requires in_range { last < MAX_CPUS }
    ensures { (k : ℕ) → has result k ≡ (nat_le first k && nat_le k last) }
{
    Mask::all(last + 1).without(Mask::all(first))
}

// The place of the first `-`.
fn dash_of(item: &[u8]) -> Option<usize>
    ensures { MatchOption result
        (All (λ b. (b == MINUS) ≡ false) item.now)
        (λ i. (i < length item.now) × All (λ b. (b == MINUS) ≡ false) (take i item.now)
        × (item.now ≡ take i item.now ++ MINUS ∷ drop (i + 1) item.now)) }
{
    item.iter().position(|b| *b == MINUS)
}

// The first and the last CPU that an item of a list names.
fn item_of(item: &[u8]) -> Result<(u32, u32), BadText>
    ensures item { IfOk result (λ run. item_of item.now ≡ Some (run.0, run.1)) }
    ensures refused { IfErr result (λ bad. item_of item.now ≡ None) }
    ensures place { IfErr result (λ bad. IsFirstBad is_item item.now bad.at) }
    ensures in_range { IfOk result (λ run. (run.0 ≤ run.1) × (run.1 < MAX_CPUS)) }
{
    let Some(dash) = dash_of(item) else {
        let cpu = number_of(item, MAX_CPU)? as u32;
        return Ok((cpu, cpu));
    };
    let first = number_of(&item[..dash], MAX_CPU)?;
    match number_within(&item[dash + 1..], first, MAX_CPU) {
        Ok(last) => Ok((first as u32, last as u32)),
        Err(bad) => Err(BadText {
            at: dash + 1 + bad.at,
        }),
    }
}

/// The CPUs that a list names: none where it is empty, else those of its items, which are split by
/// `;`. An item is a CPU, or two CPUs with `-` between them and the lesser first, and names all from
/// the one to the other (docs/rules/history-text.md).
///
/// Refused exactly where the text is no such list, at the first byte with which none begins.
pub fn list_of(text: &[u8]) -> Result<Mask, BadText>
    ensures list { IfOk result (λ mask. list_of text.now ≡ Some mask) }
    ensures refused { IfErr result (λ bad. list_of text.now ≡ None) }
    ensures place { IfErr result (λ bad. IsFirstBad is_list text.now bad.at) }
{
    let mut mask = Mask::none();
    if text.is_empty() {
        return Ok(mask);
    }
    let mut start = 0;
    let mut items = Pieces::new(text, SEMICOLON);
    while let Some(item) = items.next_piece() {
        let (first, last) = match item_of(item) {
            Ok(run) => run,
            Err(bad) => {
                return Err(BadText { at: start + bad.at });
            }
        };
        mask = mask.or(run_of(first, last));
        start += item.len() + 1;
    }
    Ok(mask)
}
