//! What the fields of a line say, by their places.
ghost use Rattle.std.specs.Prelude.{◌≡◌, ◌≤◌, true, false, drop, IfOk, IfSome, MatchOption};
ghost use Rattle.std.specs.List.{list_all};
ghost use Rattle.csv.specs.Records.{fields_of};
ghost use Rattle.lb_text.specs.Lists.{is_list};
ghost use Rattle.lb_text.specs.Numbers.{is_number};
ghost use Rattle.lb_trace.specs.Values.{number_at, nice_at, list_at, distances_in, masks_from};

use crate::trace::{MAX_DISTANCE, Masks};
use csv::ByteRecord;
use lb_base::{Items, Mask, NoMemory};
use lb_text::{list_of, nice_of, number_within};
use std::alloc::Global;

/// The number from `least` to `most` at a place.
#[tactic(auto, unfolding(crate::specs::Values::number_at))]
pub fn number_at(fields: &ByteRecord, i: usize, least: u64, most: u64) -> Option<u64>
    requires { least ≤ most }
    ensures value { result ≡ number_at i least most (fields_of fields.now) }
    ensures in_range { IfSome result (λ n. (least ≤ n) × (n ≤ most)) }
{
    let field = fields.get(i)?;
    match number_within(field, least, most) {
        Ok(number) => Some(number),
        Err(_) => None,
    }
}

/// The nice value at a place.
#[tactic(auto, unfolding(crate::specs::Values::nice_at))]
pub fn nice_at(fields: &ByteRecord, i: usize) -> Option<i32>
    ensures { result ≡ nice_at i (fields_of fields.now) }
{
    let field = fields.get(i)?;
    match nice_of(field) {
        Ok(nice) => Some(nice),
        Err(_) => None,
    }
}

/// The list of CPUs at a place.
#[tactic(auto, unfolding(crate::specs::Values::list_at))]
pub fn list_at(fields: &ByteRecord, i: usize) -> Option<Mask>
    ensures { result ≡ list_at i (fields_of fields.now) }
{
    let field = fields.get(i)?;
    match list_of(field) {
        Ok(mask) => Some(mask),
        Err(_) => None,
    }
}

/// A node's distances, which are all fields after the first.
pub fn distances_in(alloc: Global, fields: &ByteRecord) -> Result<Option<Items<u32>>, NoMemory>
    ensures { IfOk result (λ found. MatchOption found
        (list_all (is_number 1 MAX_DISTANCE) (drop 1 (fields_of fields.now)) ≡ false)
        (λ distances. (list_all (is_number 1 MAX_DISTANCE) (drop 1 (fields_of fields.now)) ≡ true)
        × (distances ≡ distances_in (fields_of fields.now)))) }
{
    let mut distances = Items::new(alloc);
    for i in 1..fields.len() {
        let Some(distance) = number_at(fields, i, 1, MAX_DISTANCE) else {
            return Ok(None);
        };
        distances.push(distance as u32)?;
    }
    Ok(Some(distances))
}

/// The partition masks, which are all fields from a place on.
pub fn masks_from(
    alloc: Global,
    fields: &ByteRecord,
    from: usize,
) -> Result<Option<Masks>, NoMemory>
    ensures { IfOk result (λ found. MatchOption found
        (list_all is_list (drop from (fields_of fields.now)) ≡ false)
        (λ masks. (list_all is_list (drop from (fields_of fields.now)) ≡ true)
        × (masks ≡ masks_from from (fields_of fields.now)))) }
{
    let mut masks = Items::new(alloc);
    for i in from..fields.len() {
        let Some(mask) = list_at(fields, i) else {
            return Ok(None);
        };
        masks.push(mask)?;
    }
    Ok(Some(masks))
}
