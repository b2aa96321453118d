//! Fields of entries. Each is read in its one spelling.
ghost use Rattle.std.specs.Prelude.{◌≡◌, ◌≤◌, IfOk, IfSome, MatchOption, Some, None};
ghost use Rattle.std.specs.Str.{bytes_eq};
ghost use Rattle.lb_text.specs.Numbers.{number_of, nice_of};
ghost use Rattle.lb_text.specs.Runs.{list_text};
ghost use Rattle.lb_core.specs.Ranges.{comes_after, cpus_rise};
ghost use Rattle.lb_read.specs.Exact.{take_field, whole};
ghost use Rattle.lb_read.specs.Fields.{short_in, long_in, moment_in, mask_in, ids_in, figure_in, figures_in, target_in};

use lb_base::{Items, Mask, NoMemory};
use lb_core::{FigName, FigNames, Ids};
use lb_text::{COLON, COMMA, Pieces, SEMICOLON};
use lb_trace::MAX_MOMENT;
use std::alloc::Global;

// ---- numbers

/// A number up to `most`.
pub(crate) fn number_in(text: &[u8], most: u64) -> Option<u64>
    ensures number { result ≡ number_of most text.now }
    ensures in_range { IfSome result (λ n. n ≤ most) }
{
    match lb_text::number_of(text, most) {
        Ok(number) => Some(number),
        Err(_) => None,
    }
}

/// A number of 64 bits.
pub(crate) fn long_in(text: &[u8]) -> Option<u64>
    ensures { result ≡ long_in text.now }
{
    number_in(text, u64::MAX)
}

/// A number of 32 bits.
pub(crate) fn short_in(text: &[u8]) -> Option<u32>
    ensures { result ≡ short_in text.now }
{
    match number_in(text, u64::from(u32::MAX)) {
        Some(number) => Some(number as u32),
        None => None,
    }
}

/// A nice value.
pub(crate) fn nice_in(text: &[u8]) -> Option<i32>
    ensures { result ≡ nice_of text.now }
{
    match lb_text::nice_of(text) {
        Ok(nice) => Some(nice),
        Err(_) => None,
    }
}

// ---- lists

/// Whether a text is the one spelling of a list of CPUs.
pub(crate) fn is_spelling(alloc: Global, text: &[u8], mask: Mask) -> Result<bool, NoMemory>
    ensures { IfOk result (λ is. is ≡ bytes_eq (list_text mask) text.now) }
{
    let mut spelled = Vec::new(alloc);
    lb_text::put_list(mask, &mut spelled)?;
    Ok(spelled.as_slice() == text)
}

/// A list of CPUs; `-` is the empty one.
#[tactic(auto, unfolding(crate::specs::Fields::mask_in))]
pub(crate) fn mask_in(alloc: Global, text: &[u8]) -> Result<Option<Mask>, NoMemory>
    ensures { IfOk result (λ found. found ≡ mask_in text.now) }
{
    if text == b"-".as_slice() {
        return Ok(Some(Mask::none()));
    }
    let Ok(mask) = lb_text::list_of(text) else {
        return Ok(None);
    };
    if is_spelling(alloc, text, mask)? {
        Ok(Some(mask))
    } else {
        Ok(None)
    }
}

/// Numbers of tasks; `-` is none.
#[tactic(auto, using(crate::proofs::EachFacts::each_some, crate::proofs::EachFacts::each_none, crate::proofs::EachFacts::each_all, crate::proofs::EachFacts::each_start), unfolding(crate::specs::Fields::ids_in))]
pub(crate) fn ids_in(alloc: Global, text: &[u8]) -> Result<Option<Ids>, NoMemory>
    ensures { IfOk result (λ found. found ≡ ids_in text.now) }
{
    let mut ids = Items::new(alloc);
    if text == b"-".as_slice() {
        return Ok(Some(ids));
    }
    let mut parts = Pieces::new(text, SEMICOLON);
    while let Some(part) = parts.next_piece() {
        let Some(id) = short_in(part) else {
            return Ok(None);
        };
        ids.push(id)?;
    }
    Ok(Some(ids))
}

// ---- figures and targets

// A figure: its CPU, and its number among those of that CPU.
#[tactic(auto, unfolding(crate::specs::Fields::figure_in, crate::specs::Exact::take_field))]
fn figure_in(text: &[u8]) -> Option<FigName>
    ensures { result ≡ figure_in text.now }
{
    let mut parts = Pieces::new(text, COLON);
    let cpu = short_in(parts.next_piece()?)?;
    let n = long_in(parts.next_piece()?)?;
    match parts.next_piece() {
        Some(_) => None,
        None => Some(FigName { cpu, n }),
    }
}

// Whether a CPU comes after one that may have been named.
fn comes_after(last: Option<u32>, cpu: u32) -> bool
    ensures { result ≡ comes_after last cpu }
{
    match last {
        None => true,
        Some(last) => last < cpu,
    }
}

// Whether each figure's CPU is greater than that of the figure before it.
fn cpus_rise(figures: &[FigName]) -> bool
    ensures { result ≡ cpus_rise figures.now }
{
    let mut last: Option<u32> = None;
    for figure in figures {
        if !comes_after(last, figure.cpu) {
            return false;
        }
        last = Some(figure.cpu);
    }
    true
}

/// Figures, of rising CPUs.
#[tactic(auto, using(crate::proofs::EachFacts::each_some, crate::proofs::EachFacts::each_none, crate::proofs::EachFacts::each_all, crate::proofs::EachFacts::each_start), unfolding(crate::specs::Fields::figures_in))]
pub(crate) fn figures_in(alloc: Global, text: &[u8]) -> Result<Option<FigNames>, NoMemory>
    ensures { IfOk result (λ found. found ≡ figures_in text.now) }
{
    let mut figures = Items::new(alloc);
    let mut parts = Pieces::new(text, COMMA);
    while let Some(part) = parts.next_piece() {
        let Some(figure) = figure_in(part) else {
            return Ok(None);
        };
        figures.push(figure)?;
    }
    if cpus_rise(figures.as_slice()) {
        Ok(Some(figures))
    } else {
        Ok(None)
    }
}

/// A CPU; `-` is none.
#[tactic(auto, unfolding(crate::specs::Fields::target_in))]
pub(crate) fn target_in(text: &[u8]) -> Option<Option<u32>>
    ensures { result ≡ target_in text.now }
{
    if text == b"-".as_slice() {
        return Some(None);
    }
    let cpu = short_in(text)?;
    Some(Some(cpu))
}

// ---- the next field

/// The next number of 64 bits.
#[tactic(auto, unfolding(crate::specs::Exact::take_field))]
pub(crate) fn next_long(fields: &mut Pieces) -> Option<u64>
    ensures { MatchOption result
        (take_field long_in fields.old ≡ None)
        (λ n. take_field long_in fields.old ≡ Some (n, fields.new)) }
{
    long_in(fields.next_piece()?)
}

/// The next number of 32 bits.
#[tactic(auto, unfolding(crate::specs::Exact::take_field))]
pub(crate) fn next_short(fields: &mut Pieces) -> Option<u32>
    ensures { MatchOption result
        (take_field short_in fields.old ≡ None)
        (λ n. take_field short_in fields.old ≡ Some (n, fields.new)) }
{
    short_in(fields.next_piece()?)
}

/// The next moment, in nanoseconds.
#[tactic(auto, unfolding(crate::specs::Exact::take_field))]
pub(crate) fn next_moment(fields: &mut Pieces) -> Option<u64>
    ensures { MatchOption result
        (take_field moment_in fields.old ≡ None)
        (λ at. take_field moment_in fields.old ≡ Some (at, fields.new)) }
{
    number_in(fields.next_piece()?, MAX_MOMENT)
}

/// The next list of CPUs.
#[tactic(auto, unfolding(crate::specs::Exact::take_field))]
pub(crate) fn next_mask(alloc: Global, fields: &mut Pieces) -> Result<Option<Mask>, NoMemory>
    ensures { IfOk result (λ found. MatchOption found
        (take_field mask_in fields.old ≡ None)
        (λ mask. take_field mask_in fields.old ≡ Some (mask, fields.new))) }
{
    match fields.next_piece() {
        None => Ok(None),
        Some(field) => mask_in(alloc, field),
    }
}

/// The next figures.
#[tactic(auto, unfolding(crate::specs::Exact::take_field))]
pub(crate) fn next_figures(alloc: Global, fields: &mut Pieces) -> Result<Option<FigNames>, NoMemory>
    ensures { IfOk result (λ found. MatchOption found
        (take_field figures_in fields.old ≡ None)
        (λ figures. take_field figures_in fields.old ≡ Some (figures, fields.new))) }
{
    match fields.next_piece() {
        None => Ok(None),
        Some(field) => figures_in(alloc, field),
    }
}

// ---- the last field

/// A list of CPUs, after which nothing is left.
#[tactic(auto, unfolding(crate::specs::Exact::take_field))]
pub(crate) fn last_mask(alloc: Global, fields: &mut Pieces) -> Result<Option<Mask>, NoMemory>
    ensures { IfOk result (λ mask. mask ≡ whole (take_field mask_in) fields.old) }
{
    let Some(mask) = next_mask(alloc, fields)? else {
        return Ok(None);
    };
    match fields.next_piece() {
        Some(_) => Ok(None),
        None => Ok(Some(mask)),
    }
}

/// Numbers of tasks, after which nothing is left.
#[tactic(auto, unfolding(crate::specs::Exact::take_field))]
pub(crate) fn last_ids(alloc: Global, fields: &mut Pieces) -> Result<Option<Ids>, NoMemory>
    ensures { IfOk result (λ ids. ids ≡ whole (take_field ids_in) fields.old) }
{
    let Some(field) = fields.next_piece() else {
        return Ok(None);
    };
    let Some(ids) = ids_in(alloc, field)? else {
        return Ok(None);
    };
    match fields.next_piece() {
        Some(_) => Ok(None),
        None => Ok(Some(ids)),
    }
}
