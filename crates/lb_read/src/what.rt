//! What an entry says, by its kind.
ghost use Rattle.std.specs.Prelude.{◌≡◌, IfOk, MatchOption, Some, None};
ghost use Rattle.std.specs.Option.{option_map};
ghost use Rattle.lb_read.specs.Exact.{take_field, next_to, whole, if_none_left, named};
ghost use Rattle.lb_read.specs.Fields.{short_in, target_in};
ghost use Rattle.lb_read.specs.Words.{cause_words, request_words};
ghost use Rattle.lb_read.specs.Kinds.{scan_from, what_in};
ghost use Rattle.lb_read.specs.declared.kinds.WhatKind.TheVariants as kinds;

use crate::command::command_in;
use crate::decision::decision_in;
use crate::fields::{
    last_ids, last_mask, long_in, next_figures, next_long, next_mask, next_short, short_in,
    target_in,
};
use crate::kinds::{WhatKind, next_command};
use crate::words::{cause_named, outcome_named, reply_named, request_named, turn_named};
use lb_base::NoMemory;
use lb_core::{FigNames, What};
use lb_queue::{AskReply, OutCause};
use lb_text::Pieces;
use std::alloc::Global;

// The kind `row`.
#[tactic(auto, unfolding(crate::specs::Kinds::what_in))]
fn row_in(alloc: Global, fields: &mut Pieces) -> Result<Option<What>, NoMemory>
    ensures { IfOk result (λ what. what ≡ what_in kinds.Row fields.old) }
{
    let Some(number) = next_long(fields) else {
        return Ok(None);
    };
    let Some(kind) = next_command(fields) else {
        return Ok(None);
    };
    match command_in(alloc, kind, fields)? {
        None => Ok(None),
        Some((command, at)) => Ok(Some(What::Row {
            number,
            at,
            command,
        })),
    }
}

// The kind `use`.
#[tactic(auto, unfolding(crate::specs::Kinds::what_in, crate::specs::Exact::take_field))]
fn adopt_in(fields: &mut Pieces) -> Option<What>
    ensures { result ≡ what_in kinds.Adopt fields.old }
{
    let version = long_in(fields.next_piece()?)?;
    let kind = turn_named(fields.next_piece()?)?;
    let cpu = short_in(fields.next_piece()?)?;
    match fields.next_piece() {
        Some(_) => None,
        None => Some(What::Adopt { version, kind, cpu }),
    }
}

// The kind `look`.
#[tactic(auto, unfolding(crate::specs::Kinds::what_in, crate::specs::Exact::take_field))]
fn look_in(alloc: Global, fields: &mut Pieces) -> Result<Option<What>, NoMemory>
    ensures { IfOk result (λ what. what ≡ what_in kinds.Look fields.old) }
{
    let Some(position) = next_short(fields) else {
        return Ok(None);
    };
    let Some(excluded) = next_mask(alloc, fields)? else {
        return Ok(None);
    };
    let Some(figures) = next_figures(alloc, fields)? else {
        return Ok(None);
    };
    match decision_in(fields) {
        None => Ok(None),
        Some(decision) => Ok(Some(What::Look {
            position,
            excluded,
            figures,
            decision,
        })),
    }
}

// A scan with these figures: its target.
#[tactic(auto, unfolding(crate::specs::Exact::take_field))]
fn scanned(figures: FigNames, fields: &mut Pieces) -> Option<What>
    ensures { result ≡ option_map (λ target. scan_from (figures, target)) (whole (take_field target_in) fields.old) }
{
    let target = target_in(fields.next_piece()?)?;
    match fields.next_piece() {
        Some(_) => None,
        None => Some(What::Scan { figures, target }),
    }
}

// The kind `scan`.
#[tactic(auto, unfolding(crate::specs::Kinds::what_in, crate::specs::Exact::take_field))]
fn scan_in(alloc: Global, fields: &mut Pieces) -> Result<Option<What>, NoMemory>
    ensures { IfOk result (λ what. what ≡ what_in kinds.Scan fields.old) }
{
    let Some(figures) = next_figures(alloc, fields)? else {
        return Ok(None);
    };
    Ok(scanned(figures, fields))
}

// The kind `end`.
#[tactic(auto, unfolding(crate::specs::Kinds::what_in))]
fn end_in(alloc: Global, fields: &mut Pieces) -> Result<Option<What>, NoMemory>
    ensures { IfOk result (λ what. what ≡ what_in kinds.End fields.old) }
{
    match last_mask(alloc, fields)? {
        None => Ok(None),
        Some(unserved) => Ok(Some(What::End { unserved })),
    }
}

// The kind `did`.
#[tactic(auto, unfolding(crate::specs::Kinds::what_in, crate::specs::Exact::take_field))]
fn did_in(fields: &mut Pieces) -> Option<What>
    ensures { result ≡ what_in kinds.Did fields.old }
{
    let reply = reply_named(fields.next_piece()?)?;
    match fields.next_piece() {
        Some(_) => None,
        None => Some(What::Did { reply }),
    }
}

// Why tasks leave, and where to.
#[tactic(auto, unfolding(crate::specs::Exact::take_field))]
fn leaving_in(fields: &mut Pieces) -> Option<(OutCause, u32)>
    ensures { MatchOption result
        (next_to (take_field (named cause_words)) (take_field short_in) fields.old ≡ None)
        (λ found. next_to (take_field (named cause_words)) (take_field short_in) fields.old ≡ Some (found, fields.new)) }
{
    let cause = cause_named(fields.next_piece()?)?;
    let to = short_in(fields.next_piece()?)?;
    Some((cause, to))
}

// The kind `out`.
#[tactic(auto, unfolding(crate::specs::Kinds::what_in, crate::specs::Exact::take_field))]
fn out_in(alloc: Global, fields: &mut Pieces) -> Result<Option<What>, NoMemory>
    ensures { IfOk result (λ what. what ≡ what_in kinds.Out fields.old) }
{
    let Some((cause, to)) = leaving_in(fields) else {
        return Ok(None);
    };
    match last_ids(alloc, fields)? {
        None => Ok(None),
        Some(ids) => Ok(Some(What::Out { cause, to, ids })),
    }
}

// The kind `in`.
#[tactic(auto, unfolding(crate::specs::Kinds::what_in))]
fn landed_in(alloc: Global, fields: &mut Pieces) -> Result<Option<What>, NoMemory>
    ensures { IfOk result (λ what. what ≡ what_in kinds.Landed fields.old) }
{
    match last_ids(alloc, fields)? {
        None => Ok(None),
        Some(ids) => Ok(Some(What::Landed { ids })),
    }
}

// The kind `turn`.
#[tactic(auto, unfolding(crate::specs::Kinds::what_in))]
fn turn_in(alloc: Global, fields: &mut Pieces) -> Result<Option<What>, NoMemory>
    ensures { IfOk result (λ what. what ≡ what_in kinds.Turn fields.old) }
{
    match last_mask(alloc, fields)? {
        None => Ok(None),
        Some(positions) => Ok(Some(What::Turn { positions })),
    }
}

// The kind `close`.
#[tactic(auto, unfolding(crate::specs::Kinds::what_in, crate::specs::Exact::take_field))]
fn close_in(fields: &mut Pieces) -> Option<What>
    ensures { result ≡ what_in kinds.Close fields.old }
{
    let position = short_in(fields.next_piece()?)?;
    let outcome = outcome_named(fields.next_piece()?)?;
    let interval = long_in(fields.next_piece()?)?;
    let failures = short_in(fields.next_piece()?)?;
    match fields.next_piece() {
        Some(_) => None,
        None => Some(What::Close {
            position,
            outcome,
            interval,
            failures,
        }),
    }
}

// The answer to a request, after which nothing is left.
#[tactic(auto, unfolding(crate::specs::Exact::take_field))]
fn last_request(fields: &mut Pieces) -> Option<AskReply>
    ensures { result ≡ whole (take_field (named request_words)) fields.old }
{
    let reply = request_named(fields.next_piece()?)?;
    match fields.next_piece() {
        Some(_) => None,
        None => Some(reply),
    }
}

// The kind `ask`.
#[tactic(auto, unfolding(crate::specs::Kinds::what_in))]
fn ask_in(fields: &mut Pieces) -> Option<What>
    ensures { result ≡ what_in kinds.Ask fields.old }
{
    let reply = last_request(fields)?;
    Some(What::Ask { reply })
}

// The kind `kick`.
#[tactic(auto, unfolding(crate::specs::Kinds::what_in))]
fn kick_in(fields: &mut Pieces) -> Option<What>
    ensures { result ≡ what_in kinds.Kick fields.old }
{
    let reply = last_request(fields)?;
    Some(What::Kick { reply })
}

// The kind `pub`.
#[tactic(auto, unfolding(crate::specs::Kinds::what_in, crate::specs::Exact::take_field))]
fn pub_in(fields: &mut Pieces) -> Option<What>
    ensures { result ≡ what_in kinds.Pub fields.old }
{
    let version = long_in(fields.next_piece()?)?;
    match fields.next_piece() {
        Some(_) => None,
        None => Some(What::Pub { version }),
    }
}

// A kind without fields.
fn lone_kind(what: What, fields: &mut Pieces) -> Option<What>
    ensures { result ≡ if_none_left what fields.old }
{
    match fields.next_piece() {
        Some(_) => None,
        None => Some(what),
    }
}

/// What an entry says, by its kind.
#[tactic(auto, unfolding(crate::specs::Kinds::what_in))]
pub(crate) fn what_in(
    alloc: Global,
    kind: WhatKind,
    fields: &mut Pieces,
) -> Result<Option<What>, NoMemory>
    ensures { IfOk result (λ what. what ≡ what_in kind fields.old) }
{
    match kind {
        WhatKind::Row => row_in(alloc, fields),
        WhatKind::Adopt => Ok(adopt_in(fields)),
        WhatKind::Look => look_in(alloc, fields),
        WhatKind::Scan => scan_in(alloc, fields),
        WhatKind::End => end_in(alloc, fields),
        WhatKind::Did => Ok(did_in(fields)),
        WhatKind::Out => out_in(alloc, fields),
        WhatKind::Landed => landed_in(alloc, fields),
        WhatKind::Turn => turn_in(alloc, fields),
        WhatKind::Shut => Ok(lone_kind(What::Shut, fields)),
        WhatKind::Close => Ok(close_in(fields)),
        WhatKind::Ask => Ok(ask_in(fields)),
        WhatKind::Kick => Ok(kick_in(fields)),
        WhatKind::Over => Ok(lone_kind(What::Over, fields)),
        WhatKind::Pub => Ok(pub_in(fields)),
    }
}
