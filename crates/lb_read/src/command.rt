//! What a row asks for, and its moment.
ghost use Rattle.std.specs.Prelude.{◌≡◌, IfOk, MatchOption, Some, None};
ghost use Rattle.lb_read.specs.Exact.{take_field, whole, each};
ghost use Rattle.lb_read.specs.Fields.{mask_in};
ghost use Rattle.lb_read.specs.Commands.{subject_at, masks_in, command_in};
ghost use Rattle.lb_read.specs.declared.kinds.CommandKind.TheVariants as command_kinds;

use crate::fields::{last_mask, mask_in, next_moment, nice_in, number_in, short_in};
use crate::kinds::CommandKind;
use lb_base::{Items, NoMemory};
use lb_text::Pieces;
use lb_trace::{Command, MAX_MOMENT, Masks};
use std::alloc::Global;

// A task or a CPU, and a moment.
#[tactic(auto, unfolding(crate::specs::Exact::take_field))]
fn subject_at(fields: &mut Pieces) -> Option<(u32, u64)>
    ensures { MatchOption result
        (subject_at fields.old ≡ None)
        (λ found. subject_at fields.old ≡ Some (found, fields.new)) }
{
    let subject = short_in(fields.next_piece()?)?;
    let at = number_in(fields.next_piece()?, MAX_MOMENT)?;
    Some((subject, at))
}

// The same, after which nothing is left.
#[tactic(auto, unfolding(crate::specs::Exact::take_field))]
fn last_subject_at(fields: &mut Pieces) -> Option<(u32, u64)>
    ensures { result ≡ whole subject_at fields.old }
{
    let found = subject_at(fields)?;
    match fields.next_piece() {
        Some(_) => None,
        None => Some(found),
    }
}

// The command `wake`.
#[tactic(auto, unfolding(crate::specs::Commands::command_in))]
fn wake_in(fields: &mut Pieces) -> Option<(Command, u64)>
    ensures { result ≡ command_in command_kinds.Wake fields.old }
{
    let (task, at) = last_subject_at(fields)?;
    Some((Command::Wake { task }, at))
}

// The command `sleep`.
#[tactic(auto, unfolding(crate::specs::Commands::command_in))]
fn sleep_in(fields: &mut Pieces) -> Option<(Command, u64)>
    ensures { result ≡ command_in command_kinds.Sleep fields.old }
{
    let (task, at) = last_subject_at(fields)?;
    Some((Command::Sleep { task }, at))
}

// The command `exit`.
#[tactic(auto, unfolding(crate::specs::Commands::command_in))]
fn exit_in(fields: &mut Pieces) -> Option<(Command, u64)>
    ensures { result ≡ command_in command_kinds.Exit fields.old }
{
    let (task, at) = last_subject_at(fields)?;
    Some((Command::Exit { task }, at))
}

// A new mask.
#[tactic(auto, unfolding(crate::specs::Commands::command_in))]
fn set_mask_in(alloc: Global, fields: &mut Pieces) -> Result<Option<(Command, u64)>, NoMemory>
    ensures { IfOk result (λ command. command ≡ command_in command_kinds.SetMask fields.old) }
{
    let Some((task, at)) = subject_at(fields) else {
        return Ok(None);
    };
    match last_mask(alloc, fields)? {
        None => Ok(None),
        Some(mask) => Ok(Some((Command::SetMask { task, mask }, at))),
    }
}

// A new nice value.
#[tactic(auto, unfolding(crate::specs::Commands::command_in, crate::specs::Exact::take_field))]
fn set_nice_in(fields: &mut Pieces) -> Option<(Command, u64)>
    ensures { result ≡ command_in command_kinds.Nice fields.old }
{
    let (task, at) = subject_at(fields)?;
    let nice = nice_in(fields.next_piece()?)?;
    match fields.next_piece() {
        Some(_) => None,
        None => Some((Command::Nice { task, nice }, at)),
    }
}

// The command `tick`.
#[tactic(auto, unfolding(crate::specs::Commands::command_in))]
fn tick_in(fields: &mut Pieces) -> Option<(Command, u64)>
    ensures { result ≡ command_in command_kinds.Tick fields.old }
{
    let (cpu, at) = last_subject_at(fields)?;
    Some((Command::Tick { cpu }, at))
}

// All masks that are left.
#[tactic(auto, using(crate::proofs::EachFacts::each_some, crate::proofs::EachFacts::each_none, crate::proofs::EachFacts::each_all, crate::proofs::EachFacts::each_start))]
fn all_masks(alloc: Global, fields: &mut Pieces) -> Result<Option<Masks>, NoMemory>
    ensures { IfOk result (λ masks. masks ≡ each mask_in fields.old) }
{
    let mut masks = Items::new(alloc);
    while let Some(field) = fields.next_piece() {
        let Some(mask) = mask_in(alloc, field)? else {
            return Ok(None);
        };
        masks.push(mask)?;
    }
    Ok(Some(masks))
}

// The masks of a partition, at least one.
fn masks_in(alloc: Global, fields: &mut Pieces) -> Result<Option<Masks>, NoMemory>
    ensures { IfOk result (λ masks. masks ≡ masks_in fields.old) }
{
    match all_masks(alloc, fields)? {
        None => Ok(None),
        Some(masks) => {
            if masks.is_empty() {
                Ok(None)
            } else {
                Ok(Some(masks))
            }
        }
    }
}

// A new partition.
#[tactic(auto, unfolding(crate::specs::Commands::command_in, crate::specs::Exact::take_field))]
fn rebuild_in(alloc: Global, fields: &mut Pieces) -> Result<Option<(Command, u64)>, NoMemory>
    ensures { IfOk result (λ command. command ≡ command_in command_kinds.Rebuild fields.old) }
{
    let Some(at) = next_moment(fields) else {
        return Ok(None);
    };
    match masks_in(alloc, fields)? {
        None => Ok(None),
        Some(parts) => Ok(Some((Command::Rebuild { parts }, at))),
    }
}

/// A command with its moment, by its kind.
pub(crate) fn command_in(
    alloc: Global,
    kind: CommandKind,
    fields: &mut Pieces,
) -> Result<Option<(Command, u64)>, NoMemory>
    ensures { IfOk result (λ command. command ≡ command_in kind fields.old) }
{
    match kind {
        CommandKind::SetMask => set_mask_in(alloc, fields),
        CommandKind::Nice => Ok(set_nice_in(fields)),
        CommandKind::Rebuild => rebuild_in(alloc, fields),
        CommandKind::Wake => Ok(wake_in(fields)),
        CommandKind::Sleep => Ok(sleep_in(fields)),
        CommandKind::Exit => Ok(exit_in(fields)),
        CommandKind::Tick => Ok(tick_in(fields)),
    }
}
