//! The line of an entry (docs/rules/history-text.md).
ghost use Rattle.std.specs.Prelude.{◌≡◌, true, ◌∷◌, ◌++◌, [], OnOk, OnErr, decimal};
ghost use Rattle.lb_text.specs.Runs.{list_text};
ghost use Rattle.lb_core.specs.declared.entry.What.TheVariants as whats;
ghost use Rattle.lb_core.specs.Ranges.{entry_fits};
ghost use Rattle.lb_text.specs.Lines.{joined, marked, StillStands};
ghost use Rattle.lb_record.specs.Entries.{owner_text, command_fields, decision_fields, what_fields, entry_line};

use crate::fields::{
    put_count, put_figures, put_ids, put_mask, put_masks, put_nice, put_target, put_word,
};
use crate::words::{cause_word, move_word, outcome_word, reply_word, request_word, turn_word};
use lb_base::{Kind, Mask, NoMemory};
use lb_core::{Entry, FigName, OutcomeWord, Owner, What};
use lb_imbalance::Decision;
use lb_queue::OutCause;
use lb_text::{LINE_FEED, SPACE, put_number};
use lb_trace::Command;

// Whose an entry is, behind a space.
#[tactic(auto, unfolding(crate::specs::Entries::owner_text))]
fn put_owner(owner: Owner, lane: u32, to: &mut Vec<u8>) -> Result<(), NoMemory>
    ensures ok { OnOk result (to.new.items ≡ to.old.items ++ SPACE ∷ owner_text owner lane) }
    ensures refused { OnErr result (StillStands to.old.items to.new.items) }
{
    match owner {
        Owner::Publisher => {
            put_word("P", to)?;
            put_count(b'@', u64::from(lane), to)
        }
        Owner::Lane(number) => {
            put_word("L", to)?;
            put_number(u64::from(number), to)
        }
        Owner::Queue(cpu) => {
            put_word("Q", to)?;
            put_number(u64::from(cpu), to)?;
            put_count(b'@', u64::from(lane), to)
        }
    }
}

// What a row asks for, each field behind a space.
#[tactic(auto, unfolding(crate::specs::Entries::command_fields))]
fn put_command(command: &Command, at: u64, to: &mut Vec<u8>) -> Result<(), NoMemory>
    ensures ok { OnOk result (to.new.items ≡ to.old.items ++ marked SPACE (command_fields command.now at)) }
    ensures refused { OnErr result (StillStands to.old.items to.new.items) }
{
    match command {
        Command::Wake { task } => put_moment("wake", *task, at, to),
        Command::Sleep { task } => put_moment("sleep", *task, at, to),
        Command::Exit { task } => put_moment("exit", *task, at, to),
        Command::SetMask { task, mask } => {
            put_moment("mask", *task, at, to)?;
            put_mask(*mask, to)
        }
        Command::Nice { task, nice } => {
            put_moment("nice", *task, at, to)?;
            put_nice(SPACE, *nice, to)
        }
        Command::Tick { cpu } => put_moment("tick", *cpu, at, to),
        Command::Rebuild { parts } => {
            put_word("rebuild", to)?;
            put_count(SPACE, at, to)?;
            put_masks(parts.as_slice(), to)
        }
    }
}

// A command's word, its task or CPU, and its moment, each behind a space.
fn put_moment(word: &str, of: u32, at: u64, to: &mut Vec<u8>) -> Result<(), NoMemory>
    ensures ok { OnOk result (to.new.items ≡ to.old.items ++ marked SPACE (word.now ∷ decimal of ∷ decimal at ∷ [])) }
    ensures refused { OnErr result (StillStands to.old.items to.new.items) }
{
    put_word(word, to)?;
    put_count(SPACE, u64::from(of), to)?;
    put_count(SPACE, at, to)
}

// The kind `row` with its fields, each behind a space.
#[tactic(auto, unfolding(crate::specs::Entries::what_fields))]
fn put_row(number: u64, at: u64, command: &Command, to: &mut Vec<u8>) -> Result<(), NoMemory>
    ensures ok { OnOk result (to.new.items ≡ to.old.items ++ marked SPACE (what_fields (whats.Row number at command.now))) }
    ensures refused { OnErr result (StillStands to.old.items to.new.items) }
{
    put_word("row", to)?;
    put_count(SPACE, number, to)?;
    put_command(command, at, to)
}

// The kind `use` with its fields, each behind a space.
#[tactic(auto, unfolding(crate::specs::Entries::what_fields))]
fn put_adopt(version: u64, kind: Kind, cpu: u32, to: &mut Vec<u8>) -> Result<(), NoMemory>
    ensures ok { OnOk result (to.new.items ≡ to.old.items ++ marked SPACE (what_fields (whats.Adopt version kind cpu))) }
    ensures refused { OnErr result (StillStands to.old.items to.new.items) }
{
    put_word("use", to)?;
    put_count(SPACE, version, to)?;
    put_word(turn_word(kind), to)?;
    put_count(SPACE, u64::from(cpu), to)
}

// A decision, each field behind a space.
#[tactic(auto, unfolding(crate::specs::Entries::decision_fields))]
fn put_decision(decision: Decision, to: &mut Vec<u8>) -> Result<(), NoMemory>
    ensures ok { OnOk result (to.new.items ≡ to.old.items ++ marked SPACE (decision_fields decision)) }
    ensures refused { OnErr result (StillStands to.old.items to.new.items) }
{
    match decision {
        Decision::NotMine => put_word("notmine", to),
        Decision::Balanced => put_word("balanced", to),
        Decision::Pull {
            source,
            kind,
            imbalance,
        } => {
            put_word("pull", to)?;
            put_count(SPACE, u64::from(source), to)?;
            put_word(move_word(kind), to)?;
            put_count(SPACE, imbalance, to)
        }
    }
}

// The kind `look` with its fields, each behind a space.
#[tactic(auto, unfolding(crate::specs::Entries::what_fields))]
fn put_look(
    position: u32,
    excluded: Mask,
    figures: &[FigName],
    decision: Decision,
    to: &mut Vec<u8>,
) -> Result<(), NoMemory>
    ensures ok { OnOk result (to.new.items ≡ to.old.items
        ++ marked SPACE (what_fields (whats.Look position excluded figures.now decision))) }
    ensures refused { OnErr result (StillStands to.old.items to.new.items) }
{
    put_word("look", to)?;
    put_count(SPACE, u64::from(position), to)?;
    put_mask(excluded, to)?;
    put_figures(figures, to)?;
    put_decision(decision, to)
}

// The kind `scan` with its fields, each behind a space.
#[tactic(auto, unfolding(crate::specs::Entries::what_fields))]
fn put_scan(figures: &[FigName], target: Option<u32>, to: &mut Vec<u8>) -> Result<(), NoMemory>
    ensures ok { OnOk result (to.new.items ≡ to.old.items ++ marked SPACE (what_fields (whats.Scan figures.now target))) }
    ensures refused { OnErr result (StillStands to.old.items to.new.items) }
{
    put_word("scan", to)?;
    put_figures(figures, to)?;
    put_target(target, to)
}

// The kind `out` with its fields, each behind a space.
#[tactic(auto, unfolding(crate::specs::Entries::what_fields))]
fn put_out(cause: OutCause, destination: u32, ids: &[u32], to: &mut Vec<u8>) -> Result<(), NoMemory>
    ensures ok { OnOk result (to.new.items ≡ to.old.items
        ++ marked SPACE (what_fields (whats.Out cause destination ids.now))) }
    ensures refused { OnErr result (StillStands to.old.items to.new.items) }
{
    put_word("out", to)?;
    put_word(cause_word(cause), to)?;
    put_count(SPACE, u64::from(destination), to)?;
    put_ids(ids, to)
}

// The kind `close` with its fields, each behind a space.
#[tactic(auto, unfolding(crate::specs::Entries::what_fields))]
fn put_close(
    position: u32,
    outcome: OutcomeWord,
    interval: u64,
    failures: u32,
    to: &mut Vec<u8>,
) -> Result<(), NoMemory>
    ensures ok { OnOk result (to.new.items ≡ to.old.items
        ++ marked SPACE (what_fields (whats.Close position outcome interval failures))) }
    ensures refused { OnErr result (StillStands to.old.items to.new.items) }
{
    put_word("close", to)?;
    put_count(SPACE, u64::from(position), to)?;
    put_word(outcome_word(outcome), to)?;
    put_count(SPACE, interval, to)?;
    put_count(SPACE, u64::from(failures), to)
}

// A kind that has a word for its field, each behind a space.
fn put_answer(kind: &str, word: &str, to: &mut Vec<u8>) -> Result<(), NoMemory>
    ensures ok { OnOk result (to.new.items ≡ to.old.items ++ marked SPACE (kind.now ∷ word.now ∷ [])) }
    ensures refused { OnErr result (StillStands to.old.items to.new.items) }
{
    put_word(kind, to)?;
    put_word(word, to)
}

// A kind that has a list of CPUs or positions for its field, each behind a space.
fn put_set(kind: &str, mask: Mask, to: &mut Vec<u8>) -> Result<(), NoMemory>
    ensures ok { OnOk result (to.new.items ≡ to.old.items ++ marked SPACE (kind.now ∷ list_text mask ∷ [])) }
    ensures refused { OnErr result (StillStands to.old.items to.new.items) }
{
    put_word(kind, to)?;
    put_mask(mask, to)
}

// The kind of an entry and its fields, each behind a space.
#[tactic(auto, unfolding(crate::specs::Entries::what_fields))]
fn put_what(what: &What, to: &mut Vec<u8>) -> Result<(), NoMemory>
    ensures ok { OnOk result (to.new.items ≡ to.old.items ++ marked SPACE (what_fields what.now)) }
    ensures refused { OnErr result (StillStands to.old.items to.new.items) }
{
    match what {
        What::Row {
            number,
            at,
            command,
        } => put_row(*number, *at, command, to),
        What::Adopt { version, kind, cpu } => put_adopt(*version, *kind, *cpu, to),
        What::Look {
            position,
            excluded,
            figures,
            decision,
        } => put_look(*position, *excluded, figures.as_slice(), *decision, to),
        What::Scan { figures, target } => put_scan(figures.as_slice(), *target, to),
        What::End { unserved } => put_set("end", *unserved, to),
        What::Did { reply } => put_answer("did", reply_word(*reply), to),
        What::Out {
            cause,
            to: destination,
            ids,
        } => put_out(*cause, *destination, ids.as_slice(), to),
        What::Landed { ids } => {
            put_word("in", to)?;
            put_ids(ids.as_slice(), to)
        }
        What::Turn { positions } => put_set("turn", *positions, to),
        What::Shut => put_word("shut", to),
        What::Close {
            position,
            outcome,
            interval,
            failures,
        } => put_close(*position, *outcome, *interval, *failures, to),
        What::Ask { reply } => put_answer("ask", request_word(*reply), to),
        What::Kick { reply } => put_answer("kick", request_word(*reply), to),
        What::Over => put_word("over", to),
        What::Pub { version } => {
            put_word("pub", to)?;
            put_count(SPACE, *version, to)
        }
    }
}

// The ticket of an entry, its owner, and the ticket of the lane's entry before it.
fn put_origin(ticket: u64, entry: &Entry, to: &mut Vec<u8>) -> Result<(), NoMemory>
    ensures ok { OnOk result (to.new.items ≡ to.old.items ++ joined SPACE
        (decimal ticket ∷ owner_text entry.now.owner entry.now.lane ∷ decimal entry.now.prev ∷ [])) }
    ensures refused { OnErr result (StillStands to.old.items to.new.items) }
{
    put_number(ticket, to)?;
    put_owner(entry.owner, entry.lane, to)?;
    put_count(SPACE, entry.prev, to)
}

// The line of an entry. After a refusal what stood in the text still stands in front.
#[tactic(auto, unfolding(crate::specs::Entries::entry_line))]
fn put_entry_line(ticket: u64, entry: &Entry, to: &mut Vec<u8>) -> Result<(), NoMemory>
    ensures ok { OnOk result (to.new.items ≡ to.old.items ++ entry_line ticket entry.now ++ LINE_FEED ∷ []) }
    ensures refused { OnErr result (StillStands to.old.items to.new.items) }
{
    put_origin(ticket, entry, to)?;
    put_what(&entry.what, to)?;
    to.extend_from_slice(b"\n")?;
    Ok(())
}

/// Appends the line of an entry, with the line feed that ends it (docs/rules/history-text.md). The
/// ticket of an entry is its place in its history, from 1. Ticket and entry say what a line can say:
/// each entry of a history of an accepted trace does. After a refusal the text is as before.
pub fn put_entry(ticket: u64, entry: &Entry, to: &mut Vec<u8>) -> Result<(), NoMemory>
    requires { entry_fits ticket entry.now ≡ true }
    ensures ok { OnOk result (to.new.items ≡ to.old.items ++ entry_line ticket entry.now ++ LINE_FEED ∷ []) }
    ensures refused { OnErr result (to.new.items ≡ to.old.items) }
{
    let before = to.len();
    match put_entry_line(ticket, entry, to) {
        Ok(()) => Ok(()),
        Err(refused) => {
            to.truncate(before);
            Err(refused)
        }
    }
}
