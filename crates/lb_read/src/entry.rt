//! The line of an entry is read: ticket, owner, lane, previous ticket and what the entry says.
ghost use Rattle.std.specs.Prelude.{◌≡◌, IfOk, MatchOption, Some, None};
ghost use Rattle.lb_read.specs.Entries.{origin_head, line_in};

use crate::fields::long_in;
use crate::kinds::next_what;
use crate::owner::owner_in;
use crate::what::what_in;
use crate::written::WrittenEntry;
use lb_base::NoMemory;
use lb_core::{Entry, Owner};
use lb_text::{Pieces, SPACE};
use std::alloc::Global;

// Where an entry comes from.
#[derive(Clone, Copy)]
struct Origin {
    ticket: u64,
    owner: Owner,
    lane: u32,
    prev: u64,
}

// The ticket of an entry, its owner with the lane, and the ticket of the lane's entry before it.
#[tactic(auto, unfolding(crate::specs::Exact::take_field))]
fn origin_in(fields: &mut Pieces) -> Option<Origin>
    ensures { MatchOption result
        (origin_head fields.old ≡ None)
        (λ o. origin_head fields.old ≡ Some (((o.ticket, (o.owner, o.lane)), o.prev), fields.new)) }
{
    let ticket = long_in(fields.next_piece()?)?;
    let (owner, lane) = owner_in(fields.next_piece()?)?;
    let prev = long_in(fields.next_piece()?)?;
    Some(Origin {
        ticket,
        owner,
        lane,
        prev,
    })
}

/// The entry of a line, with the ticket that is written there; None where the line is no entry's.
#[tactic(auto, unfolding(crate::specs::Entries::line_in, crate::specs::Entries::entry_in))]
pub(crate) fn entry_of(alloc: Global, line: &[u8]) -> Result<Option<WrittenEntry>, NoMemory>
    ensures { IfOk result (λ entry. entry ≡ line_in line.now) }
{
    let mut fields = Pieces::new(line, SPACE);
    let Some(origin) = origin_in(&mut fields) else {
        return Ok(None);
    };
    let Some(kind) = next_what(&mut fields) else {
        return Ok(None);
    };
    let Some(what) = what_in(alloc, kind, &mut fields)? else {
        return Ok(None);
    };
    let Origin {
        ticket,
        owner,
        lane,
        prev,
    } = origin;
    Ok(Some(WrittenEntry {
        ticket,
        entry: Entry {
            owner,
            lane,
            prev,
            what,
        },
    }))
}
