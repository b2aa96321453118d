//! Judging entry after entry, up to the first fault.
ghost use Rattle.std.specs.Prelude.{◌≡◌, None, true, IfOk};
ghost use Rattle.std.specs.List.{list_all};
ghost use Rattle.lb_trace.specs.Accepted.{IsHeader};
ghost use Rattle.lb_core.specs.Step.{after};
ghost use Rattle.lb_read.specs.Written.{written_fits};
ghost use Rattle.lb_audit.specs.Verdict.{broken_at, verdict_of};

use crate::verdict::Verdict;
use lb_base::NoMemory;
use lb_core::Rule;
use lb_read::{Read, WrittenEntry};
use lb_state::State;
use std::alloc::Global;

// The first rule that the entry at this place breaks, where the entries before it leave this state. An entry
// that breaks none is taken.
#[tactic(auto, using(crate::proofs::Ranges::says_what_fits))]
fn judge(state: &mut State, place: u64, written: &WrittenEntry) -> Result<Option<Rule>, NoMemory>
    requires { written_fits written.now ≡ true }
    ensures broken { IfOk result (λ rule. rule ≡ broken_at state.old place written.now) }
    ensures taken { IfOk result (λ rule. rule ≡ None → state.new ≡ after state.old written.now.entry) }
{
    if written.ticket != place {
        return Ok(Some(Rule::Ticket));
    }
    state.step(&written.entry)
}

/// Whether a history that was read from a text is legal, or its first fault (docs/rules/legality.md).
///
/// It asks for what reading a text gives: the header is one of an accepted trace, and what the entries say is
/// in the ranges of their text.
pub fn check(alloc: Global, read: &Read) -> Result<Verdict, NoMemory>
    requires header { IsHeader read.now.header }
    requires entries { list_all written_fits read.now.entries ≡ true }
    ensures verdict { IfOk result (λ verdict. verdict ≡ verdict_of read.now) }
{
    let mut state = State::start(alloc, &read.header)?;
    let mut ticket = 1;
    for written in read.entries.as_slice() {
        if let Some(rule) = judge(&mut state, ticket, written)? {
            return Ok(Verdict::Illegal { ticket, rule });
        }
        ticket += 1;
    }
    if state.has_ended() {
        return Ok(Verdict::Legal);
    }
    Ok(Verdict::Illegal {
        ticket,
        rule: Rule::End,
    })
}
