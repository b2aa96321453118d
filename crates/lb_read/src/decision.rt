//! What a look decides: `notmine`, `balanced` or `pull C WHAT N`.
ghost use Rattle.std.specs.Prelude.{◌≡◌};
ghost use Rattle.lb_read.specs.Exact.{if_none_left};
ghost use Rattle.lb_read.specs.Exact.{by_word};
ghost use Rattle.lb_read.specs.KindWords.{decision_words};
ghost use Rattle.lb_read.specs.Decisions.{decision_in};
ghost use Rattle.lb_read.specs.declared.kinds.DecisionKind.TheVariants as decision_kinds;

use crate::fields::{long_in, short_in};
use crate::kinds::{DecisionKind, decision_named};
use crate::words::move_named;
use lb_imbalance::Decision;
use lb_text::Pieces;

// A decision without fields.
fn lone_decision(decision: Decision, fields: &mut Pieces) -> Option<Decision>
    ensures { result ≡ if_none_left decision fields.old }
{
    match fields.next_piece() {
        Some(_) => None,
        None => Some(decision),
    }
}

// A pull: from which CPU, what it is to even out, and how much.
#[tactic(auto, unfolding(crate::specs::Decisions::decision_in, crate::specs::Exact::take_field))]
fn pull_in(fields: &mut Pieces) -> Option<Decision>
    ensures { result ≡ decision_in decision_kinds.Pull fields.old }
{
    let source = short_in(fields.next_piece()?)?;
    let kind = move_named(fields.next_piece()?)?;
    let imbalance = long_in(fields.next_piece()?)?;
    match fields.next_piece() {
        Some(_) => None,
        None => Some(Decision::Pull {
            source,
            kind,
            imbalance,
        }),
    }
}

/// What a look decides, after which nothing is left.
#[tactic(auto, unfolding(crate::specs::Decisions::decision_in, crate::specs::Exact::take_field))]
pub(crate) fn decision_in(fields: &mut Pieces) -> Option<Decision>
    ensures { result ≡ by_word decision_words decision_in fields.old }
{
    match decision_named(fields.next_piece()?)? {
        DecisionKind::NotMine => lone_decision(Decision::NotMine, fields),
        DecisionKind::Balanced => lone_decision(Decision::Balanced, fields),
        DecisionKind::Pull => pull_in(fields),
    }
}
