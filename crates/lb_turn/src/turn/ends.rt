//! How a position of a turn ends: its outcome (docs/rules/counters.md), and the word for it in a `close`.
ghost use Rattle.std.specs.Prelude.{◌≡◌};
ghost use Rattle.lb_queue.specs.Turns.{counters_at, tries_of};
ghost use Rattle.lb_core.specs.Course.{
  turn_domain,
  turn_kind,
  is_all_pinned,
  outcome_of,
  outcome_after,
  flag_of,
};
ghost use Rattle.lb_core.specs.Rules.{word_of};
ghost use Rattle.lb_turn.specs.Turns.{HasDomain};

use super::Turn;
use lb_active::wants_active;
use lb_core::{Course, OutcomeWord};
use lb_course::{is_all_pinned, turn_kind};
use lb_imbalance::Decision;
use lb_interval::Outcome;

impl<'a> Turn<'a> {
    /// How the position in work ends, if it ends now (docs/rules/counters.md).
    #[tactic(auto, unfolding(lb_core::specs::Course::outcome_of))]
    pub fn outcome(&self) -> Outcome
        requires { HasDomain self.now }
        ensures { result ≡ outcome_of self.now.header self.now.course }
    {
        match self.course.decision {
            None => Outcome::Balanced,
            Some(Decision::NotMine) => Outcome::NotMine,
            Some(Decision::Balanced) => {
                if self.course.taken.is_some() {
                    Outcome::Pinned
                } else {
                    Outcome::Balanced
                }
            }
            Some(Decision::Pull { .. }) => self.outcome_of_take(),
        }
    }

    // How it ends after a take.
    fn outcome_of_take(&self) -> Outcome
        requires { HasDomain self.now }
        ensures { result ≡ outcome_after
            (is_all_pinned self.now.course.taken)
            self.now.course.took
            (counters_at self.now.course.counters self.now.course.position).failures
            (tries_of (turn_domain self.now.header self.now.course).shape.name)
            (turn_kind self.now.course) }
    {
        if is_all_pinned(self.course) {
            return Outcome::Pinned;
        }
        if self.course.took > 0 {
            return Outcome::Moved(self.course.took);
        }
        // the greatest number of failures is past the tries of any level
        let failures = self.counters().failures.saturating_add(1);
        if wants_active(failures, self.tries(), turn_kind(self.course)) {
            Outcome::Asking
        } else {
            Outcome::Failed
        }
    }
}

/// The word for an outcome in the line `close`: the number of tasks that moved is left out.
pub fn word_of(outcome: Outcome) -> OutcomeWord
    ensures { result ≡ word_of outcome }
{
    match outcome {
        Outcome::NotMine => OutcomeWord::NotMine,
        Outcome::Balanced => OutcomeWord::Balanced,
        Outcome::Moved(_) => OutcomeWord::Moved,
        Outcome::Pinned => OutcomeWord::Pinned,
        Outcome::Failed => OutcomeWord::Failed,
        Outcome::Asking => OutcomeWord::Asking,
    }
}

/// The imbalance flag that the position leaves: some task was pinned, and something is left to move. None
/// where no take was made.
pub fn flag(course: &Course) -> Option<bool>
    ensures { result ≡ flag_of course.now.taken }
{
    match course.taken {
        None => None,
        Some(taken) => Some(taken.some_pinned && taken.left > 0),
    }
}
