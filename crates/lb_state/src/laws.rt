//! Laws of a ready machine and its engine, over the definitions alone: each function's contract is the law,
//! and its body calls the laws that it stands on.
ghost use Rattle.lb_state.specs.Laws.{StepsMayBeTaken, HandsMayLand};

use lb_domain::laws::spans_lie_inside;
use lb_ready::laws::{calls_may_be_made, lanes_suit, ready};

/// An entry that may be added to a ready machine meets what its step asks of the engine, where the nice value
/// of its row, if it takes up one, is in range.
pub fn steps_may_be_taken()
    ensures { StepsMayBeTaken }
{
    // after an `out` the machine is ready too
    ready();
    // what the calls of a queue ask, and where each task stands
    calls_may_be_made();
    // what every lane keeps
    lanes_suit();
    // the figures of a look are of CPUs of the machine
    spans_lie_inside();
}

/// The hands of a ready machine can land where they go: so it can be let go.
pub fn hands_may_land()
    ensures { HandsMayLand }
{}
