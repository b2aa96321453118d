//! What the reading of a text means, as laws over the definitions alone: each function's contract is
//! the law, and its body is empty.
ghost use Rattle.std.specs.Prelude.{◌≡◌, ℕ, List, Ok};
ghost use Rattle.lb_trace.specs.declared.trace.Trace.{Trace};
ghost use Rattle.lb_trace.specs.Grammar.{reading_of};
ghost use Rattle.lb_trace.specs.FirstBad.{RefusesFirstBad, AcceptsNoneBad};
ghost use Rattle.lb_trace.specs.Accepted.{IsTrace};

/// A text is refused with a line and a code exactly where it is too long, or else where that line is
/// the first bad one and the code the first that holds of it. A text is accepted exactly where it is
/// not too long and no line of it is bad.
pub fn first_bad()
    ensures refused { RefusesFirstBad }
    ensures accepted { AcceptsNoneBad }
{}

/// The trace that a text is keeps to the limits, has a machine and masks without a fault, and its
/// rows name what is declared alone.
pub fn accepted()
    ensures { (text : List ℕ) (t : Trace) → reading_of text ≡ Ok t → IsTrace t }
{}
