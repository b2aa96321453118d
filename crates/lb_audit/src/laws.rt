//! Laws of verdicts, over the definitions alone: each function's contract is the law, and its body calls the
//! laws below that it stands on.
ghost use Rattle.lb_audit.specs.Laws.{TextsMayBeJudged, LegalExactly, FaultExactly, OwnVerdict, EndIsLast};

use lb_trace::laws::accepted;

/// What a text reads as may be judged: its header is that of an accepted trace, and what its entries say is in
/// range.
pub fn texts_may_be_judged()
    ensures { TextsMayBeJudged }
{
    // the lines of its header are an accepted trace
    accepted();
}

/// A history that was read is called legal exactly where its tickets are the places of its entries and these
/// are a legal history; and it is refused with a ticket and a rule exactly where that is its first fault. So
/// it has one verdict.
pub fn verdicts_are_exact()
    ensures legal { LegalExactly }
    ensures fault { FaultExactly }
    ensures own { OwnVerdict }
{}

/// The last entry of a legal history is the end, so it has one and nothing follows it.
pub fn end_is_last()
    ensures { EndIsLast }
{}
