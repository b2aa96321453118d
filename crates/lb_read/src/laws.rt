//! Laws of the texts that read as histories, each the contract of a function that does nothing.
ghost use Rattle.lb_read.specs.Laws.{ReadOnce, ReadOrBad, NoneIsBad, OneIsFirst};
ghost use Rattle.lb_read.specs.Laws.{LinesReadExactly, OneText, HeadersReadBack, ReadBack, AreOwn};

/// A line reads as an entry with its ticket exactly where it is that entry's line, and what it says is in
/// range; and what was read has one text.
pub fn lines_read_exactly()
    ensures lines { LinesReadExactly }
    ensures text { OneText }
{}

/// A text reads as a history, or some line of it is the first that is no line of a history at its
/// place; never both. It reads as one history, and one line is the first bad one.
#[tactic(auto, using(crate::proofs::Refusals::read_once, crate::proofs::Refusals::read_or_bad, crate::proofs::Refusals::none_is_bad, crate::proofs::Refusals::one_is_first))]
pub fn texts_read_once()
    ensures once { ReadOnce }
    ensures either { ReadOrBad }
    ensures apart { NoneIsBad }
    ensures first { OneIsFirst }
{}

/// The header of an accepted text is declared: its lines without `= ` are a trace that has it, and are
/// no longer than a trace may be, since the text was not.
#[tactic(auto, using(crate::proofs::Room::headers_read_back))]
pub fn headers_read_back()
    ensures { HeadersReadBack }
{}

/// The text of a history reads as that history, and two histories with one text are equal, where their
/// headers are declared and what their entries say is in range.
#[tactic(auto, using(crate::proofs::ReadBack::read_back, crate::proofs::ReadBack::are_own))]
pub fn histories_read_back()
    ensures back { ReadBack }
    ensures own { AreOwn }
{}
