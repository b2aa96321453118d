//! The first line of a text, and what a line of a header of a history repeats of a trace.
ghost use Rattle.std.specs.Prelude.{◌≡◌, true, false, [], ◌∷◌, ◌==◌, ◌<◌, length, take, drop, codes, MatchOption};
ghost use Rattle.std.specs.List.{slice_split};
ghost use Rattle.std.specs.Str.{bytes_eq};
ghost use Rattle.lb_text.specs.declared.marks.TheConstants.{LINE_FEED};

use lb_text::LINE_FEED;

/// The first line of a text, without its line feed, and what stands behind that; None where there is
/// no line feed.
#[tactic(auto, using(lb_text::proofs::Cut::passes, lb_text::proofs::Cut::finds, lb_text::proofs::Cut::ends))]
pub(crate) fn cut_line(text: &[u8]) -> Option<(&[u8], &[u8])>
    ensures lines { MatchOption result
        (slice_split (λ b. b == LINE_FEED) text.now ≡ text.now ∷ [])
        (λ cut. slice_split (λ b. b == LINE_FEED) text.now ≡ cut.0.now ∷ slice_split (λ b. b == LINE_FEED) cut.1.now) }
    ensures shorter { MatchOption result (Unit {0}) (λ cut. length cut.1.now < length text.now) }
{
    for i in 0..text.len() {
        if text[i] == LINE_FEED {
            return Some((&text[..i], &text[i + 1..]));
        }
    }
    None
}

/// What a line repeats of a trace: what stands behind `= `.
pub(crate) fn repeated(line: &[u8]) -> Option<&[u8]>
    ensures { MatchOption result
        (bytes_eq (take 2 line.now) (codes "= ") ≡ false)
        (λ body. (bytes_eq (take 2 line.now) (codes "= ") ≡ true) × (body.now ≡ drop 2 line.now)) }
{
    if line.len() < 2 || line[0] != b'=' || line[1] != b' ' {
        return None;
    }
    Some(&line[2..])
}
