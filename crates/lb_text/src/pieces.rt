//! The pieces of a text between marks, one after the other.
ghost use Rattle.std.specs.Prelude.{◌≡◌, [], ◌∷◌, ◌==◌, MatchOption};
ghost use Rattle.std.specs.List.{slice_split};

use std::marker::Model;

// The bytes before the first mark, and those after it.
fn cut_at(text: &[u8], mark: u8) -> Option<(&[u8], &[u8])>
    ensures { MatchOption result
        (slice_split (λ b. b == mark) text.now ≡ text.now ∷ [])
        (λ cut. slice_split (λ b. b == mark) text.now ≡ cut.0.now ∷ slice_split (λ b. b == mark) cut.1.now) }
{
    for i in 0..text.len() {
        if text[i] == mark {
            return Some((&text[..i], &text[i + 1..]));
        }
    }
    None
}

/// The pieces of a text between its marks that are not taken yet. Contracts see it as their list.
/// A text has one piece more than it has marks; some of them may be empty.
#[derive(Drop)]
pub struct Pieces<'a> {
    rest: Option<&'a [u8]>,
    mark: u8,
}

impl<'a> Model for Pieces<'a> {
    ghost use Rattle.std.specs.Prelude.{ℕ, List};
    ghost use Rattle.std.specs.Option.{option_copied};
    ghost use Rattle.lb_text.specs.Pieces.{pieces_left};

    ghost Value = { List (List ℕ) };

    ghost view = { λ p. pieces_left p.mark (option_copied p.rest) };
}

impl<'a> Pieces<'a> {
    /// All pieces of a text.
    pub fn new(text: &'a [u8], mark: u8) -> Self
        ensures { result ≡ slice_split (λ b. b == mark) text.now }
    {
        Pieces {
            rest: Some(text),
            mark,
        }
    }

    /// Takes the next piece; None where none is left.
    pub fn next_piece(&mut self) -> Option<&'a [u8]>
        ensures { MatchOption result ((self.old ≡ []) × (self.new ≡ [])) (λ piece. self.old ≡ piece.now ∷ self.new) }
    {
        let Some(rest) = self.rest else {
            return None;
        };
        match cut_at(rest, self.mark) {
            Some((piece, after)) => {
                self.rest = Some(after);
                Some(piece)
            }
            None => {
                self.rest = None;
                Some(rest)
            }
        }
    }
}
