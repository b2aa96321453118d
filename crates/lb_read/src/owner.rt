//! Whose an entry is, and the lane that drew it: `L2`, `Q1@2` or `P@2`.
ghost use Rattle.std.specs.Prelude.{◌≡◌, [], ◌∷◌, MatchOption};
ghost use Rattle.lb_read.specs.Owners.{queue_in, publisher_in, owner_in};

use crate::fields::short_in;
use lb_core::Owner;
use lb_text::Pieces;

// The first byte, and what stands behind it.
fn first_of(text: &[u8]) -> Option<(u8, &[u8])>
    ensures { MatchOption result (text.now ≡ []) (λ cut. text.now ≡ cut.0 ∷ cut.1.now) }
{
    if text.is_empty() {
        return None;
    }
    Some((text[0], &text[1..]))
}

// The publisher, and the lane that drew the entry: what stands behind `P`.
fn publisher_in(rest: &[u8]) -> Option<(Owner, u32)>
    ensures { result ≡ publisher_in rest.now }
{
    let (mark, lane) = first_of(rest)?;
    if mark != b'@' {
        return None;
    }
    let lane = short_in(lane)?;
    Some((Owner::Publisher, lane))
}

// A queue, and the lane that drew the entry: what stands behind `Q`.
#[tactic(auto, unfolding(crate::specs::Exact::take_field))]
fn queue_in(rest: &[u8]) -> Option<(Owner, u32)>
    ensures { result ≡ queue_in rest.now }
{
    let mut parts = Pieces::new(rest, b'@');
    let cpu = short_in(parts.next_piece()?)?;
    let lane = short_in(parts.next_piece()?)?;
    match parts.next_piece() {
        Some(_) => None,
        None => Some((Owner::Queue(cpu), lane)),
    }
}

/// Whose an entry is, and the lane that drew it.
#[tactic(auto, unfolding(crate::specs::Owners::owner_in))]
pub(crate) fn owner_in(text: &[u8]) -> Option<(Owner, u32)>
    ensures { result ≡ owner_in text.now }
{
    let (letter, rest) = first_of(text)?;
    if letter == b'L' {
        let lane = short_in(rest)?;
        Some((Owner::Lane(lane), lane))
    } else if letter == b'Q' {
        queue_in(rest)
    } else if letter == b'P' {
        publisher_in(rest)
    } else {
        None
    }
}
