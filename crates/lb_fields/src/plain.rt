//! Lines in which `csv` sees nothing but commas.
ghost use Rattle.std.specs.Prelude.{◌≡◌};
ghost use Rattle.lb_fields.specs.Pieces.{is_plain};

use lb_text::{COMMA, MINUS, SEMICOLON};

/// Whether a line is plain: each of its bytes is a digit, a letter from `a` to `z`, a comma, `;` or
/// `-`. Any other byte stands in no line of a trace (docs/rules/trace.md).
pub fn is_plain(line: &[u8]) -> bool
    ensures { result ≡ is_plain line.now }
{
    line.iter().all(|byte| {
        byte.is_ascii_digit()
            || byte.is_ascii_lowercase()
            || *byte == COMMA
            || *byte == SEMICOLON
            || *byte == MINUS
    })
}
