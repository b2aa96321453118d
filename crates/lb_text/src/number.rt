//! Reading numbers and nice values.
ghost use Rattle.std.specs.Prelude.{◌≡◌, false, ℕ, ◌≤◌, ◌<◌, ◌/◌, ◌^◌, ◌++◌, ◌∷◌, [], List, ◌↔◌, IsTrue, IfOk, IfErr, pos, neg_ℤ, ◌≤ℤ◌, MatchOption, Some, None, decimal};
ghost use Rattle.lb_text.specs.Numbers.{number_within, number_of, is_number, nice_of, is_nice};
ghost use Rattle.lb_text.specs.Prefixes.{CanGoOn, IsFirstBad};
ghost use Rattle.std.specs.Str.Parse.{starts_with_minus};
ghost use Rattle.lb_text.specs.Scan.{Spelled, number_with};

use crate::bad_text::BadText;
use crate::marks::{MINUS, ZERO};

// Whether some number from `least` to `most` begins with the digits of `value`.
fn leads(value: u64, mut least: u64, mut most: u64) -> bool
    requires { least ≤ most }
    ensures { IsTrue result ↔ CanGoOn (is_number least most) (decimal value) }
{
    if value == 0 {
        return least == 0;
    }
    while value < least {
        least /= 10;
        most /= 10;
    }
    value <= most
}

// The number up to `most` that a digit after those so far spells. No digit follows a leading 0.
fn with_digit(so_far: Option<u64>, byte: u8, most: u64) -> Option<u64>
    ensures { result ≡ number_with most so_far byte }
{
    if !byte.is_ascii_digit() {
        return None;
    }
    let digit = u64::from(byte - ZERO);
    let next = match so_far {
        None => u128::from(digit),
        Some(0) => return None,
        Some(n) => u128::from(n) * 10 + u128::from(digit),
    };
    if next > u128::from(most) {
        return None;
    }
    Some(next as u64)
}

// The same, where some number from `least` to `most` begins so.
fn with_leading_digit(so_far: Option<u64>, byte: u8, least: u64, most: u64) -> Option<u64>
    requires { least ≤ most }
    ensures { (text : List ℕ) → Spelled so_far text → MatchOption result
        (CanGoOn (is_number least most) (text ++ byte ∷ []) → ⊥)
        (λ n. Spelled (Some n) (text ++ byte ∷ []) × CanGoOn (is_number least most) (text ++ byte ∷ [])) }
{
    let Some(next) = with_digit(so_far, byte, most) else {
        return None;
    };
    if leads(next, least, most) {
        Some(next)
    } else {
        None
    }
}

/// The number from `least` to `most` that a text spells: `0`, or digits of which the first is not 0
/// (docs/rules/history-text.md).
///
/// Refused exactly where the text spells no such number, at the first byte with which none begins.
pub fn number_within(text: &[u8], least: u64, most: u64) -> Result<u64, BadText>
    requires { least ≤ most }
    ensures number { IfOk result (λ n. number_within least most text.now ≡ Some n) }
    ensures in_range { IfOk result (λ n. (least ≤ n) × (n ≤ most)) }
    ensures refused { IfErr result (λ bad. number_within least most text.now ≡ None) }
    ensures place { IfErr result (λ bad. IsFirstBad (is_number least most) text.now bad.at) }
{
    let mut value = None;
    for (at, byte) in text.iter().enumerate() {
        let Some(next) = with_leading_digit(value, *byte, least, most) else {
            return Err(BadText { at });
        };
        value = Some(next);
    }
    match value {
        Some(n) if n >= least => Ok(n),
        _ => Err(BadText { at: text.len() }),
    }
}

/// The number up to `max` that a text spells (docs/rules/history-text.md).
///
/// Refused exactly where the text spells no such number, at the first byte with which none begins.
pub fn number_of(text: &[u8], max: u64) -> Result<u64, BadText>
    ensures number { IfOk result (λ n. number_of max text.now ≡ Some n) }
    ensures in_range { IfOk result (λ n. n ≤ max) }
    ensures refused { IfErr result (λ bad. number_of max text.now ≡ None) }
    ensures place { IfErr result (λ bad. IsFirstBad (is_number 0 max) text.now bad.at) }
{
    number_within(text, 0, max)
}

// What follows a minus sign.
fn behind_minus(text: &[u8]) -> Option<&[u8]>
    ensures { MatchOption result (starts_with_minus text.now ≡ false) (λ digits. text.now ≡ MINUS ∷ digits.now) }
{
    if text.is_empty() || text[0] != MINUS {
        return None;
    }
    Some(&text[1..])
}

/// The nice value, from -20 to 19, that a text spells: a number, or `-` and a number that is not 0
/// (docs/rules/history-text.md).
///
/// Refused exactly where the text spells no nice value, at the first byte with which none begins.
pub fn nice_of(text: &[u8]) -> Result<i32, BadText>
    ensures nice { IfOk result (λ n. nice_of text.now ≡ Some n) }
    ensures in_range { IfOk result (λ n. (neg_ℤ (pos 20) ≤ℤ n) × (n ≤ℤ pos 19)) }
    ensures refused { IfErr result (λ bad. nice_of text.now ≡ None) }
    ensures place { IfErr result (λ bad. IsFirstBad is_nice text.now bad.at) }
{
    match behind_minus(text) {
        Some(digits) => match number_within(digits, 1, 20) {
            Ok(n) => Ok(-(n as i32)),
            Err(bad) => Err(BadText { at: 1 + bad.at }),
        },
        None => match number_within(text, 0, 19) {
            Ok(n) => Ok(n as i32),
            Err(bad) => Err(bad),
        },
    }
}
