// The number that a text spells.
ghost use Rattle.std.specs.Prelude.{◌≡◌, ◌↔◌, IsTrue};
ghost use Rattle.olap_numerals.specs.Numerals.{digits_in as digits_in_of, number_of};
ghost use Rattle.olap_numerals.specs.Spelling.{has_plus as has_plus_of, is_small as is_small_of, small_of};

use crate::values::value;

/// The most digits of a numeral.
const MOST_DIGITS: usize = 19;

/// The greatest number that a numeral spells.
pub const MOST_NUMBER: i64 = 1_000_000_000_000_000_000;

// Whether the number is within the bounds of numerals.
fn is_small(n: i64) -> bool
    ensures { result ≡ is_small_of n }
{
    -MOST_NUMBER <= n && n <= MOST_NUMBER
}

// Whether a plus stands in front.
fn has_plus(text: &[u8]) -> bool
    ensures { result ≡ has_plus_of text.now }
{
    match text.split_first() {
        Some((first, _)) => *first == b'+',
        None => false,
    }
}

// What stands after a `-`, if one stands in front.
fn digits_in(text: &[u8]) -> &[u8]
    ensures { result.now ≡ digits_in_of text.now }
{
    match text.split_first() {
        Some((first, rest)) => { if *first == b'-' { rest } else { text } }
        None => text,
    }
}

// The number, if it is within the bounds of numerals.
fn small(n: Option<i64>) -> Option<i64>
    ensures { result ≡ small_of n }
{
    match n {
        Some(n) => { if is_small(n) { Some(n) } else { None } }
        None => None,
    }
}

/// The number that a text spells, if it is a numeral.
pub fn number(text: &[u8]) -> Option<i64>
    ensures { result ≡ number_of text.now }
{
    if has_plus(text) {
        return None;
    }
    if digits_in(text).len() > MOST_DIGITS {
        return None;
    }
    small(value(text))
}
