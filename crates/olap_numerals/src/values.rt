// Numbers of 64 bits that texts spell.
ghost use Rattle.std.specs.Prelude.{◌≡◌, ◌<◌, ◌≤◌, ◌^◌, IfSome, Some, length};
ghost use Rattle.std.specs.Str.Parse.{IsNumeral, digits_value, starts_with_minus, without_leading_sign};
ghost use Rattle.olap_numerals.specs.Values.{value_of};

// Numbers of this many digits have 64 bits, and a sign.
const FEW_DIGITS: usize = 18;

/// What stands after a sign, and whether that is a minus. If there is no sign, all.
#[inline(always)]
fn unsigned(text: &[u8]) -> (&[u8], bool)
    ensures digits { result.0.now ≡ without_leading_sign text.now }
    ensures minus { result.1 ≡ starts_with_minus text.now }
{
    if text.is_empty() {
        return (text, false);
    }
    if text[0] == b'-' {
        (&text[1..], true)
    } else if text[0] == b'+' {
        (&text[1..], false)
    } else {
        (text, false)
    }
}

/// The number of a few digits, in one pass; nothing where none stands there, or another byte among them.
#[inline(always)]
fn number(digits: &[u8]) -> Option<u64>
    requires { length digits.now ≤ 18 }
    ensures numeral { IfSome result (λ n. IsNumeral 10 digits.now) }
    ensures value { IfSome result (λ n. n ≡ digits_value 10 digits.now) }
    ensures small { IfSome result (λ n. n < 10 ^ 18) }
{
    let mut number = 0u64;
    'digits: for i in 0..digits.len() {
        let digit = digits[i];
        if !digit.is_ascii_digit() {
            return None;
        }
        number = number * 10 + u64::from(digit - b'0');
    }
    if digits.is_empty() {
        None
    } else {
        Some(number)
    }
}

/// The number that a text of a few digits spells. It says nothing of other texts.
#[inline(always)]
fn short_value(text: &[u8]) -> Option<i64>
    ensures { IfSome result (λ n. value_of text.now ≡ Some n) }
{
    let (digits, is_minus) = unsigned(text);
    if digits.len() > FEW_DIGITS {
        return None;
    }
    let number = number(digits)? as i64;
    Some(if is_minus { -number } else { number })
}

/// The number that a text of any length spells.
fn long_value(text: &[u8]) -> Option<i64>
    ensures { result ≡ value_of text.now }
{
    match str::from_utf8(text) {
        Ok(text) => text.parse::<i64>().ok(),
        Err(_) => None,
    }
}

/// The number of 64 bits that a text spells by a plus, a minus or neither, and decimal digits. One of a few digits
/// takes one pass over its bytes.
#[inline(always)]
pub fn value(text: &[u8]) -> Option<i64>
    ensures { result ≡ value_of text.now }
{
    match short_value(text) {
        Some(number) => Some(number),
        None => long_value(text),
    }
}
