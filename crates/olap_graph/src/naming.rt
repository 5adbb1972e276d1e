// Which bytes are a category's name.
ghost use Rattle.std.specs.Prelude.{◌≡◌, ◌↔◌, IsTrue, Contains};
ghost use Rattle.std.specs.Str.{bytes_eq};
ghost use Rattle.olap_base.specs.Graph.{IsLetter, IsLetterOrDigit, IsCategoryName, reserved};

/// Whether the byte is an ASCII letter.
fn is_letter(b: u8) -> bool
    ensures { IsTrue result ↔ IsLetter b }
{
    matches!(b, b'A'..=b'Z' | b'a'..=b'z')
}

/// Whether the byte is an ASCII letter or digit.
fn is_letter_or_digit(b: u8) -> bool
    ensures { IsTrue result ↔ IsLetterOrDigit b }
{
    is_letter(b) || matches!(b, b'0'..=b'9')
}

/// Whether the word is that text.
fn is(word: &[u8], text: &[u8]) -> bool
    ensures { result ≡ bytes_eq word.now text.now }
{
    word == text
}

/// Whether the bytes are a word that has a meaning of its own in a formula.
fn is_reserved(bytes: &[u8]) -> bool
    ensures { IsTrue result ↔ Contains reserved bytes.now }
{
    is(bytes, b"true") || is(bytes, b"false") || is(bytes, b"one") || is(bytes, b"all")
}

/// Whether the bytes are a category name: an ASCII letter followed by ASCII letters and digits, other than
/// `true`, `false`, `one` and `all`. `All` is one, which a builder refuses as a duplicate.
pub fn category_name(bytes: &[u8]) -> bool
    ensures { IsTrue result ↔ IsCategoryName bytes.now }
{
    match bytes {
        [] => false,
        [first, rest @ ..] => {
            is_letter(*first) && rest.iter().all(|b| is_letter_or_digit(*b)) && !is_reserved(bytes)
        }
    }
}
