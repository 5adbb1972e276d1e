// Byte order marks.
ghost use Rattle.std.specs.Prelude.{◌≡◌};
ghost use Rattle.csv.specs.Reading.{is_bom};
ghost use Rattle.olap_records.specs.Standing.{unmarked};

/// Whether three bytes are a byte order mark.
fn is_mark(a: u8, b: u8, c: u8) -> bool
    ensures { result ≡ is_bom a b c }
{
    a == 0xef && b == 0xbb && c == 0xbf
}

/// A text without its byte order mark, if it begins with one.
pub fn without_mark(text: &[u8]) -> &[u8]
    ensures { result.now ≡ unmarked text.now }
{
    if text.len() < 3 {
        return text;
    }
    if is_mark(text[0], text[1], text[2]) {
        return &text[3..];
    }
    text
}
