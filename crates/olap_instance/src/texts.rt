// Ids and names, and the pieces of a field of parents.
ghost use Rattle.std.specs.Prelude.{◌≡◌, ◌==◌, ◌<◌, ◌∷◌, IfSome, length};
ghost use Rattle.std.specs.List.{list_any, position, slice_split};
ghost use Rattle.std.specs.Str.{is_utf8};
ghost use Rattle.olap_base.specs.Bytes.{semicolon};
ghost use Rattle.olap_instance.specs.InstanceText.{is_bad_id, is_bad_number as is_bad_number_of, is_too_long, pieces_of};
ghost use Rattle.olap_instance.specs.Passes.{pieces_left};

use olap_base::MOST_TEXT_BYTES;
use olap_numerals::number;

/// Whether the bytes are UTF-8.
pub(crate) fn is_text(bytes: &[u8]) -> bool
    ensures { result ≡ is_utf8 bytes.now }
{
    str::from_utf8(bytes).is_ok()
}

fn has_semicolon(id: &[u8]) -> bool
    ensures { result ≡ list_any (λ b. b == semicolon) id.now }
{
    id.iter().any(|b| *b == b';')
}

/// Whether the id is empty or holds a semicolon.
pub(crate) fn is_bad(id: &[u8]) -> bool
    ensures { result ≡ is_bad_id id.now }
{
    id.is_empty() || has_semicolon(id)
}

/// Whether the text has more bytes than a text of a file may have.
pub(crate) fn is_long(text: &[u8]) -> bool
    ensures { result ≡ is_too_long text.now }
{
    text.len() > MOST_TEXT_BYTES
}

/// Whether names are numbers and the text is no numeral.
pub(crate) fn is_bad_number(is_number: bool, name: &[u8]) -> bool
    ensures { result ≡ is_bad_number_of is_number name.now }
{
    is_number && number(name).is_none()
}

// The place of the first semicolon.
fn first_semicolon(text: &[u8]) -> Option<usize>
    ensures { result ≡ position (λ b. b == semicolon) text.now }
{
    text.iter().position(|b| *b == b';')
}

/// The first piece of a text that is cut at its semicolons, and what stands after its semicolon, if it has one.
pub(crate) fn first_piece(text: &[u8]) -> (&[u8], Option<&[u8]>)
    ensures pieces { slice_split (λ b. b == semicolon) text.now ≡ result.0.now ∷ pieces_left result.1 }
    ensures less { IfSome result.1 (λ others. length others.now < length text.now) }
{
    match first_semicolon(text) {
        Some(end) => (&text[..end], Some(&text[end + 1..])),
        None => (text, None),
    }
}

/// The field, if it has pieces: an empty one has none.
pub(crate) fn all_pieces(field: &[u8]) -> Option<&[u8]>
    ensures { pieces_left result ≡ pieces_of field.now }
{
    if field.is_empty() { None } else { Some(field) }
}
