// The lines of a text, and what is looked at before a line is cut into tokens.
ghost use Rattle.olap_schema.specs.Readable.{is_bad as is_bad_of, is_control as is_control_of};
ghost use Rattle.olap_schema_text.specs.Lines.{chomped as chomped_of, is_quiet as is_quiet_of, line_length, lines_of};
ghost use Rattle.std.specs.List.{list_any};
ghost use Rattle.std.specs.Prelude.{◌≡◌, ◌<◌, ◌≤◌, ◌∷◌, length};
ghost use Rattle.std.specs.Str.{is_utf8};

use std::str;

/// Where the first line ends: at its LF, or with the text.
#[tactic(auto, unfolding(crate::specs::Lines::line_length))]
fn line_end(text: &[u8]) -> usize
    ensures end { result ≡ line_length text.now }
    ensures within { result ≤ length text.now }
{
    let mut end = 0;
    let mut left = text;
    'bytes: while let Some((byte, others)) = left.split_first() {
        if *byte == b'\n' {
            return end;
        }
        end += 1;
        left = others;
    }
    end
}

/// The first line of a text, and what stands after its LF.
pub(crate) fn first_line(text: &[u8]) -> (&[u8], &[u8])
    requires { 0 < length text.now }
    ensures lines { lines_of text.now ≡ result.0.now ∷ lines_of result.1.now }
    ensures less { length result.1.now < length text.now }
{
    let end = line_end(text);
    if end < text.len() {
        (&text[..end], &text[end + 1..])
    } else {
        (text, &[])
    }
}

/// The line without a CR at its end.
pub(crate) fn chomped(line: &[u8]) -> &[u8]
    ensures { result.now ≡ chomped_of line.now }
{
    let end = line.len();
    if end > 0 && line[end - 1] == b'\r' {
        &line[..end - 1]
    } else {
        line
    }
}

/// Whether the byte is a control character other than a tab.
fn is_control(byte: u8) -> bool
    ensures { result ≡ is_control_of byte }
{
    (byte < b' ' && byte != b'\t') || byte == 127
}

/// Whether the line is UTF-8.
fn is_text(line: &[u8]) -> bool
    ensures { result ≡ is_utf8 line.now }
{
    match str::from_utf8(line) {
        Ok(_) => true,
        Err(_) => false,
    }
}

/// Whether a control character stands in the line.
fn has_control(line: &[u8]) -> bool
    ensures { result ≡ list_any is_control_of line.now }
{
    line.iter().any(|byte| is_control(*byte))
}

/// Whether the line isn't UTF-8, or has a control character.
pub(crate) fn is_bad(line: &[u8]) -> bool
    ensures { result ≡ is_bad_of line.now }
{
    !is_text(line) || has_control(line)
}

/// Whether the line is blank or a comment.
#[tactic(auto, unfolding(crate::specs::Lines::is_quiet))]
pub(crate) fn is_quiet(line: &[u8]) -> bool
    ensures { result ≡ is_quiet_of line.now }
{
    let mut left = line;
    'bytes: while let Some((byte, others)) = left.split_first() {
        if *byte == b' ' || *byte == b'\t' {
            left = others;
        } else {
            return *byte == b'#';
        }
    }
    true
}
