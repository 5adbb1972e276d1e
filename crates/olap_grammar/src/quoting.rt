// Texts as strings.
ghost use Rattle.olap_grammar.specs.Quoting.{escaped_byte, quoted};
ghost use Rattle.std.specs.Prelude.{◌≡◌, ◌++◌, OnOk, flat_map};

use std::alloc::AllocError;

fn push_byte(out: &mut Vec<u8>, byte: u8) -> Result<(), AllocError>
    ensures { OnOk result (out.new.items ≡ out.old.items ++ escaped_byte byte) }
{
    if byte == b'"' || byte == b'\\' {
        out.extend_from_slice(&[b'\\', byte])
    } else {
        out.push(byte)?;
        Ok(())
    }
}

fn push_escaped(out: &mut Vec<u8>, text: &[u8]) -> Result<(), AllocError>
    ensures { OnOk result (out.new.items ≡ out.old.items ++ flat_map escaped_byte text.now) }
{
    let mut left = text;
    'bytes: while let Some((byte, others)) = left.split_first() {
        push_byte(out, *byte)?;
        left = others;
    }
    Ok(())
}

/// Appends the text as a string: in quotes, with a `\` before each `"` and `\`. Linear in the text.
pub fn push_quoted(out: &mut Vec<u8>, text: &[u8]) -> Result<(), AllocError>
    ensures { OnOk result (out.new.items ≡ out.old.items ++ quoted text.now) }
{
    out.push(b'"')?;
    push_escaped(out, text)?;
    out.push(b'"')?;
    Ok(())
}
