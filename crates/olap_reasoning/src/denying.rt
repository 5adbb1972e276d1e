// The answer no, and what shows it.
ghost use Rattle.std.specs.Prelude.{◌≡◌, ◌++◌, codes, IfOk};
ghost use Rattle.olap_order.specs.Outputs.{line};

use olap_base::{Memory, Text};
use std::alloc::Global;

/// `no`, a line, and the lines after it.
pub(crate) fn no_lines(alloc: Global, first: &Text, others: &Text) -> Result<Vec<u8>, Memory>
    ensures { IfOk result (λ text. text.items ≡ line (codes "no") ++ (first.now ++ others.now)) }
{
    let mut text = Vec::from_slice(alloc, b"no\n")?;
    text.extend_from_slice(first.bytes())?;
    text.extend_from_slice(others.bytes())?;
    Ok(text)
}
