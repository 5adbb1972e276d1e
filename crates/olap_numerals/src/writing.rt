// Canonical numerals.
ghost use Rattle.std.specs.Prelude.{◌≡◌, IfOk, map};
ghost use Rattle.olap_numerals.specs.Numerals.{canonical};

use itoa::Buffer;
use olap_base::{List, Memory, Text};
use std::alloc::Global;

/// The canonical numeral of the number. `Memory` if there is no room for it.
pub fn numeral(alloc: Global, n: i64) -> Result<Text, Memory>
    ensures { IfOk result (λ text. text ≡ canonical n) }
{
    let mut buffer = Buffer::new();
    Text::from_bytes(alloc, buffer.format(n).as_bytes())
}

/// The canonical numerals of the numbers, in their order. `Memory` if there is no room for them.
pub fn numerals(alloc: Global, numbers: &[i64]) -> Result<List<Text>, Memory>
    ensures { IfOk result (λ texts. texts ≡ map canonical numbers.now) }
{
    let mut texts = Vec::new(alloc);
    'numbers: for n in numbers {
        texts.push(numeral(alloc, *n)?)?;
    }
    Ok(List::from_vec(texts))
}
