// The text of the facts.
ghost use Rattle.std.specs.List.{range_with_len};
ghost use Rattle.std.specs.Prelude.{◌≡◌, ◌++◌, ◌≤◌, IfOk, OnOk, map};
ghost use Rattle.olap_records.specs.Texts.{text_of_row, text_of_rows};
ghost use Rattle.olap_base.specs.Limits.{most_generated};
ghost use Rattle.olap_generate.specs.Members.{fact_row, fact_rows};

use crate::inputs::Input;
use itoa::Buffer;
use olap_base::Memory;
use olap_records::Printer;
use std::alloc::Global;

/// Adds the record of the i-th store's fact.
fn add(alloc: Global, out: &mut Printer, input: &Input, i: u32) -> Result<(), Memory>
    requires width { out.old.width ≡ 2 }
    requires few { i ≤ most_generated }
    ensures text { OnOk result (out.new.text ≡ out.old.text ++ text_of_row (fact_row input.now.seed i)) }
    ensures width { out.new.width ≡ 2 }
{
    let mut digits = Buffer::new();
    let value = digits.format(input.value(i));
    let store = format!(in alloc; "s{i}")?;
    out.row(&[store.as_bytes(), value.as_bytes()])
}

/// Adds a fact for each store.
fn add_facts(alloc: Global, out: &mut Printer, input: &Input) -> Result<(), Memory>
    requires width { out.old.width ≡ 2 }
    ensures { OnOk result (out.new.text ≡ out.old.text
        ++ text_of_rows (map (fact_row input.now.seed) (range_with_len 1 input.now.size))) }
{
    'facts: for k in 0..input.size {
        add(alloc, out, input, k + 1)?;
    }
    Ok(())
}

/// The text of the facts.
pub(crate) fn fact_text(alloc: Global, input: &Input) -> Result<Vec<u8>, Memory>
    ensures { IfOk result (λ text. text.items ≡ text_of_rows (fact_rows input.now.seed input.now.size)) }
{
    let mut out = Printer::new(alloc, 2);
    out.row(&[b"member", b"value"])?;
    add_facts(alloc, &mut out, input)?;
    out.finish()
}
