// Views as CSV texts.
ghost use Rattle.std.specs.Prelude.{◌≡◌, ◌∷◌, ◌++◌, ◌<◌, ℕ, All, IfOk, OnOk, length, map};
ghost use Rattle.std.specs.Option.{option_map};
ghost use Rattle.olap_records.specs.Records.{records_of};
ghost use Rattle.olap_records.specs.Texts.{text_of_row, text_of_rows};
ghost use Rattle.olap_view.specs.Seen.{row_of, rows_of, view_of};
ghost use Rattle.olap_view.specs.ViewText.{behind, fields_in, fields_of_row, records_of_view, view_text, width_behind};

use crate::{Row, View};
use itoa::Buffer;
use olap_base::{Memory, Text};
use olap_instance::Instance;
use olap_records::Printer;
use std::alloc::Global;

/// Prints a row after what is printed; of a store with the category's name before it.
fn print_row(out: &mut Printer, category: Option<&[u8]>, id: &[u8], row: &Row) -> Result<(), Memory>
    requires width { out.old.width ≡ width_behind (option_map (λ n. n.now) category) }
    ensures text { OnOk result (out.new.text ≡ out.old.text
        ++ text_of_row (behind (option_map (λ n. n.now) category.entry) (fields_of_row id.now (row_of row.now)))) }
    ensures width { out.new.width ≡ out.old.width }
{
    let mut count = Buffer::new();
    let mut sum = Buffer::new();
    let mut least = Buffer::new();
    let mut greatest = Buffer::new();
    let count = count.format(row.count).as_bytes();
    let sum = sum.format(row.sum).as_bytes();
    let least = least.format(row.least).as_bytes();
    let greatest = greatest.format(row.greatest).as_bytes();
    match category {
        None => out.row(&[id, count, sum, least, greatest]),
        Some(name) => out.row(&[name, id, count, sum, least, greatest]),
    }
}

/// Prints a record, and after it one for each row of the view; of a store with the category's name before each row.
pub(crate) fn print_rows(
    out: &mut Printer,
    instance: &Instance,
    first: &[&[u8]],
    category: Option<&[u8]>,
    view: &View,
) -> Result<(), Memory>
    requires first { length first.now ≡ width_behind (option_map (λ n. n.now) category) }
    requires width { out.old.width ≡ width_behind (option_map (λ n. n.now) category) }
    requires at_members { All (λ r. r.member.0 < length instance.now) view.now.rows }
    ensures text { OnOk result (out.new.text ≡ out.old.text
        ++ text_of_rows (map (λ f. f.now) first.now
        ∷ map (λ r. behind (option_map (λ n. n.now) category.entry) (fields_in instance.now r))
        (rows_of view.now.rows))) }
    ensures width { out.new.width ≡ out.old.width }
{
    out.row(first)?;
    'rows: for row in view.rows.items() {
        print_row(out, category, instance.id(row.member), row)?;
    }
    Ok(())
}

/// The text of a view after a text that is there, which isn't copied. `Memory`: out of memory.
pub fn print_view_behind(text: Vec<u8>, instance: &Instance, view: &View) -> Result<Vec<u8>, Memory>
    requires at_members { All (λ r. r.member.0 < length instance.now) view.now.rows }
    ensures { IfOk result (λ bytes. bytes.items ≡ text.items ++ view_text instance.now (view_of view.now)) }
{
    let mut out = Printer::behind(text, 5);
    let printed = print_rows(
        &mut out,
        instance,
        &[b"member", b"count", b"sum", b"least", b"greatest"],
        None,
        view,
    );
    printed.and(out.finish())
}

/// The text of a view: a header, and a record for each row, with the member's id and the four numbers in
/// decimal. Its records read back as the header and these fields. `Memory`: out of memory.
pub fn print_view(alloc: Global, instance: &Instance, view: &View) -> Result<Text, Memory>
    requires at_members { All (λ r. r.member.0 < length instance.now) view.now.rows }

    ensures text { IfOk result (λ text. text ≡ view_text instance.now (view_of view.now)) }
    ensures reads { IfOk result (λ text. records_of text ≡ records_of_view instance.now (view_of view.now)) }
{
    let bytes = print_view_behind(Vec::new(alloc), instance, view)?;
    Ok(Text::from_vec(bytes))
}
