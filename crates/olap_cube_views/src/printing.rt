// Views of cubes as CSV texts.
ghost use Rattle.std.specs.Prelude.{◌≡◌, ◌+◌, ◌++◌, ◌≤◌, All, IfOk, OnOk, length, take};
ghost use Rattle.olap_records.specs.Records.{records_of};
ghost use Rattle.olap_records.specs.Texts.{text_of_row};
ghost use Rattle.olap_cube_views.specs.CubeTallies.{AreMembers};
ghost use Rattle.olap_cube_views.specs.CubeViewText.{cube_view_text, fields_in, header, records_of_cube_view};
ghost use Rattle.olap_cube.specs.Limits.{most_dimensions};
ghost use Rattle.olap_cube_views.specs.Dimensions.{instances_in, instances_of};
ghost use Rattle.olap_cube_views.specs.Seen.{cube_row_of, cube_view_of};

use crate::{CubeRow, CubeView, Legals, TargetColumns};
use itoa::Buffer;
use olap_base::{Memory, Text};
use olap_instance::Instance;
use olap_records::Printer;
use std::alloc::Global;

/// Prints the header for this many dimensions.
fn print_header(out: &mut Printer, dimensions: usize) -> Result<(), Memory>
    requires few { dimensions ≤ most_dimensions }
    requires width { out.old.width ≡ dimensions + 4 }
    ensures text { OnOk result (out.new.text ≡ out.old.text ++ text_of_row (header dimensions)) }
    ensures width { out.new.width ≡ out.old.width }
{
    match dimensions {
        0 => out.row(&[b"count", b"sum", b"least", b"greatest"]),
        1 => out.row(&[b"m1", b"count", b"sum", b"least", b"greatest"]),
        2 => out.row(&[b"m1", b"m2", b"count", b"sum", b"least", b"greatest"]),
        3 => out.row(&[b"m1", b"m2", b"m3", b"count", b"sum", b"least", b"greatest"]),
        _ => out.row(&[
            b"m1",
            b"m2",
            b"m3",
            b"m4",
            b"count",
            b"sum",
            b"least",
            b"greatest",
        ]),
    }
}

/// Prints a row.
fn print_row(
    alloc: Global,
    out: &mut Printer,
    instances: &[&Instance],
    row: &CubeRow,
) -> Result<(), Memory>
    requires width { out.old.width ≡ length instances.now + 4 }
    requires few { length instances.now ≤ most_dimensions }
    requires members { AreMembers (instances_of instances.now)
        (take (length (instances_of instances.now)) row.now.members.places) }
    ensures text { OnOk result (out.new.text
        ≡ out.old.text
        ++ text_of_row (fields_in (instances_of instances.now)
        (cube_row_of (length (instances_of instances.now)) row.now))) }
    ensures width { out.new.width ≡ out.old.width }
{
    let mut count = Buffer::new();
    let mut sum = Buffer::new();
    let mut least = Buffer::new();
    let mut greatest = Buffer::new();
    let mut fields: Vec<&[u8]> = Vec::new(alloc);
    'ids: for k in 0..instances.len() {
        fields.push(instances[k].id(row.members.member(k)))?;
    }
    fields.extend_from_slice(&[
        count.format(row.summary.count).as_bytes(),
        sum.format(row.summary.sum).as_bytes(),
        least.format(row.summary.least).as_bytes(),
        greatest.format(row.summary.greatest).as_bytes(),
    ])?;
    out.row(&fields)
}

/// The bytes of the text of a view on these instances.
fn print(alloc: Global, instances: &[&Instance], view: &CubeView) -> Result<Vec<u8>, Memory>
    requires few { length instances.now ≤ most_dimensions }
    requires at_members { All (λ r.
        AreMembers (instances_of instances.now) r.at) (cube_view_of view.now).rows }
    ensures { IfOk result
        (λ bytes. bytes.items ≡ cube_view_text (instances_of instances.now) (cube_view_of view.now)) }
{
    let mut out = Printer::new(alloc, instances.len() + 4);
    print_header(&mut out, instances.len())?;
    'rows: for row in view.rows.items() {
        print_row(alloc, &mut out, instances, row)?;
    }
    out.finish()
}

/// The text of a view on these instances.
fn text(alloc: Global, instances: &[&Instance], view: &CubeView) -> Result<Text, Memory>
    requires few { length instances.now ≤ most_dimensions }
    requires at_members { All (λ r.
        AreMembers (instances_of instances.now) r.at) (cube_view_of view.now).rows }
    ensures text { IfOk result
        (λ text. text ≡ cube_view_text (instances_of instances.now) (cube_view_of view.now)) }
    ensures reads { IfOk result (λ text.
        records_of text ≡ records_of_cube_view (instances_of instances.now) (cube_view_of view.now)) }
{
    Ok(Text::from_vec(print(alloc, instances, view)?))
}

/// The text of a view: the header `m1,..,mK,count,sum,least,greatest` for K dimensions, and a record for each row, with
/// the members' ids and the four numbers in decimal. Its records read back as the header and these fields. `Memory`:
/// out of memory.
pub fn print_cube_view(alloc: Global, legals: &Legals, view: &CubeView) -> Result<Text, Memory>
    requires at_members { All (λ r. AreMembers legals.now r.at) (cube_view_of view.now).rows }

    ensures text { IfOk result (λ text. text ≡ cube_view_text legals.now (cube_view_of view.now)) }
    ensures reads { IfOk result
        (λ text. records_of text ≡ records_of_cube_view legals.now (cube_view_of view.now)) }
{
    let instances = legals.instances(alloc)?;
    text(alloc, &instances, view)
}

/// The text of a view that a `CubeRoller` made of these columns, as `print_cube_view` has it. `Memory`: out of memory.
pub fn print_rolled_up(
    alloc: Global,
    columns: &TargetColumns,
    view: &CubeView,
) -> Result<Text, Memory>
    requires at_members { All (λ r.
        AreMembers (instances_in columns.now) r.at) (cube_view_of view.now).rows }

    ensures text { IfOk result
        (λ text. text ≡ cube_view_text (instances_in columns.now) (cube_view_of view.now)) }
    ensures reads { IfOk result (λ text.
        records_of text ≡ records_of_cube_view (instances_in columns.now) (cube_view_of view.now)) }
{
    let instances = columns.instances(alloc)?;
    text(alloc, &instances, view)
}
