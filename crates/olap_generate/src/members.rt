// The text of the members.
ghost use Rattle.std.specs.List.{range_with_len};
ghost use Rattle.std.specs.Prelude.{◌≡◌, ◌==◌, ◌++◌, ◌%◌, IfOk, OnOk, [], codes, if◌then◌else◌, map, string_bytes};
ghost use Rattle.olap_records.specs.Texts.{text_of_row, text_of_rows};
ghost use Rattle.olap_generate.specs.Members.{city_parent, city_row, country_rows, member_rows, named_row, numbered, row, store_row};

use crate::inputs::Input;
use olap_base::Memory;
use olap_records::Printer;
use std::alloc::Global;

/// Adds a member's record.
fn add(out: &mut Printer, id: &str, category: &str, name: &str, parent: &str) -> Result<(), Memory>
    requires width { out.old.width ≡ 4 }
    ensures text { OnOk result (out.new.text
        ≡ out.old.text ++ text_of_row (named_row id.now category.now name.now parent.now)) }
    ensures width { out.new.width ≡ 4 }
{
    out.row(&[
        id.as_bytes(),
        category.as_bytes(),
        name.as_bytes(),
        parent.as_bytes(),
    ])
}

/// Adds the stores, each below the city that is drawn for it.
fn add_stores(alloc: Global, out: &mut Printer, input: &Input) -> Result<(), Memory>
    requires width { out.old.width ≡ 4 }
    ensures text { OnOk result (out.new.text ≡ out.old.text
        ++ text_of_rows (map (store_row input.now.seed input.now.size) (range_with_len 1 input.now.size))) }
    ensures width { out.new.width ≡ 4 }
{
    'stores: for k in 0..input.size {
        let id = format!(in alloc; "s{}", k + 1)?;
        let city = format!(in alloc; "c{}", input.city(k + 1))?;
        add(out, &id, "Store", &id, &city)?;
    }
    Ok(())
}

/// What a city lies in.
fn city_parent(alloc: Global, j: u32) -> Result<String, Memory>
    ensures { IfOk result (λ text. string_bytes text ≡ city_parent j) }
{
    let k = j / 4;
    let parent = match j % 4 {
        0 => format!(in alloc; "usa")?,
        1 => format!(in alloc; "a{k}")?,
        2 => format!(in alloc; "b{k}")?,
        _ => format!(in alloc; "p{k}")?,
    };
    Ok(parent)
}

/// What a city of that id is called: every fourth is called Washington.
fn city_name<'a>(id: &'a str, j: u32) -> &'a str
    ensures { result.now ≡ (if j % 4 == 0 then codes "Washington" else id.now) }
{
    if j % 4 == 0 { "Washington" } else { id }
}

/// Adds the cities. Every fourth is called Washington.
fn add_cities(alloc: Global, out: &mut Printer, count: u32) -> Result<(), Memory>
    requires width { out.old.width ≡ 4 }
    ensures text { OnOk result (out.new.text
        ≡ out.old.text ++ text_of_rows (map city_row (range_with_len 0 count))) }
    ensures width { out.new.width ≡ 4 }
{
    'cities: for j in 0..count {
        let id = format!(in alloc; "c{j}")?;
        let parent = city_parent(alloc, j)?;
        let name = city_name(&id, j);
        add(out, &id, "City", name, &parent)?;
    }
    Ok(())
}

/// Adds this many members whose ids begin with this letter, all below one.
fn add_below(
    alloc: Global,
    out: &mut Printer,
    count: u32,
    letter: &str,
    category: &str,
    parent: &str,
) -> Result<(), Memory>
    requires width { out.old.width ≡ 4 }
    ensures text { OnOk result (out.new.text ≡ out.old.text
        ++ text_of_rows (map (λ k. row (numbered letter.now k) category.now parent.now) (range_with_len 0 count))) }
    ensures width { out.new.width ≡ 4 }
{
    'members: for k in 0..count {
        let id = format!(in alloc; "{letter}{k}")?;
        add(out, &id, category, &id, parent)?;
    }
    Ok(())
}

/// Adds this many members whose ids begin with this letter, each below the one of its number with the other letter.
fn add_beside(
    alloc: Global,
    out: &mut Printer,
    count: u32,
    letter: &str,
    category: &str,
    above: &str,
) -> Result<(), Memory>
    requires width { out.old.width ≡ 4 }
    ensures text { OnOk result (out.new.text ≡ out.old.text
        ++ text_of_rows (map (λ k. row (numbered letter.now k) category.now (numbered above.now k))
        (range_with_len 0 count))) }
    ensures width { out.new.width ≡ 4 }
{
    'members: for k in 0..count {
        let id = format!(in alloc; "{letter}{k}")?;
        let parent = format!(in alloc; "{above}{k}")?;
        add(out, &id, category, &id, &parent)?;
    }
    Ok(())
}

/// Adds the three countries.
fn add_countries(out: &mut Printer) -> Result<(), Memory>
    requires width { out.old.width ≡ 4 }
    ensures text { OnOk result (out.new.text ≡ out.old.text ++ text_of_rows country_rows) }
    ensures width { out.new.width ≡ 4 }
{
    add(out, "usa", "Country", "USA", "all")?;
    add(out, "can", "Country", "Canada", "all")?;
    add(out, "mex", "Country", "Mexico", "all")
}

/// Adds the header and all members.
fn add_members(alloc: Global, out: &mut Printer, input: &Input) -> Result<(), Memory>
    requires width { out.old.width ≡ 4 }
    requires empty { out.old.text ≡ [] }
    ensures { OnOk result (out.new.text ≡ text_of_rows (member_rows input.now.seed input.now.size)) }
{
    let groups = input.groups();
    add(out, "id", "category", "name", "parents")?;
    add_stores(alloc, out, input)?;
    add_cities(alloc, out, 4 * groups)?;
    add_below(alloc, out, groups, "a", "State", "usa")?;
    add_beside(alloc, out, groups, "b", "State", "m")?;
    add_beside(alloc, out, groups, "p", "Province", "n")?;
    add_below(alloc, out, groups, "m", "Region", "mex")?;
    add_below(alloc, out, groups, "n", "Region", "can")?;
    add_countries(out)?;
    Ok(())
}

/// The text of the members.
pub(crate) fn member_text(alloc: Global, input: &Input) -> Result<Vec<u8>, Memory>
    ensures { IfOk result (λ text. text.items ≡ text_of_rows (member_rows input.now.seed input.now.size)) }
{
    let mut out = Printer::new(alloc, 4);
    add_members(alloc, &mut out, input)?;
    out.finish()
}
