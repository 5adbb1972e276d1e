// The table of ancestors from the top down: a member's row is made of its parents' rows.
ghost use Rattle.std.specs.Prelude.{◌≡◌, ◌<◌, ◌≤◌, length, IfOk, IfSome, IsTrue};
ghost use Rattle.olap_base.specs.Graph.{category_count};
ghost use Rattle.olap_base.specs.Limits.{most_categories};
ghost use Rattle.olap_legal.specs.Joining.{AreMembers, AreRows, HasRow, left};
ghost use Rattle.olap_legal.specs.Rows.{IsBounded, IsRise, AreLinked};
ghost use Rattle.olap_legal.specs.Tables.{IsTable};

use crate::marking::mark;
use crate::rising::NONE;
use crate::tables::Table;
use olap_base::{MemberId, Memory};
use olap_graph::Graph;
use olap_instance::Instance;
use std::alloc::Global;

/// Whether x stands in its own place there. Then it has its row.
fn is_placed(instance: &Instance, table: &Table, categories: u16, x: u32) -> bool
    requires x { x < length instance.now }
    requires rows { AreRows instance.now categories table.now }
    ensures { IsTrue result → HasRow instance.now categories x table.now }
{
    table.get(instance, categories, x, instance.category(MemberId(x)).0) != NONE
}

/// The row of z, from those of its parents. False where a parent has none yet, or two members of a category meet.
fn rise_from(instance: &Instance, table: &Table, categories: u16, z: u32, row: &mut [u32]) -> bool
    requires z { z < length instance.now }
    requires bounded { IsBounded instance.now categories }
    requires rows { AreRows instance.now categories table.now }
    requires row { length row.old ≡ categories }
    ensures { IsTrue result → IsRise instance.now categories z row.new }
{
    row.fill(NONE);
    'parents: for p in instance.parents(MemberId(z)) {
        if !is_placed(instance, table, categories, p.0) {
            return false;
        }
        if !table.join(instance, categories, p.0, row) {
            return false;
        }
    }
    let own = usize::from(instance.category(MemberId(z)).0);
    if row[own] != NONE {
        return false;
    }
    row[own] = z;
    true
}

/// Gives z its row in the table. False where that can't be made yet, or at all.
fn give_row(
    instance: &Instance,
    table: &mut Table,
    categories: u16,
    z: u32,
    row: &mut [u32],
) -> bool
    requires z { z < length instance.now }
    requires bounded { IsBounded instance.now categories }
    requires rows { AreRows instance.now categories table.old }
    requires row { length row.old ≡ categories }
    ensures { IsTrue result → AreRows instance.now categories table.new }
{
    if !rise_from(instance, table, categories, z, row) {
        return false;
    }
    table.put(instance, categories, z, row);
    true
}

/// Whether all parents of z have been listed before. Else lists z again, and after it those that haven't.
fn is_ready(
    instance: &Instance,
    categories: u16,
    z: u32,
    seen: &mut Vec<bool>,
    list: &mut Vec<u32>,
) -> Result<bool, Memory>
    requires z { z < length instance.now }
    requires bounded { IsBounded instance.now categories }
    requires seen { length seen.old.items ≡ length instance.now }
    requires members { AreMembers instance.now list.old.items }
    ensures seen { IfOk result (λ _. length seen.new.items ≡ length instance.now) }
    ensures members { IfOk result (λ _. AreMembers instance.now list.new.items) }
    ensures fewer { IfOk result (λ _. left seen.new.items list.new.items ≤ left seen.old.items list.old.items) }
{
    let before = list.len();
    list.push(z)?;
    let _whole = mark(instance, categories, z, seen, list)?;
    if list.len() > before + 1 {
        return Ok(false);
    }
    list.truncate(before);
    Ok(true)
}

/// Gives rows to the listed members, to each after those above it. False where one can't be made.
fn climb(
    instance: &Instance,
    table: &mut Table,
    categories: u16,
    row: &mut [u32],
    seen: &mut Vec<bool>,
    list: &mut Vec<u32>,
) -> Result<bool, Memory>
    requires bounded { IsBounded instance.now categories }
    requires rows { AreRows instance.now categories table.old }
    requires row { length row.old ≡ categories }
    requires seen { length seen.old.items ≡ length instance.now }
    requires members { AreMembers instance.now list.old.items }
    ensures rows { IfOk result (λ whole. IsTrue whole → AreRows instance.now categories table.new) }
    ensures seen { IfOk result (λ whole. IsTrue whole → length seen.new.items ≡ length instance.now) }
    ensures members { IfOk result (λ whole. IsTrue whole → AreMembers instance.now list.new.items) }
{
    'listed: while let Some(z) = list.pop() {
        if !is_ready(instance, categories, z, seen, list)? {
            continue;
        }
        if !give_row(instance, table, categories, z, row) {
            return Ok(false);
        }
    }
    Ok(true)
}

/// Whether each member stands in its own place.
fn is_whole(instance: &Instance, table: &Table, categories: u16) -> bool
    requires bounded { IsBounded instance.now categories }
    requires rows { AreRows instance.now categories table.now }
    ensures { IsTrue result → IsTable instance.now categories (length instance.now) table.now }
{
    'members: for x in 0..instance.members() {
        if !is_placed(instance, table, categories, x) {
            return false;
        }
    }
    true
}

/// Fills the table, in which nothing stands. False where rows can't be joined to it.
fn fill(
    alloc: Global,
    instance: &Instance,
    table: &mut Table,
    categories: u16,
    row: &mut [u32],
) -> Result<bool, Memory>
    requires bounded { IsBounded instance.now categories }
    requires rows { AreRows instance.now categories table.old }
    requires row { length row.old ≡ categories }
    ensures { let count = length instance.now in
        IfOk result (λ whole. IsTrue whole → IsTable instance.now categories count table.new) }
{
    let count = instance.members() as usize;
    let mut seen = vec![in alloc; false; count]?;
    let mut list = Vec::new(alloc);
    'members: for x in 0..instance.members() {
        if seen[x as usize] {
            continue;
        }
        seen[x as usize] = true;
        list.push(x)?;
        if !climb(instance, table, categories, row, &mut seen, &mut list)? {
            return Ok(false);
        }
    }
    Ok(is_whole(instance, table, categories))
}

/// The table, from the top down. None where rows can't be joined so: where members repeat a category, two of one
/// category meet, or a parent is above another one.
///
/// Cost: the members times the number of categories, and for each parent of each the categories that it can reach.
pub(crate) fn table_by_joins(
    alloc: Global,
    graph: &Graph,
    instance: &Instance,
    categories: u16,
) -> Result<Option<Table>, Memory>
    requires count { categories ≡ category_count graph.now }
    requires few { categories ≤ most_categories }
    requires bounded { IsBounded instance.now categories }
    requires linked { AreLinked graph.now instance.now }
    ensures { let count = length instance.now in
        IfOk result (λ o. IfSome o (IsTable instance.now categories count)) }
{
    let mut table = Table::new(alloc, graph, instance, categories)?;
    let mut row = vec![in alloc; NONE; usize::from(categories)]?;
    if fill(alloc, instance, &mut table, categories, &mut row)? {
        Ok(Some(table))
    } else {
        Ok(None)
    }
}
