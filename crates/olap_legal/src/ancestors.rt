// The table of ancestors, and what stands in it.
ghost use Rattle.std.specs.Prelude.{◌≡◌, ◌<◌, ◌≤◌, length, IfOk, IfErr, IfSome, IsNone};
ghost use Rattle.olap_base.specs.Instance.{IsMemberOf, Reaches, ReachesCategory};
ghost use Rattle.olap_base.specs.Graph.{category_count};
ghost use Rattle.olap_base.specs.Limits.{most_categories, most_members};
ghost use Rattle.olap_legal.specs.Rows.{AreLinked, IsBounded};
ghost use Rattle.olap_legal.specs.Tables.{IsFirstSplit, IsTable};

use crate::joining::table_by_joins;
use crate::rising::{NONE, rise};
use crate::tables::Table;
use olap_base::Memory;
use olap_graph::Graph;
use olap_instance::Instance;
use std::alloc::Global;

/// The table, by a walk upwards from each member; or the first member that reaches two members of one category.
fn table_by_walks(
    alloc: Global,
    graph: &Graph,
    instance: &Instance,
    categories: u16,
) -> Result<Result<Table, u32>, Memory>
    requires count { categories ≡ category_count graph.now }
    requires few { categories ≤ most_categories }
    requires bounded { IsBounded instance.now categories }
    requires linked { AreLinked graph.now instance.now }
    ensures ok { let count = length instance.now in
        IfOk result (λ r. IfOk r (IsTable instance.now categories count)) }
    ensures err { IfOk result (λ r. IfErr r (IsFirstSplit instance.now categories)) }
{
    let mut table = Table::new(alloc, graph, instance, categories)?;
    let mut row = vec![in alloc; NONE; usize::from(categories)]?;
    let mut list = Vec::new(alloc);
    'members: for x in 0..instance.members() {
        if !rise(instance, x, &mut row, &mut list)? {
            return Ok(Err(x));
        }
        table.put(instance, categories, x, &row);
    }
    Ok(Ok(table))
}

/// For each member and each category the member of it that is reached; or the first member that reaches two members of
/// one category. A row of the table for each member. Where rows can't be joined, walks find out why.
///
/// Cost: the members times the number of categories, its square, and for each parent of each member the categories
/// that it can reach; where rows can't be joined, for each member also the parents of what it reaches. `Memory` where
/// there is no room.
pub fn ancestor_table(
    alloc: Global,
    graph: &Graph,
    instance: &Instance,
    categories: u16,
) -> Result<Result<Table, u32>, Memory>
    requires count { categories ≡ category_count graph.now }
    requires few { categories ≤ most_categories }
    requires bounded { IsBounded instance.now categories }
    requires linked { AreLinked graph.now instance.now }
    ensures ok { let count = length instance.now in
        IfOk result (λ r. IfOk r (IsTable instance.now categories count)) }
    ensures err { IfOk result (λ r. IfErr r (IsFirstSplit instance.now categories)) }
{
    match table_by_joins(alloc, graph, instance, categories)? {
        Some(table) => Ok(Ok(table)),
        None => table_by_walks(alloc, graph, instance, categories),
    }
}

/// The member of the category that x reaches. Three looks at lists.
pub fn ancestor(
    instance: &Instance,
    table: &Table,
    categories: u16,
    x: u32,
    category: u16,
) -> Option<u32>
    requires x { x < length instance.now }
    requires category { category < categories }
    requires table { IsTable instance.now categories (length instance.now) table.now }
    requires few { length instance.now ≤ most_members }
    ensures some { IfSome result (λ y. IsMemberOf instance.now category y × Reaches instance.now x y) }
    ensures none { IsNone result → ReachesCategory instance.now x category → ⊥ }
{
    let cell = table.get(instance, categories, x, category);
    if cell == NONE { None } else { Some(cell) }
}
