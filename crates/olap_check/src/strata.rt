// Members that are far below a member of their own category.
ghost use Rattle.std.specs.Prelude.{◌≡◌, ◌<◌, ◌≤◌, ◌↔◌, length, ℕ, IfOk, IfSome, IsNone, IsTrue};
ghost use Rattle.olap_base.specs.Graph.{IsCategory, category_count};
ghost use Rattle.olap_base.specs.Instance.{IsBelow};
ghost use Rattle.olap_legal.specs.Rows.{AreLinked, IsBounded};
ghost use Rattle.olap_check.specs.Strata.{IsClosed, IsFirstIn, IsFirstRepeat, IsOnCycle, LeadsBack, RepeatGives, Repeats};

use olap_base::{CatId, MemberId, Memory};
use olap_graph::Graph;
use olap_instance::Instance;
use olap_legal::mark;
use std::alloc::Global;

/// Whether a member of the category is above x, where what is marked has none above it. What it marks has none above
/// it either, unless it finds one: so the searches from all members of a category share their marks.
fn repeats(
    alloc: Global,
    instance: &Instance,
    category: u16,
    x: u32,
    seen: &mut Vec<bool>,
) -> Result<bool, Memory>
    requires x { x < length instance.now }
    requires places { (z y : ℕ) → IsBelow instance.now z y → y < length instance.now }
    requires closed { IsClosed instance.now category seen.old.items }
    ensures { IfOk result (λ found. RepeatGives found instance.now category x seen.new.items) }
{
    let mut list = Vec::new(alloc);
    let whole = mark(instance, category, x, seen, &mut list)?;
    if !whole {
        return Ok(true);
    }
    'listed: while let Some(z) = list.pop() {
        let passed = mark(instance, category, z, seen, &mut list)?;
        if !passed {
            return Ok(true);
        }
    }
    Ok(false)
}

/// The first member of the category, below `limit`, that is far below a member of its category; else `limit`.
fn first_in(alloc: Global, instance: &Instance, category: u16, limit: u32) -> Result<u32, Memory>
    requires limit { limit ≤ length instance.now }
    requires places { (z y : ℕ) → IsBelow instance.now z y → y < length instance.now }
    ensures { IfOk result (λ r. IsFirstIn instance.now category limit r) }
{
    let count = instance.members() as usize;
    let mut seen = vec![in alloc; false; count]?;
    'members: for x in 0..limit {
        if instance.category(MemberId(x)).0 == category
            && repeats(alloc, instance, category, x, &mut seen)?
        {
            return Ok(x);
        }
    }
    Ok(limit)
}

/// Whether an edge leads from the child to the parent, and edges from there back to the child.
fn leads_back(graph: &Graph, child: u16, parent: u16) -> bool
    requires child { IsCategory graph.now child }
    requires parent { IsCategory graph.now parent }
    ensures { IsTrue result ↔ LeadsBack graph.now child parent }
{
    graph.edge(CatId(child), CatId(parent)).is_some() && graph.reaches(CatId(parent), CatId(child))
}

/// Whether edges lead from the category back to it.
fn is_on_cycle(graph: &Graph, category: u16) -> bool
    requires { IsCategory graph.now category }
    ensures { IsTrue result ↔ IsOnCycle graph.now category }
{
    'parents: for parent in 0..graph.categories() {
        if leads_back(graph, category, parent) {
            return true;
        }
    }
    false
}

/// The first member that is far below a member of its category, if an edge leads to each parent. Only members of a
/// category on a cycle of edges can be, so no others are looked at.
///
/// Cost: for each category on a cycle at most all parents once, and mostly those of the members above that category.
pub(crate) fn first_repeated(
    alloc: Global,
    graph: &Graph,
    instance: &Instance,
    categories: u16,
) -> Result<Option<u32>, Memory>
    requires bounded { IsBounded instance.now categories }
    requires count { categories ≡ category_count graph.now }
    requires linked { AreLinked graph.now instance.now }
    ensures none { IfOk result (λ o. IsNone o → (x : ℕ) → Repeats instance.now x → ⊥) }
    ensures some { IfOk result (λ o. IfSome o (IsFirstRepeat instance.now)) }
{
    let mut first = instance.members();
    'categories: for category in 0..categories {
        if is_on_cycle(graph, category) {
            first = first_in(alloc, instance, category, first)?;
        }
    }
    if first < instance.members() {
        Ok(Some(first))
    } else {
        Ok(None)
    }
}
