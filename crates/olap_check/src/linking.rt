// Parents whose categories no edge links, and members with no parent.
ghost use Rattle.std.specs.Prelude.{◌≡◌, ◌<◌, ◌≤◌, ◌*◌, length, ℕ, IfOk, IfSome, IsNone, IsTrue, ◌↔◌};
ghost use Rattle.olap_legal.specs.Rows.{IsBounded};
ghost use Rattle.olap_check.specs.Linking.{IsLinked, IsFirstUnlinkedOf, IsFirstUnlinked, IsLinkedAt, IsFirstOrphan, IsOrphan, IsTableOf};
ghost use Rattle.olap_base.specs.Limits.{most_categories};
ghost use Rattle.olap_base.specs.Graph.{category_count};

use olap_base::{CatId, MemberId, Memory};
use olap_graph::Graph;
use olap_instance::Instance;
use std::alloc::Global;

/// For each two categories whether an edge leads from the first to the second. A row for each category.
pub(crate) fn edge_table(alloc: Global, graph: &Graph, categories: u16) -> Result<Vec<bool>, Memory>
    requires count { categories ≡ category_count graph.now }
    requires few { categories ≤ most_categories }
    ensures { IfOk result (λ edges. IsTableOf graph.now categories edges.items) }
{
    let mut edges = Vec::new(alloc);
    let width = u32::from(categories);
    'pairs: for pair in 0..width * width {
        let edge = graph.edge(CatId((pair / width) as u16), CatId((pair % width) as u16));
        edges.push(edge.is_some())?;
    }
    Ok(edges)
}

/// Whether the table has the pair.
fn is_linked(edges: &[bool], categories: u16, child: u16, parent: u16) -> bool
    requires child { child < categories }
    requires parent { parent < categories }
    requires size { length edges.now ≡ categories * categories }
    ensures { IsTrue result ↔ IsLinked edges.now categories child parent }
{
    edges[usize::from(child) * usize::from(categories) + usize::from(parent)]
}

/// The place of the first parent of x that no edge leads to.
fn unlinked_of(instance: &Instance, edges: &[bool], categories: u16, x: u32) -> Option<usize>
    requires x { x < length instance.now }
    requires bounded { IsBounded instance.now categories }
    requires size { length edges.now ≡ categories * categories }
    ensures some { IfSome result (IsFirstUnlinkedOf instance.now categories edges.now x) }
    ensures none { IsNone result → IsLinkedAt instance.now categories edges.now x }
{
    let category = instance.category(MemberId(x)).0;
    'parents: for (k, y) in instance.parents(MemberId(x)).iter().enumerate() {
        if !is_linked(edges, categories, category, instance.category(*y).0) {
            return Some(k);
        }
    }
    None
}

/// The first parent that no edge leads to: its child, and its place.
pub(crate) fn first_unlinked(
    instance: &Instance,
    edges: &[bool],
    categories: u16,
) -> Option<(u32, usize)>
    requires bounded { IsBounded instance.now categories }
    requires size { length edges.now ≡ categories * categories }
    ensures some { IfSome result (λ s. IsFirstUnlinked instance.now categories edges.now s.0 s.1) }
    ensures none { IsNone result → (x : ℕ) → x < length instance.now → IsLinkedAt instance.now categories edges.now x }
{
    'members: for x in 0..instance.members() {
        if let Some(k) = unlinked_of(instance, edges, categories, x) {
            return Some((x, k));
        }
    }
    None
}

/// The first member other than `all` with no parent.
pub(crate) fn first_orphan(instance: &Instance) -> Option<u32>
    ensures some { IfSome result (IsFirstOrphan instance.now) }
    ensures none { IsNone result → (x : ℕ) → x < length instance.now → IsOrphan instance.now x → ⊥ }
{
    'members: for x in 0..instance.members() {
        if instance.category(MemberId(x)).0 != 0 && instance.parents(MemberId(x)).is_empty() {
            return Some(x);
        }
    }
    None
}
