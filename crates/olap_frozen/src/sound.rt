// The laws, read on the chosen edges.
ghost use Rattle.std.specs.Prelude.{◌≡◌, ◌<◌, ◌↔◌, IsTrue, length};
ghost use Rattle.olap_ast.specs.Frozen.{chosen};
ghost use Rattle.olap_base.specs.Graph.{IsCategory, category_count};
ghost use Rattle.olap_frozen.specs.Chosen.{IsSound};
ghost use Rattle.olap_frozen.specs.Rows.{AreRows, Fits, IsPassed, ReachAll};
ghost use Rattle.olap_graph.specs.Lookups.{edge_at};

use olap_base::{CatId, EdgeId};
use olap_graph::{Categories, Graph, row_has};

// Whether another chosen edge from c leads to a category that reaches d.
fn is_passed(graph: &Graph, edges: &[bool], rows: &[Categories], c: CatId, d: CatId) -> bool
    requires edges { length edges.now ≡ length graph.now.edges }
    requires rows { length rows.now ≡ category_count graph.now }
    requires category { IsCategory graph.now c.0 }
    ensures { IsTrue result ↔ IsPassed graph.now edges.now rows.now (length graph.now.edges) c.0 d.0 }
{
    'edges: for e in graph.parents(c) {
        let (_, parent) = graph.ends(*e);
        if edges[usize::from(e.0)] && parent != d && row_has(rows, parent.0, d.0) {
            return true;
        }
    }
    false
}

// Whether a chosen edge is reached, closes no walk, and goes past none.
fn fits(graph: &Graph, root: CatId, edges: &[bool], rows: &[Categories], e: EdgeId) -> bool
    requires edges { length edges.now ≡ length graph.now.edges }
    requires rows { length rows.now ≡ category_count graph.now }
    requires root { IsCategory graph.now root.0 }
    requires edge { e.0 < length graph.now.edges }
    ensures { let ends = edge_at graph.now e.0 in
        IsTrue result ↔ Fits graph.now edges.now rows.now root.0 ends.child ends.parent }
{
    let (child, parent) = graph.ends(e);
    if !row_has(rows, root.0, child.0) || row_has(rows, parent.0, child.0) {
        return false;
    }
    !is_passed(graph, edges, rows, child, parent)
}

// Whether each category that the root reaches reaches `All`.
fn tops(rows: &[Categories], root: CatId, count: u16) -> bool
    requires rows { length rows.now ≡ count }
    requires root { root.0 < count }
    ensures { IsTrue result ↔ ReachAll rows.now root.0 count }
{
    'categories: for c in 0..count {
        if row_has(rows, root.0, c) && !row_has(rows, c, 0) {
            return false;
        }
    }
    true
}

/// Whether the laws hold on the chosen edges.
///
/// Cost: for each chosen edge the edges out of its child.
pub fn is_sound(graph: &Graph, root: CatId, edges: &[bool], rows: &[Categories]) -> bool
    requires edges { length edges.now ≡ length graph.now.edges }
    requires size { length rows.now ≡ category_count graph.now }
    requires root { IsCategory graph.now root.0 }
    requires rows { AreRows graph.now (chosen graph.now.edges edges.now) rows.now }
    ensures { IsTrue result ↔ IsSound root.0 (chosen graph.now.edges edges.now) }
{
    let count = graph.categories();
    if !tops(rows, root, count) {
        return false;
    }
    'edges: for e in 0..graph.edges() {
        if edges[usize::from(e)] && !fits(graph, root, edges, rows, EdgeId(e)) {
            return false;
        }
    }
    true
}
