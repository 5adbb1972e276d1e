// The sets of categories that each category reaches by chosen edges.
ghost use Rattle.std.specs.Prelude.{◌≡◌, ◌<◌, ◌≤◌, ◌↔◌, ℕ, length};
ghost use Rattle.olap_ast.specs.Frozen.{chosen};
ghost use Rattle.olap_base.specs.Limits.{most_categories};
ghost use Rattle.olap_base.specs.Graph.{IsHierarchy, category_count};
ghost use Rattle.olap_frozen.specs.Rows.{AreDrawn, AreRows};
ghost use Rattle.olap_graph.specs.Rows.{Has, IsClosure, Passes};

use olap_base::EdgeId;
use olap_graph::{Categories, Graph, isolate};

// Each set has its own category, and the parents by chosen edges.
fn draw(graph: &Graph, edges: &[bool], rows: &mut [Categories])
    requires edges { length edges.now ≡ length graph.now.edges }
    requires rows { length rows.old ≡ category_count graph.now }
    requires few { length rows.old ≤ most_categories }
    ensures count { length rows.new ≡ length rows.old }
    ensures drawn { AreDrawn graph.now edges.now (length graph.now.edges) rows.new }
{
    isolate(rows);
    'edges: for e in 0..graph.edges() {
        if edges[usize::from(e)] {
            let (child, parent) = graph.ends(EdgeId(e));
            let c = usize::from(child.0);
            rows[c] = rows[c].with(parent.0);
        }
    }
}

// Each set that has k gets what k's set has. One that has k alone has nothing to give, as that of an absent category.
fn pass(rows: &mut [Categories], k: u16)
    requires few { length rows.old ≤ most_categories }
    requires inside { k < length rows.old }
    ensures count { length rows.new ≡ length rows.old }
    ensures passed { (c d : ℕ) → c < length rows.old → Has rows.new c d ↔ Passes rows.old k c d }
{
    let through = rows[usize::from(k)];
    if through.is_subset(&Categories::empty().with(k)) {
        return;
    }
    'categories: for c in 0..rows.len() {
        if rows[c].has(k) {
            rows[c] = rows[c].union(through);
        }
    }
}

// Each set gets all to which steps lead from its category, where a step leads from a category to those in its set.
fn pass_all(rows: &mut [Categories])
    requires few { length rows.old ≤ most_categories }
    requires own { (c : ℕ) → c < length rows.old → Has rows.old c c }
    ensures { IsClosure rows.old rows.new }
{
    'through: for k in 0..rows.len() {
        pass(rows, k as u16);
    }
}

/// Fills the rows: each with what its category reaches by chosen edges, itself included.
///
/// Cost: categories times those that have a chosen edge to a parent, of one look and one union each.
pub fn close(graph: &Graph, edges: &[bool], rows: &mut [Categories])
    requires edges { length edges.now ≡ length graph.now.edges }
    requires rows { length rows.old ≡ category_count graph.now }
    ensures rows { AreRows graph.now (chosen graph.now.edges edges.now) rows.new }
    ensures hierarchy { IsHierarchy graph.now }
{
    // Called for its clauses: the graph is a hierarchy of few categories.
    let _few = graph.categories();
    draw(graph, edges, rows);
    pass_all(rows);
}
