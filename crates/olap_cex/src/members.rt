// Which categories of a frozen dimension have a member, and its name.
ghost use Rattle.std.specs.FinSet as set;
ghost use Rattle.std.specs.List.{list_any};
ghost use Rattle.std.specs.Prelude.{◌≡◌, ◌==◌, ◌||◌, ℕ, length};
ghost use Rattle.olap_ast.specs.Frozen.{chosen, is_present as is_present_by, name_in};
ghost use Rattle.olap_base.specs.Graph.{IsCategory};
ghost use Rattle.olap_bits.specs.Sets.{members};
ghost use Rattle.olap_cex.specs.Present.{has_end};
ghost use Rattle.olap_frozen.specs.LeastFound.{frozen_of};
ghost use Rattle.olap_frozen.specs.Leaves.{IsSized};
ghost use Rattle.olap_names.specs.Names.{candidates_of};
ghost use Rattle.olap_base.specs.Graph.{Graph as Schema};

use olap_base::{CatId, EdgeId, Text};
use olap_frozen::Frozen;
use olap_graph::{Categories, Graph};
use olap_names::Candidates;

/// Whether the category is the root, or at an end of a chosen edge. Cost: the edges.
pub(crate) fn has_member(graph: &Graph, root: CatId, edges: &[bool], c: CatId) -> bool
    requires { length edges.now ≡ length graph.now.edges }
    ensures { result ≡ is_present_by root.0 (chosen graph.now.edges edges.now) c.0 }
{
    if c.0 == root.0 {
        return true;
    }
    'edges: for e in 0..graph.edges() {
        if edges[usize::from(e)] {
            let (child, parent) = graph.ends(EdgeId(e));
            if child.0 == c.0 || parent.0 == c.0 {
                return true;
            }
        }
    }
    false
}

/// The categories at the ends of chosen edges. Cost: the edges.
pub(crate) fn ends_of(graph: &Graph, edges: &[bool]) -> Categories
    requires { length edges.now ≡ length graph.now.edges }
    ensures { (c : ℕ) → set.contains (members result) c ≡ list_any (has_end c) (chosen graph.now.edges edges.now) }
{
    // Called for its clauses: there are few categories.
    let _few = graph.categories();
    let mut found = Categories::empty();
    'edges: for e in 0..graph.edges() {
        if edges[usize::from(e)] {
            let (child, parent) = graph.ends(EdgeId(e));
            found = found.with(child.0).with(parent.0);
        }
    }
    found
}

/// Whether the category is the root, or among the ends of chosen edges.
pub(crate) fn is_present(root: CatId, ends: &Categories, c: CatId) -> bool
    ensures { result ≡ (c.0 == root.0) || set.contains (members ends.now) c.0 }
{
    c.0 == root.0 || ends.has(c.0)
}

/// The name of the category's member.
pub(crate) fn name<'a>(frozen: &Frozen, candidates: &'a Candidates, c: CatId) -> &'a Text
    requires sized { (g : Schema) × IsSized g candidates.now frozen.now.edges frozen.now.names × IsCategory g c.0 }
    ensures { result.now ≡ name_in (candidates_of candidates.now) (frozen_of frozen.now) c.0 }
{
    let index = frozen.names.items()[usize::from(c.0)];
    candidates.name(c, index)
}
