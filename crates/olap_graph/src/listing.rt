// The lists behind a graph: its names, and the ends of its edges.
ghost use Rattle.std.specs.Prelude.{◌≡◌, ◌≤◌, ◌<◌, ◌&&◌, length, map, All, Contains, IfOk, IfSome, IfNone};
ghost use Rattle.std.specs.Option.{option_map};
ghost use Rattle.std.specs.List.{position_from};
ghost use Rattle.olap_base.specs.Limits.{most_categories, most_edges};
ghost use Rattle.olap_base.specs.Naming.{place_of};
ghost use Rattle.olap_graph.specs.Lookups.{joins, edge_at};
ghost use Rattle.olap_graph.specs.Listing.{edge_of};
ghost use Rattle.olap_graph.specs.Tables.{drawn};
ghost use Rattle.olap_graph.specs.Marking.{parents_of};

use olap_base::{CatId, EdgeId, Memory, Text};
use std::alloc::Global;

/// The ends of an edge.
#[derive(Clone, Copy)]
pub(crate) struct Ends {
    pub(crate) child: CatId,
    pub(crate) parent: CatId,
}

impl Ends {
    /// Whether these are the ends.
    fn are(&self, child: CatId, parent: CatId) -> bool
        ensures { result ≡ joins child.0 parent.0 (edge_of self.now) }
    {
        self.child.0 == child.0 && self.parent.0 == parent.0
    }
}

/// The category of that name.
pub(crate) fn named(names: &[Text], name: &[u8]) -> Option<CatId>
    requires { length names.now ≤ most_categories }
    ensures { option_map (λ c. c.0) result ≡ place_of name.now names.now }
{
    for (i, text) in names.iter().enumerate() {
        if name == text.bytes() {
            return Some(CatId(i as u16));
        }
    }
    None
}

/// The edge with these ends.
pub(crate) fn joining(edges: &[Ends], child: CatId, parent: CatId) -> Option<EdgeId>
    requires { length edges.now ≤ most_edges }
    ensures { option_map (λ e. e.0) result
        ≡ position_from (joins child.0 parent.0) 0 (map edge_of edges.now) }
{
    for (i, ends) in edges.iter().enumerate() {
        if ends.are(child, parent) {
            return Some(EdgeId(i as u16));
        }
    }
    None
}

/// The first of these edges that leads to the parent.
pub(crate) fn leading(edges: &[Ends], out: &[EdgeId], parent: CatId) -> Option<EdgeId>
    requires { All (λ e. e.0 < length edges.now) out.now }
    ensures some { IfSome result
        (λ e. Contains out.now e × ((edge_at (drawn edges.now) e.0).parent ≡ parent.0)) }
    ensures none { IfNone result (Contains (parents_of (drawn edges.now) out.now) parent.0 → ⊥) }
{
    for e in out {
        if edges[usize::from(e.0)].parent.0 == parent.0 {
            return Some(*e);
        }
    }
    None
}

/// The same texts.
pub(crate) fn copied(alloc: Global, texts: &[Text]) -> Result<Vec<Text>, Memory>
    ensures { IfOk result (λ copy. copy.items ≡ texts.now) }
{
    let mut copy = Vec::new(alloc);
    for text in texts {
        copy.push(Text::from_bytes(alloc, text.bytes())?)?;
    }
    Ok(copy)
}
