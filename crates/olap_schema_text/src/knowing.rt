// Look-ups of the names of categories.
ghost use Rattle.olap_base.specs.Graph.{HasEdge, IsCategory, is_number as is_number_of};
ghost use Rattle.olap_graph.specs.Lookups.{category_named, edge_between};
ghost use Rattle.olap_schema_text.specs.Known.{graph_seen};
ghost use Rattle.std.specs.Option.{option_map};
ghost use Rattle.std.specs.Prelude.{◌≡◌, ◌↔◌, IfSome, IsSome};

use olap_base::{CatId, EdgeId};
use olap_graph::{Graph, GraphBuilder};

/// The graph that is known where a formula stands: one in the making, or a whole one.
#[derive(Clone, Copy)]
pub(crate) enum Known<'a> {
    /// A graph in the making.
    Growing(&'a GraphBuilder),
    /// A whole graph.
    Whole(&'a Graph),
}

impl Known<'_> {
    /// The category of that name.
    pub fn category(&self, name: &[u8]) -> Option<CatId>
        ensures place { option_map (λ c. c.0) result ≡ category_named (graph_seen self.now) name.now }
        ensures category { IfSome result (λ c. IsCategory (graph_seen self.now) c.0) }
    {
        match self {
            Known::Growing(builder) => builder.category(name),
            Known::Whole(graph) => graph.category(name),
        }
    }

    /// Whether the members' names are numbers.
    pub fn is_number(&self, c: CatId) -> bool
        requires { IsCategory (graph_seen self.now) c.0 }
        ensures { result ≡ is_number_of (graph_seen self.now) c.0 }
    {
        match self {
            Known::Growing(builder) => builder.is_number(c),
            Known::Whole(graph) => graph.is_number(c),
        }
    }

    /// The edge from one category to another.
    pub fn edge(&self, child: CatId, parent: CatId) -> Option<EdgeId>
        requires { IsCategory (graph_seen self.now) child.0 }
        ensures place { option_map (λ e. e.0) result ≡ edge_between (graph_seen self.now) child.0 parent.0 }
        ensures has { IsSome result ↔ HasEdge (graph_seen self.now) child.0 parent.0 }
    {
        match self {
            Known::Growing(builder) => builder.edge(child, parent),
            Known::Whole(graph) => graph.edge(child, parent),
        }
    }
}
