// A question at a root of a schema, with the names that members may have.
use crate::candidates::Candidates;
use olap_ast::{Constraint, Formula};
use olap_base::CatId;
use olap_graph::Graph;

/// A formula that is asked of the member of a root, in a schema, with the candidates for names of members.
#[derive(Clone, Copy)]
pub struct Question<'a> {
    /// The graph of the schema.
    pub graph: &'a Graph,
    /// The schema's constraints.
    pub constraints: &'a [Constraint],
    /// What is asked of the root's member.
    pub formula: &'a Formula,
    /// The category of the least member.
    pub root: CatId,
    /// The names that members may have.
    pub candidates: &'a Candidates,
}
