// The question that a certificate is written for.
use olap_ast::{Constraint, Formula};
use olap_graph::Graph;
use olap_names::Candidates;

/// A schema's graph and constraints, a question, and the names that members may have.
#[derive(Clone, Copy)]
pub(crate) struct Asked<'a> {
    /// The graph of the schema.
    pub graph: &'a Graph,
    /// The schema's constraints.
    pub constraints: &'a [Constraint],
    /// What is asked of the root's member.
    pub question: &'a Formula,
    /// The names that members may have.
    pub candidates: &'a Candidates,
}
