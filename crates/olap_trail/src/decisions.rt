// Decisions, and marks in their order.
use olap_base::EdgeId;

/// What was decided of an edge.
#[derive(Clone, Copy)]
pub struct Decision {
    /// The edge.
    pub edge: EdgeId,
    /// Whether it is present.
    pub present: bool,
}

/// A number of decisions: those that were made first.
#[derive(Clone, Copy)]
pub struct Mark(pub u16);
