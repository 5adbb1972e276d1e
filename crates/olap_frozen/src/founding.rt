// A frozen dimension with its names.
use crate::frozen::Frozen;
use olap_names::Candidates;

/// A frozen dimension, and the names that its indexes stand for.
#[derive(Drop)]
pub struct Found {
    /// The root, the edges and the name indexes.
    pub frozen: Frozen,
    /// The names.
    pub candidates: Candidates,
}
