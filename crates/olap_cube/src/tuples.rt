// Tuples of categories.
use olap_base::{CatId, List};

/// A category of each dimension, in the dimensions' order.
#[derive(Drop)]
pub struct Tuple {
    /// The categories.
    pub categories: List<CatId>,
}
