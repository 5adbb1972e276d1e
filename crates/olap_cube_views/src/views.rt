// Views of cubes and their rows.
ghost use Rattle.std.specs.Prelude.{◌≡◌, ◌<◌, slice_index_or};
ghost use Rattle.olap_cube.specs.Limits.{most_dimensions};

use olap_base::{CatId, List, MemberId};
use olap_cube::MOST_DIMENSIONS;
use olap_view::Summary;

/// The members of a tuple, one of each of up to four dimensions, and first members after them.
#[derive(Clone, Copy)]
pub struct Members {
    pub(crate) places: [u32; MOST_DIMENSIONS],
}

impl Members {
    /// The member of a dimension, from 0.
    pub fn member(&self, dimension: usize) -> MemberId
        requires { dimension < most_dimensions }
        ensures { result.0 ≡ slice_index_or self.now.places dimension 0 }
    {
        MemberId(self.places[dimension])
    }
}

/// Members, one of each dimension, with the total of the values of the facts below them.
#[derive(Clone, Copy)]
pub struct CubeRow {
    /// The members, in order of the dimensions.
    pub members: Members,
    /// The number of the values, their sum, the least and the greatest of them.
    pub summary: Summary,
}

/// The rows of a target, by its members in file order, those of the first dimension first.
#[derive(Drop)]
pub struct CubeView {
    /// The target: a category of each dimension.
    pub target: List<CatId>,
    /// The rows.
    pub rows: List<CubeRow>,
}
