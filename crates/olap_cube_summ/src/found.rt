// A choice of frozen dimensions.
use olap_base::List;
use olap_frozen::Found;

/// A frozen dimension of each dimension of a cube.
#[derive(Drop)]
pub struct CubeFound {
    /// They, in the dimensions' order.
    pub founds: List<Found>,
}
