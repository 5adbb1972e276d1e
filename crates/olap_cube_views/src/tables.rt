// Fact tables of cubes.
use olap_base::{List, MemberId};

/// A value at members, one of each dimension.
#[derive(Drop)]
pub struct CubeFact {
    /// The members that it stands at, in order of the dimensions.
    pub members: List<MemberId>,
    /// The value.
    pub value: i64,
}

/// A fact table: facts in the order of their records.
#[derive(Drop)]
pub struct CubeFacts {
    /// The facts.
    pub rows: List<CubeFact>,
}
