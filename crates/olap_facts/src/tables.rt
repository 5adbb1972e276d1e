// Fact tables.
use olap_base::{List, MemberId};

/// A value at a member.
#[derive(Clone, Copy, PartialEq, Eq)]
pub struct Fact {
    /// The member that it stands at.
    pub member: MemberId,
    /// The value.
    pub value: i64,
}

/// A fact table: facts in the order of their records.
#[derive(Drop)]
pub struct Facts {
    /// The facts.
    pub rows: List<Fact>,
}
