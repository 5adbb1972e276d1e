// Views, their rows, and stores of views.
use olap_base::{CatId, List, MemberId};

/// A member with the total of the values of the facts below it.
#[derive(Clone, Copy, PartialEq, Eq)]
pub struct Row {
    /// The member.
    pub member: MemberId,
    /// How many values there are.
    pub count: u64,
    /// Their sum.
    pub sum: i128,
    /// The least of them.
    pub least: i64,
    /// The greatest of them.
    pub greatest: i64,
}

/// A category's rows, by member.
#[derive(Drop)]
pub struct View {
    /// The category.
    pub category: CatId,
    /// The rows.
    pub rows: List<Row>,
}

/// Views that are stored: at most eight, of different categories.
#[derive(Drop)]
pub struct Store {
    /// The views.
    pub views: List<View>,
}
