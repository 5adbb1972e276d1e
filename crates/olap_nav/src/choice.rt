// What is chosen of the stored views, and why nothing is.
/// Which stored views a view is computed from.
#[derive(Clone, Copy, PartialEq, Eq)]
pub struct Plan {
    /// A bit for each stored view, the lowest for the first.
    pub mask: u16,
    /// How many rows these views have together.
    pub rows: u64,
}

/// Why there is no plan: the target isn't summarizable from any of the stored views, nor from none of them.
#[derive(Clone, Copy, PartialEq, Eq, Debug)]
pub struct NotAnswerable;
