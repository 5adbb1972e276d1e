// How a search ends.

/// How a search ended.
#[derive(Clone, Copy, PartialEq, Eq)]
pub enum Outcome {
    /// The judge took a trail.
    Found,
    /// No valuation that the judge searches for agrees with the trail.
    Nothing,
    /// The budget was spent, or the room to learn in: nothing is known.
    Stop,
}
