// Why there is no formula, and why there are no tokens.

/// Why there is no formula.
#[derive(Clone, Copy, Debug, PartialEq, Eq)]
pub enum FormFault {
    /// The tokens are no formula.
    BadForm,
    /// The formula is deeper than `MOST_DEPTH`.
    TooDeep,
}

/// Why there are no tokens: the line can't be cut into any.
#[derive(Clone, Copy, Debug, PartialEq, Eq)]
pub struct NoTokens;

/// The tokens are no formula.
#[derive(Clone, Copy)]
pub(crate) struct NoFormula;
