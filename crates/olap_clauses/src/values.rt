// What is known of literals and variables.
ghost use Rattle.std.specs.Prelude.{◌≡◌};
ghost use Rattle.olap_clauses.specs.Standing.{known};

/// What is known of a literal or a variable.
#[derive(Clone, Copy, PartialEq, Eq)]
pub enum Value {
    /// Neither it nor its negation stands.
    Unknown,
    /// It stands.
    Yes,
    /// Its negation stands.
    No,
}

impl Value {
    /// The value of a variable of this sign.
    pub(crate) fn known(sign: bool) -> Value
        ensures { result ≡ known sign }
    {
        if sign { Value::Yes } else { Value::No }
    }
}
