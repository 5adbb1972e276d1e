// What may be wrong with a text of facts.

/// A fault of a text of facts.
#[derive(Clone, Copy, Debug, PartialEq, Eq)]
pub enum FactKind {
    /// There is no first record, or it isn't `member,value`.
    BadHeader,
    /// A record hasn't two fields.
    FieldCount,
    /// No member has that id.
    UnknownMember,
    /// The member isn't of a bottom category.
    NotBottom,
    /// The second field spells no whole number of 64 bits.
    BadNumber,
    /// It is one fact more than there may be.
    TooManyFacts,
}

impl FactKind {
    ghost use Rattle.std.specs.Prelude.{◌≡◌};
    ghost use Rattle.olap_facts.specs.Kinds.{name_of_kind};

    /// Its name, as it is printed.
    pub fn name(self) -> &'static str
        ensures { result.now ≡ name_of_kind self }
    {
        match self {
            FactKind::BadHeader => "BadHeader",
            FactKind::FieldCount => "FieldCount",
            FactKind::UnknownMember => "UnknownMember",
            FactKind::NotBottom => "NotBottom",
            FactKind::BadNumber => "BadNumber",
            FactKind::TooManyFacts => "TooManyFacts",
        }
    }
}
