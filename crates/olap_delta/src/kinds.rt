// Why a fact can't be appended or retracted, and why stored views can't be changed by a text of facts.
use olap_facts::FactKind;

/// Why a fact can't be appended to stored views, or retracted from them: the first that holds.
#[derive(Clone, Copy, Debug, PartialEq, Eq)]
pub enum DeltaKind {
    /// Appended: the row's count is `MOST_COUNT`.
    Full,
    /// The row's new sum has a magnitude over `MOST_SUM`.
    Bound,
    /// Retracted: the member has no row.
    NoRow,
    /// Retracted: the value is below the row's least or above its greatest.
    Outside,
    /// Retracted: the value is the row's least or its greatest, and what would be instead isn't known.
    Extreme,
    /// Retracted: the row's count is at most 2.
    Short,
}

impl DeltaKind {
    ghost use Rattle.std.specs.Prelude.{◌≡◌};
    ghost use Rattle.olap_delta.specs.Kinds.{name_of_kind};

    /// Its name, as it is printed.
    pub fn name(self) -> &'static str
        ensures { result.now ≡ name_of_kind self }
    {
        match self {
            DeltaKind::Full => "Full",
            DeltaKind::Bound => "Bound",
            DeltaKind::NoRow => "NoRow",
            DeltaKind::Outside => "Outside",
            DeltaKind::Extreme => "Extreme",
            DeltaKind::Short => "Short",
        }
    }
}

/// Why stored views can't be changed by the facts of a text.
#[derive(Clone, Copy, Debug, PartialEq, Eq)]
pub enum ChangeKind {
    /// The text has a fault.
    Text(FactKind),
    /// The text stands for facts, and one of them can't be appended or retracted.
    Fact(DeltaKind),
}

impl ChangeKind {
    ghost use Rattle.std.specs.Prelude.{◌≡◌};
    ghost use Rattle.olap_delta.specs.Kinds.{name_of_change_kind};

    /// Its name, as it is printed.
    pub fn name(self) -> &'static str
        ensures { result.now ≡ name_of_change_kind self }
    {
        match self {
            ChangeKind::Text(kind) => kind.name(),
            ChangeKind::Fact(kind) => kind.name(),
        }
    }
}
