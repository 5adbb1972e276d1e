// What may be wrong with a text of stored views.

/// A fault of a text of stored views.
#[derive(Clone, Copy, Debug, PartialEq, Eq)]
pub enum StoreKind {
    /// There is no first record, or it isn't `category,member,count,sum,least,greatest`.
    BadHeader,
    /// A record hasn't six fields.
    FieldCount,
    /// No category has that name.
    UnknownCategory,
    /// No member has that id.
    UnknownMember,
    /// The member isn't of the row's category.
    WrongCategory,
    /// A number isn't one, or is out of the bounds of stored rows.
    BadNumber,
    /// A view of that category stands above.
    DuplicateView,
    /// A row of that member stands above.
    DuplicateRow,
    /// It is one view more than there may be.
    TooManyViews,
    /// No view of the row's category stands above.
    NoView,
}

impl StoreKind {
    ghost use Rattle.std.specs.Prelude.{◌≡◌};
    ghost use Rattle.olap_view.specs.Kinds.{name_of_kind};

    /// Its name, as it is printed.
    pub fn name(self) -> &'static str
        ensures { result.now ≡ name_of_kind self }
    {
        match self {
            StoreKind::BadHeader => "BadHeader",
            StoreKind::FieldCount => "FieldCount",
            StoreKind::UnknownCategory => "UnknownCategory",
            StoreKind::UnknownMember => "UnknownMember",
            StoreKind::WrongCategory => "WrongCategory",
            StoreKind::BadNumber => "BadNumber",
            StoreKind::DuplicateView => "DuplicateView",
            StoreKind::DuplicateRow => "DuplicateRow",
            StoreKind::TooManyViews => "TooManyViews",
            StoreKind::NoView => "NoView",
        }
    }
}
