// Kinds of faults of a text of members, of a member and of a parent.
/// A fault of a text of members.
#[derive(Clone, Copy, Debug, PartialEq, Eq)]
pub enum InstanceKind {
    /// There is no first record, or it isn't `id,category,name,parents`.
    BadHeader,
    /// A record hasn't four fields.
    FieldCount,
    /// A field isn't UTF-8.
    BadUtf8,
    /// An id is empty or holds a semicolon.
    BadId,
    /// The id is that of an earlier record or of `all`.
    DuplicateId,
    /// No category of the graph has that name.
    UnknownCategory,
    /// A record is of the category `All`.
    RowForAll,
    /// No member has that id.
    UnknownParent,
    /// A member's parents name one member twice.
    DuplicateParent,
    /// With `all` there are `MOST_MEMBERS` members before it.
    TooManyMembers,
    /// An id or a name has more than `MOST_TEXT_BYTES` bytes.
    TextTooLong,
    /// The name of a member of a number category is no numeral.
    BadNumber,
}

impl InstanceKind {
    ghost use Rattle.std.specs.Prelude.{◌≡◌};
    ghost use Rattle.olap_instance.specs.Kinds.{name_of_kind};

    /// Its name, as it is printed.
    pub fn name(self) -> &'static str
        ensures { result.now ≡ name_of_kind self }
    {
        match self {
            InstanceKind::BadHeader => "BadHeader",
            InstanceKind::FieldCount => "FieldCount",
            InstanceKind::BadUtf8 => "BadUtf8",
            InstanceKind::BadId => "BadId",
            InstanceKind::DuplicateId => "DuplicateId",
            InstanceKind::UnknownCategory => "UnknownCategory",
            InstanceKind::RowForAll => "RowForAll",
            InstanceKind::UnknownParent => "UnknownParent",
            InstanceKind::DuplicateParent => "DuplicateParent",
            InstanceKind::TooManyMembers => "TooManyMembers",
            InstanceKind::TextTooLong => "TextTooLong",
            InstanceKind::BadNumber => "BadNumber",
        }
    }
}

/// Why a member wasn't added, in the order in which it is tested.
#[derive(Clone, Copy, Debug, PartialEq, Eq)]
pub enum MemberFault {
    /// The id is empty or holds a semicolon.
    BadId,
    /// The id or the name has more than `MOST_TEXT_BYTES` bytes.
    TextTooLong,
    /// The category is `All`.
    RowForAll,
    /// The category is a number category, and the name no numeral.
    BadNumber,
    /// The id is that of another member or of `all`.
    DuplicateId,
    /// There are `MOST_MEMBERS` members, `all` included.
    TooManyMembers,
}

/// Why a parent wasn't added: the child has it.
#[derive(Clone, Copy, Debug, PartialEq, Eq)]
pub struct DuplicateParent;
