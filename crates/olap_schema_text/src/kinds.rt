// Kinds of faults of a schema text.
ghost use Rattle.std.specs.Prelude.{◌≡◌};

/// What is wrong with a line of a schema, or with a question's formula.
#[derive(Clone, Copy, Debug, PartialEq, Eq)]
pub enum SchemaKind {
    /// The line isn't UTF-8, or has a control character.
    BadByte = 1,
    /// The line has none of the forms, or the tokens are no formula.
    BadForm,
    /// The category is declared, or is `All`.
    DuplicateCategory,
    /// No category above has the name.
    UnknownCategory,
    /// The edge's ends are equal.
    SelfEdge,
    /// The edge is declared.
    DuplicateEdge,
    /// The edge leaves `All`.
    EdgeFromAll,
    /// The first name of an atom isn't the root.
    MixedRoot,
    /// Two names that follow each other in a path are no edge.
    NotAnEdge,
    /// A category stands twice in a path.
    RepeatedCategory,
    /// The root is `All`.
    RootIsAll,
    /// More than `MOST_CATEGORIES`, `All` included.
    TooManyCategories,
    /// More than `MOST_EDGES`.
    TooManyEdges,
    /// More than `MOST_CONSTRAINTS`.
    TooManyConstraints,
    /// More than `MOST_NODES` nodes in a formula, or `MOST_SCHEMA_NODES` in all.
    TooManyNodes,
    /// More than `MOST_DEPTH` brackets are open, or the formula is deeper.
    TooDeep,
    /// More than `MOST_CONSTANTS` distinct pairs of a category and a constant.
    TooManyConstants,
    /// A name or a constant has more than `MOST_TEXT_BYTES`.
    TextTooLong,
    /// The category doesn't reach `All`.
    NoWayToAll,
    /// A string is compared with a category whose names are numbers, or a number with another category.
    WrongNames,
    /// A number that is compared with is beyond the bounds of numerals, or has too many digits.
    BadNumber,
}

impl SchemaKind {
    ghost use Rattle.olap_schema_text.specs.Kinds.{name_of_kind};

    /// What the fault is called.
    pub fn name(self) -> &'static str
        ensures { result.now ≡ name_of_kind self }
    {
        match self {
            SchemaKind::BadByte => "BadByte",
            SchemaKind::BadForm => "BadForm",
            SchemaKind::DuplicateCategory => "DuplicateCategory",
            SchemaKind::UnknownCategory => "UnknownCategory",
            SchemaKind::SelfEdge => "SelfEdge",
            SchemaKind::DuplicateEdge => "DuplicateEdge",
            SchemaKind::EdgeFromAll => "EdgeFromAll",
            SchemaKind::MixedRoot => "MixedRoot",
            SchemaKind::NotAnEdge => "NotAnEdge",
            SchemaKind::RepeatedCategory => "RepeatedCategory",
            SchemaKind::RootIsAll => "RootIsAll",
            SchemaKind::TooManyCategories => "TooManyCategories",
            SchemaKind::TooManyEdges => "TooManyEdges",
            SchemaKind::TooManyConstraints => "TooManyConstraints",
            SchemaKind::TooManyNodes => "TooManyNodes",
            SchemaKind::TooDeep => "TooDeep",
            SchemaKind::TooManyConstants => "TooManyConstants",
            SchemaKind::TextTooLong => "TextTooLong",
            SchemaKind::NoWayToAll => "NoWayToAll",
            SchemaKind::WrongNames => "WrongNames",
            SchemaKind::BadNumber => "BadNumber",
        }
    }
}
