// Theorems over the definitions. Each is the clause of a function that does nothing.
ghost use Rattle.olap_schema_text.specs.Laws.{OpenBracketsAreCounted, ReadQuestionsAreValid, ReadSchemasAreReadable, ReadSchemasAreValid};

/// A schema that is read is valid: its graph is a hierarchy, its constraints stand at declared categories, their atoms
/// are of the graph, and it keeps the limits.
pub fn read_schemas_are_valid()
    ensures { ReadSchemasAreValid }
{}

/// A schema that is read is valid, and its constants are UTF-8 without control characters.
pub fn read_schemas_are_readable()
    ensures { ReadSchemasAreReadable }
{}

/// A question's formula that is read may be handed on: it is one of the schema, keeps the limits together with it, and
/// its constants are UTF-8 without control characters.
pub fn read_questions_are_valid()
    ensures { ReadQuestionsAreValid }
{}

/// Too many brackets are open exactly if some beginning of the tokens has too many more `(` than `)`.
pub fn open_brackets_are_counted()
    ensures { OpenBracketsAreCounted }
{}
