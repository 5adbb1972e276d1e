//! Schema texts of both versions: reading a schema and a question's formula, and printing a schema.
//!
//! A contract sees what `read_schema` gives as `schema_read` of the text: the schema, or the first fault with its line
//! (`specs/Judging.antt`). Each schema is read back from what `print_schema` prints. Nothing here knows of instances.
#![tactic(auto)]

mod forming;
mod kinds;
mod knowing;
mod laws;
mod lines;
mod measuring;
mod pairing;
mod printing;
mod questions;
mod reading;
mod resolving;
mod statements;
mod texts;

pub use kinds::SchemaKind;
pub use laws::{
    open_brackets_are_counted, read_questions_are_valid, read_schemas_are_readable,
    read_schemas_are_valid,
};
pub use printing::{print_constraints, print_schema, printed_schemas_are_read};
pub use questions::read_formula;
pub use texts::read_schema;
