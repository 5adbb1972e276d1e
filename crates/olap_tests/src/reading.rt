// What the texts of several modules are read as.
use olap_schema::Schema;
use olap_schema_text::read_schema;
use std::alloc::Global;
use std::process::Abort;

// Stores in cities.
pub(crate) const CHAIN: &[u8] =
    b"schema 1\ncategory Store\ncategory City\nedge Store City\nedge City All\n";

// The schema of a text.
pub(crate) fn read(rt: &impl Abort, alloc: Global, text: &[u8]) -> Schema {
    match read_schema(alloc, text) {
        Ok(schema) => schema,
        Err(_) => panic!(rt; "a schema"),
    }
}
