//! Schemas: a graph of categories and the constraints.
//!
//! A contract sees a `Schema` as the definitions' schema (`specs/Schemas.antt`). Each is valid, and its constants are
//! UTF-8 without control characters (`specs/Readable.antt`). Nothing here knows of texts.
#![tactic(auto)]

mod copying;
mod schemas;

pub use schemas::Schema;
