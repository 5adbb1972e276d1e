//! Legal instances, with the table of their ancestors.
//!
//! A contract sees a `Legal` as its instance, the definition's list of members; that it has the table is a fact that
//! each value keeps. `ancestor_table` makes the table of an instance whose parents all lie along edges, or tells the
//! first member that reaches two of one category. Whether an instance is legal isn't known here: `olap_check` says it,
//! and makes a `Legal` of legal instances alone.
#![tactic(auto)]

mod ancestors;
mod joining;
mod legality;
mod marking;
mod rising;
mod slots;
mod tables;

pub use ancestors::{ancestor, ancestor_table};
pub use legality::Legal;
pub use marking::mark;
pub use tables::Table;
