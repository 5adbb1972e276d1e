//! Second opinions, computed slowly from the definitions: the direct view, and the least frozen dimension.
//!
//! Members, facts and rows are plain structs, and each function says by its contract that it is the definition of
//! `olap_base`. A `Search` tries all choices of edges and names in code order. Both are for small inputs alone, and no
//! part of the program.
#![tactic(auto)]

mod searching;
mod viewing;

pub use searching::Search;
pub use viewing::{PlainFact, PlainMember, PlainRow, direct, is_below, reaches, row_at};
