//! Equations modulo 2 that clauses contain, what follows when they are added up, and sets of clauses that are too many
//! to be true together.
//!
//! A *parity* says of some variables that an odd number of them is true, or an even one. Clauses contain a parity if
//! they forbid each assignment of the other parity. `Parities::derive` finds the parities of two to five variables,
//! eliminates, and hands out those that are left with one variable or two. `Counting::is_overfull` finds more clauses
//! than there are sets that have their literals, where two literals of a set are never both true. Neither knows
//! anything of a search, or takes memory after `new`.
#![tactic(auto)]

mod columns;
mod counting;
mod eliminating;
mod entries;
mod finding;
mod grouping;
mod parities;
mod rows;
mod sets;
mod values;

pub use counting::Counting;
pub use parities::Parities;
