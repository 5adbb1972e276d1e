//! Sets of category numbers, of a fixed width, as bits. Nothing here takes memory or can be refused.
//!
//! `CatSet<W>` is a set of numbers below `64 * W`, for `W` from 1 to 16. A contract sees it as the finite set `members`
//! (`specs/Sets.antt`), and each call is that set's operation: `with` is `insert`, `meet` is `intersection`, and so on.
//! No clause speaks of words or bits.
#![tactic(auto)]

mod sets;

pub use sets::CatSet;
