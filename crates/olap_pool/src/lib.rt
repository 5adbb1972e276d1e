//! Literals, and pools of clauses, one after the other.
//!
//! A pool stands for the valuations that make each of its clauses true (`AreTrue`, `specs/Pools.antt`). Clauses come by
//! `Pool::add`, which can be refused out of memory; `keep` adds in room that was reserved, and takes none. What a
//! variable means isn't known here, nor how clauses are searched.
#![tactic(auto)]

mod literals;
mod pools;

pub use literals::Lit;
pub use pools::Pool;
