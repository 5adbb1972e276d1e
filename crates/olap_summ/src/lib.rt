//! Satisfiability, implication and summarizability of a schema, and its audit, over all of its legal instances, of any
//! size.
//!
//! Each question is one about frozen dimensions with a root, and a `Found` is one that settles it, with its names: the
//! least, but of `any_counterexample`. `None` says of `implies` and of both calls on summarizability that the answer is
//! yes for all legal instances, and of `satisfiable` that no legal instance has a member; `audit` returns its findings,
//! and `is_implied` and a `Decision` a truth value. What is printed isn't known here.
#![tactic(auto)]

mod asking;
mod auditing;
mod deciding;
mod implying;
mod laws;
mod questioning;
mod satisfying;
mod seeing;
mod summarizing;

pub use auditing::{Finding, audit};
pub use deciding::Decision;
pub use implying::{implies, is_implied};
pub use laws::decisions_agree;
pub use questioning::{DuplicateSource, Questions};
pub use satisfying::satisfiable;
pub use summarizing::{any_counterexample, summarizable};
