//! Proofs of summarizability: a certificate where a target is summarizable, and the least counterexample where it
//! isn't.
//!
//! A draft of the certificate comes from `olap_draft`, which promises nothing of it; it is handed out where `verify`
//! accepts it, and else a plain one is written. A contract sees the text as a certificate of `olap_proof`, and nothing
//! of how it was found.
#![tactic(auto)]

mod proving;

pub use proving::{Proof, prove};
