//! Each question about all legal instances of a schema has an answer: a least frozen dimension or none, the list of all
//! of them, a counterexample, the list of findings.
//!
//! Nothing here runs: `specs/` says what there is, and each law is proved by deciding, choice by choice of edges and
//! names, whether it is a frozen dimension.
#![tactic(auto)]

mod laws;

pub use laws::{counterexamples_exist, findings_exist, frozen_are_listed, least_frozen_exist};
