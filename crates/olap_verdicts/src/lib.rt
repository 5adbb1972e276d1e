//! The commands `verify` and `verify-short`: whether a text is a certificate.
//!
//! Their order (`specs/Commands.antt`) reads the schema, takes the words, and then reads the certificate. What answers
//! the question that is left stands in `specs/Questions.antt`. Nothing here searches.
#![tactic(auto)]

mod judging;
mod laws;
mod verifying;
mod words;

pub use judging::judge;
pub use laws::{accepted_is_summarizable, answers_are_one, answers_exist};
