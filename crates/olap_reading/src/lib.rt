//! The steps of an order that read an instance, its facts and its stored views, and the words that report a violation.
//!
//! A step is an order (`specs/Steps.antt`), and its function says which value the step has, or why the run ends there.
//! No command is known here, and no search.
#![tactic(auto)]

mod reading;
mod rolling;
mod telling;

pub use reading::{legal_in, store_in, views_in};
