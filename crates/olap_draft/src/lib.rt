//! Drafts of certificates, by a search about which nothing is promised.
//!
//! A draft is a text that may be a certificate; whoever asks for one has it verified. Nothing is proved here but that
//! each call returns, and does no harm.
#![tactic(auto)]

mod activities;
mod decided;
mod drafting;
mod order;
mod rows;
mod searches;
mod shapes;
mod steps;
mod tasks;
mod trees;

pub use drafting::draft;
pub use trees::GivenUp;
