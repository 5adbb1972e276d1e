//! The commands over one instance and its facts: is it legal, what are its totals, and what are they after facts came
//! or were withdrawn?
//!
//! A command is an order (`specs/Commands.antt`). `judge` is the one call: the reply to a command's name and words.
//! Nothing here knows of the search.
#![tactic(auto)]

mod breaking;
mod changing;
mod checking;
mod feeding;
mod judging;
mod rolling_up;
mod storing;
mod words;

pub use judging::judge;
