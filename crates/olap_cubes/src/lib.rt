//! The commands over several dimensions: what is the direct view of a cube's target, and may it be taken from sources?
//!
//! A command is an order (`specs/Commands.antt`): K schemas, for a view K instances and a file of facts, and words that
//! name a category of each dimension. `judge` is the one call: the reply to a command's name and words. Nothing here
//! knows how a counterexample is found.
#![tactic(auto)]

mod counting;
mod dimensions;
mod judging;
mod laws;
mod naming;
mod rolling;
mod summarizing;
mod viewing;
mod words;

pub use judging::judge;
pub use laws::{answers_are_one, answers_exist};
