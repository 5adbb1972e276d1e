//! The commands that ask about all legal instances of a schema, and that print it.
//!
//! A command is an order (`specs/Commands.antt`) that ends in a question (`specs/Questions.antt`). Which status and
//! bytes answer it is the relation `IsAnswer`. `judge` is the one call: the reply to a command's name and words.
//! Nothing here knows of facts and views.
#![tactic(auto)]

mod auditing;
mod denying;
mod differing;
mod formatting;
mod implying;
mod judging;
mod laws;
mod listing;
mod needing;
mod proving;
mod satisfying;
mod shaping;
mod summarizing;
mod words;

pub use judging::judge;
pub use laws::{
    all_frozen_are_one, answers_are_one, answers_exist, each_shape_is_listed_once,
    findings_are_one, shapes_are_one, too_many_are_not_listed, too_many_shapes_are_not_listed,
};
