//! The commands that plan from which stored views a total is taken.
//!
//! A command is an order (`specs/Commands.antt`) that ends in a question (`specs/Questions.antt`). Which status and
//! bytes answer it is the relation `IsAnswer`. `judge` is the one call: the reply to a command's name and words.
//!
//! The commands need the views and the search, so they are neither with the commands over facts nor with those about
//! schemas. How a plan is found isn't known here.
#![tactic(auto)]

mod answering;
mod generating;
mod judging;
mod laws;
mod words;

pub use judging::judge;
pub use laws::{answers_are_one, answers_exist, plan_is_one, plans_give_direct_views};
