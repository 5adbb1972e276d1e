//! What is printed about a frozen dimension: its line, its instance, and the counterexample that it is.
//!
//! A contract sees a frozen dimension as the definitions do. `print_frozen` gives its line, `thaw` its instance, and
//! `counterexample` the sums of one fact at its root in two views of a category. How it was found isn't known here.
#![tactic(auto)]

mod counterexamples;
mod counting;
mod laws;
mod lines;
mod members;
mod thawing;

pub use counterexamples::{Cex, counterexample, print_cex, push_sum};
pub use counting::is_way;
pub use laws::{
    counterexample_sums_differ, frozen_is_legal, printed_frozen_dimensions_are_read,
    printed_instances_are_read, question_is_true, root_is_member,
};
pub use lines::print_frozen;
pub use thawing::thaw;
