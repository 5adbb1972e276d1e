//! Orders: what a run asks of the library, step by step, and how the code goes along them.
//!
//! An *order* (`specs/Order.antt`) reads files one after another, where what a file holds may decide what comes next,
//! and ends in a question. Its steps (`specs/Steps.antt`) are words and files: each step's function says which value
//! the step has, or why the run ends there (`specs/Taken.antt`). No question of a command is known here.
#![tactic(auto)]

mod naming;
mod reading;
mod replies;
mod status;

pub use naming::{categories_at, category_at, formula_at, root_at};
pub use reading::{read_file, schema_in, text_in};
pub use replies::{Reply, Stop, no, refuse, refuse_at, refuse_long, refuse_part, yes};
pub use status::Status;
