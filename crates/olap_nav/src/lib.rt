//! Views from stored views that are safe by the schema: which of them to take, and the view that they give.
//!
//! A plan is a mask over the views of a store. A contract sees it by `specs/Plans.antt`: the views from which the
//! target is summarizable, over all legal instances and fact tables, and which have the fewest rows. No facts are
//! looked at.
#![tactic(auto)]

mod answering;
mod choice;
mod masks;
mod planning;
mod printing;
mod refuting;

pub use answering::answer;
pub use choice::{NotAnswerable, Plan};
pub use planning::plan;
pub use printing::print_plan;
