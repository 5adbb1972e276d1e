//! A trail of decisions on the edges of a category graph, undone by marks.
//!
//! A `Trail<W>` takes decisions, each on an edge that is undecided: present or absent. A contract sees it as its graph,
//! its root and the list of its decisions (`specs/Decisions.antt`); what it answers of present edges is a function of
//! that list, whatever was decided and undone before. What categories reach is kept in tables and never searched for.
//! Only `new` takes memory. The search that decides isn't known here.
#![tactic(auto)]

mod decisions;
mod drawing;
mod trails;

pub use decisions::{Decision, Mark};
pub use trails::Trail;
