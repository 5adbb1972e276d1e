//! The check of a dimension instance against its schema: five laws and the constraints.
//!
//! `check` answers a `Legal` of `olap_legal`, which keeps the instance and the table of its ancestors, or the first
//! violation. `specs/Reports.antt` says how a violation of the definitions is reported by ids. Nothing here knows how
//! an instance or a schema is read, or how the table is made.
#![tactic(auto)]

mod above;
mod asked;
mod blocks;
mod checking;
mod gathering;
mod grouping;
mod laws;
mod linking;
mod meeting;
mod parting;
mod passing;
mod places;
mod seen;
mod strata;
mod violations;

pub use checking::check;
pub use violations::{Illegal, Violation, first_violation_is_first};
