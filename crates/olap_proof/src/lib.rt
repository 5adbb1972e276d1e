//! Certificates of summarizability: texts that say, line by line, why a category's totals can be taken from others'.
//!
//! A certificate splits what a counterexample could look like, case by case, and closes each case by a reason that is
//! checked at sight (`specs/Certificates.antt`). It exists only where the target is summarizable, and each form has one
//! wherever it is: the laws of `src/laws.rt` and `src/existence.rt`, over the definitions alone. `verify` accepts a
//! text exactly if it is one (`specs/Verifying.antt`), and nothing here knows of a search.
#![tactic(auto)]

mod advancing;
mod asking;
mod branches;
mod cases;
mod closing;
mod doing;
mod drawn;
mod existence;
mod forms;
mod growing;
mod judging;
mod knowing;
mod laws;
mod leaves;
mod lines;
mod places;
mod plain;
mod splitting;
mod stages;
mod tables;
mod telling;
mod verifying;
mod walking;
mod ways;
mod writing;

pub use existence::{certificates_exist_exactly_where_summarizable, full_places_close};
pub use forms::Form;
pub use laws::{
    certificates_are_right, chain_is_certified, chain_is_shortly_certified, edges_are_decided_once,
    lines_are_spelled_exactly, names_are_decided_once, texts_are_judged, the_root_is_not_loose,
    verdicts_are_one,
};
pub use lines::Line;
pub use plain::plain_certificate;
pub use verifying::{VerifyFault, verify};
pub use writing::{push_bottom, push_head, push_known_line};
