//! What must be added to a schema so that a target is summarizable from sources.
//!
//! `needed` returns a constraint for each bottom category that needs one, and those of these categories that can then
//! have no member (`specs/Needs.antt`); `has_room` says whether the schema with the constraints is within the limits.
//! What is printed about them isn't known here.
#![tactic(auto)]

mod laws;
mod needing;
mod room;

pub use laws::{
    each_need_is_question, emptied_are_one, needs_are_added, needs_are_exact, needs_are_one,
    needs_are_read, needs_are_weakest, needs_leave_members, needs_stay_readable, needs_suffice,
    none_needed,
};
pub use needing::{Needs, needed};
pub use room::has_room;
