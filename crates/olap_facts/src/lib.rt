//! Fact tables, read from texts: values at members of bottom categories.
//!
//! A contract sees a `Facts` as the definition's list of facts (`facts_of` of `specs/Seen.antt`). What a
//! text stands for, or where its first fault is, is the function `facts_read` of `specs/FactText.antt`. A
//! `FactFeed` hands out the facts of a text that comes in pieces. Views aren't known here.
#![tactic(auto)]

mod feeding;
mod fronts;
mod judging;
mod kinds;
mod laws;
mod pending;
mod reading;
mod settings;
mod tables;

pub use feeding::FactFeed;
pub use kinds::FactKind;
pub use laws::{bottom_is_decided, facts_are_meant, read_facts_fit};
pub use reading::{is_at_bottom, read_facts};
pub use tables::{Fact, Facts};
