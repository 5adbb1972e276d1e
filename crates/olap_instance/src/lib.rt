//! Dimension instances: read from a text, built member by member, looked up and printed.
//!
//! A contract sees an `Instance` as the definition's list of members
//! (`Rattle.olap_base.specs.Instance`). What a text stands for, or where its first fault is, is the
//! function `instance_read` of `specs/InstanceText.antt`. Whether an instance is lawful or legal isn't known here.
#![tactic(auto)]

mod building;
mod entering;
mod hashing;
mod ids;
mod instances;
mod laws;
mod linking;
mod lists;
mod printing;
mod reading;
mod refusals;
mod rosters;
mod texts;

pub use building::InstanceBuilder;
pub use instances::Instance;
pub use laws::{instance_is_meant, read_is_instance};
pub use printing::print_instance;
pub use reading::read_instance;
pub use refusals::{DuplicateParent, InstanceKind, MemberFault};
