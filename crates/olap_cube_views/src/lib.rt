//! Facts of up to four dimensions at once, read from texts, and their views.
//!
//! A contract sees a `Legals` as the definition's list of instances, a `TargetColumns` as a list of instances with a
//! category each, a `CubeFacts` as the definition's list of facts and a `CubeView` as its record (`specs/Seen.antt`).
//! `cube_direct` answers the definition's direct view, and a `CubeRoller` that of the facts that a text stands for,
//! which may come in pieces.
//! Nothing here knows how an instance is read or checked, or when such a view may be taken from others.
#![tactic(auto)]

mod laws;
mod legals;
mod printing;
mod reading;
mod rolling;
mod sums;
mod tables;
mod tallies;
mod target_columns;
mod viewing;
mod views;

pub use laws::cube_facts_are_meant;
pub use legals::Legals;
pub use printing::{print_cube_view, print_rolled_up};
pub use reading::read_cube_facts;
pub use rolling::CubeRoller;
pub use tables::{CubeFact, CubeFacts};
pub use target_columns::TargetColumns;
pub use viewing::cube_direct;
pub use views::{CubeRow, CubeView, Members};
