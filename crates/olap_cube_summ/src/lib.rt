//! Summarizability of cubes: whether a tuple of categories of several schemas can be taken from others, over all of
//! their legal instances and all fact tables, and the text of the counterexample where it can't.
//!
//! `Cube` holds the schemas of up to four dimensions; a contract sees it as their list. `CubeFound` is a frozen
//! dimension of each, and `specs/Found.antt` says when they are the counterexample.
//!
//! In each dimension the sources by way of which a root reaches the target are its pattern: a mask over at most eight
//! sources, and `Patterns` is a set of masks. `inside` and `outside` make the questions that ask for a pattern of a
//! set, and for any other (`specs/Ways`). `can_be_bad` tells whether patterns of some sets can have other than one
//! source in common (`specs/Masks`), and `first_families` finds the first bottom categories with which they can
//! (`specs/Families`). None of these knows of a schema or of a search.
//!
//! The patterns of the frozen dimensions of each bottom category are searched for, most of them by one search;
//! whether a choice is bad depends on its patterns alone, and so sets of patterns are combined, not tuples of bottom
//! categories. `print_cube` takes a counterexample as it is found, and asks no search. A contract sees the answer,
//! its tuples and its sums by the definitions of `olap_cube`; files of facts and views aren't known here.
#![tactic(auto)]

mod asking;
mod bottoms;
mod choosing;
mod cubes;
mod distinct;
mod families;
mod formulas;
mod found;
mod laws;
mod looking;
mod masks;
mod printing;
mod questions;
mod reaching;
mod summarizing;
mod telling;
mod ways;

pub use cubes::Cube;
pub use families::{Family, first_families, unions};
pub use formulas::{inside, outside};
pub use found::CubeFound;
pub use laws::{cube_counterexample_sums_differ, one_choice_has_one_text};
pub use masks::{PATTERNS, Patterns, all, can_be_bad, has_bit, possible};
pub use printing::print_cube;
pub use summarizing::{DuplicateSource, cube_summarizable};
