//! Facts at tuples of members, one of each dimension, and views of tuples of categories.
//!
//! The definitions (`specs/`) speak of lists of instances, one for each dimension, and take a tuple of members as a
//! list; the functions are theorems over them. They know of no schema text and of no search. `Tuple`, a tuple of
//! categories, is seen as the list of their numbers.
#![tactic(auto)]

mod laws;
mod limits;
mod tuples;

pub use laws::{
    bad_choices_have_two_sums, counterexamples_of_one_dimension,
    cube_summarizable_exactly_if_none_bad, cubes_agree_exactly_if_reached_by_one,
    cubes_of_one_dimension, one_cube_facts_views, the_cube_counterexample_is_one,
};
pub use limits::MOST_DIMENSIONS;
pub use tuples::Tuple;
