// Theorems over the definitions. Each is the clause of a function that does nothing but call others.
ghost use Rattle.olap_cubes.specs.Existing.{AnswersExist};
ghost use Rattle.olap_cubes.specs.Laws.{AnswersAreOne};

use olap_ast::candidates_exist;
use olap_cube::{
    bad_choices_have_two_sums, cube_summarizable_exactly_if_none_bad,
    the_cube_counterexample_is_one,
};
use olap_cube_summ::one_choice_has_one_text;
use olap_exists::frozen_are_listed;

/// A question has one status and one list of bytes at most. So "exactly if" of each answer is a theorem.
pub fn answers_are_one()
    ensures { AnswersAreOne }
{
    // Called for their clauses.
    the_cube_counterexample_is_one();
    one_choice_has_one_text();
    bad_choices_have_two_sums();
}

/// A question about valid schemas has a status and bytes that answer it.
pub fn answers_exist()
    ensures { AnswersExist }
{
    // Called for their clauses.
    frozen_are_listed();
    candidates_exist();
    cube_summarizable_exactly_if_none_bad();
}
