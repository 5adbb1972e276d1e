// Theorems over the definitions. Each is the clause of a function that does nothing but call others.
ghost use Rattle.olap_cube_summ.specs.Laws.{CubeCounterexampleSumsDiffer, OneChoiceHasOneText};

use olap_cube::bad_choices_have_two_sums;

/// Two choices that can't be told apart have one text. So a cube has one text of a counterexample at most.
pub fn one_choice_has_one_text()
    ensures { OneChoiceHasOneText }
{}

/// Where the text of a bad choice has its fact, the direct SUM is 1, and the SUM from the sources is another or none.
pub fn cube_counterexample_sums_differ()
    ensures { CubeCounterexampleSumsDiffer }
{
    bad_choices_have_two_sums();
}
