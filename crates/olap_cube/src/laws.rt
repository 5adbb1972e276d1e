// Theorems over the definitions. Each is the clause of a function that does nothing but call others.
ghost use Rattle.olap_cube.specs.CubeSummarizable.{BadChoicesHaveTwoSums, CounterexamplesOfOneDimension, CubeSummarizableExactlyIfNoneBad, CubesOfOneDimension, TheCubeCounterexampleIsOne};
ghost use Rattle.olap_cube.specs.CubeViews.{CubesAgreeExactlyIfReachedByOne, OneCubeFactsViews};

use olap_ast::candidates_exist;

/// On lawful instances the view from the sources' views is the direct view, for every fact table, exactly if each tuple
/// of bottom members that reaches the target reaches it by exactly one of the sources.
pub fn cubes_agree_exactly_if_reached_by_one()
    ensures { CubesAgreeExactlyIfReachedByOne }
{}

/// The direct view of one fact of value 1 has one row, and the view from the sources' views has there as many ones as
/// there are sources by which the fact's tuple reaches the row's; with none it has no row.
pub fn one_cube_facts_views()
    ensures { OneCubeFactsViews }
{}

/// A target is summarizable exactly if no choice of a frozen dimension for each dimension, whose roots reach the
/// target, reaches it by not exactly one source.
pub fn cube_summarizable_exactly_if_none_bad()
    ensures { CubeSummarizableExactlyIfNoneBad }
{
    candidates_exist();
}

/// The fact of value 1 at the roots of a bad choice has the direct SUM 1, and another SUM, or none, from the sources.
pub fn bad_choices_have_two_sums()
    ensures { BadChoicesHaveTwoSums }
{}

/// There is one counterexample at most: one root, one instance and one place of the fact in each dimension.
pub fn the_cube_counterexample_is_one()
    ensures { TheCubeCounterexampleIsOne }
{}

/// A cube of one dimension is summarizable exactly if its dimension is.
pub fn cubes_of_one_dimension()
    ensures { CubesOfOneDimension }
{}

/// A cube of one dimension has the counterexample that its dimension has.
pub fn counterexamples_of_one_dimension()
    ensures { CounterexamplesOfOneDimension }
{}
