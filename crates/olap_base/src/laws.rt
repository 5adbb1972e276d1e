// Theorems over the definitions. Each is the clause of a function that does nothing.
ghost use Rattle.olap_base.specs.Above.{AboveIsLawful};
ghost use Rattle.olap_base.specs.OneFact.{OneFactsViews};
ghost use Rattle.olap_base.specs.Summaries.{TotalsOfSummaries, TotalsOfValues};
ghost use Rattle.olap_base.specs.Views.{AgreeExactlyIfReachedByOne};

/// What one member of a lawful instance reaches is a lawful instance with at most one member per category.
pub fn above_is_lawful()
    ensures { AboveIsLawful }
{}

/// On a lawful instance the view from the sources' views is the direct view, for every fact table, exactly
/// where each bottom member that reaches the category reaches it by exactly one of the sources.
pub fn agree_exactly_if_reached_by_one()
    ensures { AgreeExactlyIfReachedByOne }
{}

/// The total of some values has their number, their sum, the least and the greatest of them.
pub fn totals_of_values()
    ensures { TotalsOfValues }
{}

/// The total of some summaries has the sum of their counts, the sum of their sums, the least of their leasts and
/// the greatest of their greatests.
pub fn totals_of_summaries()
    ensures { TotalsOfSummaries }
{}

/// The direct view of one fact of value 1 has one row, and the view from the sources' views has there as many ones as
/// there are sources by which the fact's member reaches the row's; with none it has no row.
pub fn one_facts_views()
    ensures { OneFactsViews }
{}
