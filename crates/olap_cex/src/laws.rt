// Theorems over the definitions. Each is the clause of a function that does nothing.
ghost use Rattle.olap_cex.specs.Laws.{CounterexampleSums, FrozenIsLegal, QuestionIsTrue, RootIsMember};
ghost use Rattle.olap_cex.specs.PrintingLaws.{PrintedFrozenDimensionsAreRead, PrintedInstancesAreRead};

/// The instance that a frozen dimension stands for is legal.
pub fn frozen_is_legal()
    ensures { FrozenIsLegal }
{}

/// The root's place is that of the one member of the root's category.
pub fn root_is_member()
    ensures { RootIsMember }
{}

/// At the root's place the question is true: for the question of a counterexample, the root reaches the target.
pub fn question_is_true()
    ensures { QuestionIsTrue }
{}

/// One fact of value 1 at the root of a counterexample has the SUM 1 in the target's direct view, and another or none
/// in the view from the sources' views.
pub fn counterexample_sums_differ()
    ensures { CounterexampleSums }
{}

/// What is printed of an instance that a text may stand for, within the limit on members, is read back as that
/// instance, by the definition of reading.
pub fn printed_instances_are_read()
    ensures { PrintedInstancesAreRead }
{}

/// What is printed of the instance of a frozen dimension whose names are short enough for a file is read as that
/// instance, by the definition of reading. The schema is valid, and the constants are UTF-8.
pub fn printed_frozen_dimensions_are_read()
    ensures { PrintedFrozenDimensionsAreRead }
{}
