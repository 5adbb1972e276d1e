// Theorems over the definitions. Each is the clause of a function that does nothing.
ghost use Rattle.olap_ast.specs.Constants.{FreshNamesExist, RenamingIsHarmless};
ghost use Rattle.olap_ast.specs.Example.{NineIsFrozen, OneStoreIsCounterexample, OneStoreIsLegal, StoresAreSummarizable};
ghost use Rattle.olap_ast.specs.Findings.{TheFindingsAreOne};
ghost use Rattle.olap_ast.specs.Frozen.{CandidatesExist, FrozenExactlyIfSomeInstance, TheLeastIsOne};
ghost use Rattle.olap_ast.specs.Parts.{LegalExactlyIfPartsAre};
ghost use Rattle.olap_ast.specs.Questions.{ValidSchemasHaveCandidates, ImpliedExactlyIfNoneFrozen, RedundantExactlyIfNoneFrozen, SourcesHaveCandidates, UnsatisfiableExactlyIfNoneFrozen, UnusedExactlyIfNoneFrozen};
ghost use Rattle.olap_ast.specs.Schema.{AboveIsLegal};
ghost use Rattle.olap_ast.specs.Summarizable.{SummarizableExactlyIfNoneFrozen, TheCounterexampleIsOne};
ghost use Rattle.olap_ast.specs.Violation.{LegalExactlyIfNoViolation};

/// What one member of a legal instance reaches is a legal instance with at most one member per category, and
/// each formula has the same truth at that member in both.
pub fn above_is_legal()
    ensures { AboveIsLegal }
{}

/// New names keep an instance legal, and the truth of the question, if atoms are of the kinds of their categories:
/// of texts the fresh name in place of each name that is no constant of its category, and of numbers the numeral of the
/// number that stands for the name's.
pub fn renaming_is_harmless()
    ensures { RenamingIsHarmless }
{}

/// Every schema and question have one fresh name.
pub fn fresh_names_exist()
    ensures { FreshNamesExist }
{}

/// A schema and a question whose atoms are of the kinds of their categories (texts are asked of text categories alone,
/// and numbers within the bounds of number categories alone) have candidates.
pub fn candidates_exist()
    ensures { CandidatesExist }
{}

/// A valid schema and a formula of its graph have candidates, so each question has; and so has that of summarizability,
/// of any target and sources.
pub fn valid_schemas_have_candidates()
    ensures formulas { ValidSchemasHaveCandidates }
    ensures sources { SourcesHaveCandidates }
{}

/// In a hierarchy, and for the candidates of the schema and the question: there is a frozen dimension exactly if
/// some legal instance, of any size, has a member of the root at which the question is true.
pub fn frozen_exactly_if_some_instance()
    ensures { FrozenExactlyIfSomeInstance }
{}

/// There is one least frozen dimension at most, whichever candidates each side brings: its edges, its indexes, its
/// names and its instance are the same.
pub fn the_least_is_one()
    ensures { TheLeastIsOne }
{}

/// In a hierarchy: a category is unsatisfiable exactly if it is the root of no frozen dimension.
pub fn unsatisfiable_exactly_if_none_frozen()
    ensures { UnsatisfiableExactlyIfNoneFrozen }
{}

/// In a hierarchy: every legal instance meets a constraint exactly if no frozen dimension has its root and makes its
/// formula false.
pub fn implied_exactly_if_none_frozen()
    ensures { ImpliedExactlyIfNoneFrozen }
{}

/// In a hierarchy: a constraint is redundant exactly if no frozen dimension of the schema without it makes its
/// formula false.
pub fn redundant_exactly_if_none_frozen()
    ensures { RedundantExactlyIfNoneFrozen }
{}

/// In a hierarchy: an edge is unused exactly if no frozen dimension with its child as root has it.
pub fn unused_exactly_if_none_frozen()
    ensures { UnusedExactlyIfNoneFrozen }
{}

/// In a hierarchy: a category is summarizable exactly if no bottom category has a frozen dimension whose root
/// reaches it, and not by exactly one source.
pub fn summarizable_exactly_if_none_frozen()
    ensures { SummarizableExactlyIfNoneFrozen }
{}

/// There is one counterexample at most, whichever candidates each side brings: its bottom category, its instance and
/// the place of its fact are the same, and so are the two sums.
pub fn the_counterexample_is_one()
    ensures { TheCounterexampleIsOne }
{}

/// The findings of a schema are one list.
pub fn the_findings_are_one()
    ensures { TheFindingsAreOne }
{}

/// A list of members that is an instance, with numerals where names are numbers, is legal exactly if no law and no
/// constraint is violated.
pub fn legal_exactly_if_no_violation()
    ensures { LegalExactlyIfNoViolation }
{}

/// The definitions can be met: a graph with one store below `All` is a hierarchy, and an instance of it is legal.
pub fn one_store_is_legal()
    ensures { OneStoreIsLegal }
{}

/// Summarizability is neither always so nor never: of the schema with one store below `All`, the total of `All` can be
/// taken from the stores' view, and neither from no view nor from the stores' view and its own together.
pub fn stores_are_summarizable()
    ensures { StoresAreSummarizable }
{}

/// The definitions can be met: whatever its candidates, the schema with one store below `All` has a least frozen
/// dimension, which is the counterexample to taking the total of `All` from no view.
pub fn one_store_is_counterexample()
    ensures { OneStoreIsCounterexample }
{}

/// The definitions can be met with numbers: of the schema with sizes below 10, the instance with the size 9 alone is
/// legal, there are candidates, and with all of them the instance is that of a frozen dimension.
pub fn nine_is_frozen()
    ensures { NineIsFrozen }
{}

/// A list of members that is an instance is legal exactly if each of its parts is, where every member stands in one of
/// them together with all that it reaches. So an instance that is too large can be checked part by part.
pub fn legal_exactly_if_parts_are()
    ensures { LegalExactlyIfPartsAre }
{}
