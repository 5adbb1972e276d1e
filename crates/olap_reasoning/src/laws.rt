// Theorems over the definitions. Each is the clause of a function that does nothing but call others.
ghost use Rattle.olap_reasoning.specs.Existing.{AnswersExist};
ghost use Rattle.olap_reasoning.specs.Laws.{AllFrozenAreOne, AnswersAreOne, FindingsAreOne, TooManyAreNotListed};
ghost use Rattle.olap_reasoning.specs.ShapeLaws.{EachShapeIsListedOnce, ShapesAreOne, TooManyShapesAreNotListed};

use olap_ast::{
    implied_exactly_if_none_frozen, unsatisfiable_exactly_if_none_frozen,
    valid_schemas_have_candidates,
};
use olap_exists::{counterexamples_exist, findings_exist, frozen_are_listed, least_frozen_exist};
use olap_needs::needs_leave_members;
use olap_proof::certificates_exist_exactly_where_summarizable;

/// A question has one status at most, and one list of bytes, but that a yes may have many certificates. So "exactly if"
/// of each answer is a theorem.
pub fn answers_are_one()
    ensures { AnswersAreOne }
{}

/// A question about a valid schema, and a formula of it, has a status and bytes that answer it.
pub fn answers_exist()
    ensures { AnswersExist }
{
    // Called for their clauses.
    least_frozen_exist();
    frozen_are_listed();
    counterexamples_exist();
    findings_exist();
    valid_schemas_have_candidates();
    unsatisfiable_exactly_if_none_frozen();
    implied_exactly_if_none_frozen();
    certificates_exist_exactly_where_summarizable();
    needs_leave_members();
}

/// All frozen dimensions with a root for a question are one list, whichever candidates are taken.
pub fn all_frozen_are_one()
    ensures { AllFrozenAreOne }
{}

/// If there are more frozen dimensions than may be listed, no list has all.
pub fn too_many_are_not_listed()
    ensures { TooManyAreNotListed }
{}

/// The least frozen dimensions of all shapes of a root are one list, whichever candidates are taken.
pub fn shapes_are_one()
    ensures { ShapesAreOne }
{}

/// No shape is listed twice, and the edges of each frozen dimension are those of one that is listed.
pub fn each_shape_is_listed_once()
    ensures { EachShapeIsListedOnce }
{}

/// If there are more shapes than may be listed, no list has all.
pub fn too_many_shapes_are_not_listed()
    ensures { TooManyShapesAreNotListed }
{}

/// The findings of a schema are one list.
pub fn findings_are_one()
    ensures { FindingsAreOne }
{}
