// Theorems over the definitions. Each is the clause of a function that does nothing but call others.
ghost use Rattle.olap_plans.specs.Existing.{AnswersExist};
ghost use Rattle.olap_plans.specs.Laws.{AnswersAreOne, PlanIsOne, PlansGiveDirectViews};

use olap_ast::summarizable_exactly_if_none_frozen;
use olap_exists::counterexamples_exist;
use olap_generate::{an_input_is_made, regions_are_served};
use olap_schema_text::read_schemas_are_valid;

/// A question has one status and one list of bytes at most. So "exactly if" of each answer is a theorem.
pub fn answers_are_one()
    ensures { AnswersAreOne }
{}

/// A question about a valid schema, or a size that may be asked for, has a status and bytes that answer it.
pub fn answers_exist()
    ensures { AnswersExist }
{
    // Called for their clauses.
    counterexamples_exist();
    summarizable_exactly_if_none_frozen();
    read_schemas_are_valid();
    an_input_is_made();
    regions_are_served();
}

/// A target has one plan at most.
pub fn plan_is_one()
    ensures { PlanIsOne }
{}

/// If the stored views are the direct views of one fact table on a legal instance, a plan gives the direct view of its
/// target.
pub fn plans_give_direct_views()
    ensures { PlansGiveDirectViews }
{}
