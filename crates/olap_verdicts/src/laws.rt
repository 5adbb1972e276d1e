// Theorems over the definitions. Each is the clause of a function that does nothing but call others.
ghost use Rattle.olap_verdicts.specs.Laws.{AcceptedIsSummarizable, AnswersAreOne, AnswersExist};

use olap_ast::valid_schemas_have_candidates;
use olap_proof::{certificates_are_right, texts_are_judged, verdicts_are_one};

/// A question about a valid schema has one status and one list of bytes at most. So "exactly if" of each answer is a
/// theorem.
pub fn answers_are_one()
    ensures { AnswersAreOne }
{
    // Called for its clause.
    verdicts_are_one();
}

/// A question about a valid schema has a status and bytes that answer it.
pub fn answers_exist()
    ensures { AnswersExist }
{
    // Called for their clauses.
    valid_schemas_have_candidates();
    texts_are_judged();
}

/// Where the answer to one about a valid schema is yes, the target is summarizable from the sources.
pub fn accepted_is_summarizable()
    ensures { AcceptedIsSummarizable }
{
    // Called for its clause.
    certificates_are_right();
}
