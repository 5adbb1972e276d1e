// Theorems over the definitions: each is the clause of a function that does nothing, but call others for theirs.
ghost use Rattle.olap_run.specs.Laws.{OutcomeExists, OutcomeIsOne, ProvedIsAccepted};

use olap_schema_text::{read_questions_are_valid, read_schemas_are_readable};

/// The words and the files have at most one status, and at most one list of bytes, except that there may be many
/// certificates. So "exactly if" of each answer is a theorem.
pub fn outcome_is_one()
    ensures { OutcomeIsOne }
{
    // Called for their clauses.
    olap_reasoning::answers_are_one();
    olap_plans::answers_are_one();
    olap_verdicts::answers_are_one();
    olap_cubes::answers_are_one();
    read_schemas_are_readable();
    read_questions_are_valid();
}

/// The words and the files have a status and bytes that are the outcome, where each file that the order comes to is
/// held.
pub fn outcome_exists()
    ensures { OutcomeExists }
{
    // Called for their clauses.
    olap_reasoning::answers_exist();
    olap_plans::answers_exist();
    olap_verdicts::answers_exist();
    olap_cubes::answers_exist();
    read_schemas_are_readable();
    read_questions_are_valid();
}

/// `verify` and `verify-short` accept what `prove` and `prove-short` write with status 0, from a file that holds it,
/// for the same schema, target and sources, on two conditions: it fits a certificate's file (by the clause `short` of
/// `prove` it does), and the command line, which has one more word, isn't too long.
pub fn proved_is_accepted()
    ensures { ProvedIsAccepted }
{}
