// Which answers exist. Each law is the clause of a function that does nothing but call others.
ghost use Rattle.olap_exists.specs.Existing.{CounterexamplesExist, FindingsExist, FrozenAreListed, LeastFrozenExist};

use olap_ast::{
    candidates_exist, fresh_names_exist, redundant_exactly_if_none_frozen,
    summarizable_exactly_if_none_frozen, unsatisfiable_exactly_if_none_frozen,
    unused_exactly_if_none_frozen, valid_schemas_have_candidates,
};

/// For candidates of a schema and a question, each root has a least frozen dimension, or none at all.
pub fn least_frozen_exist()
    ensures { LeastFrozenExist }
{
    // Called for its clause: there is a fresh name.
    fresh_names_exist();
}

/// For candidates of a schema and a question, there is a list of exactly the frozen dimensions of each root, by their
/// codes.
pub fn frozen_are_listed()
    ensures { FrozenAreListed }
{
    // Called for its clause: there is a fresh name.
    fresh_names_exist();
}

/// Of a valid schema a target is summarizable from the sources, or there is a counterexample.
pub fn counterexamples_exist()
    ensures { CounterexamplesExist }
{
    // Called for their clauses.
    fresh_names_exist();
    valid_schemas_have_candidates();
    summarizable_exactly_if_none_frozen();
}

/// There is a list of exactly the findings of a valid schema.
pub fn findings_exist()
    ensures { FindingsExist }
{
    // Called for their clauses.
    fresh_names_exist();
    candidates_exist();
    unsatisfiable_exactly_if_none_frozen();
    redundant_exactly_if_none_frozen();
    unused_exactly_if_none_frozen();
}
