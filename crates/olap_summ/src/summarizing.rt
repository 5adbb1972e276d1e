// Views that can be computed from others.
ghost use Rattle.std.specs.Prelude.{◌≡◌, ◌≢◌, ◌↔◌, All, AllPairs, Err, IfOk, IfSome, IsNone, IsSome};
ghost use Rattle.olap_ast.specs.Summarizable.{IsSummarizable};
ghost use Rattle.olap_ast.specs.Trees.{numbers_of};
ghost use Rattle.olap_base.specs.Graph.{IsBottom, IsCategory, IsHierarchy};
ghost use Rattle.olap_base.specs.declared.refusals.Refusal.TheVariants as refusal;
ghost use Rattle.olap_dimsat.specs.Finding.{IsFoundAs};
ghost use Rattle.olap_schema.specs.Schemas.{schema_of};
ghost use Rattle.olap_summ.specs.Answers.{IsNowhere};
ghost use Rattle.olap_summ.specs.Asking.{IsFirstFound};
ghost use Rattle.olap_summ.specs.Counterexamples.{IsCounterexampleFound, IsOneCounterexampleFound};
ghost use Rattle.olap_summ.specs.Decisions.{AreQuestionsFor, asked_by, duplicate_source, sources_of, target_of};

use crate::asking::found;
use crate::{DuplicateSource, Questions};
use olap_ast::candidates_exist;
use olap_base::{CatId, Memory, Refusal};
use olap_dimsat::Wanted;
use olap_frozen::Found;
use olap_schema::Schema;
use std::alloc::Global;

// The frozen dimension of the category that is wanted for the question, if it is a bottom one.
fn found_at(
    alloc: Global,
    schema: &Schema,
    questions: &Questions,
    root: CatId,
    wanted: Wanted,
) -> Result<Option<Found>, Memory>
    requires root { IsCategory (schema_of schema.now).graph root.0 }
    requires questions { AreQuestionsFor (schema_of schema.now) questions.now }
    ensures none { IfOk result (λ o. IsNone o → IsBottom (schema_of schema.now).graph root.0
        → IsNowhere (schema_of schema.now) (asked_by questions.now) root.0) }
    ensures bottom { IfOk result (λ o. IsSome o → IsBottom (schema_of schema.now).graph root.0) }
    ensures some { IfOk result (λ o. IfSome o
        (IsFoundAs wanted (schema_of schema.now) (asked_by questions.now) root.0)) }
{
    // Called for its clauses: the schema is valid.
    let _valid = schema.constraints();
    if !schema.graph().is_bottom(root) {
        return Ok(None);
    }
    found(alloc, schema, root, &questions.formula, wanted)
}

// The frozen dimension that is wanted for the question, of the first bottom category that has one. None exactly if
// the target is summarizable from the sources.
fn first_found(
    alloc: Global,
    schema: &Schema,
    questions: &Questions,
    wanted: Wanted,
) -> Result<Option<Found>, Memory>
    requires { AreQuestionsFor (schema_of schema.now) questions.now }
    ensures none { IfOk result (λ o. IsNone o
        ↔ IsSummarizable (schema_of schema.now) (target_of questions.now) (sources_of questions.now)) }
    ensures some { IfOk result (λ o. IfSome o
        (IsFirstFound wanted (schema_of schema.now) (asked_by questions.now))) }
    ensures hierarchy { IsHierarchy (schema_of schema.now).graph }
{
    // Called for its clauses: the schema is valid.
    let _valid = schema.constraints();
    candidates_exist();
    'categories: for b in 0..schema.graph().categories() {
        let found = found_at(alloc, schema, questions, CatId(b), wanted)?;
        if found.is_some() {
            return Ok(found);
        }
    }
    Ok(None)
}

/// The counterexample to summarizability: the least frozen dimension of the first bottom category that has one whose
/// root reaches the target, and not by exactly one source. None exactly if the target is summarizable from the
/// sources: in all legal instances with all facts its view from the sources' views is its direct view.
///
/// The target may be a source, and either may be `All`. One search stands at a time, and none is made after the first
/// that finds one.
pub fn summarizable(
    alloc: Global,
    schema: &Schema,
    target: CatId,
    sources: &[CatId],
) -> Result<Option<Found>, Refusal<DuplicateSource>>
    requires target { IsCategory (schema_of schema.now).graph target.0 }
    requires sources { All (IsCategory (schema_of schema.now).graph) (numbers_of sources.now) }
    ensures duplicate { (result ≡ Err (refusal.Kind duplicate_source))
        ↔ (AllPairs ◌≢◌ (numbers_of sources.now) → ⊥) }
    ensures none { IfOk result (λ o. IsNone o
        ↔ IsSummarizable (schema_of schema.now) target.0 (numbers_of sources.now)) }
    ensures some { IfOk result (λ o. IfSome o
        (IsCounterexampleFound (schema_of schema.now) target.0 (numbers_of sources.now))) }
{
    let questions = Questions::of(alloc, schema, target, sources)?;
    let found = first_found(alloc, schema, &questions, Wanted::Least)?;
    Ok(found)
}

/// A counterexample to summarizability, where any serves: a frozen dimension of the first bottom category that has one
/// whose root reaches the target, and not by exactly one source. None exactly if the target is summarizable from the
/// sources.
///
/// The target may be a source, and either may be `All`. It makes the searches that `summarizable` makes; but each finds
/// any, so it is cheaper.
pub fn any_counterexample(
    alloc: Global,
    schema: &Schema,
    target: CatId,
    sources: &[CatId],
) -> Result<Option<Found>, Refusal<DuplicateSource>>
    requires target { IsCategory (schema_of schema.now).graph target.0 }
    requires sources { All (IsCategory (schema_of schema.now).graph) (numbers_of sources.now) }
    ensures duplicate { (result ≡ Err (refusal.Kind duplicate_source))
        ↔ (AllPairs ◌≢◌ (numbers_of sources.now) → ⊥) }
    ensures none { IfOk result (λ o. IsNone o
        ↔ IsSummarizable (schema_of schema.now) target.0 (numbers_of sources.now)) }
    ensures some { IfOk result (λ o. IfSome o
        (IsOneCounterexampleFound (schema_of schema.now) target.0 (numbers_of sources.now))) }
{
    let questions = Questions::of(alloc, schema, target, sources)?;
    let found = first_found(alloc, schema, &questions, Wanted::Any)?;
    Ok(found)
}
