// The verifier of certificates.
ghost use Rattle.std.specs.Prelude.{◌≡◌, ◌≢◌, ◌≤◌, ◌<◌, ◌^◌, ◌↔◌, ℕ, All, AllPairs, Err, OnOk, length, map};
ghost use Rattle.olap_ast.specs.Summarizable.{IsSummarizable};
ghost use Rattle.olap_base.specs.Graph.{IsCategory};
ghost use Rattle.olap_base.specs.Limits.{most_constraints};
ghost use Rattle.olap_names.specs.Names.{CanBeNamed, with_graph};
ghost use Rattle.olap_proof.specs.Asking.{IsAsked, names_in, question_in, schema_in};
ghost use Rattle.olap_proof.specs.Certificates.{IsCertificateText, IsFirstWrong};
ghost use Rattle.olap_proof.specs.Verifying.{IsCertificateFor, IsCertificateOf, IsFirstWrongFor, IsFirstWrongOf};
ghost use Rattle.olap_ast.specs.Trees.{constraint_of, formula_of, numbers_of};
ghost use Rattle.olap_base.specs.declared.refusals.Refusal.TheVariants as refusal;
ghost use Rattle.olap_proof.specs.declared.verifying.VerifyFault.TheVariants as fault;
ghost use Rattle.olap_schema.specs.Schemas.{schema_of};

use crate::Form;
use crate::asking::Asked;
use crate::judging::first_wrong;
use olap_ast::{Constraint, Formula, are_distinct, not_by_one};
use olap_base::{CatId, Refusal};
use olap_graph::Graph;
use olap_names::Candidates;
use olap_schema::Schema;
use std::alloc::Global;

/// Why a text isn't accepted, in the order in which it is tested.
#[derive(Clone, Copy, PartialEq, Eq, Debug)]
pub enum VerifyFault {
    /// A source stands twice.
    DuplicateSource,
    /// The text is no certificate: this line, from 1 on, is the first that is wrong after those above it. A text that
    /// ends too early is wrong at the line after its last.
    Rejected { line: u64 },
}

/// Accepts exactly the certificates of that form for what is asked.
fn judge_asked(
    alloc: Global,
    asked: &Asked<'_>,
    form: Form,
    text: &[u8],
) -> Result<(), Refusal<VerifyFault>>
    requires asked { IsAsked asked.now }
    requires few { length (schema_in asked.now).constraints < 2 ^ 64 }
    ensures duplicate { result ≢ Err (refusal.Kind fault.DuplicateSource) }
    ensures ok { OnOk result
        (IsCertificateText form (schema_in asked.now) (question_in asked.now) (names_in asked.now) text.now) }
    ensures rejected { (line : ℕ) → result ≡ Err (refusal.Kind (fault.Rejected line))
        → IsFirstWrong form (schema_in asked.now) (question_in asked.now) (names_in asked.now) text.now line }
{
    match first_wrong(alloc, asked, form, text)? {
        None => Ok(()),
        Some(line) => Err(Refusal::Kind(VerifyFault::Rejected { line })),
    }
}

/// Accepts exactly the certificates of that form for this question, of a schema with this graph and these constraints.
fn judge(
    alloc: Global,
    graph: &Graph,
    constraints: &[Constraint],
    question: &Formula,
    form: Form,
    text: &[u8],
) -> Result<(), Refusal<VerifyFault>>
    requires named { CanBeNamed graph.now (map constraint_of constraints.now) (formula_of question.now) }
    requires few { length constraints.now ≤ most_constraints }
    ensures duplicate { result ≢ Err (refusal.Kind fault.DuplicateSource) }
    ensures ok { OnOk result (IsCertificateOf form (with_graph graph.now (map constraint_of constraints.now))
        (formula_of question.now) text.now) }
    ensures rejected { (line : ℕ) → result ≡ Err (refusal.Kind (fault.Rejected line))
        → IsFirstWrongOf form (with_graph graph.now (map constraint_of constraints.now)) (formula_of question.now)
        text.now line }
{
    // Called for its clauses: the graph is a hierarchy.
    let _count = graph.categories();
    let candidates = Candidates::of(alloc, graph, constraints, question)?;
    let asked = Asked {
        graph,
        constraints,
        question,
        candidates: &candidates,
    };
    judge_asked(alloc, &asked, form, text)
}

/// Accepts the text exactly if it is a certificate of that form, which says why the target is summarizable from the
/// sources. Nothing is searched: each line is checked where it stands, in one pass.
///
/// `DuplicateSource`: exactly if a source stands twice. `Rejected`: the line is the first that is wrong after those
/// above it. The target may be a source, and either may be `All`. Cost: for each line that splits or closes what is
/// open a walk of the schema's edges, or a formula; the memory is that of the decisions above a place, whatever the
/// text's length.
pub fn verify(
    alloc: Global,
    schema: &Schema,
    form: Form,
    target: CatId,
    sources: &[CatId],
    text: &[u8],
) -> Result<(), Refusal<VerifyFault>>
    requires target { IsCategory (schema_of schema.now).graph target.0 }
    requires sources { All (IsCategory (schema_of schema.now).graph) (numbers_of sources.now) }
    ensures duplicate { (result ≡ Err (refusal.Kind fault.DuplicateSource))
        ↔ (AllPairs ◌≢◌ (numbers_of sources.now) → ⊥) }
    ensures ok { OnOk result
        (IsCertificateFor form (schema_of schema.now) target.0 (numbers_of sources.now) text.now) }
    ensures rejected { (line : ℕ) → result ≡ Err (refusal.Kind (fault.Rejected line))
        → IsFirstWrongFor form (schema_of schema.now) target.0 (numbers_of sources.now) text.now line }
    ensures summarizable { OnOk result
        (IsSummarizable (schema_of schema.now) target.0 (numbers_of sources.now)) }
{
    if !are_distinct(sources) {
        return Err(Refusal::Kind(VerifyFault::DuplicateSource));
    }
    let question = not_by_one(alloc, target, sources)?;
    judge(
        alloc,
        schema.graph(),
        schema.constraints(),
        &question,
        form,
        text,
    )
}
