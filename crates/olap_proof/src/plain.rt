// The plain certificate: for each bottom category a tree that is grown with nothing learnt.
ghost use Rattle.std.specs.Prelude.{◌≡◌, ◌≤◌, ◌∷◌, [], ℕ, All, IfOk, OnOk, length, map};
ghost use Rattle.olap_ast.specs.Summarizable.{IsSummarizable};
ghost use Rattle.olap_ast.specs.Frozen.{Frozen, IsFrozen};
ghost use Rattle.olap_base.specs.Graph.{IsBottom, IsCategory};
ghost use Rattle.olap_base.specs.Limits.{most_certificate_bytes};
ghost use Rattle.olap_names.specs.Names.{CanBeNamed, with_graph};
ghost use Rattle.olap_proof.specs.Asking.{IsAsked, names_in, question_in, schema_in};
ghost use Rattle.olap_proof.specs.Certificates.{IsCertificateText, Open.Bottom};
ghost use Rattle.olap_proof.specs.Trees.{Adds, HasNoFrozen};
ghost use Rattle.olap_proof.specs.Verifying.{IsCertificateFor, IsCertificateOf};
ghost use Rattle.olap_ast.specs.Trees.{constraint_of, formula_of, numbers_of};
ghost use Rattle.olap_schema.specs.Schemas.{schema_of};

use crate::Form;
use crate::asking::Asked;
use crate::cases::Case;
use crate::growing::grow;
use crate::writing::{push_bottom, push_head};
use olap_ast::{Constraint, Formula, not_by_one};
use olap_base::{CatId, MOST_CERTIFICATE_BYTES, Memory, Text};
use olap_graph::Graph;
use olap_names::Candidates;
use olap_schema::Schema;
use std::alloc::Global;

/// Appends the tree of a bottom category that has no frozen dimension for the question, below the line above it.
fn push_tree(
    alloc: Global,
    asked: &Asked<'_>,
    form: Form,
    root: CatId,
    out: &mut Vec<u8>,
) -> Result<(), Memory>
    requires asked { IsAsked asked.now }
    requires root { IsCategory asked.now.graph.now root.0 }
    requires none { (f : Frozen) → IsFrozen (schema_in asked.now) (question_in asked.now) root.0 (names_in asked.now) f
        → ⊥ }
    ensures { OnOk result (Adds form (schema_in asked.now) (question_in asked.now) (names_in asked.now)
        (Bottom root.0 ∷ []) out.old.items out.new.items) }
{
    push_bottom(out, asked.graph, root)?;
    let mut case = Case::start(alloc, asked.graph, root)?;
    grow(&mut case, asked, form, out)
}

/// Appends a certificate, if no bottom category has a frozen dimension for the question.
fn push_all(alloc: Global, asked: &Asked<'_>, form: Form, out: &mut Vec<u8>) -> Result<(), Memory>
    requires asked { IsAsked asked.now }
    requires none { (b : ℕ) → IsBottom asked.now.graph.now b → (f : Frozen)
        → IsFrozen (schema_in asked.now) (question_in asked.now) b (names_in asked.now) f → ⊥ }
    requires empty { out.old.items ≡ [] }
    ensures { OnOk result (IsCertificateText form (schema_in asked.now) (question_in asked.now) (names_in asked.now)
        out.new.items) }
{
    push_head(out, form)?;
    'categories: for b in 1..asked.graph.categories() {
        let root = CatId(b);
        if asked.graph.is_bottom(root) {
            push_tree(alloc, asked, form, root, out)?;
        }
    }
    Ok(())
}

/// A certificate, if no bottom category has a frozen dimension for the question.
fn plain(alloc: Global, asked: &Asked<'_>, form: Form) -> Result<Text, Memory>
    requires asked { IsAsked asked.now }
    requires none { (b : ℕ) → IsBottom asked.now.graph.now b → (f : Frozen)
        → IsFrozen (schema_in asked.now) (question_in asked.now) b (names_in asked.now) f → ⊥ }
    ensures certificate { IfOk result (λ text.
        IsCertificateText form (schema_in asked.now) (question_in asked.now) (names_in asked.now) text) }
    ensures short { IfOk result (λ text. length text ≤ most_certificate_bytes) }
{
    let mut out = Vec::new(alloc);
    push_all(alloc, asked, form, &mut out)?;
    if out.len() as u64 > MOST_CERTIFICATE_BYTES {
        return Err(Memory::full(&out));
    }
    Ok(Text::from_vec(out))
}

/// The same of a schema with this graph and these constraints, and of the names that the question and they speak of.
fn plain_by_names(
    alloc: Global,
    graph: &Graph,
    constraints: &[Constraint],
    question: &Formula,
    form: Form,
) -> Result<Text, Memory>
    requires named { CanBeNamed graph.now (map constraint_of constraints.now) (formula_of question.now) }
    requires none { HasNoFrozen (with_graph graph.now (map constraint_of constraints.now)) (formula_of question.now) }
    ensures certificate { IfOk result (IsCertificateOf form (with_graph graph.now (map constraint_of constraints.now))
        (formula_of question.now)) }
    ensures short { IfOk result (λ text. length text ≤ most_certificate_bytes) }
{
    // Called for its clauses: the graph is a hierarchy.
    let _count = graph.categories();
    let candidates = Candidates::of(alloc, graph, constraints, question)?;
    let asked = Asked {
        graph,
        constraints,
        question,
        candidates: &candidates,
    };
    plain(alloc, &asked, form)
}

/// A certificate of that form, if the target is summarizable from the sources, written by going through all cases.
///
/// It may take as long as there are choices of edges and names, and be as long. `Memory`: out of memory, or it would be
/// longer than a file may be, so that nobody could hand it to `verify`.
pub fn plain_certificate(
    alloc: Global,
    schema: &Schema,
    form: Form,
    target: CatId,
    sources: &[CatId],
) -> Result<Text, Memory>
    requires target { IsCategory (schema_of schema.now).graph target.0 }
    requires sources { All (IsCategory (schema_of schema.now).graph) (numbers_of sources.now) }
    requires summarizable { IsSummarizable (schema_of schema.now) target.0 (numbers_of sources.now) }
    ensures certificate { IfOk result (IsCertificateFor form (schema_of schema.now) target.0 (numbers_of sources.now)) }
    ensures short { IfOk result (λ text. length text ≤ most_certificate_bytes) }
{
    let question = not_by_one(alloc, target, sources)?;
    plain_by_names(alloc, schema.graph(), schema.constraints(), &question, form)
}
