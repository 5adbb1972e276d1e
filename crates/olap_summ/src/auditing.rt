// Audits: what a schema says or does for nothing.
ghost use Rattle.std.specs.Prelude.{◌≡◌, ◌≤◌, ◌<◌, ◌↔◌, Contains, IfOk, IsTrue, false, length, map, slice_index_or, true, OnOk};
ghost use Rattle.olap_ast.specs.Atoms.{all_comparisons, all_equalities};
ghost use Rattle.olap_ast.specs.Pairs.{pair_count};
ghost use Rattle.olap_ast.specs.Findings.{AreFindings, IsRedundant, IsUnsatisfiable, IsUnused};
ghost use Rattle.olap_ast.specs.Trees.{formula_of};
ghost use Rattle.olap_ast.specs.Valid.{IsFormulaAt};
ghost use Rattle.olap_base.specs.Graph.{Edge, IsCategory};
ghost use Rattle.olap_base.specs.Limits.{most_constants};
ghost use Rattle.olap_graph.specs.Lookups.{edge_at};
ghost use Rattle.olap_schema.specs.Schemas.{schema_of};
ghost use Rattle.olap_summ.specs.Answers.{IsNowhere};
ghost use Rattle.olap_summ.specs.Audits.{AreFindingsBefore, finding_of, redundant, unsatisfiable, unused};
ghost use Rattle.olap_summ.specs.Sights.{AreAllSettled, IsSeen, Keeps};

use crate::asking::found;
use crate::implying::is_implied;
use crate::seeing::Seen;
use olap_ast::Formula;
use olap_base::{CatId, EdgeId, List, Memory};
use olap_dimsat::Wanted;
use olap_schema::Schema;
use std::alloc::Global;

/// What an audit finds.
#[derive(Clone, Copy, PartialEq, Eq)]
pub enum Finding {
    /// No legal instance has a member in the category.
    Unsatisfiable(CatId),
    /// Every legal instance of the schema without this constraint, counted from 1, meets it.
    Redundant(u16),
    /// In no legal instance a member of the edge's child lies directly below one of its parent.
    Unused(EdgeId),
}

// Whether the question is true at some member of the root in some legal instance; what was found is marked.
fn ask(
    alloc: Global,
    schema: &Schema,
    root: CatId,
    question: &Formula,
    seen: &mut Seen,
) -> Result<bool, Memory>
    requires root { IsCategory (schema_of schema.now).graph root.0 }
    requires question { IsFormulaAt (schema_of schema.now).graph root.0 (formula_of question.now) }
    requires few { pair_count (all_equalities (schema_of schema.now) (formula_of question.now))
        (all_comparisons (schema_of schema.now) (formula_of question.now)) ≤ most_constants }
    requires seen { IsSeen (schema_of schema.now) seen.old }
    ensures no { IfOk result (λ b. b ≡ false ↔ IsNowhere (schema_of schema.now) (formula_of question.now) root.0) }
    ensures yes { IfOk result (λ b. b ≡ true → slice_index_or seen.new.categories.items root.0 false ≡ true) }
    ensures seen { OnOk result (IsSeen (schema_of schema.now) seen.new) }
    ensures kept { OnOk result (Keeps seen.old seen.new) }
{
    match found(alloc, schema, root, question, Wanted::Any)? {
        Some(found) => {
            seen.note(schema, &found);
            Ok(true)
        }
        None => Ok(false),
    }
}

// Whether the category can have a member: it was seen so, or it is asked.
fn can_have_member(
    alloc: Global,
    schema: &Schema,
    c: CatId,
    seen: &mut Seen,
) -> Result<bool, Memory>
    requires category { IsCategory (schema_of schema.now).graph c.0 }
    requires seen { IsSeen (schema_of schema.now) seen.old }
    ensures no { IfOk result (λ b. b ≡ false → IsUnsatisfiable (schema_of schema.now) c.0) }
    ensures yes { IfOk result (λ b. b ≡ true → slice_index_or seen.new.categories.items c.0 false ≡ true) }
    ensures seen { OnOk result (IsSeen (schema_of schema.now) seen.new) }
    ensures kept { OnOk result (Keeps seen.old seen.new) }
{
    if seen.categories[usize::from(c.0)] {
        return Ok(true);
    }
    // Called for its clauses: the schema is valid.
    let _valid = schema.constraints();
    ask(alloc, schema, c, &Formula::True, seen)
}

// Adds the declared categories that can't have a member. Each category is then known.
fn add_unsatisfiable(
    alloc: Global,
    schema: &Schema,
    seen: &mut Seen,
    findings: &mut Vec<Finding>,
) -> Result<(), Memory>
    requires seen { IsSeen (schema_of schema.now) seen.old }
    requires before { AreFindingsBefore (schema_of schema.now) unsatisfiable 1 (map finding_of findings.old.items) }
    ensures seen { OnOk result (IsSeen (schema_of schema.now) seen.new) }
    ensures settled { OnOk result (AreAllSettled (schema_of schema.now) seen.new) }
    ensures added { OnOk result
        (AreFindingsBefore (schema_of schema.now) redundant 1 (map finding_of findings.new.items)) }
{
    'categories: for c in 1..schema.graph().categories() {
        if !can_have_member(alloc, schema, CatId(c), seen)? {
            findings.push(Finding::Unsatisfiable(CatId(c)))?;
        }
    }
    Ok(())
}

// Whether the constraint at this place follows from the others.
fn is_redundant(alloc: Global, schema: &Schema, k: usize) -> Result<bool, Memory>
    requires { k < length (schema_of schema.now).constraints }
    ensures { IfOk result (λ b. IsTrue b ↔ IsRedundant (schema_of schema.now) k) }
{
    let others = schema.without(k)?;
    let constraint = &schema.constraints()[k];
    is_implied(alloc, &others, constraint.root, &constraint.formula)
}

// Adds the constraints that follow from the others.
fn add_redundant(alloc: Global, schema: &Schema, findings: &mut Vec<Finding>) -> Result<(), Memory>
    requires before { AreFindingsBefore (schema_of schema.now) redundant 1 (map finding_of findings.old.items) }
    ensures added { OnOk result
        (AreFindingsBefore (schema_of schema.now) unused 0 (map finding_of findings.new.items)) }
{
    'constraints: for k in 0..schema.constraints().len() {
        if is_redundant(alloc, schema, k)? {
            findings.push(Finding::Redundant(k as u16 + 1))?;
        }
    }
    Ok(())
}

// Whether some legal instance uses the edge, as it is asked; what was found is marked.
fn is_used(
    alloc: Global,
    schema: &Schema,
    child: CatId,
    parent: CatId,
    seen: &mut Seen,
) -> Result<bool, Memory>
    requires edge { Contains (schema_of schema.now).graph.edges (record { child = child.0; parent = parent.0 }) }
    requires seen { IsSeen (schema_of schema.now) seen.old }
    ensures no { let edge : Edge = record { child = child.0; parent = parent.0 } in
        IfOk result (λ b. b ≡ false ↔ IsUnused (schema_of schema.now) edge) }
    ensures seen { OnOk result (IsSeen (schema_of schema.now) seen.new) }
    ensures kept { OnOk result (Keeps seen.old seen.new) }
{
    // Called for its clauses: the schema is valid.
    let _valid = schema.constraints();
    let mut path = Vec::new(alloc);
    path.push(parent)?;
    let question = Formula::Path(List::from_vec(path));
    ask(alloc, schema, child, &question, seen)
}

// Whether some legal instance uses the edge: it was seen in use, or it is asked. No question is asked where an end
// can't have a member.
fn can_be_used(alloc: Global, schema: &Schema, e: EdgeId, seen: &mut Seen) -> Result<bool, Memory>
    requires edge { e.0 < length (schema_of schema.now).graph.edges }
    requires seen { IsSeen (schema_of schema.now) seen.old }
    requires settled { AreAllSettled (schema_of schema.now) seen.old }
    ensures no { IfOk result (λ b. b ≡ false → IsUnused (schema_of schema.now)
        (edge_at (schema_of schema.now).graph e.0)) }
    ensures yes { IfOk result (λ b. b ≡ true → IsUnused (schema_of schema.now)
        (edge_at (schema_of schema.now).graph e.0) → ⊥) }
    ensures seen { OnOk result (IsSeen (schema_of schema.now) seen.new) }
    ensures settled { OnOk result (AreAllSettled (schema_of schema.now) seen.new) }
{
    if seen.edges[usize::from(e.0)] {
        return Ok(true);
    }
    let (child, parent) = schema.graph().ends(e);
    if seen.lacks(child) || seen.lacks(parent) {
        return Ok(false);
    }
    is_used(alloc, schema, child, parent, seen)
}

// Adds the edges that no legal instance uses.
fn add_unused(
    alloc: Global,
    schema: &Schema,
    seen: &mut Seen,
    findings: &mut Vec<Finding>,
) -> Result<(), Memory>
    requires seen { IsSeen (schema_of schema.now) seen.old }
    requires settled { AreAllSettled (schema_of schema.now) seen.old }
    requires before { AreFindingsBefore (schema_of schema.now) unused 0 (map finding_of findings.old.items) }
    ensures added { OnOk result (AreFindings (schema_of schema.now) (map finding_of findings.new.items)) }
{
    'edges: for e in 0..schema.graph().edges() {
        if !can_be_used(alloc, schema, EdgeId(e), seen)? {
            findings.push(Finding::Unused(EdgeId(e)))?;
        }
    }
    Ok(())
}

/// What the schema says or does for nothing: the declared categories that can't have a member, the constraints that
/// follow from the others, and the edges that no legal instance uses, each in declaration order.
///
/// What one answer shows isn't asked again: a frozen dimension that was found settles its categories and its edges.
pub fn audit(alloc: Global, schema: &Schema) -> Result<List<Finding>, Memory>
    ensures findings { IfOk result (λ list. AreFindings (schema_of schema.now) (map finding_of list)) }
{
    let mut seen = Seen::nothing(alloc, schema)?;
    let mut findings = Vec::new(alloc);
    add_unsatisfiable(alloc, schema, &mut seen, &mut findings)?;
    add_redundant(alloc, schema, &mut findings)?;
    add_unused(alloc, schema, &mut seen, &mut findings)?;
    Ok(List::from_vec(findings))
}
