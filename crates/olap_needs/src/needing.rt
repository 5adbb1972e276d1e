// The constraints that are needed.
ghost use Rattle.olap_ast.specs.Atoms.{all_comparisons, all_equalities};
ghost use Rattle.olap_ast.specs.Formula.{Formula.Not};
ghost use Rattle.olap_ast.specs.Questions.{IsImplied};
ghost use Rattle.olap_ast.specs.Summarizable.{vias};
ghost use Rattle.olap_ast.specs.Trees.{constraint_of, formula_of, numbers_of, terms_of};
ghost use Rattle.olap_base.specs.Graph.{IsCategory};
ghost use Rattle.olap_needs.specs.Listing.{IsAddedTo, ListsBelow, ListsNeeded};
ghost use Rattle.olap_needs.specs.Needs as told;
ghost use Rattle.olap_schema.specs.Schemas.{schema_of};
ghost use Rattle.std.specs.Prelude.{◌≡◌, ◌++◌, ◌∷◌, ◌↔◌, [], All, IfOk, IsTrue, OnOk, if◌then◌else◌};

use crate::laws::needs_leave_members;
use olap_ast::{Constraint, Formula, Terms};
use olap_base::{CatId, Memory};
use olap_schema::Schema;
use olap_summ::is_implied;
use std::alloc::Global;

/// What must be added to a schema so that a target is summarizable from sources.
#[derive(Drop)]
pub struct Needs {
    /// A constraint for each bottom category that needs one, in declaration order.
    pub constraints: Vec<Constraint>,
    /// Those of these categories that can then have no member.
    pub emptied: Vec<CatId>,
}

// A member of the target is reached by the source; the next source likewise; and so on.
fn ways(alloc: Global, target: CatId, sources: &[CatId]) -> Result<Terms, Memory>
    ensures { IfOk result (λ ts. terms_of ts ≡ vias target.0 (numbers_of sources.now)) }
{
    let mut terms = Terms::End;
    let mut left = sources.len();
    'sources: while left > 0 {
        left -= 1;
        let via = Box::new(alloc, Formula::Via(sources[left], target))?;
        terms = Terms::More(via, Box::new(alloc, terms)?);
    }
    Ok(terms)
}

// A member that reaches the target does so by exactly one of the sources.
fn by_one(alloc: Global, target: CatId, sources: &[CatId]) -> Result<Formula, Memory>
    ensures { IfOk result (λ f. formula_of f ≡ told.by_one target.0 (numbers_of sources.now)) }
{
    let reach = Box::new(alloc, Formula::Reach(target))?;
    let one = Box::new(alloc, Formula::One(ways(alloc, target, sources)?))?;
    Ok(Formula::Implies(reach, one))
}

// A member reaches the target, and not by exactly one of the sources.
fn not_by_one(alloc: Global, target: CatId, sources: &[CatId]) -> Result<Formula, Memory>
    ensures { IfOk result (λ f. formula_of f ≡ Not (told.by_one target.0 (numbers_of sources.now))) }
{
    let formula = by_one(alloc, target, sources)?;
    Ok(Formula::Not(Box::new(alloc, formula)?))
}

// Whether each member of the category, in every legal instance, meets its constraint.
fn is_met(
    alloc: Global,
    schema: &Schema,
    target: CatId,
    sources: &[CatId],
    b: CatId,
) -> Result<bool, Memory>
    requires target { IsCategory (schema_of schema.now).graph target.0 }
    requires sources { All (IsCategory (schema_of schema.now).graph) (numbers_of sources.now) }
    requires root { IsCategory (schema_of schema.now).graph b.0 }
    ensures { IfOk result (λ is. IsTrue is
        ↔ IsImplied (schema_of schema.now) b.0 (told.by_one target.0 (numbers_of sources.now))) }
{
    // Called for its clause: the schema is valid.
    let _valid = schema.constraints();
    let formula = by_one(alloc, target, sources)?;
    is_implied(alloc, schema, b, &formula)
}

// Whether no member of the category, in any legal instance, meets its constraint.
fn is_nowhere_met(
    alloc: Global,
    schema: &Schema,
    target: CatId,
    sources: &[CatId],
    b: CatId,
) -> Result<bool, Memory>
    requires target { IsCategory (schema_of schema.now).graph target.0 }
    requires sources { All (IsCategory (schema_of schema.now).graph) (numbers_of sources.now) }
    requires root { IsCategory (schema_of schema.now).graph b.0 }
    ensures { IfOk result (λ is. IsTrue is
        ↔ IsImplied (schema_of schema.now) b.0 (Not (told.by_one target.0 (numbers_of sources.now)))) }
{
    // Called for its clause: the schema is valid.
    let _valid = schema.constraints();
    let formula = not_by_one(alloc, target, sources)?;
    is_implied(alloc, schema, b, &formula)
}

// Adds the category, if so it is.
fn push_if(categories: &mut Vec<CatId>, b: CatId, is: bool) -> Result<(), Memory>
    ensures { OnOk result (categories.new.items
        ≡ categories.old.items ++ (if is then b ∷ [] else [])) }
{
    if is {
        categories.push(b)?;
    }
    Ok(())
}

// Adds the constraint of a bottom category that needs one.
fn add(
    alloc: Global,
    schema: &Schema,
    target: CatId,
    sources: &[CatId],
    b: CatId,
    needs: &mut Needs,
) -> Result<(), Memory>
    requires target { IsCategory (schema_of schema.now).graph target.0 }
    requires sources { All (IsCategory (schema_of schema.now).graph) (numbers_of sources.now) }
    requires root { IsCategory (schema_of schema.now).graph b.0 }
    ensures { OnOk result (IsAddedTo (schema_of schema.now) target.0 (numbers_of sources.now) b.0
        needs.old needs.new) }
{
    if !schema.graph().is_bottom(b) {
        return Ok(());
    }
    if is_met(alloc, schema, target, sources, b)? {
        return Ok(());
    }
    let emptied = is_nowhere_met(alloc, schema, target, sources, b)?;
    push_if(&mut needs.emptied, b, emptied)?;
    let formula = by_one(alloc, target, sources)?;
    needs.constraints.push(Constraint { root: b, formula })?;
    Ok(())
}

/// The constraints that are needed, in declaration order, and the categories that can then have no member. One search
/// for each bottom category, and another for each that needs a constraint. `Memory`: out of memory.
pub fn needed(
    alloc: Global,
    schema: &Schema,
    target: CatId,
    sources: &[CatId],
) -> Result<Needs, Memory>
    requires target { IsCategory (schema_of schema.now).graph target.0 }
    requires sources { All (IsCategory (schema_of schema.now).graph) (numbers_of sources.now) }
    ensures { IfOk result (ListsNeeded (schema_of schema.now) target.0 (numbers_of sources.now)) }
{
    // Called for its clause: whether a category is emptied.
    needs_leave_members();
    let mut needs = Needs {
        constraints: Vec::new(alloc),
        emptied: Vec::new(alloc),
    };
    'categories: for b in 0..schema.graph().categories() {
        add(alloc, schema, target, sources, CatId(b), &mut needs)?;
    }
    Ok(needs)
}
