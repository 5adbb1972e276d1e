// Constraints that hold in all legal instances.
ghost use Rattle.std.specs.Prelude.{◌≡◌, ◌≤◌, ◌↔◌, IfOk, IfSome, IsNone, IsTrue, length};
ghost use Rattle.olap_ast.specs.Atoms.{all_comparisons, all_equalities};
ghost use Rattle.olap_ast.specs.Pairs.{pair_count};
ghost use Rattle.olap_ast.specs.Formula as Meaning;
ghost use Rattle.olap_ast.specs.Questions.{IsImplied};
ghost use Rattle.olap_ast.specs.Trees.{formula_of};
ghost use Rattle.olap_ast.specs.Valid.{IsFormulaAt};
ghost use Rattle.olap_base.specs.Graph.{IsCategory};
ghost use Rattle.olap_base.specs.Limits.{most_constants};
ghost use Rattle.olap_frozen.specs.LeastFound.{IsLeastFound};
ghost use Rattle.olap_schema.specs.Schemas.{schema_of};
ghost use Rattle.olap_summ.specs.Answers.{IsNowhere};

use crate::asking::found;
use olap_ast::{Formula, copy};
use olap_base::{CatId, Memory};
use olap_dimsat::Wanted;
use olap_frozen::Found;
use olap_schema::Schema;
use std::alloc::Global;

// The formula's negation.
fn negation(alloc: Global, f: &Formula) -> Result<Formula, Memory>
    ensures { IfOk result (λ q. formula_of q ≡ Meaning.Formula.Not (formula_of f.now)) }
{
    let part = Box::new(alloc, copy(alloc, f)?)?;
    Ok(Formula::Not(part))
}

/// The least frozen dimension whose root makes the formula false. None exactly if every legal instance meets the
/// constraint of this root and formula.
pub fn implies(
    alloc: Global,
    schema: &Schema,
    root: CatId,
    f: &Formula,
) -> Result<Option<Found>, Memory>
    requires root { IsCategory (schema_of schema.now).graph root.0 }
    requires formula { IsFormulaAt (schema_of schema.now).graph root.0 (formula_of f.now) }
    requires few { pair_count (all_equalities (schema_of schema.now) (formula_of f.now))
        (all_comparisons (schema_of schema.now) (formula_of f.now)) ≤ most_constants }
    ensures none { IfOk result (λ o. IsNone o ↔ IsImplied (schema_of schema.now) root.0 (formula_of f.now)) }
    ensures some { IfOk result (λ o. IfSome o
        (IsLeastFound (schema_of schema.now) (Meaning.Formula.Not (formula_of f.now)) root.0)) }
{
    let negated = negation(alloc, f)?;
    found(alloc, schema, root, &negated, Wanted::Least)
}

// Whether the formula is true at no member of the root in any legal instance.
fn is_nowhere(alloc: Global, schema: &Schema, root: CatId, f: &Formula) -> Result<bool, Memory>
    requires root { IsCategory (schema_of schema.now).graph root.0 }
    requires formula { IsFormulaAt (schema_of schema.now).graph root.0 (formula_of f.now) }
    requires few { pair_count (all_equalities (schema_of schema.now) (formula_of f.now))
        (all_comparisons (schema_of schema.now) (formula_of f.now)) ≤ most_constants }
    ensures { IfOk result (λ b. IsTrue b ↔ IsNowhere (schema_of schema.now) (formula_of f.now) root.0) }
{
    let found = found(alloc, schema, root, f, Wanted::Any)?;
    Ok(found.is_none())
}

/// Whether every legal instance meets the constraint of this root and formula.
///
/// It looks for any frozen dimension whose root makes the formula false, so it is cheaper than `implies`.
pub fn is_implied(alloc: Global, schema: &Schema, root: CatId, f: &Formula) -> Result<bool, Memory>
    requires root { IsCategory (schema_of schema.now).graph root.0 }
    requires formula { IsFormulaAt (schema_of schema.now).graph root.0 (formula_of f.now) }
    requires few { pair_count (all_equalities (schema_of schema.now) (formula_of f.now))
        (all_comparisons (schema_of schema.now) (formula_of f.now)) ≤ most_constants }
    ensures { IfOk result (λ b. IsTrue b ↔ IsImplied (schema_of schema.now) root.0 (formula_of f.now)) }
{
    let negated = negation(alloc, f)?;
    is_nowhere(alloc, schema, root, &negated)
}
