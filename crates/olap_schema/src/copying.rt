// The constraints of a schema but one.
ghost use Rattle.olap_ast.specs.Trees.{constraint_of};
ghost use Rattle.std.specs.Prelude.{◌≡◌, ◌<◌, ◌++◌, IfOk, OnOk, length, map, remove};

use olap_ast::{Constraint, copy};
use olap_base::Memory;
use std::alloc::Global;

/// Adds equal constraints, in their order.
fn add_copies(
    alloc: Global,
    constraints: &[Constraint],
    copied: &mut Vec<Constraint>,
) -> Result<(), Memory>
    ensures { OnOk result (map constraint_of copied.new.items
        ≡ map constraint_of copied.old.items ++ map constraint_of constraints.now) }
{
    'constraints: for constraint in constraints {
        let formula = copy(alloc, &constraint.formula)?;
        copied.push(Constraint {
            root: constraint.root,
            formula,
        })?;
    }
    Ok(())
}

/// Equal constraints, without the one at this place.
pub(crate) fn others(
    alloc: Global,
    constraints: &[Constraint],
    index: usize,
) -> Result<Vec<Constraint>, Memory>
    requires { index < length constraints.now }
    ensures { IfOk result (λ copied. map constraint_of copied.items
        ≡ remove (map constraint_of constraints.now) index) }
{
    let mut copied = Vec::new(alloc);
    add_copies(alloc, &constraints[..index], &mut copied)?;
    add_copies(alloc, &constraints[index + 1..], &mut copied)?;
    Ok(copied)
}
