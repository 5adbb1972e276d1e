// Constraints, each at all members of its root.
ghost use Rattle.std.specs.Prelude.{◌≡◌, ◌<◌, length, map, ℕ, Contains, IfOk, IfSome, IsNone};
ghost use Rattle.olap_ast.specs.Formula.{Holds};
ghost use Rattle.olap_ast.specs.Schema.{Constraint as TheConstraint, Meets};
ghost use Rattle.olap_ast.specs.Trees.{constraint_of, formula_of};
ghost use Rattle.olap_base.specs.Instance.{IsMemberOf};
ghost use Rattle.olap_check.specs.Groups.{IsGroup};
ghost use Rattle.olap_check.specs.Meeting.{IsFirstUnmet, IsFirstViolated};
ghost use Rattle.olap_legal.specs.Rows.{IsBounded};
ghost use Rattle.olap_check.specs.Seen.{IsSeen};
ghost use Rattle.olap_legal.specs.Tables.{IsTable};

use crate::blocks::Block;
use crate::grouping::Groups;
use crate::places::{WIDTH, all_places};
use crate::seen::Seen;
use olap_ast::{Constraint, Formula};
use olap_base::{CatId, Memory};
use olap_instance::Instance;
use olap_legal::Table;
use std::alloc::Global;

/// The first member of the root at which the formula is false. The root's members are told.
fn first_unmet(
    instance: &Instance,
    table: &Table,
    categories: u16,
    root: CatId,
    group: &[u32],
    formula: &Formula,
    seen: &mut Seen,
) -> Option<u32>
    requires bounded { IsBounded instance.now categories }
    requires table { IsTable instance.now categories (length instance.now) table.now }
    requires group { IsGroup instance.now root.0 group.now }
    requires seen { IsSeen instance.now seen.old }
    ensures seen { IsSeen instance.now seen.new }
    ensures some { IfSome result (IsFirstUnmet instance.now root.0 (formula_of formula.now)) }
    ensures none { IsNone result → (x : ℕ) → IsMemberOf instance.now root.0 x
        → Holds instance.now x (formula_of formula.now) }
{
    let all = all_places();
    let count = group.len();
    'steps: for step in 0..count.div_ceil(WIDTH) {
        let start = step * WIDTH;
        let end = count.min(start + WIDTH);
        let part = &group[start..end];
        let block = Block {
            instance,
            table,
            categories,
            root,
            start,
            part,
            all,
        };
        if let Some(x) = block.first_unmet(formula, seen) {
            return Some(x);
        }
    }
    None
}

/// The place of the first constraint that isn't met, and the first member at which it isn't.
///
/// Cost: the members; for each constraint at those of its root its distinct names and pairs of categories; and its
/// nodes, with each category of a path, once for 1,024 of them.
pub(crate) fn first_violated(
    alloc: Global,
    instance: &Instance,
    table: &Table,
    categories: u16,
    constraints: &[Constraint],
) -> Result<Option<(usize, u32)>, Memory>
    requires bounded { IsBounded instance.now categories }
    requires table { IsTable instance.now categories (length instance.now) table.now }
    ensures some { let all = map constraint_of constraints.now in
        IfOk result (λ r. IfSome r (λ s. IsFirstViolated instance.now all s.0 s.1)) }
    ensures none { IfOk result (λ r. IsNone r → (c : TheConstraint) → Contains (map constraint_of constraints.now) c
        → Meets instance.now c) }
{
    let groups = Groups::of(alloc, instance, categories)?;
    let mut seen = Seen::new(alloc, constraints)?;
    'constraints: for (k, constraint) in constraints.iter().enumerate() {
        let root = constraint.root;
        let group = groups.group(root);
        let formula = &constraint.formula;
        if let Some(x) = first_unmet(instance, table, categories, root, group, formula, &mut seen) {
            return Ok(Some((k, x)));
        }
    }
    Ok(None)
}
