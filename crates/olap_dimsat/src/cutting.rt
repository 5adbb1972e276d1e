// The test that a trail leaves no frozen dimension.
ghost use Rattle.std.specs.Prelude.{◌≡◌, true};
ghost use Rattle.olap_ast.specs.Trees.{formula_of};
ghost use Rattle.olap_dimsat.specs.Asking.{task_of};
ghost use Rattle.olap_dimsat.specs.Knowing.{IsFalseAt};
ghost use Rattle.olap_dimsat.specs.Reads.{NoneAgrees};
ghost use Rattle.olap_dimsat.specs.Tracking.{IsTracked};

use crate::asker::{Asker, Decisions};
use crate::knowing::Known;
use olap_ast::{Formula, Truth3};
use olap_base::CatId;
use olap_clauses::Trail;
use olap_eval::holds3;

// Whether it is known that the formula is false at the category's member.
fn is_false(known: &Known<'_>, formula: &Formula, c: CatId) -> bool
    requires { IsTracked (task_of known.now.asker.now) known.now.trail.now known.now.decided.now }
    ensures { result ≡ true → IsFalseAt (task_of known.now.asker.now) known.now.trail.now c.0 (formula_of formula.now) }
{
    match holds3(formula, c, known) {
        Truth3::No => true,
        Truth3::Yes => false,
        Truth3::Unknown => false,
    }
}

/// Whether a constraint of a category that is known present, or the question at the root, is known to be false.
///
/// Cost: each formula once, with one look at a table for each atom, and a search among its constants for each name.
pub(crate) fn is_cut(a: &Asker<'_>, trail: &Trail, decided: &Decisions) -> bool
    requires { IsTracked (task_of a.now) trail.now decided.now }
    ensures { result ≡ true → NoneAgrees (task_of a.now) trail.now }
{
    let known = Known {
        asker: a,
        trail,
        decided,
    };
    'constraints: for constraint in a.question.constraints {
        if let Truth3::Yes = known.presence(constraint.root) {
            if is_false(&known, &constraint.formula, constraint.root) {
                return true;
            }
        }
    }
    is_false(&known, a.question.formula, a.question.root)
}
