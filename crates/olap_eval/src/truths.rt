// The truth of a formula at the member of its root.
ghost use Rattle.olap_ast.specs.Formula.{Holds, HasPath, ExactlyOneHolds, NoneHolds};
ghost use Rattle.olap_ast.specs.Trees.{formula_of, terms_of};
ghost use Rattle.std.specs.Prelude.{IsTrue, ◌↔◌, ℕ, map};

use crate::shapes::Shape;
use olap_ast::{Formula, Terms};
use olap_base::CatId;

/// Whether edges lead from the root through these categories.
fn follows<S: Shape>(categories: &[CatId], root: CatId, s: &S) -> bool
    requires { IsTrue (S.present s.now root.0) }
    ensures { IsTrue result ↔ HasPath (S.instance s.now) (S.place s.now root.0) (map (λ c. c.0) categories.now) }
{
    let mut at = root;
    'path: for c in categories {
        if !s.has_edge(at, *c) {
            return false;
        }
        at = *c;
    }
    true
}

/// Whether the formula is true at the member of the root, which is present.
///
/// It asks each atom at most once, but for the categories of a path, which it asks one edge after the other. It calls
/// itself as deep as the formula is, and once more for each part of a list.
#[cycle(holds)]
pub fn holds<S: Shape>(f: &Formula, root: CatId, s: &S) -> bool
    requires { IsTrue (S.present s.now root.0) }
    ensures { IsTrue result ↔ Holds (S.instance s.now) (S.place s.now root.0) (formula_of f.now) }
{
    match f {
        Formula::True => true,
        Formula::False => false,
        Formula::Path(categories) => follows(categories.items(), root, s),
        Formula::Reach(d) => s.reaches(root, *d),
        Formula::Via(d, e) => s.reaches(root, *d) && s.reaches(*d, *e),
        Formula::Equals(d, text) => s.reaches(root, *d) && s.name_is(*d, text),
        Formula::Compare(d, op, n) => s.reaches(root, *d) && s.number_is(*d, *op, *n),
        Formula::Not(g) => !holds(g, root, s),
        Formula::And(g, h) => holds(g, root, s) && holds(h, root, s),
        Formula::Or(g, h) => holds(g, root, s) || holds(h, root, s),
        Formula::Implies(g, h) => !holds(g, root, s) || holds(h, root, s),
        Formula::Iff(g, h) => holds(g, root, s) == holds(h, root, s),
        Formula::Xor(g, h) => holds(g, root, s) != holds(h, root, s),
        Formula::One(parts) => one_holds(parts, root, s),
    }
}

/// Whether exactly one of the formulas is true.
#[cycle(holds)]
fn one_holds<S: Shape>(parts: &Terms, root: CatId, s: &S) -> bool
    requires { IsTrue (S.present s.now root.0) }
    ensures { IsTrue result ↔ ExactlyOneHolds (S.instance s.now) (S.place s.now root.0) (terms_of parts.now) }
{
    match parts {
        Terms::End => false,
        Terms::More(f, rest) => {
            if holds(f, root, s) {
                none_holds(rest, root, s)
            } else {
                one_holds(rest, root, s)
            }
        }
    }
}

/// Whether none of the formulas is true.
#[cycle(holds)]
fn none_holds<S: Shape>(parts: &Terms, root: CatId, s: &S) -> bool
    requires { IsTrue (S.present s.now root.0) }
    ensures { IsTrue result ↔ NoneHolds (S.instance s.now) (S.place s.now root.0) (terms_of parts.now) }
{
    match parts {
        Terms::End => true,
        Terms::More(f, rest) => !holds(f, root, s) && none_holds(rest, root, s),
    }
}
