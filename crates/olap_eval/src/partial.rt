// Partial shapes: what is known of edges, reaching, names and numbers, and a formula's value by it.
ghost use Rattle.olap_ast.specs.ThreeValues.{IsCount};
ghost use Rattle.olap_ast.specs.Trees.{formula_of, op_of, terms_of};
ghost use Rattle.olap_ast.specs.declared.three_values.Truth3.{Truth3 as Value};
ghost use Rattle.olap_eval.specs.Partial.{Knowledge, ValuesAreTruths, value_along, value_at, values_of};
ghost use Rattle.std.specs.Prelude.{◌++◌, ◌≡◌, List, map};

use olap_ast::{Formula, OneCount, Op, Terms, Truth3};
use olap_base::{CatId, Text};

/// What is known of a shape.
pub trait Partial {
    ghost known: { Self → Knowledge };

    /// Whether both categories are present, and the member of the first is a child of the second's.
    fn edge(&self, c: CatId, d: CatId) -> Truth3
        ensures { result ≡ (known self.now).edge c.0 d.0 };

    /// Whether both categories are present, and the member of the first reaches the second's.
    fn reaches(&self, c: CatId, d: CatId) -> Truth3
        ensures { result ≡ (known self.now).reaches c.0 d.0 };

    /// Whether the category is present, and its member has this name.
    fn name(&self, c: CatId, k: &Text) -> Truth3
        ensures { result ≡ (known self.now).name c.0 k.now };

    /// Whether the category is present, and its member's number compares so with this one.
    fn number(&self, c: CatId, op: Op, n: i64) -> Truth3
        ensures { result ≡ (known self.now).number c.0 (op_of op) n };
}

/// Whether edges lead from the root through these categories.
fn along<P: Partial>(categories: &[CatId], root: CatId, p: &P) -> Truth3
    ensures { result ≡ value_along (P.known p.now) root.0 (map (λ c. c.0) categories.now) }
{
    let mut at = root;
    let mut value = Truth3::Yes;
    'path: for c in categories {
        value = value.and(p.edge(at, *c));
        at = *c;
    }
    value
}

/// What is known of the formula's truth at the member of the root: its value by the values of its atoms.
///
/// It asks each atom at most once, and none of a second part where the first one decides. It calls itself as deep as
/// the formula is, and once more for each part of a list.
#[cycle(holds3)]
pub fn holds3<P: Partial>(f: &Formula, root: CatId, p: &P) -> Truth3
    ensures { result ≡ value_at (P.known p.now) root.0 (formula_of f.now) }
{
    match f {
        Formula::True => Truth3::Yes,
        Formula::False => Truth3::No,
        Formula::Path(categories) => along(categories.items(), root, p),
        Formula::Reach(d) => p.reaches(root, *d),
        Formula::Via(d, e) => p.reaches(root, *d).and(p.reaches(*d, *e)),
        Formula::Equals(d, text) => p.reaches(root, *d).and(p.name(*d, text)),
        Formula::Compare(d, op, n) => p.reaches(root, *d).and(p.number(*d, *op, *n)),
        Formula::Not(g) => holds3(g, root, p).not(),
        Formula::And(g, h) => match holds3(g, root, p) {
            Truth3::No => Truth3::No,
            value => value.and(holds3(h, root, p)),
        },
        Formula::Or(g, h) => match holds3(g, root, p) {
            Truth3::Yes => Truth3::Yes,
            value => value.or(holds3(h, root, p)),
        },
        Formula::Implies(g, h) => match holds3(g, root, p) {
            Truth3::No => Truth3::Yes,
            value => value.implies(holds3(h, root, p)),
        },
        Formula::Iff(g, h) => holds3(g, root, p).iff(holds3(h, root, p)),
        Formula::Xor(g, h) => holds3(g, root, p).xor(holds3(h, root, p)),
        Formula::One(parts) => counted(parts, root, p, OneCount::new()).result(),
    }
}

/// The count, with the values of these formulas.
#[cycle(holds3)]
fn counted<P: Partial>(parts: &Terms, root: CatId, p: &P, count: OneCount) -> OneCount
    ensures { (xs : List Value) → IsCount xs count.yes count.unknown
        → let values = values_of (P.known p.now) root.0 (terms_of parts.now) in
        IsCount (xs ++ values) result.yes result.unknown }
{
    match parts {
        Terms::End => count,
        Terms::More(f, rest) => {
            let mut more = count;
            more.add(holds3(f, root, p));
            counted(rest, root, p, more)
        }
    }
}

/// Where a value is `Yes` or `No`, it is the truth in every shape that has what is known.
pub fn values_are_truths()
    ensures { ValuesAreTruths }
{}
