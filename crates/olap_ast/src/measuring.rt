// How large and how deep a formula is.
ghost use Rattle.olap_ast.specs.Trees.{formula_of, terms_of};
ghost use Rattle.olap_ast.specs.Valid.{depth_of, depth_of_terms, node_count, node_count_of_terms};
ghost use Rattle.std.specs.Prelude.{ℕ, ◌<◌, ◌^◌, ◌≡◌};

use crate::{Formula, Terms};

/// How many formulas there are in the formula, itself included. The parts of `one(..)` count, and their list doesn't.
///
/// It calls itself as deep as the formula is. Linear in the formula.
#[cycle(nodes)]
pub fn nodes(f: &Formula) -> u64
    requires { node_count (formula_of f.now) < 2 ^ 64 }
    ensures { result ≡ node_count (formula_of f.now) }
{
    match f {
        Formula::True | Formula::False => 1,
        Formula::Path(_) | Formula::Reach(_) | Formula::Via(_, _) | Formula::Equals(_, _) => 1,
        Formula::Compare(_, _, _) => 1,
        Formula::Not(f) => 1 + nodes(f),
        Formula::And(f, g) => 1 + nodes(f) + nodes(g),
        Formula::Or(f, g) => 1 + nodes(f) + nodes(g),
        Formula::Implies(f, g) => 1 + nodes(f) + nodes(g),
        Formula::Iff(f, g) => 1 + nodes(f) + nodes(g),
        Formula::Xor(f, g) => 1 + nodes(f) + nodes(g),
        Formula::One(terms) => 1 + nodes_of_terms(terms),
    }
}

#[cycle(nodes)]
fn nodes_of_terms(terms: &Terms) -> u64
    requires { node_count_of_terms (terms_of terms.now) < 2 ^ 64 }
    ensures { result ≡ node_count_of_terms (terms_of terms.now) }
{
    let mut count = 0;
    let mut left = terms;
    'parts: while let Terms::More(f, rest) = left {
        count += nodes(f);
        left = rest;
    }
    count
}

/// 1 for a leaf, else one more than the deepest part. `one()` is a leaf.
///
/// It calls itself as deep as the formula is. Linear in the formula.
#[cycle(depth)]
pub fn depth(f: &Formula) -> u64
    requires { depth_of (formula_of f.now) < 2 ^ 64 }
    ensures { result ≡ depth_of (formula_of f.now) }
{
    match f {
        Formula::True | Formula::False | Formula::Path(_) => 1,
        Formula::Reach(_) | Formula::Via(_, _) | Formula::Equals(_, _) => 1,
        Formula::Compare(_, _, _) => 1,
        Formula::Not(f) => 1 + depth(f),
        Formula::And(f, g) => 1 + depth(f).max(depth(g)),
        Formula::Or(f, g) => 1 + depth(f).max(depth(g)),
        Formula::Implies(f, g) => 1 + depth(f).max(depth(g)),
        Formula::Iff(f, g) => 1 + depth(f).max(depth(g)),
        Formula::Xor(f, g) => 1 + depth(f).max(depth(g)),
        Formula::One(terms) => 1 + depth_of_parts(terms),
    }
}

#[cycle(depth)]
fn depth_of_parts(terms: &Terms) -> u64
    requires { depth_of_terms (terms_of terms.now) < 2 ^ 64 }
    ensures { result ≡ depth_of_terms (terms_of terms.now) }
{
    let mut most = 0;
    let mut left = terms;
    'parts: while let Terms::More(f, rest) = left {
        most = most.max(depth(f));
        left = rest;
    }
    most
}
