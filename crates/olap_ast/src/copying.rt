// An equal formula.
ghost use Rattle.olap_ast.specs.Trees.{formula_of, terms_of};
ghost use Rattle.olap_ast.specs.Formula as Meaning;
ghost use Rattle.olap_ast.specs.Listing.{parts_before};
ghost use Rattle.std.specs.Prelude.{◌≡◌, IfOk, map};

use crate::{Formula, Terms};
use olap_base::{CatId, List, Memory, Text};
use std::alloc::Global;

/// An equal formula. `Memory` if there is no room for it.
///
/// It calls itself as deep as the formula is. Linear in the formula.
#[cycle(copy)]
pub fn copy(alloc: Global, f: &Formula) -> Result<Formula, Memory>
    ensures { IfOk result (λ g. formula_of g ≡ formula_of f.now) }
{
    match f {
        Formula::True => Ok(Formula::True),
        Formula::False => Ok(Formula::False),
        Formula::Path(categories) => Ok(Formula::Path(copy_path(alloc, categories)?)),
        Formula::Reach(d) => Ok(Formula::Reach(*d)),
        Formula::Via(d, e) => Ok(Formula::Via(*d, *e)),
        Formula::Equals(d, text) => Ok(Formula::Equals(*d, Text::from_bytes(alloc, text.bytes())?)),
        Formula::Compare(d, op, n) => Ok(Formula::Compare(*d, *op, *n)),
        Formula::Not(f) => Ok(Formula::Not(copy_part(alloc, f)?)),
        Formula::And(f, g) => Ok(Formula::And(copy_part(alloc, f)?, copy_part(alloc, g)?)),
        Formula::Or(f, g) => Ok(Formula::Or(copy_part(alloc, f)?, copy_part(alloc, g)?)),
        Formula::Implies(f, g) => Ok(Formula::Implies(copy_part(alloc, f)?, copy_part(alloc, g)?)),
        Formula::Iff(f, g) => Ok(Formula::Iff(copy_part(alloc, f)?, copy_part(alloc, g)?)),
        Formula::Xor(f, g) => Ok(Formula::Xor(copy_part(alloc, f)?, copy_part(alloc, g)?)),
        Formula::One(terms) => Ok(Formula::One(copy_terms(alloc, terms)?)),
    }
}

fn copy_path(alloc: Global, categories: &List<CatId>) -> Result<List<CatId>, Memory>
    ensures { IfOk result (λ copied. copied ≡ categories.now) }
{
    Ok(List::from_vec(Vec::from_slice(alloc, categories.items())?))
}

#[cycle(copy)]
fn copy_part(alloc: Global, f: &Formula) -> Result<Box<Formula>, Memory>
    ensures { IfOk result (λ part. formula_of part.value ≡ formula_of f.now) }
{
    let copied = copy(alloc, f)?;
    Ok(Box::new(alloc, copied)?)
}

#[cycle(copy)]
fn copy_terms(alloc: Global, terms: &Terms) -> Result<Terms, Memory>
    ensures { IfOk result (λ copied. terms_of copied ≡ terms_of terms.now) }
{
    let mut parts = Vec::new(alloc);
    let mut left = terms;
    'parts: while let Terms::More(f, rest) = left {
        parts.push(copy(alloc, f)?)?;
        left = rest;
    }
    listed(alloc, parts)
}

fn listed(alloc: Global, parts: Vec<Formula>) -> Result<Terms, Memory>
    ensures { IfOk result (λ terms. terms_of terms ≡ parts_before (map formula_of parts.items) Meaning.Terms.End) }
{
    let mut left = parts;
    let mut terms = Terms::End;
    'parts: while let Some(f) = left.pop() {
        terms = Terms::More(Box::new(alloc, f)?, Box::new(alloc, terms)?);
    }
    Ok(terms)
}
