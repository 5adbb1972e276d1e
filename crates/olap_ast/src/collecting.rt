// The constants of a formula: texts, and numbers.
ghost use Rattle.olap_ast.specs.Atoms.{AreAscending, Comparison, Equality, comparisons, comparisons_of_terms, equalities, equalities_of_terms, numbers_on, texts_on};
ghost use Rattle.olap_ast.specs.Constants.{AreInByteOrder};
ghost use Rattle.olap_ast.specs.Trees.{formula_of, terms_of};
ghost use Rattle.std.specs.Prelude.{◌≡◌, [], ◌∷◌, ◌++◌, Contains, IfOk, OnOk};

use crate::{Formula, Terms};
use olap_base::{CatId, List, Memory, Text};
use std::alloc::Global;

/// The distinct constants of the category in the formula, in byte order. `Memory` if there is no room for them.
///
/// It calls itself as deep as the formula is, and sorts the texts.
pub fn constants(alloc: Global, f: &Formula, c: CatId) -> Result<List<Text>, Memory>
    ensures { IfOk result (λ texts. AreInByteOrder (Contains (texts_on c.0 (equalities (formula_of f.now)))) texts) }
{
    let mut texts = Vec::new(alloc);
    gather(alloc, f, c, &mut texts)?;
    texts.sort_unstable();
    texts.dedup();
    Ok(List::from_vec(texts))
}

/// Appends the texts of the formula's atoms on the category, in order, with repeats.
///
/// Where it is refused, some of them may stand there.
#[cycle(gather)]
pub fn gather(alloc: Global, f: &Formula, c: CatId, texts: &mut Vec<Text>) -> Result<(), Memory>
    ensures { OnOk result (texts.new.items ≡ texts.old.items ++ texts_on c.0 (equalities (formula_of f.now))) }
{
    match f {
        Formula::True | Formula::False => Ok(()),
        Formula::Path(_) | Formula::Reach(_) | Formula::Via(_, _) => Ok(()),
        Formula::Compare(_, _, _) => Ok(()),
        Formula::Equals(d, text) => gather_text(alloc, *d, text, c, texts),
        Formula::Not(f) => gather(alloc, f, c, texts),
        Formula::And(f, g) => gather_both(alloc, f, g, c, texts),
        Formula::Or(f, g) => gather_both(alloc, f, g, c, texts),
        Formula::Implies(f, g) => gather_both(alloc, f, g, c, texts),
        Formula::Iff(f, g) => gather_both(alloc, f, g, c, texts),
        Formula::Xor(f, g) => gather_both(alloc, f, g, c, texts),
        Formula::One(terms) => gather_terms(alloc, terms, c, texts),
    }
}

fn gather_text(
    alloc: Global,
    d: CatId,
    text: &Text,
    c: CatId,
    texts: &mut Vec<Text>,
) -> Result<(), Memory>
    ensures { let atom : Equality = record { category = d.0; text = text.now } in
        OnOk result (texts.new.items ≡ texts.old.items ++ texts_on c.0 (atom ∷ [])) }
{
    if d == c {
        texts.push(Text::from_bytes(alloc, text.bytes())?)?;
    }
    Ok(())
}

#[cycle(gather)]
fn gather_both(
    alloc: Global,
    f: &Formula,
    g: &Formula,
    c: CatId,
    texts: &mut Vec<Text>,
) -> Result<(), Memory>
    ensures { let atoms = equalities (formula_of f.now) ++ equalities (formula_of g.now) in
        OnOk result (texts.new.items ≡ texts.old.items ++ texts_on c.0 atoms) }
{
    gather(alloc, f, c, texts)?;
    gather(alloc, g, c, texts)
}

#[cycle(gather)]
fn gather_terms(alloc: Global, terms: &Terms, c: CatId, texts: &mut Vec<Text>) -> Result<(), Memory>
    ensures { let atoms = equalities_of_terms (terms_of terms.now) in
        OnOk result (texts.new.items ≡ texts.old.items ++ texts_on c.0 atoms) }
{
    let mut left = terms;
    'parts: while let Terms::More(f, rest) = left {
        gather(alloc, f, c, texts)?;
        left = rest;
    }
    Ok(())
}

/// The distinct numbers that the formula compares with the category, ascending. `Memory` if there is no room for them.
///
/// It calls itself as deep as the formula is, and sorts the numbers.
pub fn numbers(alloc: Global, f: &Formula, c: CatId) -> Result<List<i64>, Memory>
    ensures { IfOk result (λ ns. AreAscending (numbers_on c.0 (comparisons (formula_of f.now))) ns) }
{
    let mut numbers = Vec::new(alloc);
    gather_numbers(f, c, &mut numbers)?;
    numbers.sort_unstable();
    numbers.dedup();
    Ok(List::from_vec(numbers))
}

/// Appends the numbers of the formula's comparisons with the category, in order, with repeats.
///
/// Where it is refused, some of them may stand there.
#[cycle(gather_numbers)]
pub fn gather_numbers(f: &Formula, c: CatId, numbers: &mut Vec<i64>) -> Result<(), Memory>
    ensures { OnOk result (numbers.new.items
        ≡ numbers.old.items ++ numbers_on c.0 (comparisons (formula_of f.now))) }
{
    match f {
        Formula::True | Formula::False => Ok(()),
        Formula::Path(_) | Formula::Reach(_) | Formula::Via(_, _) | Formula::Equals(_, _) => Ok(()),
        Formula::Compare(d, _, n) => gather_number(*d, n, c, numbers),
        Formula::Not(f) => gather_numbers(f, c, numbers),
        Formula::And(f, g) => gather_both_numbers(f, g, c, numbers),
        Formula::Or(f, g) => gather_both_numbers(f, g, c, numbers),
        Formula::Implies(f, g) => gather_both_numbers(f, g, c, numbers),
        Formula::Iff(f, g) => gather_both_numbers(f, g, c, numbers),
        Formula::Xor(f, g) => gather_both_numbers(f, g, c, numbers),
        Formula::One(terms) => gather_terms_numbers(terms, c, numbers),
    }
}

fn gather_number(d: CatId, n: &i64, c: CatId, numbers: &mut Vec<i64>) -> Result<(), Memory>
    ensures { let atom : Comparison = record { category = d.0; number = n.now } in
        OnOk result (numbers.new.items ≡ numbers.old.items ++ numbers_on c.0 (atom ∷ [])) }
{
    if d == c {
        numbers.push(*n)?;
    }
    Ok(())
}

#[cycle(gather_numbers)]
fn gather_both_numbers(
    f: &Formula,
    g: &Formula,
    c: CatId,
    numbers: &mut Vec<i64>,
) -> Result<(), Memory>
    ensures { let atoms = comparisons (formula_of f.now) ++ comparisons (formula_of g.now) in
        OnOk result (numbers.new.items ≡ numbers.old.items ++ numbers_on c.0 atoms) }
{
    gather_numbers(f, c, numbers)?;
    gather_numbers(g, c, numbers)
}

#[cycle(gather_numbers)]
fn gather_terms_numbers(terms: &Terms, c: CatId, numbers: &mut Vec<i64>) -> Result<(), Memory>
    ensures { let atoms = comparisons_of_terms (terms_of terms.now) in
        OnOk result (numbers.new.items ≡ numbers.old.items ++ numbers_on c.0 atoms) }
{
    let mut left = terms;
    'parts: while let Terms::More(f, rest) = left {
        gather_numbers(f, c, numbers)?;
        left = rest;
    }
    Ok(())
}
