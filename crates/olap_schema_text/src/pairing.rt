// The distinct pairs of a category and a constant, a text or a number.
ghost use Rattle.olap_ast.specs.Atoms.{Comparison, Equality, comparisons, comparisons_of_terms, equalities, equalities_of_terms};
ghost use Rattle.olap_ast.specs.Pairs.{is_same_number as is_same_number_of, is_same_pair, with_number, with_pair};
ghost use Rattle.olap_ast.specs.Trees.{formula_of, terms_of};
ghost use Rattle.olap_schema_text.specs.Reading.{Finds, number_pair_of, pair_of};
ghost use Rattle.olap_base.specs.Limits.{most_constants};
ghost use Rattle.std.specs.List.{list_any};
ghost use Rattle.std.specs.Prelude.{◌≡◌, [], ◌∷◌, ◌++◌, ◌+◌, None, OnOk, Some, fold, if◌then◌else◌, length, map, nat_lt, codes};

use crate::SchemaKind;
use crate::statements::is;
use olap_ast::{Formula, Terms};
use olap_base::{CatId, MOST_CONSTANTS, Memory, Refusal, Text};
use std::alloc::Global;

/// A pair of a category and a text.
#[derive(Drop)]
pub(crate) struct Pair {
    category: CatId,
    text: Text,
}

/// A pair of a category and a number.
#[derive(Clone, Copy)]
pub(crate) struct NumberPair {
    category: CatId,
    number: i64,
}

/// Whether the pair is of that category and text.
fn is_same(d: CatId, text: &[u8], pair: &Pair) -> bool
    ensures { let atom : Equality = record { category = d.0; text = text.now } in
        result ≡ is_same_pair atom (pair_of pair.now) }
{
    d == pair.category && is(text, pair.text.bytes())
}

/// Whether the pair is there.
fn has_pair(pairs: &[Pair], d: CatId, text: &[u8]) -> bool
    ensures { let atom : Equality = record { category = d.0; text = text.now } in
        result ≡ list_any (λ p. is_same_pair atom (pair_of p)) pairs.now }
{
    pairs.iter().any(|p| is_same(d, text, p))
}

/// The pair after the others, if it is new.
fn add_pair(alloc: Global, pairs: &mut Vec<Pair>, d: CatId, text: &Text) -> Result<(), Memory>
    ensures { let atom : Equality = record { category = d.0; text = text.now } in
        OnOk result (map pair_of pairs.new.items ≡ with_pair (map pair_of pairs.old.items) atom) }
{
    if has_pair(pairs, d, text.bytes()) {
        return Ok(());
    }
    let text = Text::from_bytes(alloc, text.bytes())?;
    pairs.push(Pair { category: d, text })?;
    Ok(())
}

/// Whether the pair is of that category and number.
fn is_same_number(d: CatId, n: i64, pair: &NumberPair) -> bool
    ensures { let atom : Comparison = record { category = d.0; number = n } in
        result ≡ is_same_number_of atom (number_pair_of pair.now) }
{
    d == pair.category && n == pair.number
}

/// Whether the pair is there.
fn has_number(numbers: &[NumberPair], d: CatId, n: i64) -> bool
    ensures { let atom : Comparison = record { category = d.0; number = n } in
        result ≡ list_any (λ p. is_same_number_of atom (number_pair_of p)) numbers.now }
{
    numbers.iter().any(|p| is_same_number(d, n, p))
}

/// The pair after the others, if it is new.
fn add_number(numbers: &mut Vec<NumberPair>, d: CatId, n: i64) -> Result<(), Memory>
    ensures { let atom : Comparison = record { category = d.0; number = n } in
        OnOk result (map number_pair_of numbers.new.items ≡ with_number (map number_pair_of numbers.old.items) atom) }
{
    if has_number(numbers, d, n) {
        return Ok(());
    }
    numbers.push(NumberPair {
        category: d,
        number: n,
    })?;
    Ok(())
}

/// Adds the pairs of a formula that are new.
#[cycle(pairs)]
pub(crate) fn add_pairs(
    alloc: Global,
    pairs: &mut Vec<Pair>,
    numbers: &mut Vec<NumberPair>,
    f: &Formula,
) -> Result<(), Memory>
    ensures texts { OnOk result (map pair_of pairs.new.items ≡ fold with_pair (map pair_of pairs.old.items)
        (equalities (formula_of f.now))) }
    ensures numbers { OnOk result (map number_pair_of numbers.new.items
        ≡ fold with_number (map number_pair_of numbers.old.items) (comparisons (formula_of f.now))) }
{
    match f {
        Formula::True
        | Formula::False
        | Formula::Path(_)
        | Formula::Reach(_)
        | Formula::Via(_, _) => Ok(()),
        Formula::Equals(d, text) => add_pair(alloc, pairs, *d, text),
        Formula::Compare(d, _, n) => add_number(numbers, *d, *n),
        Formula::Not(g) => add_pairs(alloc, pairs, numbers, g),
        Formula::And(g, h)
        | Formula::Or(g, h)
        | Formula::Implies(g, h)
        | Formula::Iff(g, h)
        | Formula::Xor(g, h) => {
            add_pairs(alloc, pairs, numbers, g)?;
            add_pairs(alloc, pairs, numbers, h)
        }
        Formula::One(terms) => add_of_terms(alloc, pairs, numbers, terms),
    }
}

/// The pairs of a list of formulas.
#[cycle(pairs)]
fn add_of_terms(
    alloc: Global,
    pairs: &mut Vec<Pair>,
    numbers: &mut Vec<NumberPair>,
    terms: &Terms,
) -> Result<(), Memory>
    ensures texts { let atoms = equalities_of_terms (terms_of terms.now) in
        OnOk result (map pair_of pairs.new.items ≡ fold with_pair (map pair_of pairs.old.items) atoms) }
    ensures numbers { let atoms = comparisons_of_terms (terms_of terms.now) in
        OnOk result (map number_pair_of numbers.new.items
        ≡ fold with_number (map number_pair_of numbers.old.items) atoms) }
{
    let mut left = terms;
    'parts: while let Terms::More(f, rest) = left {
        add_pairs(alloc, pairs, numbers, f)?;
        left = rest;
    }
    Ok(())
}

/// Adds the pairs of a formula that are new, if there are then not too many.
pub(crate) fn add_few_pairs(
    alloc: Global,
    pairs: &mut Vec<Pair>,
    numbers: &mut Vec<NumberPair>,
    f: &Formula,
) -> Result<(), Refusal<SchemaKind>>
    ensures few { let count = length (fold with_pair (map pair_of pairs.old.items) (equalities (formula_of f.now)))
        + length (fold with_number (map number_pair_of numbers.old.items) (comparisons (formula_of f.now))) in
        Finds result (if nat_lt most_constants count then Some (codes "TooManyConstants") else None) }
    ensures texts { OnOk result (map pair_of pairs.new.items ≡ fold with_pair (map pair_of pairs.old.items)
        (equalities (formula_of f.now))) }
    ensures numbers { OnOk result (map number_pair_of numbers.new.items
        ≡ fold with_number (map number_pair_of numbers.old.items) (comparisons (formula_of f.now))) }
{
    add_pairs(alloc, pairs, numbers, f)?;
    if pairs.len() + numbers.len() > MOST_CONSTANTS {
        return Err(Refusal::Kind(SchemaKind::TooManyConstants));
    }
    Ok(())
}
