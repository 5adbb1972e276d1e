// The atoms of constraints, each once and in order.
ghost use Rattle.std.specs.Prelude.{◌≤◌, length, IfErr, IfOk};
ghost use Rattle.olap_check.specs.Seen.{IsAtomAt};

use crate::asked::{Asked, Way};
use olap_ast::{Constraint, Formula, Terms};
use olap_base::{CatId, Memory};
use std::alloc::Global;

/// Where the atom stands; or, if it isn't found, where it would stand.
pub(crate) fn find(atoms: &[Asked], asked: Asked) -> Result<usize, usize>
    ensures ok { IfOk result (λ k. IsAtomAt atoms.now k asked.entry) }
    ensures err { IfErr result (λ k. k ≤ length atoms.now) }
{
    let mut from = 0;
    let mut to = atoms.len();
    'halves: while from < to {
        let middle = from + (to - from) / 2;
        let atom = atoms[middle];
        if atom.is(asked) {
            return Ok(middle);
        }
        if atom.is_before(asked) {
            from = middle + 1;
        } else {
            to = middle;
        }
    }
    Err(from)
}

/// Puts the atom into its place, if it is new.
fn add<'a>(asked: Asked<'a>, atoms: &mut Vec<Asked<'a>>) -> Result<(), Memory> {
    if let Err(k) = find(atoms, asked) {
        atoms.insert(k, asked)?;
    }
    Ok(())
}

/// Adds the edges of a path.
fn add_path<'a>(root: CatId, path: &[CatId], atoms: &mut Vec<Asked<'a>>) -> Result<(), Memory> {
    let mut at = root;
    'path: for c in path {
        add(Asked::GoesOn(Way::Steps, at, *c), atoms)?;
        at = *c;
    }
    Ok(())
}

/// Adds the atoms of a formula.
///
/// It calls itself as deep as the formula is.
#[cycle(gather)]
fn gather<'a>(root: CatId, f: &'a Formula, atoms: &mut Vec<Asked<'a>>) -> Result<(), Memory> {
    match f {
        Formula::True | Formula::False => Ok(()),
        Formula::Path(categories) => add_path(root, categories.items(), atoms),
        Formula::Reach(d) => add(Asked::GoesOn(Way::Reaches, root, *d), atoms),
        Formula::Via(d, e) => add(Asked::GoesOn(Way::Reaches, *d, *e), atoms),
        Formula::Equals(d, text) => add(Asked::Named(*d, text), atoms),
        Formula::Compare(d, op, n) => add(Asked::Compares(*d, *op, *n), atoms),
        Formula::Not(g) => gather(root, g, atoms),
        Formula::And(g, h)
        | Formula::Or(g, h)
        | Formula::Implies(g, h)
        | Formula::Iff(g, h)
        | Formula::Xor(g, h) => {
            gather(root, g, atoms)?;
            gather(root, h, atoms)
        }
        Formula::One(parts) => gather_terms(root, parts, atoms),
    }
}

/// Adds the atoms of a list of formulas.
#[cycle(gather)]
fn gather_terms<'a>(
    root: CatId,
    parts: &'a Terms,
    atoms: &mut Vec<Asked<'a>>,
) -> Result<(), Memory> {
    let mut left = parts;
    'parts: while let Terms::More(f, rest) = left {
        gather(root, f, atoms)?;
        left = rest;
    }
    Ok(())
}

/// The atoms of the constraints.
pub(crate) fn atoms_of<'a>(
    alloc: Global,
    constraints: &'a [Constraint],
) -> Result<Vec<Asked<'a>>, Memory> {
    let mut atoms = Vec::new(alloc);
    'constraints: for constraint in constraints {
        gather(constraint.root, &constraint.formula, &mut atoms)?;
    }
    Ok(atoms)
}

/// Notes where the atom of a second category stands.
fn note(row: &mut Vec<usize>, d: CatId, place: usize) -> Result<(), Memory> {
    let cell = usize::from(d.0);
    'cells: while row.len() <= cell {
        row.push(0)?;
    }
    row[cell] = place;
    Ok(())
}

/// For each way and first category, a row: for each second category where their atom stands, if they have one.
pub(crate) fn rows_of(alloc: Global, atoms: &[Asked]) -> Result<Vec<Vec<usize>>, Memory> {
    let mut rows = Vec::new(alloc);
    'atoms: for k in 0..atoms.len() {
        if let Asked::GoesOn(way, c, d) = atoms[k] {
            let row = way.row(c);
            'rows: while rows.len() <= row {
                rows.push(Vec::new(alloc))?;
            }
            note(&mut rows[row], d, k)?;
        }
    }
    Ok(rows)
}
