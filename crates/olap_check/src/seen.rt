// What is remembered of blocks: the places at which what an atom asks is so.
ghost use Rattle.std.specs.Prelude.{IfOk, IfSome};
ghost use Rattle.olap_base.specs.Instance.{Instance as TheInstance};
ghost use Rattle.olap_bits.specs.Sets.{members};
ghost use Rattle.olap_check.specs.Seen.{IsAtomAt, IsKept, IsSeen, IsSo};

use crate::asked::Asked;
use crate::gathering::{atoms_of, find, rows_of};
use crate::places::Places;
use olap_ast::Constraint;
use olap_base::{CatId, Memory};
use std::alloc::Global;

/// The places of one block, which is known by its root and its start among the root's members.
#[derive(Clone, Copy)]
pub(crate) struct Entry {
    pub root: CatId,
    pub start: usize,
    pub places: Places,
}

/// The atoms of some constraints, each once, and for each the places of the block about which it was asked last.
///
/// An entry tells its block, so nothing needs to be forgotten where the next block begins. A name is searched for,
/// since the atoms are in order; `rows` tells where a pair of categories stands. No clause rests on either: what is
/// found is compared.
#[derive(Drop)]
pub(crate) struct Seen<'a> {
    pub atoms: Vec<Asked<'a>>,
    pub rows: Vec<Vec<usize>>,
    pub entries: Vec<Option<Entry>>,
}

/// The number in a row's cell, if it has this many.
fn cell(rows: &Vec<Vec<usize>>, row: usize, cell: usize) -> Option<usize> {
    if row < rows.len() && cell < rows[row].len() {
        return Some(rows[row][cell]);
    }
    None
}

impl<'a> Seen<'a> {
    /// The atoms of the constraints, with nothing remembered about them.
    pub(crate) fn new(alloc: Global, constraints: &'a [Constraint]) -> Result<Seen<'a>, Memory>
        ensures { IfOk result (λ seen. (i : TheInstance) → IsSeen i seen) }
    {
        let atoms = atoms_of(alloc, constraints)?;
        let rows = rows_of(alloc, &atoms)?;
        let entries = vec![in alloc; None; atoms.len()]?;
        Ok(Seen {
            atoms,
            rows,
            entries,
        })
    }

    /// Where the atom stands, if it is one of the constraints.
    fn place(&self, asked: Asked) -> Option<usize>
        ensures { IfSome result (λ k. IsAtomAt self.now.atoms.items k asked.entry) }
    {
        let Asked::GoesOn(way, c, d) = asked else {
            return find(&self.atoms, asked).ok();
        };
        let k = cell(&self.rows, way.row(c), usize::from(d.0))?;
        if k < self.atoms.len() && self.atoms[k].is(asked) {
            return Some(k);
        }
        None
    }

    /// The places of the block from `start` on, if they are remembered.
    pub(crate) fn kept(&self, asked: Asked, root: CatId, start: usize) -> Option<&Places>
        ensures { (i : TheInstance) → IsSeen i self.now
            → IfSome result (λ set. IsKept i root.0 start (IsSo i asked.entry) (members set.now)) }
    {
        let k = self.place(asked)?;
        if k >= self.entries.len() {
            return None;
        }
        match &self.entries[k] {
            Some(entry) if entry.root.0 == root.0 && entry.start == start => Some(&entry.places),
            _ => None,
        }
    }

    /// Remembers the places of a block.
    pub(crate) fn keep(&mut self, asked: Asked, entry: Entry)
        ensures { (i : TheInstance) → IsSeen i self.old
            → IsKept i entry.root.0 entry.start (IsSo i asked.entry) (members entry.places) → IsSeen i self.new }
    {
        if let Some(k) = self.place(asked) {
            if k < self.entries.len() {
                self.entries[k] = Some(entry);
            }
        }
    }
}
