// A text that comes in pieces, cut into records.
ghost use Rattle.std.specs.Prelude.{◌≡◌, ◌↔◌, ◌≤◌, ◌<◌, [], IfOk, IsTrue, false, length, map, slice_index_or, take, true};
ghost use Rattle.olap_records.specs.Standing.{at_end, at_start, behind, records_if, standing};

use crate::cutting::{Cut, Cutter};
use olap_base::Memory;
use std::alloc::Global;
use std::marker::Model;

/// A text that comes in pieces of any length, cut into records, any two of which may differ in length. A byte order
/// mark is a part of the text here: `without_mark` takes it off.
#[derive(Drop)]
pub struct Splitter {
    cutter: Cutter,
}

impl Model for Splitter {
    ghost use Rattle.olap_records.specs.Standing.{Splitting};

    ghost Value = { Splitting };

    ghost use Rattle.olap_records.specs.CutterInside.{splitting_of};

    ghost view = { λ a. splitting_of a.cutter };
}

impl Splitter {
    /// At the start of a text.
    pub fn new(alloc: Global) -> Splitter
        ensures { result.stands ≡ at_start }
    {
        Splitter {
            cutter: Cutter::new(alloc),
        }
    }

    /// Takes the front of the piece up to the end of a record, or all of it where none ends in it.
    #[inline(always)]
    pub fn next(&mut self, piece: &[u8]) -> Result<Cut, Memory>
        ensures taken { IfOk result (λ cut. cut.taken ≤ length piece.now) }
        ensures all { IfOk result (λ cut. cut.found ≡ false → cut.taken ≡ length piece.now) }
        ensures some { IfOk result (λ cut. cut.found ≡ true → 0 < cut.taken) }
        ensures stands { IfOk result (λ cut. standing self.old.stands (take cut.taken piece.now)
            ≡ behind (records_if cut.found self.new.row) self.new.stands) }
    {
        self.cutter.next(piece)
    }

    /// The text ends. Whether its end ends a record.
    pub fn finish(&mut self) -> Result<bool, Memory>
        ensures { IfOk result (λ found. at_end self.old.stands ≡ records_if found self.new.row) }
    {
        self.cutter.finish()
    }

    /// How many fields the record has that was found last.
    #[inline(always)]
    pub fn len(&self) -> usize
        ensures { result ≡ length self.now.row }
    {
        self.cutter.len()
    }

    /// A field of the record that was found last.
    #[inline(always)]
    pub fn field(&self, i: usize) -> &[u8]
        requires { i < length self.now.row }
        ensures { result.now ≡ slice_index_or self.now.row i [] }
    {
        self.cutter.field(i)
    }

    /// Whether the record that was found last has exactly these fields.
    pub fn is_row(&self, fields: &[&[u8]]) -> bool
        ensures { IsTrue result ↔ self.now.row ≡ map (λ f. f.now) fields.now }
    {
        self.cutter.is_row(fields)
    }
}
