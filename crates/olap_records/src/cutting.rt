// The inside of a splitter.
ghost use Rattle.std.specs.Prelude.{◌≡◌, ◌↔◌, ◌≤◌, ◌<◌, ◌∷◌, ◌++◌, [], IfOk, IsTrue, OnOk, length, map, slice_index_or, take, true, false};
ghost use Rattle.csv.specs.Records.{fields_of, partial_of};
ghost use Rattle.olap_records.specs.CutterInside.{row_of, stand_of};
ghost use Rattle.olap_records.specs.Standing.{at_end, at_start, records_if, standing};

use crate::steps::{Action, Place, run_end, step};
use csv::ByteRecord;
use olap_base::Memory;
use std::alloc::Global;

/// A text that comes in pieces, cut into records: the record that was found last, or the fields so far of the next.
#[derive(Drop)]
pub(crate) struct Cutter {
    row: ByteRecord,
    field: Vec<u8>,
    place: Place,
    // The record was found whole.
    whole: bool,
}

/// What was done with a piece.
#[derive(Clone, Copy)]
pub struct Cut {
    /// How many bytes of it were taken.
    pub taken: usize,
    /// Whether the last of them ended a record.
    pub found: bool,
}

/// A field ends with these bytes.
fn end_field(row: &mut ByteRecord, field: &mut Vec<u8>, last: &[u8]) -> Result<(), Memory>
    ensures fields { OnOk result
        (fields_of row.new ≡ fields_of row.old ++ (partial_of row.old ++ (field.old.items ++ last.now)) ∷ []) }
    ensures partial { OnOk result (partial_of row.new ≡ []) }
    ensures field { OnOk result (field.new.items ≡ []) }
{
    if field.is_empty() {
        row.push_field(last)?;
        return Ok(());
    }
    field.extend_from_slice(last)?;
    row.push_field(field)?;
    field.clear();
    Ok(())
}

impl Cutter {
    /// At the start of a text.
    pub(crate) fn new(alloc: Global) -> Cutter
        ensures { stand_of [] result ≡ at_start }
    {
        Cutter {
            row: ByteRecord::new(alloc),
            field: Vec::new(alloc),
            place: Place::Record,
            whole: true,
        }
    }

    /// Takes the front of the piece, up to the end of a record, or all of it where none ends in it.
    pub(crate) fn next(&mut self, piece: &[u8]) -> Result<Cut, Memory>
        ensures taken { IfOk result (λ cut. cut.taken ≤ length piece.now) }
        ensures all { IfOk result (λ cut. cut.found ≡ false → cut.taken ≡ length piece.now) }
        ensures some { IfOk result (λ cut. cut.found ≡ true → 0 < cut.taken) }
        ensures stands { IfOk result (λ cut. standing (stand_of [] self.old) (take cut.taken piece.now)
            ≡ stand_of (records_if cut.found (row_of self.new)) self.new) }
    {
        if self.whole {
            self.row.clear();
            self.field.clear();
            self.whole = false;
        }
        // The bytes of the field at hand from there on are still to be copied.
        let mut from = 0;
        let mut at = 0;
        'bytes: while at < piece.len() {
            let (place, action) = step(self.place, piece[at]);
            self.place = place;
            match action {
                Action::Copy => at = run_end(place, piece, at + 1),
                Action::Skip => {
                    self.field.extend_from_slice(&piece[from..at])?;
                    at += 1;
                    from = at;
                }
                Action::EndField => {
                    end_field(&mut self.row, &mut self.field, &piece[from..at])?;
                    at += 1;
                    from = at;
                }
                Action::EndRecord => {
                    end_field(&mut self.row, &mut self.field, &piece[from..at])?;
                    self.whole = true;
                    return Ok(Cut {
                        taken: at + 1,
                        found: true,
                    });
                }
            }
        }
        self.field.extend_from_slice(&piece[from..])?;
        Ok(Cut {
            taken: piece.len(),
            found: false,
        })
    }

    /// The text ends. Whether its end ends a record.
    pub(crate) fn finish(&mut self) -> Result<bool, Memory>
        ensures { IfOk result (λ found. at_end (stand_of [] self.old) ≡ records_if found (row_of self.new)) }
    {
        if self.place == Place::Record || self.place == Place::Return {
            return Ok(false);
        }
        if self.whole {
            self.row.clear();
            self.field.clear();
        }
        end_field(&mut self.row, &mut self.field, &[])?;
        self.whole = true;
        Ok(true)
    }

    /// How many fields the record has that was found last.
    #[inline(always)]
    pub(crate) fn len(&self) -> usize
        ensures { result ≡ length (row_of self.now) }
    {
        self.row.len()
    }

    /// A field of the record that was found last.
    #[inline(always)]
    pub(crate) fn field(&self, i: usize) -> &[u8]
        requires { i < length (row_of self.now) }
        ensures { result.now ≡ slice_index_or (row_of self.now) i [] }
    {
        match self.row.get(i) {
            Some(field) => field,
            None => unreachable!(),
        }
    }

    /// Whether the record that was found last has exactly these fields.
    pub(crate) fn is_row(&self, fields: &[&[u8]]) -> bool
        ensures { IsTrue result ↔ row_of self.now ≡ map (λ f. f.now) fields.now }
    {
        if self.len() != fields.len() {
            return false;
        }
        'fields: for i in 0..fields.len() {
            if self.field(i) != fields[i] {
                return false;
            }
        }
        true
    }
}
