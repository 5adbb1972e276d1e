// A reader of the records of a text that is held whole.
ghost use Rattle.std.specs.Prelude.{◌≡◌, ◌∷◌, ◌<◌, [], length, IsTrue, ◌↔◌, map, slice_index_or};
ghost use Rattle.std.specs.Bool.{MatchBool};
ghost use Rattle.std.specs.Result.{MatchResult};
ghost use Rattle.olap_records.specs.Records.{records_of};

use crate::refused::Refused;
use csv::{ByteRecord, Reader, ReaderBuilder};
use olap_base::Memory;
use std::alloc::Global;
use std::marker::Model;

/// The records of a text, none of which is a header, and any two of which may differ in length.
#[derive(Drop)]
pub struct Rows<'a> {
    rdr: Reader<&'a [u8]>,
    row: ByteRecord,
    // No record is left: the end was found, or a read was refused.
    done: bool,
}

impl<'a> Model for Rows<'a> {
    ghost use Rattle.olap_records.specs.Records.{Reading};

    ghost Value = { Reading };

    ghost use Rattle.olap_records.specs.ReaderInside.{reading_of, ReadsOn};

    ghost view = { reading_of };

    ghost invariant = { ReadsOn };
}

impl<'a> Rows<'a> {
    /// All records of a text, none of them read.
    pub fn new(alloc: Global, text: &'a [u8]) -> Rows<'a>
        ensures { result.left ≡ records_of text.now }
    {
        let rdr = ReaderBuilder::new()
            .has_headers(false)
            .flexible(true)
            .from_reader(alloc, text);
        Rows {
            rdr,
            row: ByteRecord::new(alloc),
            done: false,
        }
    }

    #[inline(always)]
    fn next(&mut self) -> Result<bool, Refused>
        ensures { MatchResult result
            (λ found. MatchBool found
            (self.old.left ≡ self.new.row ∷ self.new.left)
            ((self.old.left ≡ []) × (self.new.left ≡ [])))
            (λ _. self.new.left ≡ []) }
    {
        if self.done {
            return Ok(false);
        }
        self.done = true;
        let found = self.rdr.read_byte_record(&mut self.row)?;
        self.done = !found;
        Ok(found)
    }

    /// Reads the next record, if there is one. After the last, and after a refusal, there is none.
    #[inline(always)]
    pub fn advance(&mut self) -> Result<bool, Memory>
        ensures { MatchResult result
            (λ found. MatchBool found
            (self.old.left ≡ self.new.row ∷ self.new.left)
            ((self.old.left ≡ []) × (self.new.left ≡ [])))
            (λ _. self.new.left ≡ []) }
    {
        let found = self.next()?;
        Ok(found)
    }

    /// How many fields the record has that was read last.
    #[inline(always)]
    pub fn len(&self) -> usize
        ensures { result ≡ length self.now.row }
    {
        self.row.len()
    }

    /// A field of the record that was read last.
    #[inline(always)]
    pub fn field(&self, i: usize) -> &[u8]
        requires { i < length self.now.row }
        ensures { result.now ≡ slice_index_or self.now.row i [] }
    {
        match self.row.get(i) {
            Some(field) => field,
            None => unreachable!(),
        }
    }

    /// Whether the record that was read last has exactly these fields.
    pub fn is_row(&self, fields: &[&[u8]]) -> bool
        ensures { IsTrue result ↔ self.now.row ≡ map (λ f. f.now) fields.now }
    {
        if self.len() != fields.len() {
            return false;
        }
        'fields: for i in 0..fields.len() {
            if self.field(i) != fields[i] {
                return false;
            }
        }
        true
    }
}
