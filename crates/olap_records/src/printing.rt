// A printer of records to a text.
ghost use Rattle.std.specs.Prelude.{◌≡◌, ◌++◌, [], IfOk, IsTrue, OnErr, OnOk, false, length, map, true};
ghost use Rattle.olap_records.specs.Texts.{text_of_row};

use crate::refused::Refused;
use csv::Writer;
use olap_base::Memory;
use std::alloc::Global;
use std::marker::Model;

/// A text of records of one width. It is live until a record is refused, when memory runs out.
#[derive(Drop)]
pub struct Printer {
    wtr: Writer<Vec<u8>>,
    // How many fields each record has.
    width: usize,
    // Why a write failed. Where none did, the text ends with a record.
    refused: Option<Memory>,
}

impl Model for Printer {
    ghost use Rattle.olap_records.specs.Texts.{Printing};

    ghost Value = { Printing };

    ghost use Rattle.olap_records.specs.PrinterInside.{printing_of, IsBetween};

    ghost view = { printing_of };

    ghost invariant = { IsBetween };
}

impl Printer {
    /// No text, for records of this many fields.
    pub fn new(alloc: Global, width: usize) -> Printer
        ensures text { result.text ≡ [] }
        ensures width { result.width ≡ width }
        ensures live { IsTrue result.live }
    {
        Printer::behind(Vec::new(alloc), width)
    }

    /// A text that is there, for records of this many fields after it.
    pub fn behind(text: Vec<u8>, width: usize) -> Printer
        ensures text { result.text ≡ text.items }
        ensures width { result.width ≡ width }
        ensures live { IsTrue result.live }
    {
        Printer {
            wtr: Writer::from_writer(text),
            width,
            refused: None,
        }
    }

    /// Adds a record. After a refusal every record is refused, and so is the text.
    pub fn row(&mut self, fields: &[&[u8]]) -> Result<(), Memory>
        requires width { length fields.now ≡ self.old.width }
        ensures text { OnOk result (self.new.text ≡ self.old.text ++ text_of_row (map (λ f. f.now) fields.now)) }
        ensures width { self.new.width ≡ self.old.width }
        ensures live { OnOk result (IsTrue self.old.live) }
        ensures kept { OnOk result (IsTrue self.new.live) }
        ensures over { OnErr result (self.new.live ≡ false) }
    {
        if let Some(memory) = self.refused {
            return Err(memory);
        }
        if let Err(e) = self.wtr.write_fields(fields) {
            let memory = Memory::from(Refused::from(e));
            self.refused = Some(memory);
            return Err(memory);
        }
        Ok(())
    }

    /// The text.
    pub fn finish(self) -> Result<Vec<u8>, Memory>
        ensures text { IfOk result (λ v. v.items ≡ self.text) }
        ensures live { IfOk result (λ v. IsTrue self.live) }
    {
        let Printer {
            wtr,
            width: _,
            refused,
        } = self;
        if let Some(memory) = refused {
            return Err(memory);
        }
        match wtr.into_inner() {
            Ok(text) => Ok(text),
            Err(e) => Err(Memory::from(Refused::from(e))),
        }
    }
}
