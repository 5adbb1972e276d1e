// Records that were cut, whose members are still to be looked up.
ghost use Rattle.std.specs.Prelude.{◌≡◌, ◌∷◌, ◌++◌, ◌<◌, ◌≤◌, [], IfOk, OnOk, length, slice_index_or, take};
ghost use Rattle.csv.specs.Records.{fields_of, partial_of};
ghost use Rattle.olap_records.specs.Faults.{field};
ghost use Rattle.olap_facts.specs.Pending.{HasCut, told_by};

use csv::ByteRecord;
use olap_base::Memory;
use olap_numerals::value;
use olap_records::Splitter;
use std::alloc::Global;

/// How many records are cut before their members are looked up.
const MOST_PENDING: usize = 256;

/// What a record tells but for its member.
#[derive(Clone, Copy)]
pub(crate) struct Told {
    /// Whether it has two fields.
    pub(crate) is_pair: bool,
    /// The number of 64 bits that its second field spells.
    pub(crate) value: Option<i64>,
}

/// A field of the record that was found last; nothing past its end.
#[inline(always)]
pub(crate) fn nth_field(row: &Splitter, k: usize) -> &[u8]
    ensures { result.now ≡ field row.now.row k }
{
    if k < row.len() { row.field(k) } else { &[] }
}

/// What the record that was found last tells but for its member.
#[inline(always)]
pub(crate) fn told_of(row: &Splitter) -> Told
    ensures { result ≡ told_by row.now.row }
{
    Told {
        is_pair: row.len() == 2,
        value: value(nth_field(row, 1)),
    }
}

/// Records that were cut, in their order: of each its first field, and what it tells besides.
#[derive(Drop)]
pub(crate) struct Pending {
    pub(crate) ids: ByteRecord,
    pub(crate) told: Vec<Told>,
}

impl Pending {
    /// None.
    pub(crate) fn new(alloc: Global) -> Pending {
        Pending {
            ids: ByteRecord::new(alloc),
            told: Vec::new(alloc),
        }
    }

    /// The first field of the k-th record.
    #[inline(always)]
    pub(crate) fn id(&self, k: usize) -> &[u8]
        requires { k < length (fields_of self.now.ids) }
        ensures { result.now ≡ slice_index_or (fields_of self.now.ids) k [] }
    {
        match self.ids.get(k) {
            Some(id) => id,
            None => unreachable!(),
        }
    }

    /// Adds the record that was found last.
    #[inline(always)]
    fn push(&mut self, row: &Splitter) -> Result<(), Memory>
        ensures ids { OnOk result (fields_of self.new.ids
            ≡ fields_of self.old.ids ++ (partial_of self.old.ids ++ field row.now.row 0) ∷ []) }
        ensures partial { OnOk result (partial_of self.new.ids ≡ []) }
        ensures told { OnOk result (self.new.told.items ≡ self.old.told.items ++ told_by row.now.row ∷ []) }
    {
        self.ids.push_field(nth_field(row, 0))?;
        self.told.push(told_of(row))?;
        Ok(())
    }

    /// Forgets the records.
    fn clear(&mut self)
        ensures ids { fields_of self.new.ids ≡ [] }
        ensures partial { partial_of self.new.ids ≡ [] }
        ensures told { self.new.told.items ≡ [] }
    {
        self.ids.clear();
        self.told.clear();
    }

    /// Cuts records off the front of a piece, in place of those that are there, until they are many or the piece ends.
    /// Says how many bytes were taken.
    pub(crate) fn cut(&mut self, splitter: &mut Splitter, piece: &[u8]) -> Result<usize, Memory>
        ensures taken { IfOk result (λ n. n ≤ length piece.now) }
        ensures some { IfOk result (λ n. 0 < length piece.now → 0 < n) }
        ensures cut { IfOk result (λ n. HasCut splitter.old.stands (take n piece.now) splitter.new.stands self.new) }
    {
        self.clear();
        let mut at = 0;
        'records: while self.told.len() < MOST_PENDING {
            let cut = splitter.next(&piece[at..])?;
            at += cut.taken;
            if !cut.found {
                return Ok(at);
            }
            self.push(splitter)?;
        }
        Ok(at)
    }
}
