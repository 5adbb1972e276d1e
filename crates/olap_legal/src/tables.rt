// The table of ancestors: of each member the cells of the categories that its own category reaches.
ghost use Rattle.std.specs.Prelude.{◌≡◌, ◌≢◌, ◌<◌, ◌≤◌, ◌+◌, length, ℕ, IfOk, IfSome, IsTrue, slice_index};
ghost use Rattle.olap_base.specs.Graph.{category_count};
ghost use Rattle.olap_base.specs.Instance.{category_of};
ghost use Rattle.olap_base.specs.Limits.{most_categories};
ghost use Rattle.olap_legal.specs.Joining.{IsEither};
ghost use Rattle.olap_legal.specs.Laying.{AreDistinct, AreStarts, IsLaid, cell};
ghost use Rattle.olap_legal.specs.Rows.{none, IsBounded, AreLinked};
ghost use Rattle.olap_legal.specs.Slots.{IsSlots, no_slot, slot_of};

use crate::rising::NONE;
use crate::slots::Slots;
use olap_base::{MemberId, Memory};
use olap_graph::Graph;
use olap_instance::Instance;
use std::alloc::Global;

/// For each member and each category that its own category reaches, a cell: the member of that category that it
/// reaches, or `NONE`.
#[derive(Drop)]
pub struct Table {
    slots: Slots,
    // For each member where its row begins.
    starts: Vec<u32>,
    cells: Vec<u32>,
}

/// What stands in one of two places. None where two members do.
fn either(one: u32, other: u32) -> Option<u32>
    ensures { IfSome result (IsEither one other) }
{
    if other == NONE {
        return Some(one);
    }
    if one == NONE {
        return Some(other);
    }
    if one == other { Some(one) } else { None }
}

/// Puts the cells into the row, each at its category's place. False where a place would have two members.
fn join(row: &mut [u32], cells: &[u32], reached: &[u16]) -> bool
    requires len { length cells.now ≡ length reached.now }
    requires within { (k : ℕ) → k < length reached.now → slice_index reached.now k < length row.old }
    requires distinct { AreDistinct reached.now }
    ensures length { length row.new ≡ length row.old }
    ensures each { IsTrue result → (k : ℕ) → k < length reached.now → let d = slice_index reached.now k in
        IsEither (slice_index row.old d) (slice_index cells.now k) (slice_index row.new d) }
    ensures others { IsTrue result → (d : ℕ) → ((k : ℕ) → k < length reached.now → slice_index reached.now k ≢ d)
        → slice_index row.new d ≡ slice_index row.old d }
{
    'places: for (k, c) in reached.iter().enumerate() {
        let d = usize::from(*c);
        match either(row[d], cells[k]) {
            Some(y) => row[d] = y,
            None => return false,
        }
    }
    true
}

/// A part of the cells.
fn part(cells: &[u32], start: usize, width: usize) -> &[u32]
    requires { start + width ≤ length cells.now }
    ensures len { length result.now ≡ width }
    ensures each { (d : ℕ) → d < width → slice_index result.now d ≡ slice_index cells.now (start + d) }
{
    &cells[start..start + width]
}

/// Writes what stands in the row at these categories, one after the other.
fn write(cells: &mut [u32], start: usize, row: &[u32], reached: &[u16])
    requires room { start + length reached.now ≤ length cells.old }
    requires within { (k : ℕ) → k < length reached.now → slice_index reached.now k < length row.now }
    ensures same_length { length cells.new ≡ length cells.old }
    ensures here { (k : ℕ) → k < length reached.now
        → slice_index cells.new (start + k) ≡ slice_index row.now (slice_index reached.now k) }
    ensures before { (k : ℕ) → k < start → slice_index cells.new k ≡ slice_index cells.old k }
    ensures after { (k : ℕ) → start + length reached.now ≤ k → slice_index cells.new k ≡ slice_index cells.old k }
{
    'places: for (k, c) in reached.iter().enumerate() {
        cells[start + k] = row[usize::from(*c)];
    }
}

/// Where the members' rows begin, one after the other, and where they end.
fn starts_of(
    alloc: Global,
    instance: &Instance,
    categories: u16,
    slots: &Slots,
) -> Result<(Vec<u32>, u32), Memory>
    requires few { categories ≤ most_categories }
    requires bounded { IsBounded instance.now categories }
    requires slots { IsSlots categories slots.now }
    ensures { let count = length instance.now in
        IfOk result (λ r. AreStarts instance.now slots.now count r.0.items r.1) }
{
    let mut starts = Vec::with_capacity(alloc, instance.members() as usize)?;
    let mut end: u32 = 0;
    'members: for x in 0..instance.members() {
        starts.push(end)?;
        let category = instance.category(MemberId(x)).0;
        end += u32::from(slots.count(categories, category));
    }
    Ok((starts, end))
}

impl Table {
    /// A table with a row for each member, in which nothing stands. Cost: its cells, and the square of the categories.
    pub(crate) fn new(
        alloc: Global,
        graph: &Graph,
        instance: &Instance,
        categories: u16,
    ) -> Result<Table, Memory>
        requires count { categories ≡ category_count graph.now }
        requires few { categories ≤ most_categories }
        requires bounded { IsBounded instance.now categories }
        requires linked { AreLinked graph.now instance.now }
        ensures laid { IfOk result (IsLaid instance.now categories) }
        ensures none { IfOk result (λ t. (x d : ℕ) → x < length instance.now → d < categories
            → cell instance.now categories t x d ≡ none) }
    {
        let slots = Slots::of(alloc, graph, categories)?;
        let (starts, end) = starts_of(alloc, instance, categories, &slots)?;
        let cells = vec![in alloc; NONE; end as usize]?;
        Ok(Table {
            slots,
            starts,
            cells,
        })
    }

    /// What stands for x and the category d.
    pub(crate) fn get(&self, instance: &Instance, categories: u16, x: u32, d: u16) -> u32
        requires x { x < length instance.now }
        requires d { d < categories }
        requires laid { IsLaid instance.now categories self.now }
        ensures { result ≡ cell instance.now categories self.now x d }
    {
        let category = instance.category(MemberId(x)).0;
        match self.slots.slot(categories, category, d) {
            Some(slot) => self.cells[self.starts[x as usize] as usize + usize::from(slot)],
            None => NONE,
        }
    }

    /// Puts what stands in the row of x into this one, which has a place for each category. False where a place would
    /// have two members.
    pub(crate) fn join(&self, instance: &Instance, categories: u16, x: u32, row: &mut [u32]) -> bool
        requires x { x < length instance.now }
        requires laid { IsLaid instance.now categories self.now }
        requires row { length row.old ≡ categories }
        ensures length { length row.new ≡ length row.old }
        ensures each { IsTrue result → (d : ℕ) → d < categories
            → IsEither (slice_index row.old d) (cell instance.now categories self.now x d) (slice_index row.new d) }
    {
        let reached = self
            .slots
            .reached(categories, instance.category(MemberId(x)).0);
        let cells = part(&self.cells, self.starts[x as usize] as usize, reached.len());
        join(row, cells, reached)
    }

    /// Makes this the row of x. It has a place for each category, and stands empty where x has no cell.
    pub(crate) fn put(&mut self, instance: &Instance, categories: u16, x: u32, row: &[u32])
        requires x { x < length instance.now }
        requires laid { IsLaid instance.now categories self.old }
        requires row { length row.now ≡ categories }
        requires fits { (d : ℕ) → d < categories → slice_index row.now d ≢ none
            → slot_of categories self.old.slots (category_of instance.now x) d ≢ no_slot }
        ensures laid { IsLaid instance.now categories self.new }
        ensures here { (d : ℕ) → d < categories → cell instance.now categories self.new x d ≡ slice_index row.now d }
        ensures others { (z d : ℕ) → z < length instance.now → z ≢ x → d < categories
            → cell instance.now categories self.new z d ≡ cell instance.now categories self.old z d }
    {
        let reached = self
            .slots
            .reached(categories, instance.category(MemberId(x)).0);
        let start = self.starts[x as usize] as usize;
        write(&mut self.cells, start, row, reached);
    }
}
