// The slots of categories: which cells the rows of a category's members have.
ghost use Rattle.std.specs.Prelude.{◌≡◌, ◌≢◌, ◌<◌, ◌≤◌, ◌+◌, length, ℕ, IfOk, IfSome, IsNone, slice_index};
ghost use Rattle.olap_base.specs.Graph.{IsCategory, category_count};
ghost use Rattle.olap_base.specs.Limits.{most_categories};
ghost use Rattle.olap_legal.specs.Slots.{AreListed, IsListing, IsSlots, count_of, no_slot, order_of, slot_of};

use olap_base::{CatId, Memory};
use olap_graph::Graph;
use std::alloc::Global;

/// No category's slot.
const NO_SLOT: u16 = 65_535;

/// For each category the categories that it reaches, each in a slot of its own.
#[derive(Drop)]
pub(crate) struct Slots {
    // For each two categories the slot of the second among those that the first reaches, or `NO_SLOT`.
    slots: Vec<u16>,
    // For each category those that it reaches, by slot.
    order: Vec<u16>,
    // For each category how many it reaches.
    counts: Vec<u16>,
}

/// Gives the categories that c reaches their slots, in order, from `base` on; and says how many they are.
fn list_reached(
    graph: &Graph,
    categories: u16,
    c: u16,
    base: usize,
    slots: &mut [u16],
    order: &mut [u16],
) -> u16
    requires c { IsCategory graph.now c }
    requires count { categories ≡ category_count graph.now }
    requires few { categories ≤ most_categories }
    requires room { base + categories ≤ length slots.old }
    requires same { length order.old ≡ length slots.old }
    requires fresh { (k : ℕ) → base ≤ k → k < length slots.old → slice_index slots.old k ≡ no_slot }
    ensures length { length slots.new ≡ length slots.old }
    ensures same { length order.new ≡ length slots.old }
    ensures listed { IsListing graph.now c categories categories result base slots.new order.new }
    ensures slots { (k : ℕ) → k < base → slice_index slots.new k ≡ slice_index slots.old k }
    ensures order { (k : ℕ) → k < base → slice_index order.new k ≡ slice_index order.old k }
{
    let mut count: u16 = 0;
    'categories: for d in 0..categories {
        if !graph.reaches(CatId(c), CatId(d)) {
            continue;
        }
        slots[base + usize::from(d)] = count;
        order[base + usize::from(count)] = d;
        count += 1;
    }
    count
}

impl Slots {
    /// The slots of the graph's categories. Cost: the square of their number.
    pub(crate) fn of(alloc: Global, graph: &Graph, categories: u16) -> Result<Slots, Memory>
        requires count { categories ≡ category_count graph.now }
        requires few { categories ≤ most_categories }
        ensures { IfOk result (λ s. AreListed graph.now categories categories
            s.slots.items s.order.items s.counts.items) }
    {
        let width = usize::from(categories);
        let mut slots = vec![in alloc; NO_SLOT; width * width]?;
        let mut order = vec![in alloc; 0; width * width]?;
        let mut counts = Vec::with_capacity(alloc, width)?;
        'categories: for c in 0..categories {
            let base = usize::from(c) * width;
            let count = list_reached(graph, categories, c, base, &mut slots, &mut order);
            counts.push(count)?;
        }
        Ok(Slots {
            slots,
            order,
            counts,
        })
    }

    /// How many categories c reaches.
    pub(crate) fn count(&self, categories: u16, c: u16) -> u16
        requires slots { IsSlots categories self.now }
        requires c { c < categories }
        ensures count { result ≡ count_of self.now c }
        ensures few { result ≤ categories }
    {
        self.counts[usize::from(c)]
    }

    /// The slot of d in the rows of c's members, if c reaches it.
    pub(crate) fn slot(&self, categories: u16, c: u16, d: u16) -> Option<u16>
        requires slots { IsSlots categories self.now }
        requires c { c < categories }
        requires d { d < categories }
        ensures some { IfSome result (λ s. (slot_of categories self.now c d ≡ s) × (s ≢ no_slot)) }
        ensures none { IsNone result → slot_of categories self.now c d ≡ no_slot }
    {
        let slot = self.slots[usize::from(c) * usize::from(categories) + usize::from(d)];
        if slot == NO_SLOT { None } else { Some(slot) }
    }

    /// The categories that c reaches, by slot.
    pub(crate) fn reached(&self, categories: u16, c: u16) -> &[u16]
        requires slots { IsSlots categories self.now }
        requires c { c < categories }
        ensures len { length result.now ≡ count_of self.now c }
        ensures each { (k : ℕ) → k < length result.now → slice_index result.now k ≡ order_of categories self.now c k }
    {
        let start = usize::from(c) * usize::from(categories);
        &self.order[start..start + usize::from(self.count(categories, c))]
    }
}
