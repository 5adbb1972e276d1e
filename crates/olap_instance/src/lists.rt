// Lists that stand in one list, one after the other.
ghost use Rattle.std.specs.Prelude.{◌≡◌, ◌<◌, ◌≤◌, ◌+◌, ◌^◌, ◌∷◌, ◌++◌, [], List, length, slice_index, slice_index_or, OnOk, OnErr};

use olap_base::Memory;
use std::alloc::Global;
use std::marker::Model;

/// Lists, one after the other, so that none has memory of its own. Items are added to the last.
#[derive(Drop)]
pub(crate) struct Lists<T: Copy> {
    items: Vec<T>,
    // Where each list begins. It ends where the next one begins, and the last where the items end.
    starts: Vec<usize>,
}

impl<T: Copy> Model for Lists<T> {
    ghost use Rattle.std.specs.Prelude.{List as Items};

    ghost Value = { Items (Items T) };

    ghost use Rattle.olap_instance.specs.ListsInside.{lists_of, AreInOrder};

    ghost view = { lists_of };

    ghost invariant = { AreInOrder };
}

// Where the list at a place begins and where it ends: where the next one begins, or else at the end.
fn span(starts: &[usize], place: usize, end: usize) -> (usize, usize)
    requires place { place < length starts.now }
    requires order { slice_index starts.now place ≤ slice_index_or starts.now (place + 1) end }
    requires within { slice_index_or starts.now (place + 1) end ≤ end }
    ensures from { result.0 ≡ slice_index starts.now place }
    ensures to { result.1 ≡ slice_index_or starts.now (place + 1) end }
    ensures order { result.0 ≤ result.1 }
    ensures within { result.1 ≤ end }
{
    let from = starts[place];
    let to = starts.get(place + 1).copied().unwrap_or(end);
    (from, to)
}

impl<T: Copy> Lists<T> {
    /// No lists.
    pub(crate) fn new(alloc: Global) -> Lists<T>
        ensures { result ≡ [] }
    {
        Lists {
            items: Vec::new(alloc),
            starts: Vec::new(alloc),
        }
    }

    /// Makes room for this many more lists.
    pub(crate) fn reserve(&mut self, lists: usize) -> Result<(), Memory>
        ensures { self.new ≡ self.old }
    {
        self.starts.reserve(lists)?;
        Ok(())
    }

    /// How many lists there are.
    pub(crate) fn len(&self) -> usize
        ensures count { result ≡ length self.now }
        ensures few { length self.now < 2 ^ 63 }
    {
        self.starts.len()
    }

    /// Begins another list, which has no item.
    pub(crate) fn begin(&mut self) -> Result<(), Memory>
        ensures { OnOk result (self.new ≡ self.old ++ [] ∷ []) }
    {
        let end = self.items.len();
        self.starts.push(end)?;
        Ok(())
    }

    /// Adds an item to the last list.
    pub(crate) fn push(&mut self, item: T) -> Result<(), Memory>
        ensures { OnOk result ((before : List (List T)) (last : List T) → self.old ≡ before ++ last ∷ []
            → self.new ≡ before ++ (last ++ item ∷ []) ∷ []) }
    {
        self.items.push(item)?;
        Ok(())
    }

    /// Adds a list of these items.
    pub(crate) fn add(&mut self, items: &[T]) -> Result<(), Memory>
        ensures ok { OnOk result (self.new ≡ self.old ++ items.now ∷ []) }
        ensures same { OnErr result (self.new ≡ self.old) }
    {
        let end = self.items.len();
        self.starts.reserve(1)?;
        self.items.extend_from_slice(items)?;
        self.starts.push(end)?;
        Ok(())
    }

    /// The list at a place.
    pub(crate) fn of(&self, place: usize) -> &[T]
        requires { place < length self.now }
        ensures { result.now ≡ slice_index_or self.now place [] }
    {
        let (from, to) = span(&self.starts, place, self.items.len());
        &self.items[from..to]
    }
}
