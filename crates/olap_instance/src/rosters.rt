// The members of an instance without their parents, and an index of their ids.
ghost use Rattle.std.specs.Prelude.{◌≡◌, ◌∷◌, ◌++◌, ◌<◌, ◌^◌, [], codes, length, map, None, OnOk, OnErr};
ghost use Rattle.std.specs.Str.{bytes_eq};
ghost use Rattle.indexmap.specs.IndexSet.{insert_key};
ghost use Rattle.olap_base.specs.Instance.{category_of, member_at, name_of};
ghost use Rattle.olap_base.specs.Naming.{place_of};
ghost use Rattle.olap_instance.specs.Members.{all_member, childless};

use crate::hashing::KeyedHash;
use crate::ids::{Id, Sought};
use crate::lists::Lists;
use indexmap::IndexSet;
use olap_base::{CatId, Memory};
use std::alloc::Global;
use std::marker::Model;

/// Members without their parents, in file order.
#[derive(Drop)]
pub(crate) struct Roster {
    // The id of each member stands here alone. Its place is the member's.
    ids: IndexSet<Id, KeyedHash>,
    // The category of each member, side by side: most passes over the members ask for nothing else.
    categories: Vec<CatId>,
    names: Lists<u8>,
    alloc: Global,
}

impl Model for Roster {
    ghost use Rattle.olap_base.specs.Instance.{Instance};

    ghost Value = { Instance };

    ghost use Rattle.olap_instance.specs.RosterInside.{members_of_roster, IsRoster};

    ghost view = { members_of_roster };

    ghost invariant = { IsRoster };
}

// Adds an id, a category and a name, or leaves all as they are.
fn add_entry(
    ids: &mut IndexSet<Id, KeyedHash>,
    categories: &mut Vec<CatId>,
    names: &mut Lists<u8>,
    id: Id,
    category: CatId,
    name: &[u8],
) -> Result<(), Memory>
    ensures ids { OnOk result (ids.new.keys ≡ insert_key bytes_eq ids.old.keys id) }
    ensures categories { OnOk result (categories.new.items ≡ categories.old.items ++ category ∷ []) }
    ensures names { OnOk result (names.new ≡ names.old ++ name.now ∷ []) }
    ensures same_ids { OnErr result (ids.new.keys ≡ ids.old.keys) }
    ensures same_categories { OnErr result (categories.new.items ≡ categories.old.items) }
    ensures same_names { OnErr result (names.new ≡ names.old) }
{
    ids.reserve(1)?;
    categories.reserve(1)?;
    // What follows the name takes no memory, so that a name without an id never stays.
    names.add(name)?;
    ids.insert(id)?;
    categories.push(category)?;
    Ok(())
}

impl Roster {
    /// No members. Their ids will be looked up by that hash.
    pub(crate) fn new(alloc: Global, hash: KeyedHash) -> Roster
        ensures { result ≡ [] }
    {
        Roster {
            ids: IndexSet::with_hasher(alloc, hash),
            categories: Vec::new(alloc),
            names: Lists::new(alloc),
            alloc,
        }
    }

    pub(crate) fn len(&self) -> usize
        ensures { result ≡ length self.now }
    {
        self.categories.len()
    }

    /// The id of the member at a place.
    pub(crate) fn id(&self, place: u32) -> &[u8]
        requires { place < length self.now }
        ensures { result.now ≡ (member_at self.now place).id }
    {
        self.ids.as_slice()[place as usize].bytes()
    }

    /// The category of the member at a place.
    #[inline(always)]
    pub(crate) fn category(&self, place: u32) -> CatId
        requires { place < length self.now }
        ensures { result.0 ≡ category_of self.now place }
    {
        self.categories[place as usize]
    }

    /// The name of the member at a place.
    pub(crate) fn name(&self, place: u32) -> &[u8]
        requires { place < length self.now }
        ensures { result.now ≡ name_of self.now place }
    {
        self.names.of(place as usize)
    }

    /// The place of the member of that id.
    #[inline(always)]
    pub(crate) fn find(&self, id: &[u8]) -> Option<u32>
        ensures { result ≡ place_of id.now (map (λ m. m.id) self.now) }
    {
        match self.ids.get_index_of(Sought(id)) {
            Some(place) => Some(place as u32),
            None => None,
        }
    }

    /// Adds a member whose id is not there.
    pub(crate) fn add(&mut self, id: &[u8], category: CatId, name: &[u8]) -> Result<(), Memory>
        requires absent { place_of id.now (map (λ m. m.id) self.old) ≡ None }
        requires room { length self.old < 2 ^ 32 }
        ensures ok { OnOk result (self.new ≡ self.old ++ childless id.now category.0 name.now ∷ []) }
        ensures same { OnErr result (self.new ≡ self.old) }
    {
        let key = Id::from_bytes(self.alloc, id)?;
        add_entry(
            &mut self.ids,
            &mut self.categories,
            &mut self.names,
            key,
            category,
            name,
        )?;
        Ok(())
    }

    /// Adds the member `all`, if it isn't there.
    pub(crate) fn add_all(&mut self) -> Result<(), Memory>
        requires absent { place_of (codes "all") (map (λ m. m.id) self.old) ≡ None }
        requires room { length self.old < 2 ^ 32 }
        ensures ok { OnOk result (self.new ≡ self.old ++ all_member ∷ []) }
        ensures same { OnErr result (self.new ≡ self.old) }
    {
        self.add(b"all", CatId(0), b"all")
    }
}
