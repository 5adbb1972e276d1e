// Instances in the making.
ghost use Rattle.std.specs.Prelude.{◌≡◌, ◌↔◌, ◌<◌, ◌∷◌, ◌++◌, [], ℕ, Contains, None, codes, false, length, map, slice_index_or, unwrap_or, IfErr, IfOk, IfSome, IsTrue, OnErr, OnOk};
ghost use Rattle.std.specs.Str.{is_utf8};
ghost use Rattle.olap_base.specs.Graph.{Graph, category_count};
ghost use Rattle.olap_base.specs.Limits.{most_members};
ghost use Rattle.olap_base.specs.Naming.{place_of};
ghost use Rattle.olap_base.specs.Refusing.{IsCause, IsFor};
ghost use Rattle.olap_instance.specs.DraftInside.{number_of, parents_told};
ghost use Rattle.olap_instance.specs.Drafts.{Draft, HasParent, has_numbers, instance_built, member_refusal, named_refusal, no_members, numbers_in, places_of, with_member, with_parent};
ghost use Rattle.olap_instance.specs.Made.{IsMadeFor};
ghost use Rattle.olap_instance.specs.Members.{all_member, childless};
ghost use Rattle.olap_instance.specs.Passes.{ids_in, parents_in};

use crate::hashing::KeyedHash;
use crate::lists::Lists;
use crate::rosters::Roster;
use crate::texts::{is_bad, is_bad_number, is_long};
use crate::{DuplicateParent, Instance, MemberFault};
use olap_base::{CatId, MOST_MEMBERS, MemberId, Memory, Refusal, Text};
use olap_graph::Graph;
use std::alloc::Global;
use std::marker::Model;

/// An instance that takes members and parents.
#[derive(Drop)]
pub struct InstanceBuilder {
    roster: Roster,
    // The parents of each member, `None` for `all`.
    parents: Vec<Vec<Option<MemberId>>>,
    // How many categories the graph has, and whether the names of each are numbers.
    categories: u16,
    numbers: Vec<bool>,
    alloc: Global,
}

impl Model for InstanceBuilder {
    ghost use Rattle.olap_instance.specs.Drafts.{Draft};

    ghost Value = { Draft };

    ghost use Rattle.olap_instance.specs.DraftInside.{draft_of, IsKept};

    ghost view = { draft_of };

    ghost invariant = { IsKept };
}

// Whether the parent is among these.
fn is_among(parents: &[Option<MemberId>], parent: Option<MemberId>) -> bool
    ensures { IsTrue result ↔ Contains (map number_of parents.now) (number_of parent) }
{
    parents.contains(&parent)
}

// Adds the parents of one more member, where `all` is this member.
fn link(
    lists: &mut Lists<MemberId>,
    parents: &[Option<MemberId>],
    all: MemberId,
) -> Result<(), Memory>
    ensures { OnOk result (parents_in lists.new
        ≡ parents_in lists.old ++ places_of all.0 (map number_of parents.now) ∷ []) }
{
    lists.begin()?;
    'parents: for parent in parents {
        lists.push(parent.unwrap_or(all))?;
    }
    Ok(())
}

// Adds `all` to the members, and puts the parents of each, and none for `all`, into lists.
fn complete(
    roster: &mut Roster,
    lists: &mut Lists<MemberId>,
    parents: &[Vec<Option<MemberId>>],
) -> Result<(), Memory>
    requires absent { place_of (codes "all") (ids_in roster.old) ≡ None }
    requires few { length roster.old < most_members }
    requires lists { lists.old ≡ [] }
    ensures members { OnOk result (roster.new ≡ roster.old ++ all_member ∷ []) }
    ensures parents { OnOk result (parents_in lists.new
        ≡ map (places_of (length roster.old)) (parents_told parents.now) ++ [] ∷ []) }
{
    let all = MemberId(roster.len() as u32);
    lists.reserve(parents.len())?;
    'lists: for list in parents {
        link(lists, list, all)?;
    }
    lists.begin()?;
    roster.add_all()
}

// For each category whether names are numbers.
fn kinds(alloc: Global, graph: &Graph) -> Result<Vec<bool>, Memory>
    ensures { IfOk result (λ v. v.items ≡ numbers_in graph.now) }
{
    let mut numbers = Vec::new(alloc);
    'categories: for c in 0..graph.categories() {
        numbers.push(graph.is_number(CatId(c)))?;
    }
    Ok(numbers)
}

// Whether the names of the category are numbers.
fn has_kind(numbers: &[bool], category: CatId) -> bool
    requires { category.0 < length numbers.now }
    ensures { result ≡ slice_index_or numbers.now category.0 false }
{
    numbers[usize::from(category.0)]
}

// The first reason to refuse a member whose name may have any length, out of memory aside.
fn refusal(
    roster: &Roster,
    id: &[u8],
    category: CatId,
    is_number: bool,
    name: &[u8],
) -> Option<MemberFault>
    ensures { (d : Draft) → d.members ≡ roster.now → has_numbers d category.0 ≡ is_number
        → result ≡ named_refusal d id.now category.0 name.now }
{
    if is_bad(id) {
        return Some(MemberFault::BadId);
    }
    if is_long(id) {
        return Some(MemberFault::TextTooLong);
    }
    if category.0 == 0 {
        return Some(MemberFault::RowForAll);
    }
    if is_bad_number(is_number, name) {
        return Some(MemberFault::BadNumber);
    }
    if id == b"all".as_slice() || roster.find(id).is_some() {
        return Some(MemberFault::DuplicateId);
    }
    if roster.len() >= MOST_MEMBERS - 1 {
        return Some(MemberFault::TooManyMembers);
    }
    None
}

// Adds a member without parents, whose id is not there, to the members and to their lists of parents.
fn add_parentless(
    roster: &mut Roster,
    parents: &mut Vec<Vec<Option<MemberId>>>,
    alloc: Global,
    id: &[u8],
    category: CatId,
    name: &[u8],
) -> Result<(), Memory>
    requires absent { place_of id.now (ids_in roster.old) ≡ None }
    requires few { length roster.old < most_members }
    ensures members { OnOk result (roster.new ≡ roster.old ++ childless id.now category.0 name.now ∷ []) }
    ensures parents { OnOk result (parents_told parents.new.items ≡ parents_told parents.old.items ++ [] ∷ []) }
    ensures same_members { OnErr result (roster.new ≡ roster.old) }
    ensures same_parents { OnErr result (parents.new.items ≡ parents.old.items) }
{
    parents.reserve(1)?;
    roster.add(id, category, name)?;
    parents.push(Vec::new(alloc))?;
    Ok(())
}

impl InstanceBuilder {
    /// No member but `all`. The index of ids has a hash without a key: members are added whose ids the
    /// program picked.
    pub fn new(alloc: Global, graph: &Graph) -> Result<InstanceBuilder, Memory>
        ensures { IfOk result (λ builder. builder ≡ no_members graph.now) }
    {
        let numbers = kinds(alloc, graph)?;
        Ok(InstanceBuilder {
            roster: Roster::new(alloc, KeyedHash::fixed()),
            parents: Vec::new(alloc),
            categories: graph.categories(),
            numbers,
            alloc,
        })
    }

    /// Adds a member, which has no parents yet, and says which it is.
    pub fn add_member(
        &mut self,
        id: Text,
        category: CatId,
        name: Text,
    ) -> Result<MemberId, Refusal<MemberFault>>
        requires id { IsTrue (is_utf8 id) }
        requires name { IsTrue (is_utf8 name) }
        requires category { category.0 < self.old.categories }
        ensures ok { IfOk result (λ m. member_refusal self.old id category.0 name ≡ None) }
        ensures number { IfOk result (λ m. m.0 ≡ length self.old.members) }
        ensures added { OnOk result (self.new ≡ with_member self.old id category.0 name) }
        ensures err { IfErr result (IsCause (member_refusal self.old id category.0 name)) }
        ensures same { OnErr result (self.new ≡ self.old) }
        ensures categories { self.new.categories ≡ self.old.categories }
        ensures numbers { self.new.numbers ≡ self.old.numbers }
    {
        if is_long(name.bytes()) && !is_bad(id.bytes()) {
            return Err(Refusal::Kind(MemberFault::TextTooLong));
        }
        self.add_named(id, category, name)
    }

    /// Adds a member as `add_member` does, but for its name, which may have any length. Where the name is
    /// over the limit, the text of the instance can't be read back.
    pub fn add_named(
        &mut self,
        id: Text,
        category: CatId,
        name: Text,
    ) -> Result<MemberId, Refusal<MemberFault>>
        requires id { IsTrue (is_utf8 id) }
        requires name { IsTrue (is_utf8 name) }
        requires category { category.0 < self.old.categories }
        ensures ok { IfOk result (λ m. named_refusal self.old id category.0 name ≡ None) }
        ensures number { IfOk result (λ m. m.0 ≡ length self.old.members) }
        ensures added { OnOk result (self.new ≡ with_member self.old id category.0 name) }
        ensures err { IfErr result (IsCause (named_refusal self.old id category.0 name)) }
        ensures same { OnErr result (self.new ≡ self.old) }
        ensures categories { self.new.categories ≡ self.old.categories }
        ensures numbers { self.new.numbers ≡ self.old.numbers }
    {
        self.put(id.bytes(), category, name.bytes())
    }

    // Adds a member of that id and that name.
    fn put(
        &mut self,
        id: &[u8],
        category: CatId,
        name: &[u8],
    ) -> Result<MemberId, Refusal<MemberFault>>
        requires id { IsTrue (is_utf8 id.now) }
        requires name { IsTrue (is_utf8 name.now) }
        requires category { category.0 < self.old.categories }
        ensures ok { IfOk result (λ m. named_refusal self.old id.now category.0 name.now ≡ None) }
        ensures number { IfOk result (λ m. m.0 ≡ length self.old.members) }
        ensures added { OnOk result (self.new ≡ with_member self.old id.now category.0 name.now) }
        ensures err { IfErr result (IsCause (named_refusal self.old id.now category.0 name.now)) }
        ensures same { OnErr result (self.new ≡ self.old) }
        ensures categories { self.new.categories ≡ self.old.categories }
        ensures numbers { self.new.numbers ≡ self.old.numbers }
    {
        let is_number = has_kind(&self.numbers, category);
        if let Some(refusal) = refusal(&self.roster, id, category, is_number, name) {
            return Err(Refusal::Kind(refusal));
        }
        let member = MemberId(self.roster.len() as u32);
        add_parentless(
            &mut self.roster,
            &mut self.parents,
            self.alloc,
            id,
            category,
            name,
        )?;
        Ok(member)
    }

    /// Adds a parent after the child's other parents; `None` stands for `all`. The test for a duplicate
    /// goes through the child's parents.
    pub fn add_parent(
        &mut self,
        child: MemberId,
        parent: Option<MemberId>,
    ) -> Result<(), Refusal<DuplicateParent>>
        requires child { child.0 < length self.old.members }
        requires parent { IfSome parent (λ p. p.0 < length self.old.members) }
        ensures ok { OnOk result (HasParent self.old child.0 (number_of parent) → ⊥) }
        ensures added { OnOk result (self.new ≡ with_parent self.old child.0 (number_of parent)) }
        ensures duplicate { IfErr result (IsFor (λ _. HasParent self.old child.0 (number_of parent))) }
        ensures same { OnErr result (self.new ≡ self.old) }
        ensures categories { self.new.categories ≡ self.old.categories }
        ensures numbers { self.new.numbers ≡ self.old.numbers }
        ensures members { self.new.members ≡ self.old.members }
    {
        let parents = &mut self.parents[child.0 as usize];
        if is_among(parents, parent) {
            return Err(Refusal::Kind(DuplicateParent));
        }
        parents.push(parent)?;
        Ok(())
    }

    /// The members with their parents, and `all` as the last.
    pub fn finish(self) -> Result<Instance, Memory>
        ensures built { IfOk result (λ i. i ≡ instance_built self) }
        ensures made { IfOk result (λ i. (g : Graph) → category_count g ≡ self.categories
            → numbers_in g ≡ self.numbers → IsMadeFor g i) }
    {
        let InstanceBuilder {
            mut roster,
            parents,
            categories: _,
            numbers: _,
            alloc,
        } = self;
        let mut lists = Lists::new(alloc);
        complete(&mut roster, &mut lists, &parents)?;
        Ok(Instance::from_parts(roster, lists))
    }
}
