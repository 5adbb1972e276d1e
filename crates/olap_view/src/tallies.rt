// Tallies: facts are added one at a time, and give the direct views of some categories.
//
// If the categories are few, a fact goes into the table of their members at once. If they are more, the total of the
// facts at each member is kept at that member, and goes into the table once for each member and not for each fact.
ghost use Rattle.std.specs.Prelude.{◌≡◌, ◌≢◌, ◌+◌, ◌∷◌, ◌++◌, ◌<◌, ◌≤◌, ◌^◌, ℕ, All, AllPairs, Contains, IfOk, List as Items, None, [], length, map, slice_index_or};
ghost use Rattle.olap_base.specs.Limits.{most_count, most_members};
ghost use Rattle.olap_base.specs.Summaries.{◌⊕◌};
ghost use Rattle.olap_base.specs.Views.{Fact as TheFact, direct_view, members};
ghost use Rattle.olap_facts.specs.Seen.{fact_of};
ghost use Rattle.olap_view.specs.Seen.{each_view_of, ids, view_of};
ghost use Rattle.olap_view.specs.Stores.{Fits};
ghost use Rattle.olap_view.specs.SummaryTables.{stands_at, view_at};
ghost use Rattle.olap_view.specs.Tables.{IsAmong};
ghost use Rattle.olap_view.specs.Tallies.{IsTableOf, IsTableWithin, IsWaitingWithin, StandsFor, waiting_at};

use crate::{Summary, SummaryTable, View};
use olap_base::{CatId, List, MemberId, Memory};
use olap_facts::Fact;
use olap_legal::Legal;
use std::alloc::Global;
use std::marker::Model;

/// The most categories that count as few: for each fact, what its member reaches in each of them is looked up.
const FEW_CATEGORIES: usize = 2;

/// The total of the values of the facts that were added, at each member of some categories.
#[derive(Drop)]
pub struct Tally<'a> {
    table: SummaryTable<'a>,
    // For each member the total of the facts at it that aren't in the table; empty if each goes there at once.
    waiting: Vec<Option<Summary>>,
    added: u64,
}

impl<'a> Model for Tally<'a> {
    ghost use Rattle.olap_view.specs.Tallies.{IsTally, Tallied, tallied};

    ghost Value = { Tallied };

    ghost view = { λ a. tallied a.table a.waiting.items a.added };

    ghost invariant = { λ a. IsTally a.table a.waiting.items a.added };
}

/// Nothing waits: a place for each member if there are more than a few categories, and no places otherwise.
fn nothing_waiting(
    alloc: Global,
    members: u32,
    categories: usize,
) -> Result<Vec<Option<Summary>>, Memory>
    ensures size { IfOk result (λ v. length v.items ≤ members) }
    ensures empty { IfOk result (λ v. (x : ℕ) → slice_index_or v.items x None ≡ None) }
{
    let places = if categories > FEW_CATEGORIES {
        members
    } else {
        0
    };
    Ok(vec![in alloc; None; places as usize]?)
}

/// Joins the summary that waits at each member to what stands at the members of the categories that it reaches.
fn join_waiting(table: &mut SummaryTable, waiting: &[Option<Summary>])
    requires members { length waiting.now ≤ length table.old.instance }
    requires few { length table.old.instance ≤ most_members }
    requires table { IsTableWithin most_count table.old }
    requires waiting { IsWaitingWithin most_count waiting.now }
    ensures instance { table.new.instance ≡ table.old.instance }
    ensures categories { table.new.categories ≡ table.old.categories }
    ensures at { (y : ℕ) → IsAmong table.old.instance table.old.categories y
        → stands_at table.new y ≡ stands_at table.old y ⊕ waiting_at table.old.instance waiting.now y }
{
    'members: for x in 0..waiting.len() {
        if let Some(summary) = waiting[x] {
            table.join(MemberId(x as u32), summary);
        }
    }
}

impl<'a> Tally<'a> {
    /// A tally to which no fact was added. It takes four bytes for each member of the instance, four more for each
    /// category, and memory for a summary at each member of the categories; with more than two categories also for one
    /// at each member of the instance. `Memory`: out of memory.
    pub fn new(alloc: Global, legal: &'a Legal, categories: &[CatId]) -> Result<Tally<'a>, Memory>
        requires differ { AllPairs ◌≢◌ (ids categories.now) }
        ensures instance { IfOk result (λ t. t.instance ≡ legal.now) }
        ensures categories { IfOk result (λ t. t.categories ≡ ids categories.now) }
        ensures stands { IfOk result (λ t. StandsFor t []) }
    {
        Ok(Tally {
            waiting: nothing_waiting(alloc, legal.instance().members(), categories.len())?,
            table: SummaryTable::new(alloc, legal, categories)?,
            added: 0,
        })
    }

    /// How many facts were added.
    pub fn added(&self) -> u64
        ensures { result ≡ self.now.added }
    {
        self.added
    }

    /// Adds a fact: a tally that stood for some facts stands for them and this one after them. It takes one look at
    /// a list for each of two categories or one, and one for more.
    pub fn add(&mut self, fact: &Fact)
        requires member { fact.now.member.0 < length self.old.instance }
        requires room { self.old.added < most_count }
        ensures instance { self.new.instance ≡ self.old.instance }
        ensures categories { self.new.categories ≡ self.old.categories }
        ensures added { self.new.added ≡ self.old.added + 1 }
        ensures stands { (facts : Items (TheFact ℕ)) → StandsFor self.old facts
            → StandsFor self.new (facts ++ fact_of fact.now ∷ []) }
    {
        let alone = Summary::of_value(fact.value);
        let x = fact.member.0 as usize;
        if x < self.waiting.len() {
            self.waiting[x] = Some(alone.beside(self.waiting[x]));
        } else {
            self.table.join(fact.member, alone);
        }
        self.added += 1;
    }

    /// Adds a fact as `add` does, to the table.
    #[inline(always)]
    fn add_to_table(&mut self, fact: &Fact)
        requires member { fact.now.member.0 < length self.old.instance }
        requires room { self.old.added < most_count }
        ensures instance { self.new.instance ≡ self.old.instance }
        ensures categories { self.new.categories ≡ self.old.categories }
        ensures added { self.new.added ≡ self.old.added + 1 }
        ensures stands { (facts : Items (TheFact ℕ)) → StandsFor self.old facts
            → StandsFor self.new (facts ++ fact_of fact.now ∷ []) }
    {
        self.table.join(fact.member, Summary::of_value(fact.value));
        self.added += 1;
    }

    /// Adds facts, in their order, as `add_to_table` adds one.
    fn add_all_to_table(&mut self, facts: &[Fact])
        requires members { All (λ f. f.member.0 < length self.old.instance) facts.now }
        requires room { self.old.added + length facts.now ≤ most_count }
        ensures instance { self.new.instance ≡ self.old.instance }
        ensures categories { self.new.categories ≡ self.old.categories }
        ensures added { self.new.added ≡ self.old.added + length facts.now }
        ensures stands { (before : Items (TheFact ℕ)) → StandsFor self.old before
            → StandsFor self.new (before ++ map fact_of facts.now) }
    {
        'facts: for fact in facts {
            self.add_to_table(fact);
        }
    }

    /// Adds facts, in their order, as `add` adds one.
    pub fn add_all(&mut self, facts: &[Fact])
        requires members { All (λ f. f.member.0 < length self.old.instance) facts.now }
        requires room { self.old.added + length facts.now ≤ most_count }
        ensures instance { self.new.instance ≡ self.old.instance }
        ensures categories { self.new.categories ≡ self.old.categories }
        ensures added { self.new.added ≡ self.old.added + length facts.now }
        ensures stands { (before : Items (TheFact ℕ)) → StandsFor self.old before
            → StandsFor self.new (before ++ map fact_of facts.now) }
    {
        if self.waiting.is_empty() {
            self.add_all_to_table(facts);
        } else {
            'facts: for fact in facts {
                self.add(fact);
            }
        }
    }

    /// The table, with what was waiting. Its views may be stored.
    fn into_table(self) -> SummaryTable<'a>
        ensures table { IsTableOf self.entry result }
        ensures fit { (c : ℕ) → Contains self.entry.categories c → Fits (view_at result c) }
    {
        let mut table = self.table;
        join_waiting(&mut table, &self.waiting);
        table
    }

    /// The direct view of one of the categories.
    pub(crate) fn into_view(self, c: CatId) -> Result<View, Memory>
        requires among { Contains self.categories c.0 }
        ensures view { IfOk result
            (λ v. (facts : Items (TheFact ℕ)) → StandsFor self.entry facts
            → view_of v ≡ direct_view (members self.entry.instance) facts c.0) }
        ensures members { IfOk result (λ v. All (λ r. r.member.0 < length self.entry.instance) v.rows) }
        ensures fits { IfOk result (λ v. Fits (view_of v)) }
    {
        let table = self.into_table();
        table.view(c)
    }

    /// The direct views of the categories, in their order. `Memory`: out of memory.
    pub fn into_views(self) -> Result<List<View>, Memory>
        ensures views { IfOk result (λ v. (facts : Items (TheFact ℕ)) → StandsFor self.entry facts
            → each_view_of v ≡ map (direct_view (members self.entry.instance) facts) self.entry.categories) }
        ensures members { IfOk result (λ v. All (λ w. All (λ r. r.member.0 < length self.entry.instance) w.rows) v) }
        ensures fit { IfOk result (λ v. All Fits (each_view_of v)) }
    {
        let table = self.into_table();
        table.views()
    }
}
