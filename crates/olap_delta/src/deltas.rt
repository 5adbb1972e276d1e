// Stored views that are changed fact by fact.
ghost use Rattle.std.specs.Prelude.{◌≡◌, ◌+◌, ◌<◌, ◌≤◌, ℕ, All, IfErr, IfOk, List as Items, Ok, length, map};
ghost use Rattle.olap_base.specs.Graph.{Graph as TheGraph};
ghost use Rattle.olap_base.specs.Limits.{most_count};
ghost use Rattle.olap_base.specs.Refusing.{IsRefusedBy};
ghost use Rattle.olap_base.specs.Views.{View as TheView};
ghost use Rattle.olap_delta.specs.FactByFact.{fact_after};
ghost use Rattle.olap_delta.specs.Changing.{step_of};
ghost use Rattle.olap_delta.specs.Taking.{AreTaken};
ghost use Rattle.olap_facts.specs.Seen.{fact_of};
ghost use Rattle.olap_view.specs.Seen.{views_of};
ghost use Rattle.olap_view.specs.Stores.{Fits, IsInFileOrder, IsSoundStore, IsStore};
ghost use Rattle.olap_view.specs.SummaryTables.{categories_in};

use crate::{Change, DeltaKind};
use olap_base::{Fault, Memory, Refusal};
use olap_facts::Fact;
use olap_legal::Legal;
use olap_view::{Store, SummaryTable};
use std::alloc::Global;
use std::marker::Model;

/// Stored views that are changed fact by fact, up to the first that is refused.
#[derive(Drop)]
pub struct Delta<'a> {
    change: Change,
    table: SummaryTable<'a>,
    // How many facts were taken.
    taken: u64,
    // The first that was refused: its record, and why.
    refused: Option<Fault<DeltaKind>>,
}

impl<'a> Model for Delta<'a> {
    ghost use Rattle.olap_delta.specs.Changing.{AreStorable, Delta as TheDelta, delta_of};

    ghost Value = { TheDelta };

    ghost view = { λ a. delta_of a.change a.table a.taken a.refused };

    ghost invariant = { λ a. AreStorable a.table };
}

impl<'a> Delta<'a> {
    /// The stored views before any fact. It takes the memory of a summary table. `Memory`: out of memory.
    pub fn new(
        alloc: Global,
        change: Change,
        legal: &'a Legal,
        store: &Store,
    ) -> Result<Delta<'a>, Memory>
        requires store { IsStore (views_of store.now) }
        requires fit { All Fits (views_of store.now) }
        requires order { All (IsInFileOrder legal.now) (views_of store.now) }
        ensures change { IfOk result (λ d. d.change ≡ change) }
        ensures instance { IfOk result (λ d. d.instance ≡ legal.now) }
        ensures categories { IfOk result (λ d. d.categories ≡ categories_in (views_of store.now)) }
        ensures taken { IfOk result (λ d. d.taken ≡ 0) }
        ensures views { IfOk result (λ d. d.views ≡ Ok (views_of store.now)) }
    {
        Ok(Delta {
            change,
            table: SummaryTable::of(alloc, legal, store)?,
            taken: 0,
            refused: None,
        })
    }

    /// Takes a fact, whose record is the second after those that were taken, as if a header stood before the first. It
    /// takes one look at a list for each view, and no memory.
    pub fn take(&mut self, fact: &Fact)
        requires member { fact.now.member.0 < length self.old.instance }
        requires room { self.old.taken < most_count }
        ensures change { self.new.change ≡ self.old.change }
        ensures instance { self.new.instance ≡ self.old.instance }
        ensures categories { self.new.categories ≡ self.old.categories }
        ensures taken { self.new.taken ≡ self.old.taken + 1 }
        ensures views { self.new.views
            ≡ fact_after (step_of self.old.change) self.old.instance (self.old.taken + 2)
            (fact_of fact.now) self.old.views }
    {
        if self.refused.is_none() {
            let at = self.taken + 2;
            self.refused = match self.change.views(&mut self.table, fact) {
                Ok(()) => None,
                Err(kind) => Some(Fault { at, kind }),
            };
        }
        self.taken += 1;
    }

    /// Takes facts, in their order, as `take` takes one.
    pub(crate) fn take_all(&mut self, facts: &[Fact])
        requires members { All (λ f. f.member.0 < length self.old.instance) facts.now }
        requires room { self.old.taken + length facts.now ≤ most_count }
        ensures { AreTaken (map fact_of facts.now) self.old self.new }
    {
        'facts: for fact in facts {
            self.take(fact);
        }
    }

    /// The stored views after the facts, or the first fact that was refused. `Memory`: out of memory.
    pub fn into_store(self) -> Result<Store, Refusal<Fault<DeltaKind>>>
        ensures ok { IfOk result (λ s. self.entry.views ≡ Ok (views_of s)) }
        ensures sound { IfOk result (λ s. (g : TheGraph) (before : Items (TheView ℕ ℕ))
            → self.entry.categories ≡ categories_in before
            → IsSoundStore g self.entry.instance before
            → IsSoundStore g self.entry.instance (views_of s)) }
        ensures order { IfOk result (λ s. All (IsInFileOrder self.entry.instance) (views_of s)) }
        ensures err { IfErr result (λ e. IsRefusedBy e self.entry.views) }
    {
        if let Some(fault) = self.refused {
            return Err(Refusal::Kind(fault));
        }
        Ok(Store {
            views: self.table.views()?,
        })
    }
}
