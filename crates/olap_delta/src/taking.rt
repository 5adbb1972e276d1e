// The facts of a text that were taken so far: listed while they are few, else gone into the views.
ghost use Rattle.std.specs.Prelude.{◌≡◌, ℕ, ◌+◌, ◌++◌, ◌≤◌, ◌<◌, All, IfOk, List as Items, length, map};
ghost use Rattle.olap_base.specs.Limits.{most_count};
ghost use Rattle.olap_base.specs.Views.{Fact as TheFact};
ghost use Rattle.olap_delta.specs.Taking.{AreIn, IsStoreAfter, IsTakenAt, taken_by};
ghost use Rattle.olap_facts.specs.Seen.{fact_of};
ghost use Rattle.olap_view.specs.Seen.{views_of};
ghost use Rattle.olap_view.specs.Stores.{Fits, IsInFileOrder, IsStore};

use crate::storing::changed;
use crate::{Change, Delta, DeltaKind};
use olap_base::{Fault, List, MOST_LISTED_FACTS, Memory, Refusal};
use olap_facts::{Fact, Facts};
use olap_legal::Legal;
use olap_view::Store;
use std::alloc::Global;

/// What is changed, and how.
#[derive(Clone, Copy)]
pub(crate) struct Base<'a> {
    pub(crate) change: Change,
    pub(crate) legal: &'a Legal,
    pub(crate) store: &'a Store,
}

/// The facts that were taken. Up to `MOST_LISTED_FACTS` are listed, so that they are joined by member; if there are
/// more, each goes into the views by itself.
#[derive(Drop)]
pub(crate) enum Taken<'a> {
    /// They are listed, and the views are as they were.
    Listed(Vec<Fact>),
    /// They are in the views.
    Gone(Delta<'a>),
}

/// The facts that were listed, and some more.
fn listed<'a>(
    alloc: Global,
    base: Base<'a>,
    mut facts: Vec<Fact>,
    more: &[Fact],
) -> Result<Taken<'a>, Memory>
    requires store { IsStore (views_of base.store.now) }
    requires fit { All Fits (views_of base.store.now) }
    requires order { All (IsInFileOrder base.legal.now) (views_of base.store.now) }
    requires listed { All (λ f. f.member.0 < length base.legal.now) facts.items }
    requires members { All (λ f. f.member.0 < length base.legal.now) more.now }
    requires room { length facts.items + length more.now ≤ most_count }
    ensures at { IfOk result (IsTakenAt base.entry.legal.now) }
    ensures taken { IfOk result (λ t. taken_by t ≡ length facts.items + length more.now) }
    ensures facts { IfOk result (AreIn base.entry.change base.entry.legal.now (views_of base.entry.store.now)
        (map fact_of facts.items ++ map fact_of more.now)) }
{
    if facts.len() + more.len() <= MOST_LISTED_FACTS as usize {
        facts.extend_from_slice(more)?;
        return Ok(Taken::Listed(facts));
    }
    let mut delta = Delta::new(alloc, base.change, base.legal, base.store)?;
    delta.take_all(&facts);
    delta.take_all(more);
    Ok(Taken::Gone(delta))
}

impl<'a> Taken<'a> {
    /// With some more facts, after those that were taken.
    pub(crate) fn and(
        self,
        alloc: Global,
        base: Base<'a>,
        more: &[Fact],
    ) -> Result<Taken<'a>, Memory>
        requires store { IsStore (views_of base.store.now) }
        requires fit { All Fits (views_of base.store.now) }
        requires order { All (IsInFileOrder base.legal.now) (views_of base.store.now) }
        requires at { IsTakenAt base.legal.now self }
        requires members { All (λ f. f.member.0 < length base.legal.now) more.now }
        requires room { taken_by self + length more.now ≤ most_count }
        ensures at { IfOk result (IsTakenAt base.entry.legal.now) }
        ensures taken { IfOk result (λ t. taken_by t ≡ taken_by self.entry + length more.now) }
        ensures facts { let b = base.entry in (facts : Items (TheFact ℕ))
            → AreIn b.change b.legal.now (views_of b.store.now) facts self.entry
            → IfOk result (AreIn b.change b.legal.now (views_of b.store.now) (facts ++ map fact_of more.now)) }
    {
        match self {
            Taken::Listed(facts) => listed(alloc, base, facts, more),
            Taken::Gone(mut delta) => {
                delta.take_all(more);
                Ok(Taken::Gone(delta))
            }
        }
    }

    /// The stored views after all facts that were taken, or the first that is refused.
    pub(crate) fn into_store(
        self,
        alloc: Global,
        base: Base<'a>,
    ) -> Result<Store, Refusal<Fault<DeltaKind>>>
        requires store { IsStore (views_of base.store.now) }
        requires fit { All Fits (views_of base.store.now) }
        requires order { All (IsInFileOrder base.legal.now) (views_of base.store.now) }
        requires at { IsTakenAt base.legal.now self }
        requires few { taken_by self ≤ most_count }
        ensures { let b = base.entry in (facts : Items (TheFact ℕ))
            → AreIn b.change b.legal.now (views_of b.store.now) facts self.entry
            → IsStoreAfter b.change b.legal.now (views_of b.store.now) facts result }
    {
        match self {
            Taken::Listed(facts) => {
                let facts = Facts {
                    rows: List::from_vec(facts),
                };
                changed(alloc, base.change, base.legal, base.store, &facts)
            }
            Taken::Gone(delta) => delta.into_store(),
        }
    }
}
