// Stored views after facts came or were withdrawn.
ghost use Rattle.std.specs.Prelude.{◌≡◌, ◌<◌, ◌≤◌, All, IfErr, IfOk, Ok, length};
ghost use Rattle.olap_base.specs.Graph.{Graph as TheGraph};
ghost use Rattle.olap_base.specs.Limits.{most_count};
ghost use Rattle.olap_base.specs.Refusing.{IsRefusedBy};
ghost use Rattle.olap_delta.specs.Changes.{appended, retracted, store_changed};
ghost use Rattle.olap_delta.specs.Taking.{IsStoreAfter};
ghost use Rattle.olap_facts.specs.Seen.{facts_of};
ghost use Rattle.olap_view.specs.Seen.{views_of};
ghost use Rattle.olap_view.specs.Stores.{Fits, IsInFileOrder, IsSoundStore, IsStore};

use crate::joining::joined;
use crate::lots::Lots;
use crate::{Change, Delta, DeltaKind};
use olap_base::{Fault, Refusal};
use olap_facts::Facts;
use olap_legal::Legal;
use olap_view::Store;
use std::alloc::Global;

/// The stored views after the change by the facts, one after another, or the first that is refused.
fn one_by_one(
    alloc: Global,
    change: Change,
    legal: &Legal,
    store: &Store,
    facts: &Facts,
) -> Result<Store, Refusal<Fault<DeltaKind>>>
    requires store { IsStore (views_of store.now) }
    requires fit { All Fits (views_of store.now) }
    requires order { All (IsInFileOrder legal.now) (views_of store.now) }
    requires at_members { All (λ f. f.member.0 < length legal.now) facts.now.rows }
    requires few { length facts.now.rows ≤ most_count }
    ensures { IsStoreAfter change legal.now (views_of store.now) (facts_of facts.now) result }
{
    let mut delta = Delta::new(alloc, change, legal, store)?;
    delta.take_all(facts.rows.items());
    delta.into_store()
}

/// The stored views after the change by the facts, or the first that is refused: joined by member, where no fact is.
pub(crate) fn changed(
    alloc: Global,
    change: Change,
    legal: &Legal,
    store: &Store,
    facts: &Facts,
) -> Result<Store, Refusal<Fault<DeltaKind>>>
    requires store { IsStore (views_of store.now) }
    requires fit { All Fits (views_of store.now) }
    requires order { All (IsInFileOrder legal.now) (views_of store.now) }
    requires at_members { All (λ f. f.member.0 < length legal.now) facts.now.rows }
    requires few { length facts.now.rows ≤ most_count }
    ensures { IsStoreAfter change legal.now (views_of store.now) (facts_of facts.now) result }
{
    let mut lots = Lots::new(alloc, legal.instance().members())?;
    'facts: for fact in facts.rows.items() {
        lots.take(fact)?;
    }
    match joined(alloc, change, legal, store, lots)? {
        Some(store) => Ok(store),
        None => one_by_one(alloc, change, legal, store, facts),
    }
}

/// The stored views after facts came. Each fact adds its value to the row of the member that its own reaches in each
/// view, or begins that row; the facts are taken in order, and for each the views. If the views are the direct ones of
/// a fact table, they become the direct views of that table followed by these facts (`append_gives_direct_views`).
///
/// It is refused at the first fact that finds its row's count at `MOST_COUNT` (`Full`), or takes its row's sum past
/// `MOST_SUM` (`Bound`). It takes the memory of a summary table and of a summary for each member that has
/// a fact, and one look at a list for each such member and view; for each fact and view, if one is refused. `Memory`:
/// out of memory.
///
/// Views that are kept up to date from the change alone: Mumick, Quass, Mumick, SIGMOD 1997.
pub fn append(
    alloc: Global,
    legal: &Legal,
    store: &Store,
    facts: &Facts,
) -> Result<Store, Refusal<Fault<DeltaKind>>>
    requires store { IsStore (views_of store.now) }
    requires fit { All Fits (views_of store.now) }
    requires order { All (IsInFileOrder legal.now) (views_of store.now) }
    requires at_members { All (λ f. f.member.0 < length legal.now) facts.now.rows }
    requires few { length facts.now.rows ≤ most_count }

    ensures ok { IfOk result (λ s.
        store_changed appended legal.now (views_of store.now) (facts_of facts.now)
        ≡ Ok (views_of s)) }
    ensures sound { IfOk result (λ s. (g : TheGraph) → IsSoundStore g legal.now (views_of store.now)
        → IsSoundStore g legal.now (views_of s)) }
    ensures order { IfOk result (λ s. All (IsInFileOrder legal.now) (views_of s)) }

    ensures err { IfErr result (λ e. IsRefusedBy e
        (store_changed appended legal.now (views_of store.now) (facts_of facts.now))) }
{
    changed(alloc, Change::Append, legal, store, facts)
}

/// The stored views after facts were withdrawn. Each fact takes its value from the row of the member that its own
/// reaches in each view; the row keeps its least and its greatest. If the views are the direct ones of a fact table
/// that has these facts, they become the direct views of its other facts, or it is `Extreme`
/// (`retract_gives_direct_views`).
///
/// It is refused at the first fact that finds no row (`NoRow`), a least above its value or a greatest below it
/// (`Outside`), a least or a greatest that is its value (`Extreme`), or a count of at most 2 (`Short`), or takes its
/// row's sum past `MOST_SUM` (`Bound`). It takes the memory of a summary table and of a summary for each member
/// that has a fact, and one look at a list for each such member and view; for each fact and view, if one is refused.
/// `Memory`: out of memory.
pub fn retract(
    alloc: Global,
    legal: &Legal,
    store: &Store,
    facts: &Facts,
) -> Result<Store, Refusal<Fault<DeltaKind>>>
    requires store { IsStore (views_of store.now) }
    requires fit { All Fits (views_of store.now) }
    requires order { All (IsInFileOrder legal.now) (views_of store.now) }
    requires at_members { All (λ f. f.member.0 < length legal.now) facts.now.rows }
    requires few { length facts.now.rows ≤ most_count }

    ensures ok { IfOk result (λ s.
        store_changed retracted legal.now (views_of store.now) (facts_of facts.now)
        ≡ Ok (views_of s)) }
    ensures sound { IfOk result (λ s. (g : TheGraph) → IsSoundStore g legal.now (views_of store.now)
        → IsSoundStore g legal.now (views_of s)) }
    ensures order { IfOk result (λ s. All (IsInFileOrder legal.now) (views_of s)) }

    ensures err { IfErr result (λ e. IsRefusedBy e
        (store_changed retracted legal.now (views_of store.now) (facts_of facts.now))) }
{
    changed(alloc, Change::Retract, legal, store, facts)
}
