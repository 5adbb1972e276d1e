// Stored views after the facts of a text came or were withdrawn.
ghost use Rattle.std.specs.Prelude.{◌≡◌, ◌++◌, ◌≤◌, ℕ, [], All, IfErr, IfOk, List as Items, MatchResult, Ok, Result as Answer};
ghost use Rattle.olap_base.specs.Graph.{Graph as TheGraph};
ghost use Rattle.olap_base.specs.Instance.{Instance as TheInstance};
ghost use Rattle.olap_base.specs.Limits.{most_count};
ghost use Rattle.olap_base.specs.Refusing.{IsRefusedBy};
ghost use Rattle.olap_base.specs.Views.{Fact as TheFact, View as TheView};
ghost use Rattle.olap_base.specs.declared.refusals.Fault.{Fault as TheFault};
ghost use Rattle.olap_delta.specs.Changes.{Step, store_changed};
ghost use Rattle.olap_delta.specs.Changing.{step_of};
ghost use Rattle.olap_delta.specs.Reading.{views_changed};
ghost use Rattle.olap_delta.specs.Taking.{AreAllIn, AreIn, HasTakenText, IsStoreAfterAll, IsTakenAt, taken_by};
ghost use Rattle.olap_delta.specs.declared.changes.Change.{Change as How};
ghost use Rattle.olap_facts.specs.FactText.{facts_read, facts_read_within};
ghost use Rattle.olap_facts.specs.Feeding.{Fed, fed_read};
ghost use Rattle.olap_facts.specs.declared.kinds.FactKind.{FactKind as TheFactKind};
ghost use Rattle.olap_instance.specs.Made.{IsMadeFor};
ghost use Rattle.olap_records.specs.Records.{records_of};
ghost use Rattle.olap_records.specs.Standing.{records_fed};
ghost use Rattle.olap_view.specs.Seen.{views_of};
ghost use Rattle.olap_view.specs.Stores.{Fits, IsInFileOrder, IsSoundStore, IsStore};

use crate::taking::{Base, Taken};
use crate::{Change, ChangeKind, DeltaKind};
use olap_base::{Fault, MOST_LISTED_FACTS, Refusal};
use olap_facts::{Fact, FactFeed, FactKind};
use olap_graph::Graph;
use olap_legal::Legal;
use olap_records::{records_are_those_at_the_end, without_mark};
use olap_view::Store;
use std::alloc::Global;
use std::marker::Model;

/// The refusal of a text of facts as one of a change by it.
fn of_text(refusal: Refusal<Fault<FactKind>>) -> Refusal<Fault<ChangeKind>>
    ensures { (step : Step) (i : TheInstance) (views : Items (TheView ℕ ℕ))
        (read : Answer (Items (TheFact ℕ)) (TheFault TheFactKind))
        → IsRefusedBy refusal read → IsRefusedBy result (views_changed step i views read) }
{
    match refusal {
        Refusal::Kind(fault) => Refusal::Kind(Fault {
            at: fault.at,
            kind: ChangeKind::Text(fault.kind),
        }),
        Refusal::Memory(memory) => Refusal::Memory(memory),
    }
}

/// The refusal of a fact as one of a change by a text that stands for it.
fn of_fact(refusal: Refusal<Fault<DeltaKind>>) -> Refusal<Fault<ChangeKind>>
    ensures { (step : Step) (i : TheInstance) (views : Items (TheView ℕ ℕ)) (facts : Items (TheFact ℕ))
        → IsRefusedBy refusal (store_changed step i views facts)
        → IsRefusedBy result (views_changed step i views (Ok facts)) }
{
    match refusal {
        Refusal::Kind(fault) => Refusal::Kind(Fault {
            at: fault.at,
            kind: ChangeKind::Fact(fault.kind),
        }),
        Refusal::Memory(memory) => Refusal::Memory(memory),
    }
}

/// Stored views that are changed by the facts of a text that comes in pieces, without its byte order mark
/// (`olap_records::without_mark`). Beside tables of members stand one record, the facts of one piece, and a list of the
/// facts while they are few.
#[derive(Drop)]
pub struct Changer<'a> {
    base: Base<'a>,
    feed: FactFeed<'a>,
    taken: Taken<'a>,
    batch: Vec<Fact>,
}

impl<'a> Model for Changer<'a> {
    ghost use Rattle.olap_delta.specs.Taking.{IsChanger, TextChange, text_change};

    ghost Value = { TextChange };

    ghost view = { λ a. text_change a.base a.feed a.taken };

    ghost invariant = { λ a. IsChanger (text_change a.base a.feed a.taken) };
}

impl<'a> Changer<'a> {
    /// The stored views before the first byte of a text of at most this many facts.
    pub fn new(
        alloc: Global,
        change: Change,
        graph: &'a Graph,
        legal: &'a Legal,
        store: &'a Store,
        most: u64,
    ) -> Changer<'a>
        requires made { IsMadeFor graph.now legal.now }
        requires few { most ≤ most_count }
        requires store { IsStore (views_of store.now) }
        requires fit { All Fits (views_of store.now) }
        requires order { All (IsInFileOrder legal.now) (views_of store.now) }
        ensures { HasTakenText change graph.now legal.now (views_of store.now) most [] result }
    {
        Changer {
            base: Base {
                change,
                legal,
                store,
            },
            feed: FactFeed::new(alloc, graph, legal.instance(), most),
            taken: Taken::Listed(Vec::new(alloc)),
            batch: Vec::new(alloc),
        }
    }

    /// Takes the next piece of the text. A refusal tells the first fault of the whole text, whatever comes after the
    /// piece.
    pub fn take(
        self,
        alloc: Global,
        piece: &[u8],
    ) -> Result<Changer<'a>, Refusal<Fault<ChangeKind>>>
        ensures takes { (by : How) (g : TheGraph) (i : TheInstance) (views : Items (TheView ℕ ℕ)) (most : ℕ)
            (fed : Items ℕ)
            → HasTakenText by g i views most fed self.entry → MatchResult result
            (HasTakenText by g i views most (fed ++ piece.now))
            (λ e. (more : Items ℕ) → IsRefusedBy e (views_changed (step_of by) i views
            (facts_read_within most g i (records_fed ((fed ++ piece.now) ++ more))))) }
    {
        let base = self.base;
        let mut feed = self.feed;
        let mut batch = self.batch;
        if let Err(refusal) = feed.take(piece, &mut batch) {
            return Err(of_text(refusal));
        }
        let taken = self.taken.and(alloc, base, &batch)?;
        Ok(Changer {
            base,
            feed,
            taken,
            batch,
        })
    }

    /// The text ends: the stored views after the change by its facts, or the first fact that is refused (`Fact`), as
    /// `append` and `retract` give them; or the text's first fault (`Text`), which comes before any refusal of a fact.
    pub fn finish(self, alloc: Global) -> Result<Store, Refusal<Fault<ChangeKind>>>
        ensures { (by : How) (g : TheGraph) (i : TheInstance) (views : Items (TheView ℕ ℕ)) (most : ℕ) (fed : Items ℕ)
            → HasTakenText by g i views most fed self.entry
            → IsStoreAfterAll by i views (facts_read_within most g i (records_fed fed)) result }
    {
        let base = self.base;
        let taken = ended(alloc, base, self.feed, self.taken)?;
        match taken.into_store(alloc, base) {
            Ok(store) => Ok(store),
            Err(refusal) => Err(of_fact(refusal)),
        }
    }
}

/// The text's end, and with it the fact of a last record that no line break ended.
fn ended<'a>(
    alloc: Global,
    base: Base<'a>,
    mut feed: FactFeed<'a>,
    taken: Taken<'a>,
) -> Result<Taken<'a>, Refusal<Fault<ChangeKind>>>
    requires store { IsStore (views_of base.store.now) }
    requires fit { All Fits (views_of base.store.now) }
    requires order { All (IsInFileOrder base.legal.now) (views_of base.store.now) }
    requires at { IsTakenAt base.legal.now taken }
    requires instance { feed.instance ≡ base.legal.now }
    requires few { taken_by taken ≤ feed.handed }
    requires most { feed.most ≤ most_count }
    ensures at { IfOk result (IsTakenAt base.entry.legal.now) }
    ensures few { IfOk result (λ t. taken_by t ≤ most_count) }
    ensures ended { let b = base.entry in (fed : Items ℕ) (facts : Items (TheFact ℕ)) → Fed feed.entry fed facts
        → AreIn b.change b.legal.now (views_of b.store.now) facts taken.entry → MatchResult result
        (AreAllIn b.change b.legal.now (views_of b.store.now) (fed_read feed.entry fed))
        (λ e. IsRefusedBy e (views_changed (step_of b.change) b.legal.now (views_of b.store.now)
        (fed_read feed.entry fed))) }
{
    match feed.finish() {
        Ok(Some(fact)) => Ok(taken.and(alloc, base, &[fact])?),
        Ok(None) => Ok(taken),
        Err(refusal) => Err(of_text(refusal)),
    }
}

/// The stored views after the change by the facts of a text of at most `MOST_LISTED_FACTS`, as a `Changer` gives them.
/// `Memory`: out of memory.
pub fn change_by_text(
    alloc: Global,
    change: Change,
    graph: &Graph,
    legal: &Legal,
    store: &Store,
    text: &[u8],
) -> Result<Store, Refusal<Fault<ChangeKind>>>
    requires made { IsMadeFor graph.now legal.now }
    requires store { IsStore (views_of store.now) }
    requires fit { All Fits (views_of store.now) }
    requires order { All (IsInFileOrder legal.now) (views_of store.now) }

    ensures ok { IfOk result (λ s.
        views_changed (step_of change) legal.now (views_of store.now)
        (facts_read graph.now legal.now (records_of text.now)) ≡ Ok (views_of s)) }
    ensures sound { IfOk result (λ s. (g : TheGraph) → IsSoundStore g legal.now (views_of store.now)
        → IsSoundStore g legal.now (views_of s)) }
    ensures order { IfOk result (λ s. All (IsInFileOrder legal.now) (views_of s)) }

    ensures err { IfErr result (λ e. IsRefusedBy e (views_changed (step_of change) legal.now
        (views_of store.now) (facts_read graph.now legal.now (records_of text.now)))) }
{
    // Called for its clause: what is fed of the text has its records.
    records_are_those_at_the_end();
    let changer = Changer::new(alloc, change, graph, legal, store, MOST_LISTED_FACTS);
    let changer = changer.take(alloc, without_mark(text))?;
    changer.finish(alloc)
}
