// The views of a text of facts that comes in pieces.
ghost use Rattle.std.specs.Prelude.{◌≡◌, ◌≢◌, ◌++◌, ◌<◌, ℕ, [], All, AllPairs, IfErr, IfOk, List as Items, MatchResult, length};
ghost use Rattle.olap_base.specs.Graph.{Graph as TheGraph};
ghost use Rattle.olap_base.specs.Instance.{Instance as Members};
ghost use Rattle.olap_base.specs.Limits.{most_facts};
ghost use Rattle.olap_base.specs.Refusing.{IsRefusedBy};
ghost use Rattle.olap_facts.specs.FactText.{facts_read_within};
ghost use Rattle.olap_instance.specs.Made.{IsMadeFor};
ghost use Rattle.olap_records.specs.Records.{records_of};
ghost use Rattle.olap_records.specs.Standing.{records_fed, unmarked};
ghost use Rattle.olap_view.specs.RollingUp.{AreRolledUp, HasTaken};
ghost use Rattle.olap_view.specs.Seen.{each_view_of, ids};
ghost use Rattle.olap_view.specs.Stores.{Fits};

use crate::{Tally, View};
use olap_base::{CatId, Fault, List, MOST_FACTS, Memory, Refusal};
use olap_facts::{Fact, FactFeed, FactKind};
use olap_graph::Graph;
use olap_legal::Legal;
use olap_records::{records_are_those_at_the_end, without_mark};
use std::alloc::Global;
use std::marker::Model;

/// Rolls up the facts of a text that comes in pieces, without its byte order mark (`olap_records::without_mark`). Each
/// fact is added to a tally and forgotten: beside the tally stand one record and the facts of one piece.
#[derive(Drop)]
pub struct Roller<'a> {
    feed: FactFeed<'a>,
    tally: Tally<'a>,
    batch: Vec<Fact>,
}

impl<'a> Model for Roller<'a> {
    ghost use Rattle.olap_view.specs.RollingUp.{IsRoller, Rolling, rolling};

    ghost Value = { Rolling };

    ghost view = { λ a. rolling a.feed a.tally };

    ghost invariant = { λ a. IsRoller (rolling a.feed a.tally) };
}

impl<'a> Roller<'a> {
    /// At the start of a text of at most `MOST_FACTS` facts. `Memory`: out of memory.
    pub fn new(
        alloc: Global,
        graph: &'a Graph,
        legal: &'a Legal,
        categories: &[CatId],
    ) -> Result<Roller<'a>, Memory>
        requires made { IsMadeFor graph.now legal.now }
        requires differ { AllPairs ◌≢◌ (ids categories.now) }
        ensures taken { IfOk result (HasTaken graph.now legal.now (ids categories.now) []) }
    {
        Ok(Roller {
            feed: FactFeed::new(alloc, graph, legal.instance(), MOST_FACTS),
            tally: Tally::new(alloc, legal, categories)?,
            batch: Vec::new(alloc),
        })
    }

    /// Takes the next piece of the text. A refusal tells the first fault of the whole text, whatever comes after the
    /// piece.
    pub fn take(self, piece: &[u8]) -> Result<Roller<'a>, Refusal<Fault<FactKind>>>
        ensures takes { (g : TheGraph) (i : Members) (categories fed : Items ℕ) → HasTaken g i categories fed self.entry
            → MatchResult result
            (HasTaken g i categories (fed ++ piece.now))
            (λ e. (more : Items ℕ)
            → IsRefusedBy e (facts_read_within most_facts g i (records_fed ((fed ++ piece.now) ++ more)))) }
    {
        let mut feed = self.feed;
        let mut tally = self.tally;
        let mut batch = self.batch;
        feed.take(piece, &mut batch)?;
        tally.add_all(batch.as_slice());
        Ok(Roller { feed, tally, batch })
    }

    /// The text ends: the direct views of the categories, in their order, or the text's first fault. The views may be
    /// stored.
    pub fn finish(self) -> Result<List<View>, Refusal<Fault<FactKind>>>
        ensures views { (g : TheGraph) (i : Members) (categories fed : Items ℕ) → HasTaken g i categories fed self.entry
            → MatchResult result
            (λ v. AreRolledUp g i (records_fed fed) categories (each_view_of v))
            (λ e. IsRefusedBy e (facts_read_within most_facts g i (records_fed fed))) }
        ensures members { IfOk result (λ v.
            All (λ w. All (λ r. r.member.0 < length self.entry.feed.instance) w.rows) v) }
        ensures fit { IfOk result (λ v. All Fits (each_view_of v)) }
    {
        let mut feed = self.feed;
        let mut tally = self.tally;
        if let Some(fact) = feed.finish()? {
            tally.add(&fact);
        }
        Ok(tally.into_views()?)
    }
}

/// Takes a whole text, which is gone when it returns.
fn take_text<'a>(roller: Roller<'a>, text: Vec<u8>) -> Result<Roller<'a>, Refusal<Fault<FactKind>>>
    ensures takes { (g : TheGraph) (i : Members) (categories : Items ℕ) → HasTaken g i categories [] roller.entry
        → MatchResult result
        (HasTaken g i categories (unmarked text.items))
        (λ e. IsRefusedBy e (facts_read_within most_facts g i (records_fed (unmarked text.items)))) }
{
    roller.take(without_mark(&text))
}

/// The direct views of some categories, in their order, from a text of at most `MOST_FACTS` facts; or the text's first
/// fault. The views may be stored. The text is gone before they are made. `Memory`: out of memory.
pub fn roll_up(
    alloc: Global,
    graph: &Graph,
    legal: &Legal,
    text: Vec<u8>,
    categories: &[CatId],
) -> Result<List<View>, Refusal<Fault<FactKind>>>
    requires made { IsMadeFor graph.now legal.now }
    requires differ { AllPairs ◌≢◌ (ids categories.now) }

    ensures views { IfOk result (λ v.
        AreRolledUp graph.now legal.now (records_of text.items) (ids categories.now) (each_view_of v)) }
    ensures members { IfOk result (λ v. All (λ w. All (λ r. r.member.0 < length legal.now) w.rows) v) }
    ensures fit { IfOk result (λ v. All Fits (each_view_of v)) }

    ensures err { IfErr result (λ e.
        IsRefusedBy e (facts_read_within most_facts graph.now legal.now (records_of text.items))) }
{
    // Called for its clause: what is fed of the text has its records.
    records_are_those_at_the_end();
    let roller = Roller::new(alloc, graph, legal, categories)?;
    take_text(roller, text)?.finish()
}
