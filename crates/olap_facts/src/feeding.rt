// A reader of the facts of a text that comes in pieces.
ghost use Rattle.std.specs.Prelude.{◌≡◌, ◌∷◌, ◌++◌, ◌+◌, ◌<◌, ◌≤◌, ◌^◌, ℕ, All, IfOk, IfSome, IsTrue, List as Items, MatchOption, MatchResult, None, OnOk, Ok, Some, [], false, length, map, true};
ghost use Rattle.olap_base.specs.Graph.{IsBottom};
ghost use Rattle.olap_base.specs.Instance.{category_of};
ghost use Rattle.olap_base.specs.Refusing.{IsRefusedBy};
ghost use Rattle.olap_base.specs.Views.{Fact as TheFact, IsFactTable};
ghost use Rattle.olap_instance.specs.Made.{IsMadeFor};
ghost use Rattle.olap_facts.specs.Feeding.{Fed, IsSameSetting, facts_if, fed_read};
ghost use Rattle.olap_facts.specs.Seen.{fact_of};

use crate::fronts::Front;
use crate::settings::Setting;
use crate::{Fact, FactKind};
use olap_base::{Fault, Refusal};
use olap_graph::Graph;
use olap_instance::Instance;
use std::alloc::Global;
use std::marker::Model;

/// A reader of the facts of a text that comes in pieces of any length, without its byte order mark
/// (`olap_records::without_mark`). It holds one record.
#[derive(Drop)]
pub struct FactFeed<'a> {
    setting: Setting<'a>,
    front: Front,
}

impl<'a> Model for FactFeed<'a> {
    ghost use Rattle.olap_facts.specs.Feeding.{Feeding, IsFeed, feeding_in};

    ghost Value = { Feeding };

    ghost view = { λ a. feeding_in a.setting a.front.splitter a.front.handed a.front.begun };

    ghost invariant = { λ a. IsFeed (feeding_in a.setting a.front.splitter a.front.handed a.front.begun) };
}

impl<'a> FactFeed<'a> {
    /// At the start of a text of at most this many facts.
    pub fn new(alloc: Global, graph: &'a Graph, instance: &'a Instance, most: u64) -> FactFeed<'a>
        requires made { IsMadeFor graph.now instance.now }
        requires few { most < 2 ^ 63 }
        ensures fed { Fed result [] [] }
        ensures graph { result.graph ≡ graph.now }
        ensures instance { result.instance ≡ instance.now }
        ensures most { result.most ≡ most }
        ensures none { result.handed ≡ 0 }
    {
        FactFeed {
            setting: Setting {
                graph,
                instance,
                most,
            },
            front: Front::new(alloc),
        }
    }

    /// Takes the next piece of the text, and puts the facts of the records that end in it into the batch, in place of
    /// those in it. A refusal tells the first fault of the whole text, whatever comes after the piece.
    pub fn take(
        &mut self,
        piece: &[u8],
        batch: &mut Vec<Fact>,
    ) -> Result<(), Refusal<Fault<FactKind>>>
        ensures feeds { (fed : Items ℕ) (facts : Items (TheFact ℕ)) → Fed self.old fed facts → MatchResult result
            (λ _. Fed self.new (fed ++ piece.now) (facts ++ map fact_of batch.new.items))
            (λ e. (more : Items ℕ) → IsRefusedBy e (fed_read self.old ((fed ++ piece.now) ++ more))) }
        ensures table { OnOk result
            (IsFactTable self.old.graph self.old.instance (map fact_of batch.new.items)) }
        ensures members { OnOk result (All (λ f. f.member.0 < length self.old.instance) batch.new.items) }
        ensures handed { OnOk result (self.new.handed ≡ self.old.handed + length batch.new.items) }
        ensures few { self.new.handed ≤ self.new.most }
        ensures same { IsSameSetting self.old self.new }
    {
        batch.clear();
        self.front.take(self.setting, piece, batch)
    }

    /// The text ends: the fact of a last record that no line break ended, if there is one.
    pub fn finish(&mut self) -> Result<Option<Fact>, Refusal<Fault<FactKind>>>
        ensures reads { (fed : Items ℕ) (facts : Items (TheFact ℕ)) → Fed self.old fed facts → MatchResult result
            (λ last. fed_read self.old fed ≡ Ok (facts ++ facts_if last))
            (λ e. IsRefusedBy e (fed_read self.old fed)) }
        ensures member { IfOk result (λ o. IfSome o (λ f. f.member.0 < length self.old.instance)) }
        ensures bottom { IfOk result (λ o.
            IfSome o (λ f. IsBottom self.old.graph (category_of self.old.instance f.member.0))) }
        ensures few { IfOk result (λ o. IfSome o (λ f. self.old.handed < self.old.most)) }
    {
        self.front.finish(self.setting)
    }
}
