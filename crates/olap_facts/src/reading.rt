// A fact table read from a text.
ghost use Rattle.std.specs.Prelude.{◌≡◌, ◌<◌, ◌≤◌, All, IfOk, IsTrue, MatchResult, Ok, length};
ghost use Rattle.olap_base.specs.Graph.{IsBottom};
ghost use Rattle.olap_base.specs.Instance.{category_of};
ghost use Rattle.olap_base.specs.Limits.{most_listed_facts};
ghost use Rattle.olap_base.specs.Views.{IsFactTable};
ghost use Rattle.olap_instance.specs.Made.{IsMadeFor};
ghost use Rattle.olap_records.specs.Records.{records_of};
ghost use Rattle.olap_facts.specs.FactText.{facts_read, is_bottom};
ghost use Rattle.olap_base.specs.Refusing.{IsRefusedBy};
ghost use Rattle.olap_facts.specs.Seen.{facts_of};

use crate::{FactFeed, FactKind, Facts};
use olap_base::{Fault, List, MOST_LISTED_FACTS, MemberId, Refusal};
use olap_graph::Graph;
use olap_instance::Instance;
use olap_records::{records_are_those_at_the_end, without_mark};
use std::alloc::Global;

/// Whether a member is of a bottom category.
#[inline(always)]
pub fn is_at_bottom(graph: &Graph, instance: &Instance, m: MemberId) -> bool
    requires made { IsMadeFor graph.now instance.now }
    requires member { m.0 < length instance.now }
    ensures value { result ≡ is_bottom graph.now (category_of instance.now m.0) }
    ensures bottom { IsTrue result → IsBottom graph.now (category_of instance.now m.0) }
{
    graph.is_bottom(instance.category(m))
}

/// The fact table that a text tells, or the text's first fault. Each record takes one look-up of a
/// member's id.
pub fn read_facts(
    alloc: Global,
    graph: &Graph,
    instance: &Instance,
    text: &[u8],
) -> Result<Facts, Refusal<Fault<FactKind>>>
    requires made { IsMadeFor graph.now instance.now }

    ensures read { MatchResult result
        (λ f. facts_read graph.now instance.now (records_of text.now) ≡ Ok (facts_of f))
        (λ e. IsRefusedBy e (facts_read graph.now instance.now (records_of text.now))) }

    ensures members { IfOk result (λ f. All (λ q. q.member.0 < length instance.now) f.rows) }
    ensures few { IfOk result (λ f. length f.rows ≤ most_listed_facts) }
    ensures table { IfOk result (λ f. IsFactTable graph.now instance.now (facts_of f)) }
{
    // Called for its clause: what is fed of the text has its records.
    records_are_those_at_the_end();
    let mut feed = FactFeed::new(alloc, graph, instance, MOST_LISTED_FACTS);
    let mut facts = Vec::new(alloc);
    feed.take(without_mark(text), &mut facts)?;
    if let Some(last) = feed.finish()? {
        facts.push(last)?;
    }
    Ok(Facts {
        rows: List::from_vec(facts),
    })
}
