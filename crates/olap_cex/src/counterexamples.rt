// Counterexamples to summarizability.
ghost use Rattle.std.specs.Prelude.{◌≡◌, ◌++◌, ◌<◌, ◌≢◌, ℕ, ◌-◌, List as Items, All, IfOk, OnOk, length, map, pos};
ghost use Rattle.std.specs.Option.{option_map};
ghost use Rattle.olap_ast.specs.Schema.{Constraint};
ghost use Rattle.olap_base.specs.Graph.{IsBottom, IsCategory, IsDeclared};
ghost use Rattle.olap_base.specs.Instance.{IsMember, ReachesCategory};
ghost use Rattle.olap_cex.specs.CexFor.{IsCexFor, cex_text};
ghost use Rattle.olap_cex.specs.CexText.{counterexample_text, sum_line};
ghost use Rattle.olap_cex.specs.FoundFor.{IsFoundFor, found_edges, found_instance, found_place};
ghost use Rattle.olap_cex.specs.Present.{first_present};
ghost use Rattle.olap_frozen.specs.LeastFound.{frozen_of};
ghost use Rattle.olap_graph.specs.Lookups.{name_of_category};
ghost use Rattle.olap_instance.specs.Made.{IsMadeFor};
ghost use Rattle.olap_names.specs.Names.{candidates_of, with_graph};

use crate::counting::count_sources;
use crate::members::has_member;
use crate::thawing::thaw;
use olap_base::{CatId, MemberId, Memory, Text};
use olap_frozen::Found;
use olap_graph::Graph;
use olap_instance::{Instance, print_instance};
use std::alloc::Global;

/// A legal instance, one fact of value 1, and its total at a category in two views.
#[derive(Drop)]
pub struct Cex {
    /// The instance.
    pub instance: Instance,
    /// The fact's member: the root's.
    pub fact: MemberId,
    /// The category of both views.
    pub target: CatId,
    /// The SUM of the direct view.
    pub direct: u64,
    /// The SUM of the view from the sources' views, if it has a row.
    pub views: Option<u64>,
}

/// The place of a category's member: how many present categories stand before it.
fn place_of(graph: &Graph, found: &Found, c: CatId) -> MemberId
    requires found { IsFoundFor graph.now found.now }
    requires declared { IsDeclared graph.now c.0 }
    ensures { result.0 ≡ length (first_present found.now.frozen.root.0 (found_edges graph.now found.now) (c.0 - 1)) }
{
    let mut place = 0;
    'categories: for d in 1..c.0 {
        if has_member(
            graph,
            found.frozen.root,
            found.frozen.edges.items(),
            CatId(d),
        ) {
            place += 1;
        }
    }
    MemberId(place)
}

/// The counterexample to the target's summarizability from the sources that a frozen dimension is: its instance with
/// one fact of value 1 at its root.
///
/// Cost: categories times edges, and categories times categories times categories. `Memory`: out of memory.
pub fn counterexample(
    alloc: Global,
    graph: &Graph,
    found: &Found,
    target: CatId,
    sources: &[CatId],
) -> Result<Cex, Memory>
    requires found { IsFoundFor graph.now found.now }
    requires declared { IsDeclared graph.now found.now.frozen.root.0 }
    requires target { IsCategory graph.now target.0 }
    requires sources { All (λ s. IsCategory graph.now s.0) sources.now }
    requires reaches { ReachesCategory (found_instance graph.now found.now) (found_place graph.now found.now)
        target.0 }

    ensures cex { IfOk result (IsCexFor graph.now found.now target.0 (map (λ s. s.0) sources.now)) }
    ensures text { IfOk result (λ cex. (constraints : Items Constraint) → cex_text graph.now cex
        ≡ counterexample_text (with_graph graph.now constraints) (candidates_of found.now.candidates)
        found.now.frozen.root.0 (frozen_of found.now.frozen) target.0 (map (λ s. s.0) sources.now)) }
{
    let ways = count_sources(alloc, graph, found, target, sources)?;
    let instance = thaw(alloc, graph, found)?;
    Ok(Cex {
        instance,
        fact: place_of(graph, found, found.frozen.root),
        target,
        direct: 1,
        views: if ways == 0 { None } else { Some(ways) },
    })
}

/// Appends the line of a sum: the word, what is summed at, and the sum in decimal or `none`. `Memory`: out of memory;
/// what was appended by then stays.
pub fn push_sum(
    alloc: Global,
    out: &mut Vec<u8>,
    word: &[u8],
    category: &[u8],
    sum: Option<u64>,
) -> Result<(), Memory>
    ensures { OnOk result (out.new.items ≡ out.old.items ++ sum_line word.now category.now (option_map pos sum)) }
{
    out.extend_from_slice(word)?;
    out.push(b' ')?;
    out.extend_from_slice(category)?;
    out.push(b' ')?;
    match sum {
        Some(n) => {
            let digits = format!(in alloc; "{n}")?;
            out.extend_from_slice(digits.as_bytes())?;
        }
        None => out.extend_from_slice(b"none")?,
    }
    out.push(b'\n')?;
    Ok(())
}

/// The lines of a counterexample: its instance, the fact, and the two sums. `Memory`: out of memory.
pub fn print_cex(alloc: Global, graph: &Graph, cex: &Cex) -> Result<Text, Memory>
    requires made { IsMadeFor graph.now cex.now.instance }
    requires fact { IsMember cex.now.instance cex.now.fact.0 }
    requires target { IsCategory graph.now cex.now.target.0 }
    ensures text { IfOk result (λ text. text ≡ cex_text graph.now cex.now) }
{
    let mut out = print_instance(alloc, graph, &cex.instance)?.into_bytes();
    let root = graph.name(cex.instance.category(cex.fact)).bytes();
    push_sum(alloc, &mut out, b"fact", root, Some(1))?;
    let target = graph.name(cex.target).bytes();
    push_sum(alloc, &mut out, b"direct", target, Some(cex.direct))?;
    push_sum(alloc, &mut out, b"views", target, cex.views)?;
    Ok(Text::from_vec(out))
}
