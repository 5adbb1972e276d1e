// The instance that a frozen dimension stands for.
ghost use Rattle.std.specs.Prelude.{◌≡◌, ◌≢◌, ◌<◌, ◌-◌, ℕ, [], None as Nowhere, true, IfOk, IfSome, OnOk, length, slice_index_or};
ghost use Rattle.olap_ast.specs.Frozen.{is_present};
ghost use Rattle.olap_base.specs.Graph.{IsCategory, IsHierarchy, category_count};
ghost use Rattle.olap_cex.specs.FoundFor.{IsFoundFor, found_draft, found_edges, found_instance};
ghost use Rattle.olap_cex.specs.Present.{first_present, place_or_all};
ghost use Rattle.olap_graph.specs.Building.{IsWithinLimits};
ghost use Rattle.olap_instance.specs.DraftInside.{number_of};
ghost use Rattle.olap_instance.specs.Drafts.{HasParent, with_parent};
ghost use Rattle.olap_instance.specs.Made.{IsMadeFor};

use crate::members::{has_member, name};
use olap_base::{CatId, EdgeId, MemberId, Memory, Refusal, Text};
use olap_frozen::Found;
use olap_graph::Graph;
use olap_instance::{Instance, InstanceBuilder};
use std::alloc::Global;

/// Adds the member of a present category after those of the ones before it.
fn add_member(
    alloc: Global,
    graph: &Graph,
    found: &Found,
    builder: &mut InstanceBuilder,
    c: CatId,
) -> Result<MemberId, Memory>
    requires found { IsFoundFor graph.now found.now }
    requires hierarchy { IsHierarchy graph.now }
    requires limits { IsWithinLimits graph.now }
    requires declared { c.0 ≢ 0 }
    requires category { IsCategory graph.now c.0 }
    requires present { is_present found.now.frozen.root.0 (found_edges graph.now found.now) c.0 ≡ true }
    requires before { builder.old ≡ found_draft graph.now found.now (c.0 - 1) [] }
    ensures added { OnOk result (builder.new ≡ found_draft graph.now found.now c.0 []) }
    ensures place { IfOk result (λ m. number_of (Some m)
        ≡ place_or_all found.now.frozen.root.0 (found_edges graph.now found.now) c.0) }
{
    let id = Text::from_bytes(alloc, graph.name(c).bytes())?;
    let name = Text::from_bytes(alloc, name(&found.frozen, &found.candidates, c).bytes())?;
    match builder.add_named(id, c, name) {
        Ok(member) => Ok(member),
        Err(Refusal::Memory(memory)) => Err(memory),
        Err(Refusal::Kind(_)) => unreachable!(),
    }
}

/// Adds the member of each present category, and says where each is.
fn add_members(
    alloc: Global,
    graph: &Graph,
    found: &Found,
    builder: &mut InstanceBuilder,
) -> Result<Vec<Option<MemberId>>, Memory>
    requires found { IsFoundFor graph.now found.now }
    requires before { builder.old ≡ found_draft graph.now found.now 0 [] }
    ensures hierarchy { OnOk result (IsHierarchy graph.now) }
    ensures added { OnOk result (builder.new ≡ found_draft graph.now found.now (length graph.now.names) []) }
    ensures count { IfOk result (λ places. length places.items ≡ category_count graph.now) }
    ensures places { IfOk result (λ places. (c : ℕ) → c < category_count graph.now
        → number_of (slice_index_or places.items c Nowhere)
        ≡ place_or_all found.now.frozen.root.0 (found_edges graph.now found.now) c) }
{
    let mut places = Vec::new(alloc);
    places.push(None)?;
    'categories: for c in 1..graph.categories() {
        let place = if has_member(
            graph,
            found.frozen.root,
            found.frozen.edges.items(),
            CatId(c),
        ) {
            Some(add_member(alloc, graph, found, builder, CatId(c))?)
        } else {
            None
        };
        places.push(place)?;
    }
    Ok(places)
}

/// Adds a parent that the member doesn't have.
fn add_parent(
    builder: &mut InstanceBuilder,
    child: MemberId,
    parent: Option<MemberId>,
) -> Result<(), Memory>
    requires child { child.0 < length builder.old.members }
    requires parent { IfSome parent (λ p. p.0 < length builder.old.members) }
    requires new { HasParent builder.old child.0 (number_of parent) → ⊥ }
    ensures { OnOk result (builder.new ≡ with_parent builder.old child.0 (number_of parent)) }
{
    match builder.add_parent(child, parent) {
        Ok(()) => Ok(()),
        Err(Refusal::Memory(memory)) => Err(memory),
        Err(Refusal::Kind(_)) => unreachable!(),
    }
}

/// Adds the parents by the chosen edges.
fn add_parents(
    graph: &Graph,
    found: &Found,
    places: &[Option<MemberId>],
    builder: &mut InstanceBuilder,
) -> Result<(), Memory>
    requires found { IsFoundFor graph.now found.now }
    requires hierarchy { IsHierarchy graph.now }
    requires before { builder.old ≡ found_draft graph.now found.now (length graph.now.names) [] }
    requires count { length places.now ≡ category_count graph.now }
    requires places { (c : ℕ) → c < category_count graph.now
        → number_of (slice_index_or places.now c Nowhere)
        ≡ place_or_all found.now.frozen.root.0 (found_edges graph.now found.now) c }
    ensures { OnOk result (builder.new
        ≡ found_draft graph.now found.now (length graph.now.names) (found_edges graph.now found.now)) }
{
    let edges = found.frozen.edges.items();
    'edges: for e in 0..graph.edges() {
        if edges[usize::from(e)] {
            let (child, parent) = graph.ends(EdgeId(e));
            let Some(member) = places[usize::from(child.0)] else {
                unreachable!()
            };
            add_parent(builder, member, places[usize::from(parent.0)])?;
        }
    }
    Ok(())
}

/// The instance that a frozen dimension stands for: a member for each present category, with the category's name as
/// its id, and a parent for each chosen edge.
///
/// Cost: categories times edges. `Memory`: out of memory.
pub fn thaw(alloc: Global, graph: &Graph, found: &Found) -> Result<Instance, Memory>
    requires found { IsFoundFor graph.now found.now }
    ensures instance { IfOk result (λ instance. instance ≡ found_instance graph.now found.now) }
    ensures made { IfOk result (λ instance. IsMadeFor graph.now instance) }
{
    let mut builder = InstanceBuilder::new(alloc, graph)?;
    let places = add_members(alloc, graph, found, &mut builder)?;
    add_parents(graph, found, &places, &mut builder)?;
    builder.finish()
}
