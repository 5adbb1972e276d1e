// The sources by which the root of a frozen dimension reaches a category.
ghost use Rattle.std.specs.Prelude.{◌≡◌, ◌<◌, ◌↔◌, All, IsTrue, length, map, IfOk};
ghost use Rattle.olap_base.specs.Graph.{IsCategory, IsHierarchy, category_count};
ghost use Rattle.olap_base.specs.Instance.{ReachesVia};
ghost use Rattle.olap_base.specs.OneFact.{HoldsTimes};
ghost use Rattle.olap_cex.specs.CexFor.{IsWay};
ghost use Rattle.olap_cex.specs.FoundFor.{IsFoundFor, found_instance, found_place};

use olap_base::{CatId, Memory};
use olap_frozen::{Found, Room, close};
use olap_graph::{Categories, Graph, row_has};
use std::alloc::Global;

/// Whether the root reaches the source, and the source the target.
pub fn is_way(rows: &[Categories], root: CatId, source: CatId, target: CatId) -> bool
    requires root { root.0 < length rows.now }
    requires source { source.0 < length rows.now }
    ensures { IsTrue result ↔ IsWay rows.now root.0 target.0 source.0 }
{
    row_has(rows, root.0, source.0) && row_has(rows, source.0, target.0)
}

/// How many of the sources are ways from the root to the target.
fn count_ways(rows: &[Categories], root: CatId, target: CatId, sources: &[CatId]) -> u64
    requires root { root.0 < length rows.now }
    requires sources { All (λ s. s.0 < length rows.now) sources.now }
    ensures { HoldsTimes (IsWay rows.now root.0 target.0) (map (λ s. s.0) sources.now) result }
{
    let mut ways = 0;
    'sources: for source in sources {
        if is_way(rows, root, *source, target) {
            ways += 1;
        }
    }
    ways
}

/// By how many of the sources the root's member reaches the target. The rows are filled.
fn count_reaching(
    graph: &Graph,
    found: &Found,
    rows: &mut [Categories],
    target: CatId,
    sources: &[CatId],
) -> u64
    requires found { IsFoundFor graph.now found.now }
    requires rows { length rows.old ≡ category_count graph.now }
    requires target { IsCategory graph.now target.0 }
    requires sources { All (λ s. IsCategory graph.now s.0) sources.now }
    ensures hierarchy { IsHierarchy graph.now }
    ensures count { HoldsTimes
        (λ s. ReachesVia (found_instance graph.now found.now) (found_place graph.now found.now) s target.0)
        (map (λ s. s.0) sources.now) result }
{
    close(graph, found.frozen.edges.items(), rows);
    count_ways(rows, found.frozen.root, target, sources)
}

/// By how many of the sources the root's member reaches the target.
pub(crate) fn count_sources(
    alloc: Global,
    graph: &Graph,
    found: &Found,
    target: CatId,
    sources: &[CatId],
) -> Result<u64, Memory>
    requires found { IsFoundFor graph.now found.now }
    requires target { IsCategory graph.now target.0 }
    requires sources { All (λ s. IsCategory graph.now s.0) sources.now }
    ensures hierarchy { IfOk result (λ _. IsHierarchy graph.now) }
    ensures count { IfOk result (HoldsTimes
        (λ s. ReachesVia (found_instance graph.now found.now) (found_place graph.now found.now) s target.0)
        (map (λ s. s.0) sources.now)) }
{
    let mut room = Room::new(alloc, graph)?;
    Ok(count_reaching(graph, found, &mut room.rows, target, sources))
}
