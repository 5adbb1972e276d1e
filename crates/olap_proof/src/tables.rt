// Tables of what each category reaches, for places of which much is asked.
ghost use Rattle.std.specs.Prelude.{◌≡◌, ◌≤◌, ◌<◌, ℕ, Contains, IfSome, length, true};
ghost use Rattle.olap_base.specs.Graph.{Graph as AnyGraph, HasEdge, category_count};
ghost use Rattle.olap_base.specs.Limits.{most_categories};
ghost use Rattle.olap_bits.specs.Sets.{members};
ghost use Rattle.olap_graph.specs.Lookups.{edge_at};
ghost use Rattle.olap_graph.specs.Rows.{row};
ghost use Rattle.olap_proof.specs.Places.{Way as OneWay, leading_graph, possible_graph};
ghost use Rattle.olap_proof.specs.Seen.{AreOfGraph, LeadsHere, SeenDecisions, SeenPossible, decision_at};
ghost use Rattle.olap_proof.specs.Tables.{Draws, IsTable, place_of};
ghost use Rattle.olap_proof.specs.Walking.{SeenFrom};

use crate::walking::may_be_present;
use crate::ways::Ways;
use olap_base::{CatId, EdgeId};
use olap_graph::{Categories, Graph, WORDS, close, isolate};
use olap_trail::{Decision, Trail};

/// The set of a category, if the tables are those of what is decided.
pub(crate) fn row_if(fresh: bool, rows: &[Categories], c: CatId) -> Option<Categories>
    ensures { IfSome result (λ s. (fresh ≡ true) × (c.0 < length rows.now) × (members s ≡ row rows.now c.0)) }
{
    let place = usize::from(c.0);
    if fresh && place < rows.len() {
        return Some(rows[place]);
    }
    None
}

/// Each set gets the parents by edges that weren't decided absent.
fn draw_possible(graph: &Graph, trail: &Trail<{ WORDS }>, rows: &mut [Categories])
    requires graph { trail.now.graph ≡ graph.now }
    requires count { length rows.old ≡ category_count graph.now }
    ensures count { length rows.new ≡ length rows.old }
    ensures drawn { Draws (possible_graph trail.now) (SeenPossible trail.now (length graph.now.edges))
        rows.old rows.new }
{
    // Called for its clause: there are few categories.
    let _few = graph.categories();
    'edges: for e in 0..graph.edges() {
        if may_be_present(trail.status(EdgeId(e))) {
            let (child, parent) = graph.ends(EdgeId(e));
            let c = usize::from(child.0);
            rows[c] = rows[c].with(parent.0);
        }
    }
}

/// Each set gets the parents by edges that were decided present.
fn draw_decisions(graph: &Graph, decisions: &[Decision], rows: &mut [Categories])
    requires count { length rows.old ≡ category_count graph.now }
    requires edges { (k : ℕ) → k < length decisions.now
        → (decision_at decisions.now k).edge.0 < length graph.now.edges }
    ensures count { length rows.new ≡ length rows.old }
    ensures drawn { (g : AnyGraph) → ((k : ℕ) → k < length decisions.now → (decision_at decisions.now k).present ≡ true
        → HasEdge g (edge_at graph.now (decision_at decisions.now k).edge.0).child
        (edge_at graph.now (decision_at decisions.now k).edge.0).parent)
        → Draws g (SeenDecisions graph.now decisions.now (length decisions.now)) rows.old rows.new }
{
    // Called for its clause: there are few categories.
    let _few = graph.categories();
    'decisions: for i in 0..decisions.len() {
        let decision = decisions[i];
        if decision.present {
            let (child, parent) = graph.ends(decision.edge);
            let c = usize::from(child.0);
            rows[c] = rows[c].with(parent.0);
        }
    }
}

/// Each set gets the categories to which ways are there.
fn draw_ways(ways: &Ways, rows: &mut [Categories])
    requires few { length rows.old ≤ most_categories }
    ensures count { length rows.new ≡ length rows.old }
    ensures drawn { (g : AnyGraph) → ((c d : ℕ) → LeadsHere ways.now c d → HasEdge g c d)
        → Draws g (SeenFrom (LeadsHere ways.now) (length rows.old)) rows.old rows.new }
{
    'categories: for c in 0..rows.len() {
        rows[c] = rows[c].union(ways.from(CatId(c as u16)));
    }
}

/// Each set becomes that of what its category reaches by edges that weren't decided absent.
///
/// Cost: categories times categories, of one look and one union each.
pub(crate) fn fill_possible(graph: &Graph, trail: &Trail<{ WORDS }>, rows: &mut [Categories])
    requires graph { trail.now.graph ≡ graph.now }
    requires count { length rows.old ≡ category_count graph.now }
    ensures { IsTable (possible_graph trail.now) (category_count graph.now) rows.new }
{
    // Called for its clause: there are few categories.
    let _few = graph.categories();
    isolate(rows);
    draw_possible(graph, trail, rows);
    close(rows);
}

/// Each set becomes that of what its category reaches by what is known to be there.
///
/// Cost: categories times categories, of one look and one union each.
pub(crate) fn fill_leading(
    graph: &Graph,
    trail: &Trail<{ WORDS }>,
    ways: &Ways,
    rows: &mut [Categories],
)
    requires graph { trail.now.graph ≡ graph.now }
    requires ways { AreOfGraph graph.now ways.now }
    requires count { length rows.old ≡ category_count graph.now }
    ensures { IsTable (leading_graph (place_of trail.now ways.now)) (category_count graph.now) rows.new }
{
    // Called for its clause: there are few categories.
    let _few = graph.categories();
    isolate(rows);
    draw_decisions(graph, trail.decisions(), rows);
    draw_ways(ways, rows);
    close(rows);
}
