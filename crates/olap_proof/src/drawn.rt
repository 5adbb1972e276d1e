// Cycles and shortcuts of the edges that were decided present.
ghost use Rattle.std.specs.Prelude.{◌≡◌, ◌<◌, ◌↔◌, ℕ, Contains, IfSome, IsNone, IsTrue, length, true};
ghost use Rattle.olap_base.specs.Graph.{HasEdge};
ghost use Rattle.olap_graph.specs.Lookups.{edge_at};
ghost use Rattle.olap_proof.specs.Closing.{IsCyclic, IsShortened};
ghost use Rattle.olap_proof.specs.Seen.{decision_at};
ghost use Rattle.olap_trail.specs.Decisions.{present_edges, present_graph};

use crate::places::Place;
use olap_base::EdgeId;
use olap_trail::Decision;

/// The place of the first decision that says present.
fn first_present(decisions: &[Decision]) -> Option<usize>
    ensures some { IfSome result (λ k. (k < length decisions.now) × ((decision_at decisions.now k).present ≡ true)) }
    ensures none { IsNone result → (k : ℕ) → k < length decisions.now
        → (decision_at decisions.now k).present ≡ true → ⊥ }
{
    'decisions: for i in 0..decisions.len() {
        if decisions[i].present {
            return Some(i);
        }
    }
    None
}

/// An edge that was decided present, if there is one.
fn present_edge(place: &Place) -> Option<EdgeId>
    ensures edge { IfSome result (λ e. e.0 < length place.now.decided.graph.edges) }
    ensures some { IfSome result (λ e.
        Contains (present_edges place.now.decided) (edge_at place.now.decided.graph e.0)) }
    ensures none { IsNone result → (c d : ℕ) → HasEdge (present_graph place.now.decided) c d → ⊥ }
{
    let decisions = place.decisions();
    let first = first_present(decisions)?;
    Some(decisions[first].edge)
}

/// Whether they hold a cycle.
pub(crate) fn is_cyclic(place: &Place) -> bool
    ensures { IsTrue result ↔ IsCyclic (present_graph place.now.decided) }
{
    match present_edge(place) {
        Some(edge) => place.closes_cycle(edge),
        None => false,
    }
}

/// Whether they hold a shortcut.
pub(crate) fn is_shortened(place: &Place) -> bool
    ensures { IsTrue result ↔ IsShortened (present_graph place.now.decided) }
{
    match present_edge(place) {
        Some(edge) => place.makes_shortcut(edge),
        None => false,
    }
}
