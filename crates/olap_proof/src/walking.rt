// Categories that are reached by edges that weren't decided absent, and by what is known to be there.
ghost use Rattle.std.specs.Prelude.{◌≡◌, ◌<◌, ℕ, Contains, IfSome, IsNone, length, true};
ghost use Rattle.olap_base.specs.Graph.{Graph as AnyGraph, HasEdge, category_count};
ghost use Rattle.olap_base.specs.Limits.{most_categories};
ghost use Rattle.olap_bits.specs.Sets.{members};
ghost use Rattle.olap_graph.specs.Lookups.{edge_at};
ghost use Rattle.olap_proof.specs.Places.{Way as OneWay, leading_graph, possible_graph};
ghost use Rattle.olap_proof.specs.Seen.{is_possible, AreOfGraph, LeadsHere, SeenDecisions, SeenPossible, decision_at};
ghost use Rattle.olap_proof.specs.Walking.{Grows, IsAdded, IsAddedFrom, IsIn, IsWalk, SeenFrom};

use crate::places::Place;
use olap_base::{CatId, EdgeId};
use olap_graph::{Categories, Graph};
use olap_trail::Decision;

/// Adds a category to the set, if an edge joins it to another in the set. Whether the set grew, now or before.
fn add(set: &mut Categories, joins: bool, child: CatId, parent: CatId, grew: bool) -> bool
    requires { parent.0 < most_categories }
    ensures { IsAdded (members set.old) joins child.0 parent.0 grew (members set.new) result }
{
    if joins && set.has(child.0) && !set.has(parent.0) {
        *set = set.with(parent.0);
        return true;
    }
    grew
}

/// A category of the one set that isn't in the other.
fn lacking_category(set: &Categories, from: &Categories) -> Option<u16>
    ensures some { IfSome result (λ x. IsIn (members from.now) x × (IsIn (members set.now) x → ⊥)) }
    ensures none { IsNone result → (x : ℕ) → IsIn (members from.now) x → IsIn (members set.now) x }
{
    from.minus(*set).first()
}

/// Adds the categories to which another one leads, if that one is in the set. Whether the set grew, now or before.
fn add_from(set: &mut Categories, child: CatId, parents: &Categories, grew: bool) -> bool
    ensures { IsAddedFrom (members set.old) child.0 (members parents.now) grew (members set.new) result }
{
    if !set.has(child.0) {
        return grew;
    }
    match lacking_category(set, parents) {
        Some(_) => {
            *set = set.union(*parents);
            true
        }
        None => grew,
    }
}

/// Adds what ways that are there, between this many categories, lead to. Whether the set grew.
fn grow_by_ways(place: &Place, count: u16, set: &mut Categories) -> bool
    requires { (w : OneWay) → Contains place.now.ways w → w.parent < count }
    ensures { (g : AnyGraph) → ((c d : ℕ) → LeadsHere place.now.ways c d → HasEdge g c d)
        → Grows g count (SeenFrom (LeadsHere place.now.ways) count) (members set.old) (members set.new) result }
{
    let mut grew = false;
    'categories: for c in 0..count {
        grew = add_from(set, CatId(c), &place.ways_from(CatId(c)), grew);
    }
    grew
}

/// Adds what edges that were decided present lead to. Whether the set grew.
fn grow_by_decisions(graph: &Graph, decisions: &[Decision], set: &mut Categories) -> bool
    requires { (k : ℕ) → k < length decisions.now → (decision_at decisions.now k).edge.0 < length graph.now.edges }
    ensures { (g : AnyGraph) → ((k : ℕ) → k < length decisions.now → (decision_at decisions.now k).present ≡ true
        → HasEdge g (edge_at graph.now (decision_at decisions.now k).edge.0).child
        (edge_at graph.now (decision_at decisions.now k).edge.0).parent)
        → Grows g (category_count graph.now) (SeenDecisions graph.now decisions.now (length decisions.now))
        (members set.old) (members set.new) result }
{
    // Called for its clause: there are few categories.
    let _few = graph.categories();
    let mut grew = false;
    'decisions: for i in 0..decisions.len() {
        let decision = decisions[i];
        let (child, parent) = graph.ends(decision.edge);
        grew = add(set, decision.present, child, parent, grew);
    }
    grew
}

/// Whether an edge of which this was decided may be present.
pub(crate) fn may_be_present(status: Option<bool>) -> bool
    ensures { result ≡ is_possible status }
{
    match status {
        Some(present) => present,
        None => true,
    }
}

/// Adds what edges that weren't decided absent lead to. Whether the set grew.
fn grow_by_possible(graph: &Graph, place: &Place, set: &mut Categories) -> bool
    requires { place.now.decided.graph ≡ graph.now }
    ensures { Grows (possible_graph place.now.decided) (category_count graph.now)
        (SeenPossible place.now.decided (length graph.now.edges)) (members set.old) (members set.new) result }
{
    // Called for its clause: there are few categories.
    let _few = graph.categories();
    let mut grew = false;
    'edges: for e in 0..graph.edges() {
        let possible = may_be_present(place.status(EdgeId(e)));
        let (child, parent) = graph.ends(EdgeId(e));
        grew = add(set, possible, child, parent, grew);
    }
    grew
}

/// What the category reaches by edges that weren't decided absent, itself included.
pub(crate) fn possible_from(graph: &Graph, place: &Place, from: CatId) -> Categories
    requires graph { place.now.decided.graph ≡ graph.now }
    requires from { from.0 < category_count graph.now }
    ensures { IsWalk (possible_graph place.now.decided) from.0 (members result) }
{
    // Called for its clause: there are few categories.
    let _few = graph.categories();
    let mut reached = Categories::empty().with(from.0);
    let mut grows = true;
    'rounds: while grows {
        grows = grow_by_possible(graph, place, &mut reached);
    }
    reached
}

/// Adds what is known to lead on from the set. Whether it grew.
fn grow_by_known(graph: &Graph, place: &Place, set: &mut Categories) -> bool
    requires graph { place.now.decided.graph ≡ graph.now }
    requires ways { AreOfGraph graph.now place.now.ways }
    ensures { Grows (leading_graph place.now) (category_count graph.now) (HasEdge (leading_graph place.now))
        (members set.old) (members set.new) result }
{
    let count = graph.categories();
    let decisions = place.decisions();
    let by_decisions = grow_by_decisions(graph, decisions, set);
    let by_ways = grow_by_ways(place, count, set);
    by_decisions | by_ways
}

/// What the category reaches by what is known to be there, itself included.
pub(crate) fn known_from(graph: &Graph, place: &Place, from: CatId) -> Categories
    requires graph { place.now.decided.graph ≡ graph.now }
    requires ways { AreOfGraph graph.now place.now.ways }
    requires from { from.0 < category_count graph.now }
    ensures { IsWalk (leading_graph place.now) from.0 (members result) }
{
    // Called for its clause: there are few categories.
    let _few = graph.categories();
    let mut reached = Categories::empty().with(from.0);
    let mut grows = true;
    'rounds: while grows {
        grows = grow_by_known(graph, place, &mut reached);
    }
    reached
}
