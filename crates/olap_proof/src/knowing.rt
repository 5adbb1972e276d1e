// The categories that are known to have a member.
ghost use Rattle.std.specs.Prelude.{◌≡◌, ◌≤◌, ◌<◌, ◌↔◌, ℕ, IsTrue, length};
ghost use Rattle.olap_base.specs.Graph.{IsCategory};
ghost use Rattle.olap_base.specs.Limits.{most_categories};
ghost use Rattle.olap_bits.specs.Sets.{members};
ghost use Rattle.olap_proof.specs.Places.{is_known};
ghost use Rattle.olap_proof.specs.Seen.{AreOfGraph, LeadsHere, TouchedByDecisions, decision_at};
ghost use Rattle.olap_proof.specs.Walking.{IsIn, IsTouched, IsTouchedFrom, TouchedFrom};

use crate::places::Place;
use olap_base::CatId;
use olap_graph::{Categories, Graph};
use olap_trail::Decision;

/// Adds both ends of an edge, if it is one that is taken.
fn touch(set: &mut Categories, joins: bool, child: CatId, parent: CatId)
    requires child { child.0 < most_categories }
    requires parent { parent.0 < most_categories }
    ensures { IsTouched (members set.old) joins child.0 parent.0 (members set.new) }
{
    if joins {
        *set = set.with(child.0).with(parent.0);
    }
}

/// Adds a category and those to which ways lead from it, if there are some.
fn touch_from(set: &mut Categories, child: CatId, parents: &Categories)
    requires { child.0 < most_categories }
    ensures { IsTouchedFrom (members set.old) child.0 (members parents.now) (members set.new) }
{
    if let Some(_) = parents.first() {
        *set = set.with(child.0).union(*parents);
    }
}

/// Adds the ends of ways that are there, between this many categories.
fn touch_ways(place: &Place, count: u16, set: &mut Categories)
    requires few { count ≤ most_categories }
    ensures { (x : ℕ) → IsIn (members set.new) x ↔ TouchedFrom (members set.old) (LeadsHere place.now.ways) count x }
{
    'categories: for c in 0..count {
        touch_from(set, CatId(c), &place.ways_from(CatId(c)));
    }
}

/// Adds the ends of edges that were decided present.
fn touch_decisions(graph: &Graph, decisions: &[Decision], set: &mut Categories)
    requires { (k : ℕ) → k < length decisions.now → (decision_at decisions.now k).edge.0 < length graph.now.edges }
    ensures { (x : ℕ) → IsIn (members set.new) x
        ↔ TouchedByDecisions (members set.old) graph.now decisions.now (length decisions.now) x }
{
    // Called for its clause: there are few categories.
    let _few = graph.categories();
    'decisions: for i in 0..decisions.len() {
        let decision = decisions[i];
        let (child, parent) = graph.ends(decision.edge);
        touch(set, decision.present, child, parent);
    }
}

/// The root, the ends of edges that were decided present, and those of ways that were decided to be there.
pub(crate) fn known_at(graph: &Graph, place: &Place, root: CatId) -> Categories
    requires graph { place.now.decided.graph ≡ graph.now }
    requires root { place.now.decided.root ≡ root.0 }
    requires category { IsCategory graph.now root.0 }
    requires ways { AreOfGraph graph.now place.now.ways }
    ensures { (x : ℕ) → IsIn (members result) x ↔ IsTrue (is_known place.now x) }
{
    let count = graph.categories();
    let decisions = place.decisions();
    let mut known = Categories::empty().with(root.0);
    touch_decisions(graph, decisions, &mut known);
    touch_ways(place, count, &mut known);
    known
}
