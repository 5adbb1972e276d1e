// Splits of a place.
ghost use Rattle.std.specs.Prelude.{◌≡◌, ◌≢◌, ◌<◌, ℕ, IfSome, IsNone, None, length};
ghost use Rattle.olap_base.specs.Graph.{IsDeclared};
ghost use Rattle.olap_proof.specs.Asking.{IsAsked, IsUndecided, IsUnnamed, names_in};
ghost use Rattle.olap_proof.specs.Places.{index_of};
ghost use Rattle.olap_trail.specs.Decisions.{status_of};
ghost use Rattle.olap_proof.specs.Trees.{IsPlaceOf};

use crate::Form;
use crate::asking::Asked;
use crate::cases::Case;
use olap_base::{CatId, EdgeId};

/// Whether some line closes the place once the edge is decided so.
fn closes_at_once(
    case: &mut Case,
    asked: &Asked<'_>,
    form: Form,
    edge: EdgeId,
    present: bool,
) -> bool
    requires asked { IsAsked asked.now }
    requires place { IsPlaceOf asked.now.graph.now (names_in asked.now) case.old }
    requires open { IsUndecided asked.now case.old edge }
    ensures { case.new ≡ case.old }
{
    case.decide(edge, present);
    let is_closed = case.closing_line(asked, form).is_some();
    case.undecide();
    is_closed
}

/// The first undecided edge one of whose values closes at once.
fn forced_edge(case: &mut Case, asked: &Asked<'_>, form: Form) -> Option<EdgeId>
    requires asked { IsAsked asked.now }
    requires place { IsPlaceOf asked.now.graph.now (names_in asked.now) case.old }
    ensures open { IfSome result (IsUndecided asked.now case.old) }
    ensures same { case.new ≡ case.old }
{
    'edges: for e in 0..asked.graph.edges() {
        let edge = EdgeId(e);
        if case.status(edge).is_none() {
            let is_forced = closes_at_once(case, asked, form, edge, false)
                || closes_at_once(case, asked, form, edge, true);
            if is_forced {
                return Some(edge);
            }
        }
    }
    None
}

/// The first undecided edge whose child is known to have a member.
fn edge_above_known(case: &Case, asked: &Asked<'_>) -> Option<EdgeId>
    requires asked { IsAsked asked.now }
    requires place { IsPlaceOf asked.now.graph.now (names_in asked.now) case.now }
    ensures { IfSome result (IsUndecided asked.now case.now) }
{
    'edges: for e in 0..asked.graph.edges() {
        let edge = EdgeId(e);
        let (child, _) = asked.graph.ends(edge);
        if case.status(edge).is_none() && case.is_known(asked, child) {
            return Some(edge);
        }
    }
    None
}

/// The first undecided edge.
fn undecided_edge(case: &Case, asked: &Asked<'_>) -> Option<EdgeId>
    requires asked { IsAsked asked.now }
    requires place { IsPlaceOf asked.now.graph.now (names_in asked.now) case.now }
    ensures some { IfSome result (IsUndecided asked.now case.now) }
    ensures none { IsNone result → (e : ℕ) → e < length asked.now.graph.now.edges
        → status_of case.now.decided e ≢ None }
{
    'edges: for e in 0..asked.graph.edges() {
        let edge = EdgeId(e);
        if case.status(edge).is_none() {
            return Some(edge);
        }
    }
    None
}

/// An undecided edge, if there is one: first one of whose values closes at once, then one whose child is known to have
/// a member.
pub(crate) fn next_edge(case: &mut Case, asked: &Asked<'_>, form: Form) -> Option<EdgeId>
    requires asked { IsAsked asked.now }
    requires place { IsPlaceOf asked.now.graph.now (names_in asked.now) case.old }
    ensures some { IfSome result (IsUndecided asked.now case.old) }
    ensures none { IsNone result → (e : ℕ) → e < length asked.now.graph.now.edges
        → status_of case.old.decided e ≢ None }
    ensures same { case.new ≡ case.old }
{
    let by_looking = forced_edge(case, asked, form);
    if by_looking.is_some() {
        return by_looking;
    }
    let by_child = edge_above_known(case, asked);
    if by_child.is_some() {
        return by_child;
    }
    undecided_edge(case, asked)
}

/// The first declared category whose name isn't decided.
pub(crate) fn next_name(case: &Case, asked: &Asked<'_>) -> Option<CatId>
    requires asked { IsAsked asked.now }
    requires place { IsPlaceOf asked.now.graph.now (names_in asked.now) case.now }
    ensures some { IfSome result (IsUnnamed asked.now case.now) }
    ensures none { IsNone result → (c : ℕ) → IsDeclared asked.now.graph.now c
        → index_of case.now.namings c ≢ None }
{
    'categories: for c in 1..asked.graph.categories() {
        if case.index(CatId(c)).is_none() {
            return Some(CatId(c));
        }
    }
    None
}
