// The decisions on edges follow the engine's trail.
ghost use Rattle.std.specs.Prelude.{◌≡◌, ◌≤◌, ◌<◌, None, false, length, take, true};
ghost use Rattle.olap_clauses.specs.Trails.{values_of};
ghost use Rattle.olap_trail.specs.Decisions.{status_of};
ghost use Rattle.olap_dimsat.specs.Asking.{IsSuited, task_of};
ghost use Rattle.olap_dimsat.specs.Reads.{EdgeReads, NoneAgrees};
ghost use Rattle.olap_dimsat.specs.Tracking.{AreRead, IsOf};
ghost use Rattle.olap_dimsat.specs.Tasks.{IsTask};

use crate::asker::{Asker, Decisions, Leaf};
use olap_base::EdgeId;
use olap_clauses::{Trail, Value};
use olap_trail::{Decision, Mark};

// Whether the trail decides the edge so too.
fn is_read(a: &Asker<'_>, trail: &Trail, decision: Decision) -> bool
    requires task { IsTask (task_of a.now) }
    requires edge { decision.edge.0 < length a.now.question.graph.now.edges }
    ensures { result ≡ true → EdgeReads (task_of a.now) trail.now decision.edge.0 decision.present }
{
    match trail.value(a.layout.on(decision.edge)) {
        Value::Yes => decision.present,
        Value::No => !decision.present,
        Value::Unknown => false,
    }
}

// How many decisions the trail makes too, up to the first that it doesn't.
fn standing(a: &Asker<'_>, decided: &Decisions, trail: &Trail) -> u16
    requires task { IsTask (task_of a.now) }
    requires of { IsOf (task_of a.now) decided.now }
    ensures few { result ≤ length decided.now.decisions }
    ensures read { AreRead (task_of a.now) trail.now (take result decided.now.decisions) }
{
    let count = decided.mark().0;
    let decisions = decided.decisions();
    'decisions: for k in 0..count {
        if !is_read(a, trail, decisions[usize::from(k)]) {
            return k;
        }
    }
    count
}

// Whether another edge from its child was decided present.
fn is_second(a: &Asker<'_>, decided: &Decisions, e: EdgeId) -> bool
    requires task { IsTask (task_of a.now) }
    requires of { IsOf (task_of a.now) decided.now }
    requires edge { e.0 < length a.now.question.graph.now.edges }
{
    let (child, _) = a.question.graph.ends(e);
    'edges: for other in a.question.graph.parents(child) {
        if *other != e && decided.status(*other) == Some(true) {
            return true;
        }
    }
    false
}

// Decides an edge as the trail does. False: no frozen dimension agrees with the trail, since the edge closes a cycle or
// makes a shortcut. Where no category has two edges out of it there is no shortcut.
fn add(
    a: &Asker<'_>,
    decided: &mut Decisions,
    second: &mut Option<u16>,
    trail: &Trail,
    e: EdgeId,
    present: bool,
) -> bool
    requires task { IsTask (task_of a.now) }
    requires of { IsOf (task_of a.now) decided.old }
    requires edge { e.0 < length a.now.question.graph.now.edges }
    requires open { status_of decided.old e.0 ≡ None }
    requires reads { EdgeReads (task_of a.now) trail.now e.0 present }
    requires read { AreRead (task_of a.now) trail.now decided.old.decisions }
    ensures read { AreRead (task_of a.now) trail.now decided.new.decisions }
    ensures none { result ≡ false → NoneAgrees (task_of a.now) trail.now }
    ensures of { IsOf (task_of a.now) decided.new }
{
    if present {
        if decided.closes_cycle(e) {
            return false;
        }
        if second.is_none() && is_second(a, decided, e) {
            *second = Some(decided.mark().0);
        }
        if second.is_some() && decided.makes_shortcut(e) {
            return false;
        }
    }
    decided.decide(e, present);
    true
}

// Decides the edge as the trail does, if the trail does and the edge is open.
fn follow_edge(
    a: &Asker<'_>,
    decided: &mut Decisions,
    second: &mut Option<u16>,
    trail: &Trail,
    e: EdgeId,
) -> bool
    requires task { IsTask (task_of a.now) }
    requires of { IsOf (task_of a.now) decided.old }
    requires edge { e.0 < length a.now.question.graph.now.edges }
    requires read { AreRead (task_of a.now) trail.now decided.old.decisions }
    ensures read { AreRead (task_of a.now) trail.now decided.new.decisions }
    ensures none { result ≡ false → NoneAgrees (task_of a.now) trail.now }
    ensures of { IsOf (task_of a.now) decided.new }
{
    if decided.status(e).is_some() {
        return true;
    }
    match trail.value(a.layout.on(e)) {
        Value::Yes => add(a, decided, second, trail, e, true),
        Value::No => add(a, decided, second, trail, e, false),
        Value::Unknown => true,
    }
}

// Decides each open edge as the trail does. False: no frozen dimension agrees with the trail.
fn follow_edges(
    a: &Asker<'_>,
    decided: &mut Decisions,
    second: &mut Option<u16>,
    trail: &Trail,
) -> bool
    requires task { IsTask (task_of a.now) }
    requires of { IsOf (task_of a.now) decided.old }
    requires read { AreRead (task_of a.now) trail.now decided.old.decisions }
    ensures read { AreRead (task_of a.now) trail.now decided.new.decisions }
    ensures none { result ≡ false → NoneAgrees (task_of a.now) trail.now }
    ensures of { IsOf (task_of a.now) decided.new }
{
    'edges: for e in 0..a.question.graph.edges() {
        if !follow_edge(a, decided, second, trail, EdgeId(e)) {
            return false;
        }
    }
    true
}

/// Takes back the decisions on edges that the trail doesn't make, and makes those that it does. False: an edge closes a
/// cycle or makes a shortcut, so that no frozen dimension agrees with the trail.
///
/// Cost: one look at a table for each edge, and for each edge that comes present those that are.
pub(crate) fn follow(a: &Asker<'_>, leaf: &mut Leaf, trail: &Trail) -> bool
    requires suited { IsSuited (task_of a.now) leaf.old (length (values_of trail.now)) }
    ensures read { AreRead (task_of a.now) trail.now leaf.new.decided.decisions }
    ensures none { result ≡ false → NoneAgrees (task_of a.now) trail.now }
    ensures suited { IsSuited (task_of a.now) leaf.new (length (values_of trail.now)) }
{
    let stands = standing(a, &leaf.decided, trail);
    let is_undone = stands < leaf.decided.mark().0 || trail.len() < leaf.stood;
    leaf.straight_down = leaf.straight_down && !is_undone;
    leaf.second = match leaf.second {
        Some(count) if count < stands => Some(count),
        _ => None,
    };
    leaf.stood = trail.len();
    leaf.decided.undo(Mark(stands));
    follow_edges(a, &mut leaf.decided, &mut leaf.second, trail)
}
