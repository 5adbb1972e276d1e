// The line that closes a place, if one does.
ghost use Rattle.std.specs.Prelude.{◌≡◌, ◌<◌, ◌↔◌, ℕ, [], IfSome, IsNone, IsTrue, length};
ghost use Rattle.olap_base.specs.Graph.{IsCategory};
ghost use Rattle.olap_proof.specs.ClosedHere.{ClosesHere, IsClosingHere, IsOpenHere};
ghost use Rattle.olap_proof.specs.DoneHere.{schema_at};
ghost use Rattle.olap_bits.specs.Sets.{members};
ghost use Rattle.olap_proof.specs.Places.{possible_graph};
ghost use Rattle.olap_proof.specs.Walking.{IsWalk};
ghost use Rattle.olap_proof.specs.Lines.{Line as AnyLine, Line.Asked, Line.Cycle, Line.Dead, Line.Loose, Line.Shortcut, Line.Unmet, Line.Unreached};
ghost use Rattle.olap_proof.specs.Closing.{IsAbout};

use crate::leaves::closes;
use crate::lines::Line;
use crate::telling::Known;
use olap_ast::{Constraint, Formula};
use olap_base::{CatId, EdgeId};
use olap_graph::Categories;

/// A line of one word that closes the place.
fn alone(known: &Known<'_>, constraints: &[Constraint], question: &Formula) -> Option<Line>
    ensures some { IfSome result (IsClosingHere known.now constraints.now question.now) }
    ensures cycle { IsNone result → IsOpenHere known.now constraints.now question.now Cycle }
    ensures shortcut { IsNone result → IsOpenHere known.now constraints.now question.now Shortcut }
    ensures question { IsNone result → IsOpenHere known.now constraints.now question.now Asked }
{
    if closes(known, constraints, question, Line::Cycle) {
        Some(Line::Cycle)
    } else if closes(known, constraints, question, Line::Shortcut) {
        Some(Line::Shortcut)
    } else if closes(known, constraints, question, Line::Question) {
        Some(Line::Question)
    } else {
        None
    }
}

/// A line that closes the place since a category has no parent there.
fn dead_line(known: &Known<'_>, constraints: &[Constraint], question: &Formula) -> Option<Line>
    ensures some { IfSome result (IsClosingHere known.now constraints.now question.now) }
    ensures none { IsNone result → (c : ℕ) → IsCategory known.now.graph.now c
        → IsOpenHere known.now constraints.now question.now (Dead c) }
{
    'categories: for c in 0..known.graph.categories() {
        let line = Line::Dead(CatId(c));
        if closes(known, constraints, question, line) {
            return Some(line);
        }
    }
    None
}

/// Whether the root can't reach the edge's child, given what it can reach, and that closes the place.
fn is_loose(
    known: &Known<'_>,
    constraints: &[Constraint],
    question: &Formula,
    reached: &Categories,
    e: EdgeId,
) -> bool
    requires edge { e.0 < length known.now.graph.now.edges }
    requires reached { IsWalk (possible_graph known.now.place.now.decided) known.now.place.now.decided.root
        (members reached.now) }
    ensures { IsTrue result ↔ ClosesHere known.now constraints.now question.now (Loose e.0) }
{
    let (child, _) = known.graph.ends(e);
    if reached.has(child.0) {
        return false;
    }
    closes(known, constraints, question, Line::LooseEdge(e))
}

/// A line of the long form that closes the place since the root can't reach an edge's child.
fn loose_line(known: &Known<'_>, constraints: &[Constraint], question: &Formula) -> Option<Line>
    ensures some { IfSome result (IsClosingHere known.now constraints.now question.now) }
    ensures none { IsNone result → (e : ℕ) → e < length known.now.graph.now.edges
        → IsOpenHere known.now constraints.now question.now (Loose e) }
{
    let reached = known.from_root();
    'edges: for e in 0..known.graph.edges() {
        if is_loose(known, constraints, question, &reached, EdgeId(e)) {
            return Some(Line::LooseEdge(EdgeId(e)));
        }
    }
    None
}

/// A line of the short form that closes the place since the root doesn't reach a category.
fn unreached_line(known: &Known<'_>, constraints: &[Constraint], question: &Formula) -> Option<Line>
    ensures some { IfSome result (IsClosingHere known.now constraints.now question.now) }
    ensures none { IsNone result → (c : ℕ) → IsCategory known.now.graph.now c
        → IsOpenHere known.now constraints.now question.now (Unreached c) }
{
    'categories: for c in 0..known.graph.categories() {
        let line = Line::LooseCategory(CatId(c));
        if closes(known, constraints, question, line) {
            return Some(line);
        }
    }
    None
}

/// A line that closes the place since a constraint is false there.
fn unmet_line(known: &Known<'_>, constraints: &[Constraint], question: &Formula) -> Option<Line>
    ensures some { IfSome result (IsClosingHere known.now constraints.now question.now) }
    ensures none { IsNone result → (n : ℕ) → n < length constraints.now
        → IsOpenHere known.now constraints.now question.now (Unmet n) }
{
    'constraints: for n in 0..constraints.len() {
        let line = Line::Constraint(n);
        if closes(known, constraints, question, line) {
            return Some(line);
        }
    }
    None
}

/// A line that closes the place, at which no way is decided, if one does.
pub(crate) fn closing_line(
    known: &Known<'_>,
    constraints: &[Constraint],
    question: &Formula,
) -> Option<Line>
    requires { known.now.place.now.ways ≡ [] }
    ensures some { IfSome result (IsClosingHere known.now constraints.now question.now) }
    ensures none { IsNone result → (l : AnyLine) → IsAbout (schema_at known.now constraints.now) l
        → IsOpenHere known.now constraints.now question.now l }
{
    let by_one = alone(known, constraints, question);
    if by_one.is_some() {
        return by_one;
    }
    let by_category = dead_line(known, constraints, question);
    if by_category.is_some() {
        return by_category;
    }
    let by_edge = loose_line(known, constraints, question);
    if by_edge.is_some() {
        return by_edge;
    }
    let by_root = unreached_line(known, constraints, question);
    if by_root.is_some() {
        return by_root;
    }
    unmet_line(known, constraints, question)
}
