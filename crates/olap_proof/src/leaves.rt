// Tests of the lines that close a place.
ghost use Rattle.std.specs.Prelude.{◌≡◌, ◌↔◌, ◌<◌, All, IsTrue, Some, false, length, map};
ghost use Rattle.olap_ast.specs.Trees.{constraint_of, formula_of};
ghost use Rattle.olap_ast.specs.declared.three_values.Truth3.TheVariants as truth;
ghost use Rattle.olap_base.specs.Graph.{CategoryReaches, IsCategory};
ghost use Rattle.olap_eval.specs.Partial.{value_at};
ghost use Rattle.olap_graph.specs.Lookups.{edge_at, edges_from};
ghost use Rattle.olap_names.specs.Names.{candidates_of, with_graph};
ghost use Rattle.olap_proof.specs.Lines.{IsNoStep};
ghost use Rattle.olap_proof.specs.Closing.{Closes, IsAbout, IsClash, IsDead, IsLoose, IsUnmet, IsUnreached};
ghost use Rattle.olap_proof.specs.Places.{knowledge, possible_graph};
ghost use Rattle.olap_proof.specs.Reading.{meaning};
ghost use Rattle.olap_trail.specs.Decisions.{status_of};

use crate::Form;
use crate::drawn::{is_cyclic, is_shortened};
use crate::lines::Line;
use crate::telling::Known;
use olap_ast::{Constraint, Formula, Truth3};
use olap_base::{CatId, EdgeId};
use olap_eval::holds3;

/// Whether the edge was decided absent.
fn is_absent(known: &Known<'_>, e: EdgeId) -> bool
    requires { e.0 < length known.now.graph.now.edges }
    ensures { IsTrue result ↔ (status_of known.now.place.now.decided e.0 ≡ Some false) }
{
    known.place.status(e) == Some(false)
}

/// Whether all edges out of the category were decided absent.
fn has_no_parent(known: &Known<'_>, c: CatId) -> bool
    requires { IsCategory known.now.graph.now c.0 }
    ensures { IsTrue result ↔ All (λ e. status_of known.now.place.now.decided e ≡ Some false)
        (edges_from known.now.graph.now c.0) }
{
    let edges = known.graph.parents(c);
    'edges: for i in 0..edges.len() {
        if !is_absent(known, edges[i]) {
            return false;
        }
    }
    true
}

/// Whether `dead C` closes the place.
fn is_dead(known: &Known<'_>, c: CatId) -> bool
    requires { IsCategory known.now.graph.now c.0 }
    ensures { IsTrue result ↔ IsDead known.now.graph.now known.now.place.now c.0 }
{
    c.0 != 0 && known.has(c) && has_no_parent(known, c)
}

/// Whether the edge was decided absent, or what it leads to doesn't reach the category.
fn is_no_step(known: &Known<'_>, e: EdgeId, to: CatId) -> bool
    requires { e.0 < length known.now.graph.now.edges }
    ensures { IsTrue result ↔ IsNoStep known.now.form known.now.graph.now known.now.place.now to.0 e.0 }
{
    let (_, parent) = known.graph.ends(e);
    is_absent(known, e) || known.truth_of_reach(parent, to) == Truth3::No
}

/// Whether no edge out of the one category is a step to the other.
fn has_no_step(known: &Known<'_>, from: CatId, to: CatId) -> bool
    requires { IsCategory known.now.graph.now from.0 }
    ensures { IsTrue result ↔ All (IsNoStep known.now.form known.now.graph.now known.now.place.now to.0)
        (edges_from known.now.graph.now from.0) }
{
    let edges = known.graph.parents(from);
    'edges: for i in 0..edges.len() {
        if !is_no_step(known, edges[i], to) {
            return false;
        }
    }
    true
}

/// Whether `steps C D` closes the place, in the short form.
fn is_clash(known: &Known<'_>, from: CatId, to: CatId) -> bool
    requires { IsCategory known.now.graph.now from.0 }
    ensures { IsTrue result ↔ IsClash known.now.form known.now.graph.now known.now.place.now from.0 to.0 }
{
    match known.place.way(from, to) {
        Some(true) => from.0 != to.0 && has_no_step(known, from, to),
        Some(false) => known.leads(from, to),
        None => false,
    }
}

/// Whether no walk of edges that weren't decided absent leads from the root to the category.
fn is_cut_off(known: &Known<'_>, c: CatId) -> bool
    ensures { IsTrue result ↔ (CategoryReaches (possible_graph known.now.place.now.decided)
        known.now.place.now.decided.root c.0 → ⊥) }
{
    !known.may_reach(known.root, c)
}

/// Whether `loose C D` closes the place, in the long form.
fn is_loose(known: &Known<'_>, e: EdgeId) -> bool
    requires { e.0 < length known.now.graph.now.edges }
    ensures { IsTrue result ↔ IsLoose known.now.graph.now known.now.place.now e.0 }
{
    let (child, _) = known.graph.ends(e);
    child.0 != known.root.0 && known.place.status(e) == Some(true) && is_cut_off(known, child)
}

/// Whether `loose C` closes the place, in the short form.
fn is_unreached(known: &Known<'_>, c: CatId) -> bool
    ensures { IsTrue result ↔ IsUnreached known.now.form known.now.place.now c.0 }
{
    c.0 != known.root.0 && known.has(c) && known.truth_of_reach(known.root, c) == Truth3::No
}

/// Whether the constraint is known to be unmet.
fn is_unmet(known: &Known<'_>, constraint: &Constraint) -> bool
    ensures { IsTrue result ↔ IsUnmet known.now.form (candidates_of known.now.candidates.now) known.now.place.now
        (constraint_of constraint.now) }
{
    known.has(constraint.root) && holds3(&constraint.formula, constraint.root, known) == Truth3::No
}

/// Whether `question` closes the place.
fn is_asked(known: &Known<'_>, question: &Formula) -> bool
    ensures { let told = knowledge known.now.form (candidates_of known.now.candidates.now) known.now.place.now in
        IsTrue result ↔ (value_at told known.now.place.now.decided.root (formula_of question.now) ≡ truth.No) }
{
    holds3(question, known.root, known) == Truth3::No
}

/// Whether the line closes the place, of a schema with these constraints, for this question.
pub(crate) fn closes(
    known: &Known<'_>,
    constraints: &[Constraint],
    question: &Formula,
    line: Line,
) -> bool
    requires { IsAbout (with_graph known.now.graph.now (map constraint_of constraints.now)) (meaning line) }
    ensures { IsTrue result ↔ Closes known.now.form (with_graph known.now.graph.now (map constraint_of constraints.now))
        (formula_of question.now) (candidates_of known.now.candidates.now) known.now.place.now (meaning line) }
{
    match line {
        Line::Edge(_) | Line::Name(_) | Line::Reach(_, _) => false,
        Line::Dead(c) => is_dead(known, c),
        Line::Cycle => is_cyclic(known.place),
        Line::Shortcut => is_shortened(known.place),
        Line::LooseEdge(e) => known.form == Form::Long && is_loose(known, e),
        Line::LooseCategory(c) => known.form == Form::Short && is_unreached(known, c),
        Line::Steps(c, d) => known.form == Form::Short && is_clash(known, c, d),
        Line::Constraint(n) => is_unmet(known, &constraints[n]),
        Line::Question => is_asked(known, question),
    }
}
