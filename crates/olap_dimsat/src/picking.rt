// The edge or name that is decided next. Any open one would do: the choice costs time alone.
ghost use Rattle.std.specs.Prelude.{◌≡◌, ◌⊎◌, ◌<◌, IfSome, length};
ghost use Rattle.olap_clauses.specs.Trails.{IsOpen, values_of};
ghost use Rattle.olap_dimsat.specs.Tasks.{IsTask};
ghost use Rattle.olap_dimsat.specs.Asking.{task_of};
ghost use Rattle.olap_base.specs.Graph.{IsCategory};

use crate::asker::Asker;
use olap_base::{CatId, EdgeId};
use olap_clauses::{Trail, Value};
use olap_graph::Categories;
use olap_pool::Lit;

// The negation of an edge, if it is open and its child is known present, and is one of these where they are given.
fn open_among(a: &Asker<'_>, trail: &Trail, among: Option<Categories>, e: EdgeId) -> Option<Lit>
    requires task { IsTask (task_of a.now) }
    requires edge { e.0 < length a.now.question.graph.now.edges }
    requires variables { length (values_of trail.now) ≡ a.now.layout.now.variables }
    ensures { IfSome result (λ l. IsOpen trail.now l) }
{
    let (child, _) = a.question.graph.ends(e);
    if let Some(children) = among {
        if !children.has(child.0) {
            return None;
        }
    }
    let on = a.layout.on(e);
    match (trail.value(on), trail.value(a.layout.present(child))) {
        (Value::Unknown, Value::Yes) => Some(on.negated()),
        _ => None,
    }
}

// Of two literals, if they are there, the one whose variable has the higher score; the second, where they are equal.
fn higher(best: Option<Lit>, next: Option<Lit>, scores: &[u32]) -> Option<Lit>
    ensures { (result ≡ best) ⊎ (result ≡ next) }
{
    match (best, next) {
        (Some(lit), Some(other)) => {
            if score_of(scores, lit) > score_of(scores, other) {
                Some(lit)
            } else {
                Some(other)
            }
        }
        (Some(lit), None) => Some(lit),
        (None, other) => other,
    }
}

// How much a literal's variable had to do with recent conflicts.
fn score_of(scores: &[u32], lit: Lit) -> u32 {
    match scores.get(lit.variable as usize) {
        Some(score) => *score,
        None => 0,
    }
}

// Of these edges the first in declaration order, or, if there are scores, the one of the highest, as its negation.
fn pick_among(
    a: &Asker<'_>,
    trail: &Trail,
    scores: &[u32],
    among: Option<Categories>,
) -> Option<Lit>
    requires task { IsTask (task_of a.now) }
    requires variables { length (values_of trail.now) ≡ a.now.layout.now.variables }
    ensures { IfSome result (λ l. IsOpen trail.now l) }
{
    let mut best: Option<Lit> = None;
    'edges: for e in 0..a.question.graph.edges() {
        best = higher(best, open_among(a, trail, among, EdgeId(e)), scores);
        if scores.is_empty() && best.is_some() {
            return best;
        }
    }
    best
}

// The negation of an open name of a category.
fn open_name_of(a: &Asker<'_>, trail: &Trail, c: CatId) -> Option<Lit>
    requires task { IsTask (task_of a.now) }
    requires category { IsCategory a.now.question.graph.now c.0 }
    requires variables { length (values_of trail.now) ≡ a.now.layout.now.variables }
    ensures { IfSome result (λ l. IsOpen trail.now l) }
{
    'indexes: for i in 1..a.question.candidates.names(c) {
        let name = a.layout.name(c, usize::from(i) - 1);
        if let Value::Unknown = trail.value(name) {
            return Some(name.negated());
        }
    }
    None
}

// The negation of an open name of a category that is known present.
fn open_name(a: &Asker<'_>, trail: &Trail) -> Option<Lit>
    requires task { IsTask (task_of a.now) }
    requires variables { length (values_of trail.now) ≡ a.now.layout.now.variables }
    ensures { IfSome result (λ l. IsOpen trail.now l) }
{
    'categories: for c in 1..a.question.graph.categories() {
        if let Value::Yes = trail.value(a.layout.present(CatId(c))) {
            let open = open_name_of(a, trail, CatId(c));
            if open.is_some() {
                return open;
            }
        }
    }
    None
}

/// The negation of an open edge: of a category that present edges lead to from the root, and if there is none, of
/// any that is known present; and if there is none, of an open name.
pub(crate) fn pick(a: &Asker<'_>, trail: &Trail, scores: &[u32], present: Categories) -> Option<Lit>
    requires task { IsTask (task_of a.now) }
    requires variables { length (values_of trail.now) ≡ a.now.layout.now.variables }
    ensures { IfSome result (λ l. IsOpen trail.now l) }
{
    let open = pick_among(a, trail, scores, Some(present));
    if open.is_some() {
        return open;
    }
    let open = pick_among(a, trail, scores, None);
    if open.is_some() {
        return open;
    }
    open_name(a, trail)
}
