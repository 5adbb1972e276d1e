// A look for a frozen dimension whose root reaches a target by certain ways, which is given up soon.
ghost use Rattle.std.specs.Prelude.{◌≡◌, ◌<◌, ℕ, Bool, length, true};
ghost use Rattle.olap_base.specs.Graph.{IsCategory};
ghost use Rattle.olap_clauses.specs.Engines.{admits, variables_of};
ghost use Rattle.olap_frozen.specs.Leaves.{chosen_of};
ghost use Rattle.olap_dimsat.specs.Tasks.{IsOne};
ghost use Rattle.olap_dimsat.specs.Asking.{IsSuited, task_of};
ghost use Rattle.olap_dimsat.specs.Pinned.{IsReady};

use crate::asker::{Asker, Leaf};
use olap_base::{CatId, EdgeId};
use olap_clauses::{Engine, Outcome, Value};
use olap_pool::Lit;

/// After this many conflicts a look is given up.
const PATIENCE: u64 = 200;

/// The edges out of a category over which a walk may lead to another.
#[derive(Clone, Copy)]
enum Leads {
    /// There is none.
    Nothing,
    /// There is one.
    One(EdgeId),
    /// There are more.
    More,
}

// Decides the literal, if it is open. False: it was decided otherwise.
fn suppose(engine: &mut Engine, lit: Lit) -> bool
    ensures variables { variables_of engine.new ≡ variables_of engine.old }
    ensures admits { (v : ℕ → Bool) → admits v engine.old → admits v engine.new }
{
    if lit.variable as usize >= engine.trail().variables() {
        return false;
    }
    match engine.trail().value(lit) {
        Value::Yes => true,
        Value::No => false,
        Value::Unknown => {
            engine.decide(lit);
            true
        }
    }
}

// Whether the edge leads out of the source, and a walk may lead on to the target.
fn is_leading(a: &Asker<'_>, edge: EdgeId, source: CatId, target: CatId) -> bool
    requires edge { edge.0 < length a.now.question.graph.now.edges }
    requires target { IsCategory a.now.question.graph.now target.0 }
{
    let (child, parent) = a.question.graph.ends(edge);
    child == source && a.question.graph.reaches(parent, target)
}

// The edges that lead out of the source, from where a walk may lead on to the target.
fn leading(a: &Asker<'_>, source: CatId, target: CatId) -> Leads
    requires target { IsCategory a.now.question.graph.now target.0 }
{
    let mut found = Leads::Nothing;
    'edges: for e in 0..a.question.graph.edges() {
        if is_leading(a, EdgeId(e), source, target) {
            found = match found {
                Leads::Nothing => Leads::One(EdgeId(e)),
                _ => Leads::More,
            };
        }
    }
    found
}

// Decides that no walk leads to the target by way of the source: that none of these edges is present.
fn suppose_no_way(engine: &mut Engine, a: &Asker<'_>, source: CatId, target: CatId) -> bool
    requires target { IsCategory a.now.question.graph.now target.0 }
    ensures variables { variables_of engine.new ≡ variables_of engine.old }
    ensures admits { (v : ℕ → Bool) → admits v engine.old → admits v engine.new }
{
    'edges: for e in 0..a.question.graph.edges() {
        let edge = EdgeId(e);
        if is_leading(a, edge, source, target) && !suppose(engine, a.layout.on(edge).negated()) {
            return false;
        }
    }
    true
}

// Decides what makes a walk by way of the source likely: its edge, or, if there are more, that it is present.
fn suppose_way(engine: &mut Engine, a: &Asker<'_>, source: CatId, target: CatId) -> bool
    requires target { IsCategory a.now.question.graph.now target.0 }
    ensures variables { variables_of engine.new ≡ variables_of engine.old }
    ensures admits { (v : ℕ → Bool) → admits v engine.old → admits v engine.new }
{
    match leading(a, source, target) {
        Leads::Nothing => false,
        Leads::One(edge) => suppose(engine, a.layout.on(edge)),
        Leads::More => suppose(engine, a.layout.present(source)),
    }
}

// Decides that the target is reached by way of the source, or not. By way of itself it is wherever it is reached.
fn suppose_so(
    engine: &mut Engine,
    a: &Asker<'_>,
    source: CatId,
    target: CatId,
    is_way: bool,
) -> bool
    requires target { IsCategory a.now.question.graph.now target.0 }
    ensures variables { variables_of engine.new ≡ variables_of engine.old }
    ensures admits { (v : ℕ → Bool) → admits v engine.old → admits v engine.new }
{
    if source == target {
        return is_way;
    }
    if is_way {
        suppose_way(engine, a, source, target)
    } else {
        suppose_no_way(engine, a, source, target)
    }
}

// Decides that the target is reached by way of exactly the sources whose bits are in the mask.
fn suppose_all(
    engine: &mut Engine,
    a: &Asker<'_>,
    target: CatId,
    sources: &[CatId],
    mask: u16,
) -> bool
    requires target { IsCategory a.now.question.graph.now target.0 }
    ensures variables { variables_of engine.new ≡ variables_of engine.old }
    ensures admits { (v : ℕ → Bool) → admits v engine.old → admits v engine.new }
{
    'sources: for k in 0..sources.len() {
        let is_way = k < 16 && mask >> k & 1 == 1;
        if !suppose_so(engine, a, sources[k], target, is_way) {
            return false;
        }
    }
    true
}

/// Looks where the target is likely reached by way of exactly the sources whose bits are in the mask. True: some frozen
/// dimension is in the leaf. False means nothing.
pub(crate) fn look(
    engine: &mut Engine,
    a: &Asker<'_>,
    leaf: &mut Leaf,
    target: CatId,
    sources: &[CatId],
    mask: u16,
) -> bool
    requires suited { IsSuited (task_of a.now) leaf.old (variables_of engine.old) }
    requires ready { IsReady (task_of a.now) engine.old }
    requires target { IsCategory a.now.question.graph.now target.0 }
    ensures one { result ≡ true → IsOne (task_of a.now) (chosen_of leaf.new.frozen.edges leaf.new.frozen.names) }
    ensures ready { IsReady (task_of a.now) engine.new }
    ensures suited { IsSuited (task_of a.now) leaf.new (variables_of engine.new) }
{
    if !suppose_all(engine, a, target, sources, mask) {
        return false;
    }
    leaf.straight_down = true;
    leaf.stood = 0;
    match engine.search(a, leaf, Some(PATIENCE)) {
        Outcome::Found => true,
        Outcome::Nothing => false,
        Outcome::Stop => false,
    }
}
