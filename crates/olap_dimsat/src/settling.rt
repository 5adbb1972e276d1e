// The least, place by place: first the edges, then the names.
ghost use Rattle.std.specs.Prelude.{◌≡◌, ◌≢◌, ◌↔◌, ◌+◌, ◌-◌, ◌<◌, ◌≤◌, ◌==◌, ℕ, suc, Bool, false, true, [], length, slice_index, slice_index_or};
ghost use Rattle.olap_base.specs.Graph.{IsCategory};
ghost use Rattle.olap_clauses.specs.Engines.{admits, trail_of, variables_of};
ghost use Rattle.olap_pool.specs.Literals.{Holds};
ghost use Rattle.olap_clauses.specs.Standing.{AgreesDecisions};
ghost use Rattle.olap_clauses.specs.Trails.{IsOpen};
ghost use Rattle.olap_frozen.specs.Leaves.{chosen_of};
ghost use Rattle.olap_ast.specs.Frozen.{Frozen as TheFrozen, code};
ghost use Rattle.olap_dimsat.specs.Tasks.{IsOne, IsTask, constant_count};
ghost use Rattle.olap_dimsat.specs.Reads.{IsShaped, Reads};
ghost use Rattle.olap_dimsat.specs.Asking.{IsFor, IsSuited, task_of};
ghost use Rattle.olap_dimsat.specs.Pinned.{AreShaped, InRange, IsLeast, IsLonger, IsPinned, IsPlace, IsProbed, IsReady, IsReplaced, IsSame, IsSettled, NoneAt, NoneLess, SayAt, SaysAt};

use crate::asker::{Asker, Leaf};
use crate::existing::exists;
use olap_base::{CatId, EdgeId};
use olap_clauses::{Engine, Trail, Value};
use olap_frozen::Frozen;
use olap_pool::Lit;
use std::mem::swap;

// Decides the literal, if it is open. False: no frozen dimension that agrees with the decisions makes it true.
fn assume(engine: &mut Engine, a: &Asker<'_>, lit: Lit) -> bool
    requires ready { IsReady (task_of a.now) engine.old }
    requires shaped { AreShaped (task_of a.now) (trail_of engine.old) }
    requires lit { IsShaped (task_of a.now) lit }
    requires inside { lit.variable < variables_of engine.old }
    ensures yes { result ≡ true → (f : TheFrozen) (v : ℕ → Bool) → IsOne (task_of a.now) f
        → Reads (task_of a.now) f v → AgreesDecisions v (trail_of engine.new)
        ↔ (AgreesDecisions v (trail_of engine.old) × Holds v lit) }
    ensures no { result ≡ false → (f : TheFrozen) (v : ℕ → Bool) → IsOne (task_of a.now) f
        → Reads (task_of a.now) f v → AgreesDecisions v (trail_of engine.old) → Holds v lit → ⊥ }
    ensures longer { IsLonger (trail_of engine.old) (trail_of engine.new) }
    ensures shaped { AreShaped (task_of a.now) (trail_of engine.new) }
    ensures variables { variables_of engine.new ≡ variables_of engine.old }
    ensures admits { (v : ℕ → Bool) → admits v engine.old → admits v engine.new }
{
    match engine.trail().value(lit) {
        Value::Yes => true,
        Value::No => false,
        Value::Unknown => {
            engine.decide(lit);
            true
        }
    }
}

// Decides that the category's name has this index.
fn assume_name(engine: &mut Engine, a: &Asker<'_>, c: CatId, i: u16) -> bool
    requires task { IsTask (task_of a.now) }
    requires ready { IsReady (task_of a.now) engine.old }
    requires shaped { AreShaped (task_of a.now) (trail_of engine.old) }
    requires category { IsCategory a.now.question.graph.now c.0 }
    requires declared { c.0 ≢ 0 }
    requires index { i ≤ constant_count (task_of a.now) c.0 }
    requires variables { variables_of engine.old ≡ a.now.layout.now.variables }
    ensures yes { result ≡ true → SayAt (task_of a.now) (length a.now.question.graph.now.edges + c.0 - 1) i
        (trail_of engine.old) (trail_of engine.new) }
    ensures no { result ≡ false → NoneAt (task_of a.now) (length a.now.question.graph.now.edges + c.0 - 1) i
        (trail_of engine.old) }
    ensures longer { IsLonger (trail_of engine.old) (trail_of engine.new) }
    ensures shaped { AreShaped (task_of a.now) (trail_of engine.new) }
    ensures variables { variables_of engine.new ≡ variables_of engine.old }
    ensures admits { (v : ℕ → Bool) → admits v engine.old → admits v engine.new }
{
    'indexes: for j in 1..a.question.candidates.names(c) {
        let name = a.layout.name(c, usize::from(j) - 1);
        let lit = Lit {
            variable: name.variable,
            positive: j == i,
        };
        if !assume(engine, a, lit) {
            return false;
        }
    }
    true
}

// Decides that the code has this number at this place.
fn assume_at(engine: &mut Engine, a: &Asker<'_>, p: u16, x: u16) -> bool
    requires task { IsTask (task_of a.now) }
    requires ready { IsReady (task_of a.now) engine.old }
    requires shaped { AreShaped (task_of a.now) (trail_of engine.old) }
    requires place { IsPlace (task_of a.now) p }
    requires number { InRange (task_of a.now) p x }
    requires variables { variables_of engine.old ≡ a.now.layout.now.variables }
    ensures yes { result ≡ true → SayAt (task_of a.now) p x (trail_of engine.old) (trail_of engine.new) }
    ensures no { result ≡ false → NoneAt (task_of a.now) p x (trail_of engine.old) }
    ensures longer { IsLonger (trail_of engine.old) (trail_of engine.new) }
    ensures shaped { AreShaped (task_of a.now) (trail_of engine.new) }
    ensures variables { variables_of engine.new ≡ variables_of engine.old }
    ensures admits { (v : ℕ → Bool) → admits v engine.old → admits v engine.new }
{
    let edges = a.question.graph.edges();
    // Called for its clauses: the graph has few categories.
    let _few = a.question.graph.categories();
    if p < edges {
        let on = a.layout.on(EdgeId(p));
        let lit = Lit {
            variable: on.variable,
            positive: x == 1,
        };
        assume(engine, a, lit)
    } else {
        assume_name(engine, a, CatId(p - edges + 1), x)
    }
}

// Whether one that agrees has this number at this place; it is then in the leaf.
fn probe(engine: &mut Engine, a: &Asker<'_>, leaf: &mut Leaf, p: u16, x: u16) -> bool
    requires place { IsPlace (task_of a.now) p }
    requires number { InRange (task_of a.now) p x }
    requires suited { IsSuited (task_of a.now) leaf.old (variables_of engine.old) }
    requires ready { IsReady (task_of a.now) engine.old }
    requires shaped { AreShaped (task_of a.now) (trail_of engine.old) }
    ensures yes { result ≡ true → IsProbed (task_of a.now) p x (chosen_of leaf.new.frozen.edges leaf.new.frozen.names)
        (trail_of engine.old) (trail_of engine.new) }
    ensures no { result ≡ false → NoneAt (task_of a.now) p x (trail_of engine.old) }
    ensures longer { IsLonger (trail_of engine.old) (trail_of engine.new) }
    ensures shaped { AreShaped (task_of a.now) (trail_of engine.new) }
    ensures ready { IsReady (task_of a.now) engine.new }
    ensures suited { IsSuited (task_of a.now) leaf.new (variables_of engine.new) }
{
    if !assume_at(engine, a, p, x) {
        return false;
    }
    engine.force();
    exists(engine, a, leaf)
}

/// Is there one with this number at this place, that agrees before? It is then the best one.
pub(crate) fn replace(
    engine: &mut Engine,
    a: &Asker<'_>,
    leaf: &mut Leaf,
    best: &mut Frozen,
    p: u16,
    x: u16,
) -> bool
    requires place { IsPlace (task_of a.now) p }
    requires number { InRange (task_of a.now) p x }
    requires suited { IsSuited (task_of a.now) leaf.old (variables_of engine.old) }
    requires ready { IsReady (task_of a.now) engine.old }
    requires best { IsFor (task_of a.now) best.old }
    requires pinned { IsPinned (task_of a.now) p (chosen_of best.old.edges best.old.names) (trail_of engine.old) }
    ensures yes { result ≡ true → IsReplaced (task_of a.now) p x (chosen_of best.old.edges best.old.names)
        (chosen_of best.new.edges best.new.names) (trail_of engine.new) }
    ensures no { result ≡ false → NoneAt (task_of a.now) p x (trail_of engine.old) }
    ensures trail { result ≡ false → trail_of engine.new ≡ trail_of engine.old }
    ensures longer { result ≡ true → IsLonger (trail_of engine.old) (trail_of engine.new) }
    ensures stays { result ≡ false → best.new ≡ best.old }
    ensures best { IsFor (task_of a.now) best.new }
    ensures suited { IsSuited (task_of a.now) leaf.new (variables_of engine.new) }
    ensures ready { IsReady (task_of a.now) engine.new }
{
    let mark = engine.trail().len();
    if probe(engine, a, leaf, p, x) {
        swap(best, &mut leaf.frozen);
        return true;
    }
    engine.undo(mark);
    false
}

/// The number at this place of the code.
pub(crate) fn number_at(a: &Asker<'_>, best: &Frozen, p: u16) -> u16
    requires best { IsFor (task_of a.now) best.now }
    requires one { IsOne (task_of a.now) (chosen_of best.now.edges best.now.names) }
    requires place { IsPlace (task_of a.now) p }
    ensures number { result ≡ slice_index (code (chosen_of best.now.edges best.now.names)) p }
    ensures in_range { InRange (task_of a.now) p result }
{
    let edges = a.question.graph.edges();
    if p < edges {
        u16::from(best.edges.items()[usize::from(p)])
    } else {
        best.names.items()[usize::from(p - edges) + 1]
    }
}

/// Decides that this place stays as it is in the best one.
pub(crate) fn keep(engine: &mut Engine, a: &Asker<'_>, best: &Frozen, p: u16)
    requires task { IsTask (task_of a.now) }
    requires place { IsPlace (task_of a.now) p }
    requires ready { IsReady (task_of a.now) engine.old }
    requires best { IsFor (task_of a.now) best.now }
    requires pinned { IsPinned (task_of a.now) p (chosen_of best.now.edges best.now.names) (trail_of engine.old) }
    requires variables { variables_of engine.old ≡ a.now.layout.now.variables }
    ensures pinned { IsPinned (task_of a.now) (p + 1) (chosen_of best.now.edges best.now.names) (trail_of engine.new) }
    ensures longer { IsLonger (trail_of engine.old) (trail_of engine.new) }
    ensures variables { variables_of engine.new ≡ variables_of engine.old }
    ensures ready { IsReady (task_of a.now) engine.new }
{
    let number = number_at(a, best, p);
    let _ = assume_at(engine, a, p, number);
}

/// The literal that says that this number, and not 0, is at this place.
pub(crate) fn literal_at(a: &Asker<'_>, p: u16, number: u16) -> Lit
    requires task { IsTask (task_of a.now) }
    requires place { IsPlace (task_of a.now) p }
    requires number { InRange (task_of a.now) p number }
    requires positive { 0 < number }
    ensures says { SaysAt (task_of a.now) p number result }
{
    let edges = a.question.graph.edges();
    // Called for its clauses: the graph has few categories.
    let _few = a.question.graph.categories();
    if p < edges {
        a.layout.on(EdgeId(p))
    } else {
        a.layout.name(CatId(p - edges + 1), usize::from(number) - 1)
    }
}

// Whether all that agree with the trail have what the best one has at this place, or that is 0.
fn is_settled(a: &Asker<'_>, best: &Frozen, trail: &Trail, p: u16) -> bool
    requires task { IsTask (task_of a.now) }
    requires best { IsFor (task_of a.now) best.now }
    requires one { IsOne (task_of a.now) (chosen_of best.now.edges best.now.names) }
    requires place { IsPlace (task_of a.now) p }
    ensures { result ≡ true → IsSettled (task_of a.now) trail.now p (chosen_of best.now.edges best.now.names) }
{
    let number = number_at(a, best, p);
    number == 0 || matches!(trail.value(literal_at(a, p, number)), Value::Yes)
}

// From this place on, the first at which one that agrees with the trail may have less than the best one.
fn first_unsettled(a: &Asker<'_>, best: &Frozen, trail: &Trail, from: u16) -> u16
    requires task { IsTask (task_of a.now) }
    requires best { IsFor (task_of a.now) best.now }
    requires one { IsOne (task_of a.now) (chosen_of best.now.edges best.now.names) }
    ensures { (q : ℕ) → from ≤ q → q < result
        → IsSettled (task_of a.now) trail.now q (chosen_of best.now.edges best.now.names) }
{
    let mut p = from;
    'places: while p < places(a) && is_settled(a, best, trail, p) {
        p += 1;
    }
    p
}

// From this place on, the first at which one that agrees before it may have less than the best one. What is forced
// stays.
fn first_open(engine: &mut Engine, a: &Asker<'_>, best: &Frozen, from: u16) -> u16
    requires task { IsTask (task_of a.now) }
    requires ready { IsReady (task_of a.now) engine.old }
    requires best { IsFor (task_of a.now) best.now }
    requires pinned { IsPinned (task_of a.now) from (chosen_of best.now.edges best.now.names) (trail_of engine.old) }
    ensures least { (q : ℕ) → from ≤ q → q < result
        → NoneLess (task_of a.now) q (chosen_of best.now.edges best.now.names) }
    ensures pinned { IsPinned (task_of a.now) from (chosen_of best.now.edges best.now.names) (trail_of engine.new) }
    ensures longer { IsLonger (trail_of engine.old) (trail_of engine.new) }
    ensures variables { variables_of engine.new ≡ variables_of engine.old }
    ensures ready { IsReady (task_of a.now) engine.new }
{
    engine.force();
    first_unsettled(a, best, engine.trail(), from)
}

// One place more.
fn settle(engine: &mut Engine, a: &Asker<'_>, leaf: &mut Leaf, best: &mut Frozen, p: u16)
    requires place { IsPlace (task_of a.now) p }
    requires suited { IsSuited (task_of a.now) leaf.old (variables_of engine.old) }
    requires ready { IsReady (task_of a.now) engine.old }
    requires best { IsFor (task_of a.now) best.old }
    requires pinned { IsPinned (task_of a.now) p (chosen_of best.old.edges best.old.names) (trail_of engine.old) }
    ensures pinned { IsPinned (task_of a.now) (p + 1) (chosen_of best.new.edges best.new.names) (trail_of engine.new) }
    ensures longer { IsLonger (trail_of engine.old) (trail_of engine.new) }
    ensures same { IsSame p (chosen_of best.new.edges best.new.names) (chosen_of best.old.edges best.old.names) }
    ensures least { NoneLess (task_of a.now) p (chosen_of best.new.edges best.new.names) }
    ensures best { IsFor (task_of a.now) best.new }
    ensures suited { IsSuited (task_of a.now) leaf.new (variables_of engine.new) }
    ensures ready { IsReady (task_of a.now) engine.new }
{
    let number = number_at(a, best, p);
    'numbers: for x in 0..number {
        if replace(engine, a, leaf, best, p, x) {
            return;
        }
    }
    keep(engine, a, best, p);
}

// One place more, where it is known up to which place none has less. Up to which place it is known then.
fn settle_next(
    engine: &mut Engine,
    a: &Asker<'_>,
    leaf: &mut Leaf,
    best: &mut Frozen,
    p: u16,
    known: u16,
) -> u16
    requires place { IsPlace (task_of a.now) p }
    requires suited { IsSuited (task_of a.now) leaf.old (variables_of engine.old) }
    requires ready { IsReady (task_of a.now) engine.old }
    requires best { IsFor (task_of a.now) best.old }
    requires pinned { IsPinned (task_of a.now) p (chosen_of best.old.edges best.old.names) (trail_of engine.old) }
    requires known { (q : ℕ) → p ≤ q → q < known
        → NoneLess (task_of a.now) q (chosen_of best.old.edges best.old.names) }
    ensures pinned { IsPinned (task_of a.now) (p + 1) (chosen_of best.new.edges best.new.names) (trail_of engine.new) }
    ensures longer { IsLonger (trail_of engine.old) (trail_of engine.new) }
    ensures same { IsSame p (chosen_of best.new.edges best.new.names) (chosen_of best.old.edges best.old.names) }
    ensures least { NoneLess (task_of a.now) p (chosen_of best.new.edges best.new.names) }
    ensures known { (q : ℕ) → p < q → q < result
        → NoneLess (task_of a.now) q (chosen_of best.new.edges best.new.names) }
    ensures best { IsFor (task_of a.now) best.new }
    ensures suited { IsSuited (task_of a.now) leaf.new (variables_of engine.new) }
    ensures ready { IsReady (task_of a.now) engine.new }
{
    if p < known {
        keep(engine, a, best, p);
        return known;
    }
    let next = first_open(engine, a, best, p);
    if p < next {
        keep(engine, a, best, p);
        return next;
    }
    settle(engine, a, leaf, best, p);
    p
}

/// How many places codes have.
pub(crate) fn places(a: &Asker<'_>) -> u16
    ensures { (p : ℕ) → p < result ↔ IsPlace (task_of a.now) p }
{
    a.question.graph.edges() + a.question.graph.categories() - 1
}

/// Makes the best one the least of those that agree with it before this place.
pub(crate) fn settle_from(
    engine: &mut Engine,
    a: &Asker<'_>,
    leaf: &mut Leaf,
    best: &mut Frozen,
    from: u16,
)
    requires suited { IsSuited (task_of a.now) leaf.old (variables_of engine.old) }
    requires ready { IsReady (task_of a.now) engine.old }
    requires best { IsFor (task_of a.now) best.old }
    requires pinned { IsPinned (task_of a.now) from (chosen_of best.old.edges best.old.names) (trail_of engine.old) }
    ensures one { IsOne (task_of a.now) (chosen_of best.new.edges best.new.names) }
    ensures longer { IsLonger (trail_of engine.old) (trail_of engine.new) }
    ensures same { IsSame from (chosen_of best.new.edges best.new.names) (chosen_of best.old.edges best.old.names) }
    ensures least { (p : ℕ) → from ≤ p → IsPlace (task_of a.now) p
        → NoneLess (task_of a.now) p (chosen_of best.new.edges best.new.names) }
    ensures best { IsFor (task_of a.now) best.new }
    ensures suited { IsSuited (task_of a.now) leaf.new (variables_of engine.new) }
    ensures ready { IsReady (task_of a.now) engine.new }
{
    let end = places(a);
    let mut known = from;
    'places: for p in from..end {
        if known >= end {
            return;
        }
        known = settle_next(engine, a, leaf, best, p, known);
    }
}

/// Finds the least, place by place. False: there is none.
pub(crate) fn least(engine: &mut Engine, a: &Asker<'_>, leaf: &mut Leaf, best: &mut Frozen) -> bool
    requires suited { IsSuited (task_of a.now) leaf.old (variables_of engine.old) }
    requires ready { IsReady (task_of a.now) engine.old }
    requires best { IsFor (task_of a.now) best.old }
    requires empty { trail_of engine.old ≡ [] }
    ensures some { result ≡ true → IsLeast (task_of a.now) (chosen_of best.new.edges best.new.names) }
    ensures none { result ≡ false → (f : TheFrozen) → IsOne (task_of a.now) f → ⊥ }
    ensures best { IsFor (task_of a.now) best.new }
    ensures suited { IsSuited (task_of a.now) leaf.new (variables_of engine.new) }
    ensures ready { IsReady (task_of a.now) engine.new }
{
    if !exists(engine, a, leaf) {
        return false;
    }
    swap(best, &mut leaf.frozen);
    settle_from(engine, a, leaf, best, 0);
    true
}
