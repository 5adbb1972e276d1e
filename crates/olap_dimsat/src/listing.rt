// Frozen dimensions by their codes: the least one, and again and again the one that comes next.
//
// Those that are listed differ in a number of first places of their codes: with all places this gives all of them, and
// with the places of the edges the least one of each shape.
ghost use Rattle.std.specs.Prelude.{◌≡◌, ◌+◌, ◌^◌, ◌<◌, ◌≤◌, ◌∷◌, ◌++◌, ℕ, All, IfErr, IfOk, IfSome, None, [], false, length, map, slice_index, true, vec_len};
ghost use Rattle.olap_ast.specs.Frozen.{Frozen as TheFrozen, code};
ghost use Rattle.olap_base.specs.Refusing.{IsFor as IsRefusalFor};
ghost use Rattle.olap_clauses.specs.Engines.{trail_of, variables_of};
ghost use Rattle.olap_frozen.specs.LeastFound.{frozen_of};
ghost use Rattle.olap_frozen.specs.Leaves.{IsSized, IsZeroAtAll, chosen_of};
ghost use Rattle.olap_dimsat.specs.Asking.{IsFor, IsSuited, task_of};
ghost use Rattle.olap_dimsat.specs.Branches.{AreBranches, IsOpen};
ghost use Rattle.olap_dimsat.specs.Following.{AreFirsts, AreMoreFirsts, IsHanded, IsNext, IsRaised, IsRisen, NoneBeyond, NoneMore};
ghost use Rattle.olap_dimsat.specs.Pinned.{InRange, IsLeast, IsLonger, IsPinned, IsPlace, IsReady};
ghost use Rattle.olap_dimsat.specs.Tasks.{IsOne, IsTask};

use crate::asker::{Asker, Leaf};
use crate::branching::{Branch, branch_from, most_at};
use crate::searching::TooMany;
use crate::settling::{least, number_at, replace, settle_from};
use olap_base::{List, Memory, Refusal};
use olap_clauses::Engine;
use olap_frozen::Frozen;
use std::alloc::Global;

// Is there one with more at this place, that agrees before? One with the least such number is then the best one.
fn raise(
    engine: &mut Engine,
    a: &Asker<'_>,
    leaf: &mut Leaf,
    best: &mut Frozen,
    p: u16,
    number: u16,
    most: u16,
) -> bool
    requires place { IsPlace (task_of a.now) p }
    requires number { number ≡ slice_index (code (chosen_of best.old.edges best.old.names)) p }
    requires in_range { (x : ℕ) → x ≤ most → InRange (task_of a.now) p x }
    requires most { (x : ℕ) → InRange (task_of a.now) p x → x ≤ most }
    requires suited { IsSuited (task_of a.now) leaf.old (variables_of engine.old) }
    requires ready { IsReady (task_of a.now) engine.old }
    requires best { IsFor (task_of a.now) best.old }
    requires pinned { IsPinned (task_of a.now) p (chosen_of best.old.edges best.old.names) (trail_of engine.old) }
    ensures raised { result ≡ true → IsRaised (task_of a.now) p (chosen_of best.old.edges best.old.names)
        (chosen_of best.new.edges best.new.names) }
    ensures pinned { result ≡ true
        → IsPinned (task_of a.now) (p + 1) (chosen_of best.new.edges best.new.names) (trail_of engine.new) }
    ensures longer { result ≡ true → IsLonger (trail_of engine.old) (trail_of engine.new) }
    ensures none { result ≡ false → NoneMore (task_of a.now) p (chosen_of best.old.edges best.old.names) }
    ensures trail { result ≡ false → trail_of engine.new ≡ trail_of engine.old }
    ensures stays { result ≡ false → best.new ≡ best.old }
    ensures best { IsFor (task_of a.now) best.new }
    ensures suited { IsSuited (task_of a.now) leaf.new (variables_of engine.new) }
    ensures ready { IsReady (task_of a.now) engine.new }
{
    'numbers: for x in number..most {
        if replace(engine, a, leaf, best, p, x + 1) {
            return true;
        }
    }
    false
}

// Is there one with more at this place, and the same before? The least of them is then the best one.
fn rise(engine: &mut Engine, a: &Asker<'_>, leaf: &mut Leaf, best: &mut Frozen, p: u16) -> bool
    requires place { IsPlace (task_of a.now) p }
    requires suited { IsSuited (task_of a.now) leaf.old (variables_of engine.old) }
    requires ready { IsReady (task_of a.now) engine.old }
    requires best { IsFor (task_of a.now) best.old }
    requires pinned { IsPinned (task_of a.now) p (chosen_of best.old.edges best.old.names) (trail_of engine.old) }
    requires fits { p + 1 < 2 ^ 16 }
    ensures some { result ≡ true → IsRisen (task_of a.now) p (chosen_of best.old.edges best.old.names)
        (chosen_of best.new.edges best.new.names) }
    ensures longer { result ≡ true → IsLonger (trail_of engine.old) (trail_of engine.new) }
    ensures none { result ≡ false → NoneMore (task_of a.now) p (chosen_of best.old.edges best.old.names) }
    ensures trail { result ≡ false → trail_of engine.new ≡ trail_of engine.old }
    ensures stays { result ≡ false → best.new ≡ best.old }
    ensures best { IsFor (task_of a.now) best.new }
    ensures suited { IsSuited (task_of a.now) leaf.new (variables_of engine.new) }
    ensures ready { IsReady (task_of a.now) engine.new }
{
    let number = number_at(a, best, p);
    let most = most_at(a, p);
    if !raise(engine, a, leaf, best, p, number, most) {
        return false;
    }
    settle_from(engine, a, leaf, best, p + 1);
    true
}

// Goes to the next one that differs at the first places. At which of them it differs first; none: there is no next one.
fn next(
    engine: &mut Engine,
    a: &Asker<'_>,
    leaf: &mut Leaf,
    best: &mut Frozen,
    branches: &mut Vec<Branch>,
    apart: u16,
) -> Option<u16>
    requires suited { IsSuited (task_of a.now) leaf.old (variables_of engine.old) }
    requires ready { IsReady (task_of a.now) engine.old }
    requires best { IsFor (task_of a.now) best.old }
    requires one { IsOne (task_of a.now) (chosen_of best.old.edges best.old.names) }
    requires places { (q : ℕ) → q < apart → IsPlace (task_of a.now) q }
    requires branches { AreBranches (task_of a.now) apart (chosen_of best.old.edges best.old.names)
        (trail_of engine.old) branches.old.items }
    ensures some { IfSome result (λ p. IsNext (task_of a.now) apart (chosen_of best.old.edges best.old.names)
        (chosen_of best.new.edges best.new.names)) }
    ensures branches { IfSome result (λ p. IsOpen (task_of a.now) p apart (chosen_of best.new.edges best.new.names)
        (trail_of engine.new) branches.new.items) }
    ensures none { result ≡ None
        → NoneBeyond (task_of a.now) apart (chosen_of best.old.edges best.old.names) }
    ensures best { IsFor (task_of a.now) best.new }
    ensures suited { IsSuited (task_of a.now) leaf.new (variables_of engine.new) }
    ensures ready { IsReady (task_of a.now) engine.new }
{
    'branches: while let Some(last) = branches.pop() {
        engine.undo(last.mark);
        if rise(engine, a, leaf, best, last.place) {
            engine.undo(last.mark);
            return Some(last.place);
        }
    }
    None
}

// The least one is then the best one, and nothing is decided. None: there is none.
fn first(engine: &mut Engine, a: &Asker<'_>, leaf: &mut Leaf, best: &mut Frozen) -> Option<u16>
    requires suited { IsSuited (task_of a.now) leaf.old (variables_of engine.old) }
    requires ready { IsReady (task_of a.now) engine.old }
    requires best { IsFor (task_of a.now) best.old }
    requires empty { trail_of engine.old ≡ [] }
    ensures some { IfSome result (λ p. (p ≡ 0) × IsLeast (task_of a.now) (chosen_of best.new.edges best.new.names)) }
    ensures none { result ≡ None → (f : TheFrozen) → IsOne (task_of a.now) f → ⊥ }
    ensures empty { trail_of engine.new ≡ [] }
    ensures best { IsFor (task_of a.now) best.new }
    ensures suited { IsSuited (task_of a.now) leaf.new (variables_of engine.new) }
    ensures ready { IsReady (task_of a.now) engine.new }
{
    let found = least(engine, a, leaf, best);
    engine.undo(0);
    if found { Some(0) } else { None }
}

// A copy to be handed out. `All` has the index 0.
fn copy(alloc: Global, a: &Asker<'_>, best: &Frozen) -> Result<Frozen, Memory>
    requires task { IsTask (task_of a.now) }
    requires best { IsFor (task_of a.now) best.now }
    requires one { IsOne (task_of a.now) (chosen_of best.now.edges best.now.names) }
    ensures same { IfOk result (λ f. frozen_of f ≡ chosen_of best.now.edges best.now.names) }
    ensures handed { IfOk result (IsHanded (task_of a.now)) }
{
    let mut names = List::from_vec(Vec::from_slice(alloc, best.names.items())?);
    names.set(0, 0);
    let edges = List::from_vec(Vec::from_slice(alloc, best.edges.items())?);
    Ok(Frozen {
        root: a.question.root,
        edges,
        names,
    })
}

// Puts the best one after the others.
fn add(alloc: Global, a: &Asker<'_>, best: &Frozen, list: &mut Vec<Frozen>) -> Result<(), Memory>
    requires task { IsTask (task_of a.now) }
    requires best { IsFor (task_of a.now) best.now }
    requires one { IsOne (task_of a.now) (chosen_of best.now.edges best.now.names) }
    requires handed { All (IsHanded (task_of a.now)) list.old.items }
    ensures listed { IfOk result (λ _. map frozen_of list.new.items
        ≡ map frozen_of list.old.items ++ chosen_of best.now.edges best.now.names ∷ []) }
    ensures handed { IfOk result (λ _. All (IsHanded (task_of a.now)) list.new.items) }
    ensures count { IfOk result (λ _. vec_len list.new ≡ vec_len list.old + 1) }
{
    let copied = copy(alloc, a, best)?;
    list.push(copied)?;
    Ok(())
}

/// For each choice of this many first places the first frozen dimension with it, by their codes, where they are at most
/// `limit`. It takes memory for the list, and for a branch at each place.
pub(crate) fn list(
    alloc: Global,
    engine: &mut Engine,
    a: &Asker<'_>,
    leaf: &mut Leaf,
    best: &mut Frozen,
    apart: u16,
    limit: usize,
) -> Result<List<Frozen>, Refusal<TooMany>>
    requires suited { IsSuited (task_of a.now) leaf.old (variables_of engine.old) }
    requires ready { IsReady (task_of a.now) engine.old }
    requires best { IsFor (task_of a.now) best.old }
    requires empty { trail_of engine.old ≡ [] }
    requires places { (q : ℕ) → q < apart → IsPlace (task_of a.now) q }
    ensures all { IfOk result (λ list. AreFirsts (task_of a.now) apart (map frozen_of list)) }
    ensures few { IfOk result (λ list. length list ≤ limit) }
    ensures roots { IfOk result (λ list. All (λ f. f.root.0 ≡ a.now.question.root.0) list) }
    ensures sized { IfOk result (λ list. All
        (λ f. IsSized a.now.question.graph.now a.now.question.candidates.now f.edges f.names) list) }
    ensures zero { IfOk result (λ list. All (λ f. IsZeroAtAll f.names) list) }
    ensures too_many { IfErr result (IsRefusalFor (λ _. AreMoreFirsts (task_of a.now) apart limit)) }
    ensures best { IsFor (task_of a.now) best.new }
    ensures suited { IsSuited (task_of a.now) leaf.new (variables_of engine.new) }
    ensures ready { IsReady (task_of a.now) engine.new }
{
    let mut list = Vec::new(alloc);
    let mut branches = Vec::new(alloc);
    let mut place = first(engine, a, leaf, best);
    'listed: while let Some(from) = place {
        if list.len() >= limit {
            return Err(Refusal::Kind(TooMany));
        }
        add(alloc, a, best, &mut list)?;
        branch_from(engine, a, best, &mut branches, from, apart)?;
        place = next(engine, a, leaf, best, &mut branches, apart);
    }
    Ok(List::from_vec(list))
}
