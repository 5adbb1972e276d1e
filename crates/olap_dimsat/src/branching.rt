// The places of the best one's code at which there may be more, with what is decided before them.
ghost use Rattle.std.specs.Prelude.{◌≡◌, ◌+◌, ◌<◌, ◌≤◌, ℕ, IfOk, true};
ghost use Rattle.olap_clauses.specs.Engines.{trail_of, variables_of};
ghost use Rattle.olap_frozen.specs.Leaves.{chosen_of};
ghost use Rattle.olap_dimsat.specs.Asking.{IsFor, task_of};
ghost use Rattle.olap_dimsat.specs.Branches.{AreBranches, IsRefuted, IsTopped};
ghost use Rattle.olap_dimsat.specs.Pinned.{InRange, IsLonger, IsPinned, IsPlace, IsReady};
ghost use Rattle.olap_dimsat.specs.Tasks.{IsOne, IsTask};

use crate::asker::Asker;
use crate::settling::{keep, literal_at, number_at};
use olap_base::{CatId, Memory};
use olap_clauses::{Engine, Trail, Value};
use olap_frozen::Frozen;

/// A place at which there may be more.
#[derive(Clone, Copy)]
pub(crate) struct Branch {
    /// The place.
    pub(crate) place: u16,
    /// How many literals say what stands before it.
    pub(crate) mark: usize,
}

/// The greatest number that may stand at this place of a code.
pub(crate) fn most_at(a: &Asker<'_>, p: u16) -> u16
    requires task { IsTask (task_of a.now) }
    requires place { IsPlace (task_of a.now) p }
    ensures in_range { (x : ℕ) → x ≤ result → InRange (task_of a.now) p x }
    ensures most { (x : ℕ) → InRange (task_of a.now) p x → x ≤ result }
{
    let edges = a.question.graph.edges();
    // Called for its clauses: the graph has few categories.
    let _few = a.question.graph.categories();
    if p < edges {
        1
    } else {
        a.question.candidates.names(CatId(p - edges + 1)) - 1
    }
}

// Whether none that agrees with the trail has this number, which isn't 0, at this place.
fn is_refuted(a: &Asker<'_>, trail: &Trail, p: u16, number: u16) -> bool
    requires task { IsTask (task_of a.now) }
    requires place { IsPlace (task_of a.now) p }
    requires number { InRange (task_of a.now) p number }
    requires positive { 0 < number }
    ensures { result ≡ true → IsRefuted (task_of a.now) trail.now p number }
{
    matches!(trail.value(literal_at(a, p, number)), Value::No)
}

// Whether none that agrees with the trail has more at this place than the best one.
fn is_topped(a: &Asker<'_>, best: &Frozen, trail: &Trail, p: u16) -> bool
    requires task { IsTask (task_of a.now) }
    requires best { IsFor (task_of a.now) best.now }
    requires one { IsOne (task_of a.now) (chosen_of best.now.edges best.now.names) }
    requires place { IsPlace (task_of a.now) p }
    ensures { result ≡ true → IsTopped (task_of a.now) trail.now p (chosen_of best.now.edges best.now.names) }
{
    let number = number_at(a, best, p);
    let most = most_at(a, p);
    'numbers: for x in number..most {
        if !is_refuted(a, trail, p, x + 1) {
            return false;
        }
    }
    true
}

// Decides that this place stays as it is in the best one, and forces what follows from that.
fn pin(engine: &mut Engine, a: &Asker<'_>, best: &Frozen, p: u16)
    requires task { IsTask (task_of a.now) }
    requires place { IsPlace (task_of a.now) p }
    requires ready { IsReady (task_of a.now) engine.old }
    requires best { IsFor (task_of a.now) best.now }
    requires pinned { IsPinned (task_of a.now) p (chosen_of best.now.edges best.now.names) (trail_of engine.old) }
    requires variables { variables_of engine.old ≡ a.now.layout.now.variables }
    ensures pinned { IsPinned (task_of a.now) (p + 1) (chosen_of best.now.edges best.now.names) (trail_of engine.new) }
    ensures longer { IsLonger (trail_of engine.old) (trail_of engine.new) }
    ensures variables { variables_of engine.new ≡ variables_of engine.old }
    ensures ready { IsReady (task_of a.now) engine.new }
{
    let stood = engine.trail().len();
    keep(engine, a, best, p);
    if engine.trail().len() > stood {
        engine.force();
    }
}

// Decides that this place is as it is in the best one, and notes it unless it is forced that none has more there.
fn branch_at(
    engine: &mut Engine,
    a: &Asker<'_>,
    best: &Frozen,
    branches: &mut Vec<Branch>,
    p: u16,
) -> Result<(), Memory>
    requires task { IsTask (task_of a.now) }
    requires ready { IsReady (task_of a.now) engine.old }
    requires best { IsFor (task_of a.now) best.now }
    requires place { IsPlace (task_of a.now) p }
    requires pinned { IsPinned (task_of a.now) p (chosen_of best.now.edges best.now.names) (trail_of engine.old) }
    requires variables { variables_of engine.old ≡ a.now.layout.now.variables }
    requires branches { AreBranches (task_of a.now) p (chosen_of best.now.edges best.now.names) (trail_of engine.old)
        branches.old.items }
    ensures pinned { IsPinned (task_of a.now) (p + 1) (chosen_of best.now.edges best.now.names) (trail_of engine.new) }
    ensures branches { IfOk result (λ _. AreBranches (task_of a.now) (p + 1)
        (chosen_of best.now.edges best.now.names) (trail_of engine.new) branches.new.items) }
    ensures variables { variables_of engine.new ≡ variables_of engine.old }
    ensures ready { IsReady (task_of a.now) engine.new }
{
    let known = is_topped(a, best, engine.trail(), p);
    let mark = engine.trail().len();
    pin(engine, a, best, p);
    if known {
        return Ok(());
    }
    branches.push(Branch { place: p, mark })?;
    Ok(())
}

/// Decides from this place on that the first places are as they are in the best one, and notes where there may be more.
/// What is forced stays.
///
/// It takes memory for a branch at each of them.
pub(crate) fn branch_from(
    engine: &mut Engine,
    a: &Asker<'_>,
    best: &Frozen,
    branches: &mut Vec<Branch>,
    from: u16,
    apart: u16,
) -> Result<(), Memory>
    requires task { IsTask (task_of a.now) }
    requires ready { IsReady (task_of a.now) engine.old }
    requires best { IsFor (task_of a.now) best.now }
    requires pinned { IsPinned (task_of a.now) from (chosen_of best.now.edges best.now.names) (trail_of engine.old) }
    requires variables { variables_of engine.old ≡ a.now.layout.now.variables }
    requires places { (q : ℕ) → q < apart → IsPlace (task_of a.now) q }
    requires from { from ≤ apart }
    requires branches { AreBranches (task_of a.now) from (chosen_of best.now.edges best.now.names)
        (trail_of engine.old) branches.old.items }
    ensures branches { IfOk result (λ _. AreBranches (task_of a.now) apart (chosen_of best.now.edges best.now.names)
        (trail_of engine.new) branches.new.items) }
    ensures variables { variables_of engine.new ≡ variables_of engine.old }
    ensures ready { IsReady (task_of a.now) engine.new }
{
    engine.force();
    'places: for p in from..apart {
        branch_at(engine, a, best, branches, p)?;
    }
    Ok(())
}
