// The way back from a branch in which nothing is found.
ghost use Rattle.std.specs.Prelude.{◌≡◌, ℕ, ◌<◌, ◌≤◌, Bool, true, false, length, take, drop, IfSome, ◌⊎◌};
ghost use Rattle.olap_clauses.specs.Standing.{Agrees, is_decision};
ghost use Rattle.olap_clauses.specs.Trails.{steps_of, values_of, IsOpen};
ghost use Rattle.olap_clauses.specs.Retreats.{IsBack, IsOff, BeginsDecided, IsFalseFrom, ForcesFrom, PoolForces, StandsBy};
ghost use Rattle.olap_clauses.specs.Admits.{Admits};
ghost use Rattle.olap_clauses.specs.Ranks.{left};

use crate::standing::{Stand, stands};
use crate::trails::{Reason, Trail};
use olap_pool::{Lit, Pool};

/// Takes the last decision off, and all literals after it, and returns its literal. Nothing before the floor is
/// touched.
fn back(trail: &mut Trail, floor: usize) -> Option<Lit>
    requires { floor ≤ length (steps_of trail.old) }
    ensures back { IsBack (steps_of trail.old) (steps_of trail.new) floor result }
    ensures open { IfSome result (λ lit. IsOpen trail.new lit) }
    ensures variables { length (values_of trail.new) ≡ length (values_of trail.old) }
{
    'steps: while trail.len() > floor {
        let Some(step) = trail.pop() else {
            return None;
        };
        if step.is_decision() {
            return Some(step.lit);
        }
    }
    None
}

/// How the clause learned last stands on this trail. If there is none, nothing is said.
fn stands_by(trail: &Trail, pool: &Pool, last: Option<usize>) -> Stand
    ensures { StandsBy pool.now trail.now result }
{
    let Some(id) = last else {
        return Stand::Open;
    };
    if id >= pool.len() {
        return Stand::Open;
    }
    stands(trail, pool.clause(id))
}

/// Why the literal that the clause learned last forces is on the trail.
fn reason_of(last: Option<usize>) -> Reason
    ensures { is_decision result ≡ false }
{
    match last {
        Some(id) => Reason::Clause(id),
        None => Reason::Above,
    }
}

/// How many of the first literals make this one false. None: it isn't known.
fn false_from(trail: &Trail, lit: Lit) -> Option<usize>
    ensures right { IfSome result (IsFalseFrom (steps_of trail.now) lit) }
    ensures bound { IfSome result (λ n. n ≤ length (steps_of trail.now)) }
{
    let place = trail.place(lit.variable);
    if place < trail.len() && trail.step(place).lit == lit.negated() {
        Some(place + 1)
    } else {
        None
    }
}

/// At least as many of the first literals make this one false, if it is another one than that.
fn later(trail: &Trail, lit: Lit, but: Lit, from: usize) -> Option<usize>
    requires { from ≤ length (steps_of trail.now) }
    ensures right { IfSome result (λ n. (lit ≡ but) ⊎ IsFalseFrom (steps_of trail.now) lit n) }
    ensures later { IfSome result (λ n. from ≤ n) }
    ensures bound { IfSome result (λ n. n ≤ length (steps_of trail.now)) }
{
    if lit == but {
        return Some(from);
    }
    let n = false_from(trail, lit)?;
    Some(n.max(from))
}

/// By this many of the first literals the clause forces this one. None: it can't be said.
fn forces_from(trail: &Trail, clause: &[Lit], lit: Lit) -> Option<usize>
    ensures right { IfSome result (ForcesFrom (steps_of trail.now) clause.now lit) }
    ensures bound { IfSome result (λ n. n ≤ length (steps_of trail.now)) }
{
    let mut from: usize = 0;
    'lits: for k in 0..clause.len() {
        let Some(n) = later(trail, clause[k], lit, from) else {
            return None;
        };
        from = n;
    }
    Some(from)
}

/// By this many of the first literals the clause learned last forces this one, which it does by all
/// of them.
fn learned_from(trail: &Trail, pool: &Pool, last: Option<usize>, lit: Lit) -> usize
    requires { PoolForces pool.now (steps_of trail.now) lit }
    ensures right { PoolForces pool.now (take result (steps_of trail.now)) lit }
    ensures bound { result ≤ length (steps_of trail.now) }
{
    let Some(id) = last else {
        return trail.len();
    };
    if id >= pool.len() {
        return trail.len();
    }
    match forces_from(trail, pool.clause(id), lit) {
        Some(from) => from,
        None => trail.len(),
    }
}

/// The place of the first decision at this place or after it, or the end.
fn branch_from(trail: &Trail, from: usize) -> usize
    requires { from ≤ length (steps_of trail.now) }
    ensures above { from ≤ result }
    ensures bound { result ≤ length (steps_of trail.now) }
    ensures begins { BeginsDecided (drop result (steps_of trail.now)) }
{
    'steps: for k in from..trail.len() {
        if trail.step(k).is_decision() {
            return k;
        }
    }
    trail.len()
}

/// Takes decisions off, and all after them, without which the clause learned last forces this
/// literal as well. Nothing before the floor is touched.
fn jump(trail: &mut Trail, pool: &Pool, last: Option<usize>, lit: Lit, floor: usize)
    requires floor { floor ≤ length (steps_of trail.old) }
    requires open { IsOpen trail.old lit }
    requires forces { PoolForces pool.now (steps_of trail.old) lit }
    ensures off { IsOff (steps_of trail.old) (steps_of trail.new) floor }
    ensures open { IsOpen trail.new lit }
    ensures forces { PoolForces pool.now (steps_of trail.new) lit }
    ensures variables { length (values_of trail.new) ≡ length (values_of trail.old) }
{
    let from = learned_from(trail, pool, last, lit);
    let at = branch_from(trail, from.max(floor));
    trail.cut(at);
}

/// Leaves the branches in which nothing is found, up to one that has another side, and goes there.
/// False: there is none at the floor or after it. A branch that the clause learned last shows to
/// be empty is left as a whole. Where that clause forces a literal, decisions that it doesn't need
/// for that are taken off too, so that the literal stands as long as what forces it.
pub(crate) fn retreat(trail: &mut Trail, pool: &Pool, last: Option<usize>, floor: usize) -> bool
    requires { floor ≤ length (steps_of trail.old) }
    ensures on { result ≡ true → (v : ℕ → Bool) → Admits v pool.now trail.old
        → (Agrees v (steps_of trail.old) → ⊥) → Admits v pool.now trail.new }
    ensures off { result ≡ false → (v : ℕ → Bool) → Admits v pool.now trail.old
        → (Agrees v (steps_of trail.old) → ⊥) → Agrees v (take floor (steps_of trail.old)) → ⊥ }
    ensures front { take floor (steps_of trail.new) ≡ take floor (steps_of trail.old) }
    ensures floor { floor ≤ length (steps_of trail.new) }
    ensures variables { length (values_of trail.new) ≡ length (values_of trail.old) }
    ensures less { result ≡ true → left trail.old trail.new < left trail.old trail.old }
{
    'branches: loop {
        match back(trail, floor) {
            None => return false,
            Some(lit) => match stands_by(trail, pool, last) {
                Stand::Broken => {}
                Stand::Forces(forced) => {
                    jump(trail, pool, last, forced, floor);
                    trail.push(forced, reason_of(last));
                    return true;
                }
                Stand::Open => {
                    trail.push(lit.negated(), Reason::Above);
                    return true;
                }
            },
        }
    }
}
