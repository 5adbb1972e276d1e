// Clauses without what is known with no decision.
ghost use Rattle.std.specs.Prelude.{◌≡◌, ℕ, ◌+◌, Contains, ◌<◌, ◌≤◌, Bool, false, length, vec_len, vec_capacity};
ghost use Rattle.olap_pool.specs.declared.literals.Lit.{Lit};
ghost use Rattle.olap_pool.specs.Literals.{Satisfies};
ghost use Rattle.olap_clauses.specs.Standing.{Agrees};
ghost use Rattle.olap_clauses.specs.Trails.{steps_of, values_of};
ghost use Rattle.olap_pool.specs.Pools.{AreTrue};

use crate::trails::Trail;
use crate::values::Value;
use olap_pool::{Lit, Pool};

/// Whether one of the literals is known true. Nothing is proved about it.
fn is_true(trail: &Trail, clause: &[Lit]) -> bool {
    'lits: for lit in clause {
        if trail.value(*lit) == Value::Yes {
            return true;
        }
    }
    false
}

/// Writes a literal that isn't to be left out.
fn write_unless(out: bool, lit: Lit, work: &mut Vec<Lit>)
    requires { vec_len work.old < vec_capacity work.old }
    ensures kept { (m : Lit) → Contains work.old.items m → Contains work.new.items m }
    ensures written { out ≡ false → Contains work.new.items lit }
    ensures count { length work.new.items ≤ length work.old.items + 1 }
    ensures room { vec_capacity work.old ≤ vec_capacity work.new }
{
    if !out {
        work.push(lit).unwrap();
    }
}

/// Writes the literals of a clause that aren't known false.
fn shorten(trail: &Trail, clause: &[Lit], work: &mut Vec<Lit>)
    requires { length clause.now ≤ vec_capacity work.old }
    ensures right { (v : ℕ → Bool) → Agrees v (steps_of trail.now) → Satisfies v clause.now
        → Satisfies v work.new.items }
    ensures room { vec_capacity work.old ≤ vec_capacity work.new }
{
    work.clear();
    'lits: for k in 0..clause.len() {
        let lit = clause[k];
        let out = trail.value(lit) == Value::No;
        write_unless(out, lit, work);
    }
}

/// Copies a clause without the literals that are known false, unless one is known true.
fn copy_short(trail: &Trail, clause: &[Lit], levels: u32, to: &mut Pool, work: &mut Vec<Lit>)
    requires { length (values_of trail.now) ≤ vec_capacity work.old }
    ensures right { (v : ℕ → Bool) → Agrees v (steps_of trail.now) → Satisfies v clause.now
        → AreTrue v to.old → AreTrue v to.new }
    ensures room { vec_capacity work.old ≤ vec_capacity work.new }
{
    if is_true(trail, clause) {
        return;
    }
    if clause.len() > trail.variables() {
        to.keep_if(true, clause, levels);
        return;
    }
    shorten(trail, clause, work);
    to.keep_if(true, work, levels);
}

/// Adds each literal that stands as a clause.
fn copy_facts(trail: &Trail, to: &mut Pool)
    ensures { (v : ℕ → Bool) → Agrees v (steps_of trail.now) → AreTrue v to.old → AreTrue v to.new }
{
    'steps: for k in 0..trail.len() {
        let lit = trail.step(k).lit;
        to.keep_if(true, &[lit], 0);
    }
}

/// Copies what stands, and then the clauses without it, and returns how many clauses the copy has up to the last of the
/// first `given`.
pub(crate) fn copy_all(
    trail: &Trail,
    pool: &Pool,
    to: &mut Pool,
    work: &mut Vec<Lit>,
    given: usize,
) -> usize
    requires { length (values_of trail.now) ≤ vec_capacity work.old }
    ensures right { (v : ℕ → Bool) → Agrees v (steps_of trail.now) → AreTrue v pool.now
        → AreTrue v to.new }
    ensures room { vec_capacity work.old ≤ vec_capacity work.new }
{
    to.clear();
    copy_facts(trail, to);
    let mut count = to.len();
    'clauses: for id in 0..pool.len() {
        copy_short(trail, pool.clause(id), pool.levels(id), to, work);
        if id < given {
            count = to.len();
        }
    }
    count
}
