// What is known of variables, from clauses of which all literals but one are false.
ghost use Rattle.std.specs.Prelude.{◌≡◌, ℕ, Bool, true};
ghost use Rattle.olap_pool.specs.declared.literals.Lit.{Lit};
ghost use Rattle.olap_pool.specs.Literals.{Holds, Satisfies};
ghost use Rattle.olap_pool.specs.Pools.{AreTrue};
ghost use Rattle.olap_parities.specs.Known.{Knows, value_of};

use olap_pool::{Lit, Pool};

/// So often at most the clauses are gone through.
const PASSES: usize = 16;

/// Forgets all values.
pub(crate) fn forget(values: &mut [Option<bool>])
    ensures { (v : ℕ → Bool) → Knows values.new v }
{
    'values: for k in 0..values.len() {
        values[k] = None;
    }
}

/// What is known of a variable.
pub(crate) fn value(values: &[Option<bool>], variable: u32) -> Option<bool>
    ensures { result ≡ value_of values.now variable }
{
    let x = variable as usize;
    if x < values.len() { values[x] } else { None }
}

/// Whether the literal is known false.
pub(crate) fn is_false(values: &[Option<bool>], lit: Lit) -> bool
    ensures { result ≡ true → (v : ℕ → Bool) → Knows values.now v → Holds v lit → ⊥ }
{
    match value(values, lit.variable) {
        Some(known) => known != lit.positive,
        None => false,
    }
}

/// Whether all literals are known false.
pub(crate) fn are_false(values: &[Option<bool>], clause: &[Lit]) -> bool
    ensures { result ≡ true → (v : ℕ → Bool) → Knows values.now v → Satisfies v clause.now → ⊥ }
{
    'lits: for k in 0..clause.len() {
        let lit = clause[k];
        if !is_false(values, lit) {
            return false;
        }
    }
    true
}

/// Whether all literals but this one are known false.
fn are_false_but(values: &[Option<bool>], clause: &[Lit], lit: Lit) -> bool
    ensures { result ≡ true → (v : ℕ → Bool) → Knows values.now v → Satisfies v clause.now → Holds v lit }
{
    'lits: for k in 0..clause.len() {
        let other = clause[k];
        if other != lit && !is_false(values, other) {
            return false;
        }
    }
    true
}

/// A literal about which nothing is known, if the clause has one. Nothing is proved about it.
fn open_literal(values: &[Option<bool>], clause: &[Lit]) -> Option<Lit> {
    'lits: for lit in clause {
        if value(values, lit.variable).is_none() {
            return Some(*lit);
        }
    }
    None
}

/// Learns the last literal that a clause leaves open, and returns whether there was one.
fn learn_one(values: &mut [Option<bool>], clause: &[Lit]) -> bool
    ensures { (v : ℕ → Bool) → Satisfies v clause.now → Knows values.old v → Knows values.new v }
{
    let Some(lit) = open_literal(values, clause) else {
        return false;
    };
    let x = lit.variable as usize;
    if x >= values.len() || !are_false_but(values, clause, lit) {
        return false;
    }
    values[x] = Some(lit.positive);
    true
}

/// Learns once what each clause leaves open, and returns whether there was anything.
fn learn_once(values: &mut [Option<bool>], pool: &Pool) -> bool
    ensures { (v : ℕ → Bool) → AreTrue v pool.now → Knows values.old v → Knows values.new v }
{
    let mut learned = false;
    'clauses: for id in 0..pool.len() {
        let is_new = learn_one(values, pool.clause(id));
        learned = learned || is_new;
    }
    learned
}

/// Learns what the clauses leave open, again and again while there is anything.
pub(crate) fn learn(values: &mut [Option<bool>], pool: &Pool)
    ensures { (v : ℕ → Bool) → AreTrue v pool.now → Knows values.old v → Knows values.new v }
{
    'passes: for _ in 0..PASSES {
        if !learn_once(values, pool) {
            return;
        }
    }
}
