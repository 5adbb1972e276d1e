// Clauses that leave a set of variables one parity.
ghost use Rattle.std.specs.Prelude.{◌≡◌, ◌≢◌, ℕ, Bool, true, IfSome};
ghost use Rattle.olap_pool.specs.Pools.{AreTrue};
ghost use Rattle.olap_parities.specs.Known.{Knows};
ghost use Rattle.olap_parities.specs.Sums.{sum_over};

use crate::values::are_false;
use olap_pool::Pool;

/// Whether one of these clauses is known false.
fn is_broken(pool: &Pool, ids: &[u32], values: &[Option<bool>]) -> bool
    ensures { result ≡ true → (v : ℕ → Bool) → AreTrue v pool.now → Knows values.now v → ⊥ }
{
    'clauses: for id in ids {
        let id = *id as usize;
        if id < pool.len() && are_false(values, pool.clause(id)) {
            return true;
        }
    }
    false
}

/// Whether these clauses forbid each assignment of the variables with this parity. The table is left as it was.
fn forbids(
    pool: &Pool,
    ids: &[u32],
    values: &mut [Option<bool>],
    variables: &[u32],
    odd: bool,
) -> bool
    ensures right { result ≡ true → (v : ℕ → Bool) → AreTrue v pool.now → Knows values.old v
        → sum_over v variables.now ≢ odd }
    ensures same { values.new ≡ values.old }
{
    let [x, rest @ ..] = variables else {
        return odd || is_broken(pool, ids, values);
    };
    let x = *x as usize;
    if x >= values.len() {
        return false;
    }
    let before = values[x];
    values[x] = Some(false);
    let low = forbids(pool, ids, values, rest, odd);
    values[x] = Some(true);
    let high = forbids(pool, ids, values, rest, !odd);
    values[x] = before;
    low && high
}

/// The parity of the variables, if these clauses leave them only one.
pub(crate) fn parity(
    pool: &Pool,
    ids: &[u32],
    values: &mut [Option<bool>],
    variables: &[u32],
) -> Option<bool>
    ensures right { IfSome result (λ odd. (v : ℕ → Bool) → AreTrue v pool.now → Knows values.old v
        → sum_over v variables.now ≡ odd) }
    ensures same { values.new ≡ values.old }
{
    if forbids(pool, ids, values, variables, true) {
        return Some(false);
    }
    if forbids(pool, ids, values, variables, false) {
        return Some(true);
    }
    None
}
