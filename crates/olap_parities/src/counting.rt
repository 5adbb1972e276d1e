// Clauses that are more than the sets in which all their literals lie, where two literals of a set are never both true.
ghost use Rattle.std.specs.Prelude.{◌≡◌, ℕ, Bool, true};
ghost use Rattle.olap_pool.specs.Pools.{AreTrue};
ghost use Rattle.olap_parities.specs.Known.{Knows};

use crate::entries::{Entry, are_alone, enter_all};
use crate::grouping::{Grouping, LITERALS, count_sets, open_size};
use crate::values::{forget, learn};
use olap_pool::{Lit, Pool};
use std::alloc::{AllocError, Global};

/// The most literals of a clause.
const LONGEST: usize = 40;

/// The most clauses that are gone through, counted once for each literal.
const PATIENCE: usize = 1_000_000;

/// The most variables, and the most clauses, of a pool; in a larger one nothing is found.
const LARGEST: usize = 20_000;

/// Whether these clauses are more than the sets in which their literals lie.
fn is_crowded(
    pool: &Pool,
    values: &[Option<bool>],
    ids: &[u32],
    grouping: &Grouping,
    entries: &mut Vec<Entry>,
    trial: &mut [Option<bool>],
) -> bool
    ensures { result ≡ true → (v : ℕ → Bool) → AreTrue v pool.now → Knows values.now v → ⊥ }
{
    let rows = enter_all(pool, values, ids, grouping, entries);
    let entered: &[Entry] = entries;
    let sets = count_sets(entered);
    if sets >= rows {
        return false;
    }
    are_alone(pool, values, entered, sets, trial)
}

/// Marks the variables of a clause as taken.
fn take(taken: &mut [bool], clause: &[Lit]) {
    'lits: for k in 0..clause.len() {
        let x = clause[k].variable as usize;
        if x < taken.len() {
            taken[x] = true;
        }
    }
}

/// Chooses clauses of this many open literals, no two of which share a variable. Nothing is proved about them.
fn choose(
    pool: &Pool,
    values: &[Option<bool>],
    size: usize,
    taken: &mut [bool],
    ids: &mut Vec<u32>,
) {
    ids.clear();
    'taken: for is_taken in taken.iter_mut() {
        *is_taken = false;
    }
    let mut left = LITERALS;
    'clauses: for id in 0..pool.len() {
        if left < size || ids.len() >= ids.capacity() || id > u32::MAX as usize {
            return;
        }
        let clause = pool.clause(id);
        if clause.len() >= size && open_size(values, taken, clause) == Some(size) {
            take(taken, clause);
            let _ = ids.push(id as u32);
            left -= size;
        }
    }
}

/// Room to count in.
#[derive(Drop)]
pub struct Counting {
    values: Vec<Option<bool>>,
    /// What is known where a literal is assumed.
    trial: Vec<Option<bool>>,
    taken: Vec<bool>,
    ids: Vec<u32>,
    entries: Vec<Entry>,
    grouping: Grouping,
    /// How many more clauses may be gone through.
    patience: usize,
}

impl Counting {
    /// Room to count in a pool with this many variables: some 200 KB. No later call takes memory.
    pub fn new(alloc: Global, variables: u32) -> Result<Counting, AllocError> {
        let variables = if variables as usize > LARGEST {
            0
        } else {
            variables as usize
        };
        Ok(Counting {
            values: vec![in alloc; None; variables]?,
            trial: vec![in alloc; None; variables]?,
            taken: vec![in alloc; false; variables]?,
            ids: Vec::with_capacity(alloc, LITERALS)?,
            entries: Vec::with_capacity(alloc, LITERALS)?,
            grouping: Grouping::new(alloc)?,
            patience: 0,
        })
    }

    /// Learns what is known with nothing assumed.
    fn learn(&mut self, pool: &Pool)
        ensures { (v : ℕ → Bool) → AreTrue v pool.now → Knows self.new.values.items v }
    {
        forget(&mut self.values);
        learn(&mut self.values, pool);
    }

    /// Whether clauses of this many open literals are found that are more than the sets in which their literals lie.
    fn is_overfull_at(&mut self, pool: &Pool, size: usize) -> bool
        ensures right { result ≡ true → (v : ℕ → Bool) → AreTrue v pool.now → Knows self.old.values.items v → ⊥ }
        ensures same { self.new.values.items ≡ self.old.values.items }
    {
        choose(pool, &self.values, size, &mut self.taken, &mut self.ids);
        let cost = self
            .ids
            .len()
            .saturating_mul(size)
            .saturating_mul(pool.len());
        // The literals of one clause lie in a set each, so there are as many sets at least.
        if self.ids.len() <= size || cost > self.patience {
            return false;
        }
        self.patience -= cost;
        self.grouping
            .fill(pool, &self.values, &self.ids, &mut self.trial);
        is_crowded(
            pool,
            &self.values,
            &self.ids,
            &self.grouping,
            &mut self.entries,
            &mut self.trial,
        )
    }

    /// Whether clauses are found that are more than the sets in which all their literals lie, where two literals of a
    /// set are never both true, by what follows from the one with unit clauses alone. If so, no valuation makes all
    /// clauses true.
    pub fn is_overfull(&mut self, pool: &Pool) -> bool
        ensures { result ≡ true → (v : ℕ → Bool) → AreTrue v pool.now → ⊥ }
    {
        self.learn(pool);
        self.patience = PATIENCE;
        'sizes: for k in 3..LONGEST {
            if self.is_overfull_at(pool, LONGEST - k + 2) {
                return true;
            }
        }
        false
    }
}
