// Which literals exclude each other, and into which sets they are put. All of it is a hint: it is tested where it is
// used.
use crate::entries::{Entry, assume};
use crate::values::{is_false, value};
use olap_pool::{Lit, Pool};
use std::alloc::{AllocError, Global};

/// The most literals of the clauses together.
pub(crate) const LITERALS: usize = 400;

/// The most sets.
const SETS: usize = 128;

/// Literals, and for each two whether they exclude each other.
#[derive(Drop)]
pub(crate) struct Grouping {
    lits: Vec<Lit>,
    excluded: Vec<bool>,
}

impl Grouping {
    /// Room for literals.
    pub(crate) fn new(alloc: Global) -> Result<Grouping, AllocError> {
        Ok(Grouping {
            lits: Vec::with_capacity(alloc, LITERALS)?,
            excluded: Vec::with_capacity(alloc, LITERALS * LITERALS)?,
        })
    }

    /// Notes the open literals of these clauses, and which exclude each other.
    pub(crate) fn fill(
        &mut self,
        pool: &Pool,
        values: &[Option<bool>],
        ids: &[u32],
        trial: &mut [Option<bool>],
    ) {
        self.lits.clear();
        self.excluded.clear();
        'ids: for id in ids {
            let id = *id as usize;
            if id < pool.len() {
                self.note(values, pool.clause(id));
            }
        }
        let count = self.lits.len();
        'lits: for k in 0..count {
            if k < self.lits.len() {
                let is_known = assume(pool, values, self.lits[k], trial);
                self.compare(is_known, trial);
            }
        }
    }

    /// Notes the literals of a clause that aren't known false.
    fn note(&mut self, values: &[Option<bool>], clause: &[Lit]) {
        'lits: for k in 0..clause.len() {
            if !is_false(values, clause[k])
                && self.lits.len() < LITERALS
                && self.lits.len() < self.lits.capacity()
            {
                let _ = self.lits.push(clause[k]);
            }
        }
    }

    /// Notes which literals are known false.
    fn compare(&mut self, is_known: bool, trial: &[Option<bool>]) {
        'lits: for k in 0..self.lits.len() {
            let is_excluded = is_known && is_false(trial, self.lits[k]);
            if self.excluded.len() < self.excluded.capacity() {
                let _ = self.excluded.push(is_excluded);
            }
        }
    }

    /// Whether the first literal excludes the second, and the second the first.
    fn is_excluded(&self, first: usize, second: usize) -> bool {
        let count = self.lits.len();
        if first >= count || second >= count || count > LITERALS {
            return false;
        }
        let (there, back) = (first * count + second, second * count + first);
        there < self.excluded.len()
            && back < self.excluded.len()
            && self.excluded[there]
            && self.excluded[back]
    }

    /// The first set for the literal that is entered next, of this row.
    pub(crate) fn set(&self, entries: &[Entry], row: usize) -> usize {
        let mut is_taken = [false; SETS];
        let next = entries.len();
        'entries: for k in 0..entries.len() {
            let other = entries[k];
            if other.set < SETS && (other.row == row || !self.is_excluded(next, k)) {
                is_taken[other.set] = true;
            }
        }
        'sets: for set in 0..SETS {
            if !is_taken[set] {
                return set;
            }
        }
        SETS
    }
}

/// How many sets there are.
pub(crate) fn count_sets(entries: &[Entry]) -> usize {
    let mut count: usize = 0;
    'entries: for entry in entries {
        count = count.max(entry.set.saturating_add(1));
    }
    count
}

/// How many literals of a clause are open, if each is of a variable that isn't taken and none is known true.
pub(crate) fn open_size(values: &[Option<bool>], taken: &[bool], clause: &[Lit]) -> Option<usize> {
    let mut count: usize = 0;
    'lits: for k in 0..clause.len() {
        let lit = clause[k];
        let x = lit.variable as usize;
        if value(values, lit.variable).is_none() {
            if x >= taken.len() || taken[x] {
                return None;
            }
            count = count.saturating_add(1);
        } else if !is_false(values, lit) {
            return None;
        }
    }
    Some(count)
}
