// Sets of variables, and the clauses that stand over each. All of it is a hint: what is found by it is tested where
// it is used.
ghost use Rattle.std.specs.Prelude.{◌≡◌, ◌≤◌};

use crate::values::{is_false, value};
use olap_pool::{Lit, Pool};
use std::alloc::{AllocError, Global};

/// The most variables of a set.
pub(crate) const LARGEST: usize = 5;

/// How many clauses with one hash are looked at.
const PATIENCE: usize = 64;

/// A set of at most five variables.
#[derive(Clone, Copy)]
pub(crate) struct Set {
    variables: [u32; LARGEST],
    count: usize,
    ghost within: { count ≤ 5 },
}

impl Set {
    ghost use Rattle.olap_parities.specs.Sets.{variables_of};

    /// The set of no variables.
    pub(crate) fn empty() -> Set {
        Set {
            variables: [0; LARGEST],
            count: 0,
        }
    }

    /// The open variables of a clause, if it has from two to five, each once, and isn't known true.
    pub(crate) fn of(values: &[Option<bool>], clause: &[Lit]) -> Option<Set> {
        let mut set = Set::empty();
        'lits: for k in 0..clause.len() {
            let lit = clause[k];
            if value(values, lit.variable).is_none() {
                if set.count >= LARGEST || set.has(lit.variable) {
                    return None;
                }
                set.push(lit.variable);
            } else if !is_false(values, lit) {
                return None;
            }
        }
        if set.count >= 2 { Some(set) } else { None }
    }

    /// Adds a variable if there is room.
    fn push(&mut self, variable: u32) {
        if self.count < LARGEST {
            self.variables[self.count] = variable;
            self.count += 1;
        }
    }

    /// How many variables it has.
    pub(crate) fn len(&self) -> usize
        ensures { result ≤ 5 }
    {
        self.count
    }

    /// The variables.
    pub(crate) fn variables(&self) -> &[u32]
        ensures { result.now ≡ variables_of self.now }
    {
        &self.variables[..self.count]
    }

    /// Whether the variable is in it.
    pub(crate) fn has(&self, variable: u32) -> bool {
        'variables: for k in 0..self.count {
            if self.variables[k] == variable {
                return true;
            }
        }
        false
    }

    /// Those of its variables whose place is a bit of the number.
    pub(crate) fn part(&self, places: u32) -> Set {
        let mut part = Set::empty();
        'variables: for k in 0..self.count {
            if (places >> k) & 1 == 1 {
                part.push(self.variables[k]);
            }
        }
        part
    }

    /// A number that is the same for sets with the same variables.
    fn hash(&self) -> u32 {
        let mut sum: u64 = 0;
        'variables: for k in 0..self.count {
            let spread = (u64::from(self.variables[k]) + 1).wrapping_mul(0x9e37_79b9_7f4a_7c15);
            sum = sum.wrapping_add(spread ^ (spread >> 29));
        }
        (sum.wrapping_mul(0xbf58_476d_1ce4_e5b9) >> 32) as u32
    }

    /// Whether each variable of the other is in it.
    fn contains(&self, other: &Set) -> bool {
        'variables: for k in 0..other.count {
            if !self.has(other.variables[k]) {
                return false;
            }
        }
        true
    }
}

/// The clauses over each set of variables, in chains that end at 0, each clause counted from 1.
#[derive(Drop)]
pub(crate) struct Index {
    heads: Vec<u32>,
    next: Vec<u32>,
    /// The hash of each clause that was entered, so that few others of its chain are looked at.
    hashes: Vec<u32>,
}

impl Index {
    /// Room for this many clauses.
    pub(crate) fn new(alloc: Global, clauses: usize) -> Result<Index, AllocError> {
        Ok(Index {
            heads: vec![in alloc; 0; clauses]?,
            next: vec![in alloc; 0; clauses]?,
            hashes: vec![in alloc; 0; clauses]?,
        })
    }

    /// How many clauses it has room for.
    pub(crate) fn len(&self) -> usize {
        self.next.len()
    }

    /// The chain of a hash.
    fn chain(&self, hash: u32) -> usize {
        let count = self.heads.len();
        if count == 0 { 0 } else { hash as usize % count }
    }

    /// Enters the first clauses, as many as there is room for.
    pub(crate) fn fill(&mut self, pool: &Pool, values: &[Option<bool>]) {
        'heads: for head in self.heads.iter_mut() {
            *head = 0;
        }
        let count = pool.len().min(self.next.len());
        'clauses: for id in 0..count {
            if let Some(set) = Set::of(values, pool.clause(id)) {
                self.enter(&set, id);
            }
        }
    }

    /// Enters a clause over this set.
    fn enter(&mut self, set: &Set, id: usize) {
        let hash = set.hash();
        let chain = self.chain(hash);
        if chain < self.heads.len()
            && id < self.next.len()
            && id < self.hashes.len()
            && id < u32::MAX as usize
        {
            self.hashes[id] = hash;
            self.next[id] = self.heads[chain];
            self.heads[chain] = id as u32 + 1;
        }
    }

    /// Notes the clauses whose open variables are as many as this part of a set has, and all in that set.
    pub(crate) fn gather(
        &self,
        pool: &Pool,
        values: &[Option<bool>],
        part: &Set,
        whole: &Set,
        found: &mut Found,
    ) {
        let hash = part.hash();
        let chain = self.chain(hash);
        let mut at = if chain < self.heads.len() {
            self.heads[chain]
        } else {
            0
        };
        'chain: for _ in 0..PATIENCE {
            let id = at as usize;
            if id == 0 || id > self.next.len() || id > self.hashes.len() || id > pool.len() {
                return;
            }
            if self.hashes[id - 1] == hash {
                if let Some(set) = Set::of(values, pool.clause(id - 1)) {
                    if set.count == part.count && whole.contains(&set) {
                        found.push(id as u32 - 1, whole.count.saturating_sub(part.count));
                    }
                }
            }
            at = self.next[id - 1];
        }
    }
}

/// The most clauses that are noted.
const ROOM: usize = 48;

/// Clauses that were noted.
#[derive(Drop)]
pub(crate) struct Found {
    ids: [u32; ROOM],
    count: usize,
    /// How many assignments these forbid together, if none is forbidden twice.
    weight: usize,
    ghost within: { count ≤ 48 },
}

impl Found {
    /// No clauses.
    pub(crate) fn empty() -> Found {
        Found {
            ids: [0; ROOM],
            count: 0,
            weight: 0,
        }
    }

    /// Notes a clause if there is room, which leaves this many variables free.
    fn push(&mut self, id: u32, free: usize) {
        if self.count < ROOM && free < LARGEST {
            self.ids[self.count] = id;
            self.count += 1;
            self.weight = self.weight.saturating_add(1 << free);
        }
    }

    /// The clauses.
    pub(crate) fn ids(&self) -> &[u32] {
        &self.ids[..self.count]
    }

    /// How many there are.
    pub(crate) fn len(&self) -> usize {
        self.count
    }

    /// The first clause.
    pub(crate) fn first(&self) -> Option<usize> {
        if self.count > 0 {
            Some(self.ids[0] as usize)
        } else {
            None
        }
    }
}

/// The clauses that may leave the set of this clause one parity, if it is the first of that set and there are enough.
pub(crate) fn candidates(
    index: &Index,
    pool: &Pool,
    values: &[Option<bool>],
    id: usize,
    set: &Set,
) -> Option<Found> {
    let mut found = Found::empty();
    index.gather(pool, values, set, set, &mut found);
    let wanted = match set.len() {
        2 => 2,
        3 => 1,
        4 => 4,
        _ => 8,
    };
    if found.len() < wanted || found.first() != Some(id) {
        return None;
    }
    let all = (1u32 << set.len()) - 1;
    'parts: for places in 3..all {
        let part = set.part(places);
        if part.len() >= 2 {
            index.gather(pool, values, &part, set, &mut found);
        }
    }
    if found.weight > all as usize / 2 {
        Some(found)
    } else {
        None
    }
}
