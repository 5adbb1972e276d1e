// What is learned from a false clause, and which clauses are kept.
ghost use Rattle.std.specs.Prelude.{ℕ, ◌<◌, ◌≤◌, Bool, length, vec_capacity, IfOk};
ghost use Rattle.olap_clauses.specs.Trails.{values_of};
ghost use Rattle.olap_pool.specs.Pools.{AreTrue, clause_count};
ghost use Rattle.olap_clauses.specs.Admits.{Admits};

use crate::analysing::analyse;
use crate::scoring::Scores;
use crate::trails::Trail;
use crate::watching::Watches;
use olap_pool::{Lit, Pool};
use std::alloc::{AllocError, Global};

/// A clause whose literals stood on this many levels of decisions is kept no longer than others.
const MANY: u32 = 64;

/// What a search writes into.
#[derive(Drop)]
pub(crate) struct Notes {
    pub(crate) watches: Watches,
    /// Which variables are marked.
    seen: Vec<bool>,
    /// The clause that is being written.
    pub(crate) work: Vec<Lit>,
    pub(crate) scores: Scores,
}

impl Notes {
    /// For this many variables, this many clauses that are given, and this many more.
    pub(crate) fn new(
        alloc: Global,
        variables: u32,
        given: usize,
        more: u32,
    ) -> Result<Notes, AllocError>
        ensures room { IfOk result (λ notes. variables ≤ vec_capacity notes.work) }
    {
        Ok(Notes {
            watches: Watches::new(alloc, variables, given, more)?,
            seen: vec![in alloc; false; variables as usize]?,
            work: Vec::with_capacity(alloc, variables as usize)?,
            scores: Scores::new(alloc, variables)?,
        })
    }
}

/// Whether the second clause says as much as the first: it is no longer, and has no other literals.
fn says_as_much(clause: &[Lit], known: &[Lit]) -> bool {
    known.len() <= clause.len()
        && known
            .iter()
            .all(|lit| clause.iter().any(|other| lit == other))
}

/// Whether a decision stands between the two places.
fn has_decision(trail: &Trail, from: usize, to: usize) -> bool {
    'places: for place in from..to.min(trail.len()) {
        if trail.step(place).is_decision() {
            return true;
        }
    }
    false
}

/// On how many levels of decisions the literals stand, which are in the order of the trail.
fn levels_of(trail: &Trail, clause: &[Lit]) -> u32 {
    let mut levels: u32 = 0;
    let mut from = 0;
    'lits: for lit in clause {
        let to = trail.place(lit.variable).saturating_add(1);
        if has_decision(trail, from, to) {
            levels = levels.saturating_add(1);
        }
        from = to;
    }
    levels
}

/// Learns from a false clause, if it can, and returns the number of what it learned. That is its own, where it said
/// as much already, as where decisions alone made it false: else the room would fill with copies.
pub(crate) fn learn(trail: &Trail, pool: &mut Pool, notes: &mut Notes, id: usize) -> Option<usize>
    requires id { id < clause_count pool.old }
    requires room { length (values_of trail.now) ≤ vec_capacity notes.old.work }
    ensures kept { (v : ℕ → Bool) → Admits v pool.old trail.now → Admits v pool.new trail.now }
    ensures room { vec_capacity notes.old.work ≤ vec_capacity notes.new.work }
{
    let right = analyse(
        trail,
        pool,
        id,
        &mut notes.seen,
        &mut notes.work,
        &mut notes.scores,
    );
    if !right {
        return None;
    }
    if says_as_much(&notes.work, pool.clause(id)) {
        return Some(id);
    }
    let new = pool.len();
    if !pool.keep(&notes.work, levels_of(trail, &notes.work)) {
        return None;
    }
    notes.watches.enter(new, &notes.work);
    Some(new)
}

/// How many clauses between the two places have literals on at most this many levels.
fn count_worthy(pool: &Pool, given: usize, newest: usize, most: u32) -> usize {
    let mut count: usize = 0;
    'clauses: for id in 0..pool.len() {
        if given <= id && id < newest && pool.levels(id) <= most {
            count = count.saturating_add(1);
        }
    }
    count
}

/// The most levels of the clauses between the two places of which no more than that are kept; one at least, since most
/// that such a clause says stays needed.
fn levels_enough(pool: &Pool, given: usize, newest: usize, wanted: usize) -> u32 {
    'levels: for most in 1..MANY {
        if count_worthy(pool, given, newest, most + 1) > wanted {
            return most;
        }
    }
    MANY
}

/// Copies the clauses before the first place, the later half of those from the second on, and about as many of the
/// others: those whose literals stood on the fewest levels.
pub(crate) fn copy_some(pool: &Pool, to: &mut Pool, given: usize, newer: usize)
    ensures { (v : ℕ → Bool) → AreTrue v pool.now → AreTrue v to.new }
{
    let kept = pool.len().saturating_sub(newer) / 2;
    let newest = pool.len() - kept;
    let most = levels_enough(pool, given, newest, kept);
    to.clear();
    'clauses: for id in 0..pool.len() {
        let clause = pool.clause(id);
        let levels = pool.levels(id);
        let wanted = id < given || id >= newest || levels <= most;
        to.keep_if(wanted, clause, levels);
    }
}
