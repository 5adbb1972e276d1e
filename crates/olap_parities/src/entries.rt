// Literals of some clauses, put into sets of which at most one literal is to be true.
ghost use Rattle.std.specs.Prelude.{◌≡◌, ℕ, ◌<◌, Bool, true, false, All, Contains};
ghost use Rattle.olap_pool.specs.Literals.{Holds, Satisfies};
ghost use Rattle.olap_pool.specs.Pools.{AreTrue};
ghost use Rattle.olap_parities.specs.Known.{Knows};
ghost use Rattle.olap_parities.specs.declared.entries.Entry.{Entry};
ghost use Rattle.olap_parities.specs.Entries.{Covers, IsApart, IsAlone, AreAlone};

use crate::grouping::Grouping;
use crate::values::{is_false, learn};
use olap_pool::{Lit, Pool};

/// A literal of a clause that was chosen.
#[derive(Clone, Copy)]
pub(crate) struct Entry {
    pub(crate) lit: Lit,
    /// Which of the clauses it is of.
    pub(crate) row: usize,
    /// In which set it was put.
    pub(crate) set: usize,
}

/// Learns what follows where this literal is true. False: nothing can be said.
pub(crate) fn assume(
    pool: &Pool,
    values: &[Option<bool>],
    lit: Lit,
    trial: &mut [Option<bool>],
) -> bool
    ensures { result ≡ true → (v : ℕ → Bool) → AreTrue v pool.now → Knows values.now v → Holds v lit
        → Knows trial.new v }
{
    let x = lit.variable as usize;
    if trial.len() != values.len() || x >= trial.len() {
        return false;
    }
    trial.copy_from_slice(values);
    trial[x] = Some(lit.positive);
    learn(trial, pool);
    true
}

/// Whether the other literal may be true, and is in this one's set and not of its row.
fn may_clash(entry: Entry, other: Entry, trial: &[Option<bool>]) -> bool
    ensures { result ≡ false → (v : ℕ → Bool) → Knows trial.now v → IsApart v entry other }
{
    other.row != entry.row && other.set == entry.set && !is_false(trial, other.lit)
}

/// Whether no literal may clash with this one.
fn is_apart(entries: &[Entry], entry: Entry, trial: &[Option<bool>]) -> bool
    ensures { result ≡ true → (v : ℕ → Bool) → Knows trial.now v → All (IsApart v entry) entries.now }
{
    'entries: for k in 0..entries.len() {
        let other = entries[k];
        if may_clash(entry, other, trial) {
            return false;
        }
    }
    true
}

/// Whether a literal is of one of this many sets, and alone in it where it is true.
fn is_alone(
    pool: &Pool,
    values: &[Option<bool>],
    entries: &[Entry],
    entry: Entry,
    sets: usize,
    trial: &mut [Option<bool>],
) -> bool
    ensures { result ≡ true → (v : ℕ → Bool) → AreTrue v pool.now → Knows values.now v
        → IsAlone v sets entries.now entry }
{
    if entry.set >= sets {
        return false;
    }
    if !assume(pool, values, entry.lit, trial) {
        return false;
    }
    is_apart(entries, entry, trial)
}

/// Whether there are only this many sets, and each literal is alone in its own.
pub(crate) fn are_alone(
    pool: &Pool,
    values: &[Option<bool>],
    entries: &[Entry],
    sets: usize,
    trial: &mut [Option<bool>],
) -> bool
    ensures { result ≡ true → (v : ℕ → Bool) → AreTrue v pool.now → Knows values.now v
        → AreAlone v sets entries.now }
{
    'entries: for k in 0..entries.len() {
        let entry = entries[k];
        if !is_alone(pool, values, entries, entry, sets, trial) {
            return false;
        }
    }
    true
}

/// Enters a literal. False: there is no room.
fn enter_one(entries: &mut Vec<Entry>, entry: Entry) -> bool
    ensures kept { (e : Entry) → Contains entries.old.items e → Contains entries.new.items e }
    ensures entered { result ≡ true → Contains entries.new.items entry }
{
    entries.len() < entries.capacity() && entries.push(entry).is_ok()
}

/// Enters a literal that isn't known false. False: there is no room.
fn enter_literal(
    values: &[Option<bool>],
    lit: Lit,
    row: usize,
    grouping: &Grouping,
    entries: &mut Vec<Entry>,
) -> bool
    ensures covered { result ≡ true → (v : ℕ → Bool) → Knows values.now v → Holds v lit
        → Covers v entries.new.items row }
    ensures kept { (e : Entry) → Contains entries.old.items e → Contains entries.new.items e }
{
    if is_false(values, lit) {
        return true;
    }
    let set = grouping.set(entries, row);
    enter_one(entries, Entry { lit, row, set })
}

/// Enters the literals of a clause. False: there is no room.
fn enter(
    values: &[Option<bool>],
    clause: &[Lit],
    row: usize,
    grouping: &Grouping,
    entries: &mut Vec<Entry>,
) -> bool
    ensures covered { result ≡ true → (v : ℕ → Bool) → Knows values.now v → Satisfies v clause.now
        → Covers v entries.new.items row }
    ensures kept { (e : Entry) → Contains entries.old.items e → Contains entries.new.items e }
{
    'lits: for k in 0..clause.len() {
        let lit = clause[k];
        if !enter_literal(values, lit, row, grouping, entries) {
            return false;
        }
    }
    true
}

/// Enters the literals of these clauses, and returns how many clauses there are, or 0 if there is no room.
pub(crate) fn enter_all(
    pool: &Pool,
    values: &[Option<bool>],
    ids: &[u32],
    grouping: &Grouping,
    entries: &mut Vec<Entry>,
) -> usize
    ensures { (v : ℕ → Bool) → AreTrue v pool.now → Knows values.now v → (row : ℕ) → row < result
        → Covers v entries.new.items row }
{
    entries.clear();
    'ids: for k in 0..ids.len() {
        let id = ids[k] as usize;
        if id >= pool.len() || !enter(values, pool.clause(id), k, grouping, entries) {
            return 0;
        }
    }
    ids.len()
}
