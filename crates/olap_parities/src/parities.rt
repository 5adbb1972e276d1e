// Parities that stand in clauses, added up.
ghost use Rattle.std.specs.Prelude.{◌≡◌, ℕ, Bool, true, false, vec_len, IfSome};
ghost use Rattle.olap_pool.specs.Pools.{AreTrue};
ghost use Rattle.olap_parities.specs.Known.{Knows};
ghost use Rattle.olap_parities.specs.Sums.{xor, sum_over};
ghost use Rattle.olap_parities.specs.Sets.{variables_of};
ghost use Rattle.olap_parities.specs.Columns.{AreZero, part_value, row_value};

use crate::columns::Columns;
use crate::eliminating::eliminate;
use crate::finding::parity;
use crate::rows::Row;
use crate::sets::{Index, Set, candidates};
use crate::values::{forget, learn};
use olap_pool::{Lit, Pool};
use std::alloc::{AllocError, Global};

/// The words of a row.
const WORDS: usize = 64;

/// The most variables that have a column; the first column stands for what is true.
const COLUMNS: usize = 64 * WORDS - 1;

/// The most rows.
const ROWS: usize = 5000;

/// The most variables, and the most clauses, of a pool; from a larger one nothing is derived.
const LARGEST: usize = 150_000;

/// The most sums of rows that are made each way.
const PATIENCE: usize = 4_000_000;

/// The parity of a set of variables.
#[derive(Clone, Copy)]
struct Parity {
    set: Set,
    odd: bool,
}

/// The parity of the variables of a clause, if this and other clauses leave them only one.
fn parity_of(index: &Index, pool: &Pool, values: &mut [Option<bool>], id: usize) -> Option<Parity>
    ensures right { IfSome result (λ p. (v : ℕ → Bool) → AreTrue v pool.now → Knows values.old v
        → sum_over v (variables_of p.set) ≡ p.odd) }
    ensures same { values.new ≡ values.old }
{
    if id >= pool.len() {
        return None;
    }
    let set = Set::of(values, pool.clause(id))?;
    let found = candidates(index, pool, values, id, &set)?;
    let odd = parity(pool, found.ids(), values, set.variables())?;
    Some(Parity { set, odd })
}

/// Keeps a row if there is room.
fn keep_row(rows: &mut Vec<Row<WORDS>>, row: Row<WORDS>)
    ensures { (v : ℕ → Bool) (columns : Columns) → AreZero v columns rows.old.items → row_value v columns row ≡ false
        → AreZero v columns rows.new.items }
{
    if rows.len() < rows.capacity() {
        let _ = rows.push(row);
    }
}

/// Writes the row of a clause's variables, if this and other clauses leave them one parity, and there is room.
fn write_row(
    index: &Index,
    id: usize,
    columns: &Columns,
    pool: &Pool,
    values: &mut [Option<bool>],
    rows: &mut Vec<Row<WORDS>>,
)
    ensures zero { (v : ℕ → Bool) → AreTrue v pool.now → Knows values.old v → AreZero v columns.now rows.old.items
        → AreZero v columns.now rows.new.items }
    ensures same { values.new ≡ values.old }
{
    if let Some(parity) = parity_of(index, pool, values, id) {
        if let Some(row) = columns.row(parity.set.variables(), parity.odd) {
            keep_row(rows, row);
        }
    }
}

/// Writes the rows of these clauses.
fn write_rows(
    index: &Index,
    leaders: &[u32],
    columns: &Columns,
    pool: &Pool,
    values: &mut [Option<bool>],
    rows: &mut Vec<Row<WORDS>>,
)
    ensures { (v : ℕ → Bool) → AreTrue v pool.now → Knows values.old v → AreZero v columns.now rows.new.items }
{
    rows.clear();
    'leaders: for k in 0..leaders.len() {
        write_row(index, leaders[k] as usize, columns, pool, values, rows);
    }
}

/// Notes a clause and its variables, if this and other clauses leave them one parity, and there is room.
fn note(
    index: &Index,
    id: usize,
    pool: &Pool,
    values: &mut [Option<bool>],
    leaders: &mut Vec<u32>,
    columns: &mut Columns,
)
    ensures { values.new ≡ values.old }
{
    if let Some(parity) = parity_of(index, pool, values, id) {
        if leaders.len() < leaders.capacity() && id <= u32::MAX as usize {
            let _ = leaders.push(id as u32);
            columns.mark(parity.set.variables());
        }
    }
}

/// Notes the clauses whose variables have one parity, and gives these columns.
fn note_all(
    index: &Index,
    pool: &Pool,
    values: &mut [Option<bool>],
    leaders: &mut Vec<u32>,
    columns: &mut Columns,
)
    ensures { values.new ≡ values.old }
{
    leaders.clear();
    columns.clear();
    'clauses: for id in 0..index.len() {
        note(index, id, pool, values, leaders, columns);
    }
    columns.number();
}

/// Keeps that a variable has this value.
fn keep_fact(into: &mut Pool, variable: u32, positive: bool)
    ensures { (v : ℕ → Bool) → v variable ≡ positive → AreTrue v into.old → AreTrue v into.new }
{
    into.keep_if(true, &[Lit { variable, positive }], 0);
}

/// Keeps that two variables have this sum.
fn keep_pair(into: &mut Pool, x: u32, y: u32, odd: bool)
    ensures { (v : ℕ → Bool) → xor (v x) (v y) ≡ odd → AreTrue v into.old → AreTrue v into.new }
{
    let is_x = Lit {
        variable: x,
        positive: true,
    };
    let is_y = Lit {
        variable: y,
        positive: odd,
    };
    into.keep_if(true, &[is_x, is_y], 0);
    into.keep_if(true, &[is_x.negated(), is_y.negated()], 0);
}

/// Keeps what the sum of two variables says, either of which may be missing. False: it is the sum of none, and odd.
fn keep_sum(into: &mut Pool, first: Option<u32>, second: Option<u32>, odd: bool) -> bool
    ensures none { result ≡ false → (v : ℕ → Bool) → xor (part_value v first) (part_value v second) ≡ odd → ⊥ }
    ensures kept { (v : ℕ → Bool) → xor (part_value v first) (part_value v second) ≡ odd → AreTrue v into.old
        → AreTrue v into.new }
{
    match (first, second) {
        (Some(x), Some(y)) => {
            keep_pair(into, x, y, odd);
            true
        }
        (Some(x), None) => {
            keep_fact(into, x, odd);
            true
        }
        (None, Some(y)) => {
            keep_fact(into, y, odd);
            true
        }
        (None, None) => !odd,
    }
}

/// Hands out what a row says, if it has two variables at most. False: no valuation makes it add up to nothing.
fn hand_out(columns: &Columns, row: &Row<WORDS>, into: &mut Pool) -> bool
    ensures none { result ≡ false → (v : ℕ → Bool) → row_value v columns.now row.now ≡ false → ⊥ }
    ensures kept { (v : ℕ → Bool) → row_value v columns.now row.now ≡ false → AreTrue v into.old
        → AreTrue v into.new }
{
    let mut rest = *row;
    let odd = rest.take_truth();
    let first = columns.take_out(&mut rest);
    let second = columns.take_out(&mut rest);
    if rest.is_empty() {
        keep_sum(into, first, second, odd)
    } else {
        true
    }
}

/// Hands out what the rows with two variables at most say. False: no valuation makes all of them add up to nothing.
fn hand_out_all(columns: &Columns, rows: &[Row<WORDS>], into: &mut Pool) -> bool
    ensures none { result ≡ false → (v : ℕ → Bool) → AreZero v columns.now rows.now → ⊥ }
    ensures kept { (v : ℕ → Bool) → AreZero v columns.now rows.now → AreTrue v into.old → AreTrue v into.new }
{
    'rows: for k in 0..rows.len() {
        if !hand_out(columns, &rows[k], into) {
            return false;
        }
    }
    true
}

/// Writes the rows of the parities that stand in the clauses.
fn read(
    index: &Index,
    pool: &Pool,
    values: &mut [Option<bool>],
    leaders: &mut Vec<u32>,
    columns: &mut Columns,
    rows: &mut Vec<Row<WORDS>>,
)
    ensures { (v : ℕ → Bool) → AreTrue v pool.now → Knows values.old v → AreZero v columns.new rows.new.items }
{
    note_all(index, pool, values, leaders, columns);
    write_rows(index, leaders, columns, pool, values, rows);
}

/// Eliminates either way, and hands out what the rows with two variables at most say. False: no valuation makes all
/// rows add up to nothing.
fn reduce(columns: &Columns, rows: &mut [Row<WORDS>], pivots: &mut [bool], into: &mut Pool) -> bool
    ensures none { result ≡ false → (v : ℕ → Bool) → AreZero v columns.now rows.old → ⊥ }
    ensures kept { (v : ℕ → Bool) → AreZero v columns.now rows.old → AreTrue v into.old → AreTrue v into.new }
{
    eliminate(rows, pivots, columns.len(), false, PATIENCE);
    if !hand_out_all(columns, rows, into) {
        return false;
    }
    eliminate(rows, pivots, columns.len(), true, PATIENCE);
    hand_out_all(columns, rows, into)
}

/// Room for the parities of a pool.
#[derive(Drop)]
pub struct Parities {
    values: Vec<Option<bool>>,
    columns: Columns,
    index: Index,
    /// The clauses whose variables have one parity.
    leaders: Vec<u32>,
    rows: Vec<Row<WORDS>>,
    pivots: Vec<bool>,
}

impl Parities {
    /// Room for the parities of a pool with this many variables: at most some 5 MB, and hardly any for a pool of more
    /// than 150,000 variables or clauses, from which nothing is derived. No later call takes memory.
    pub fn new(alloc: Global, variables: u32, pool: &Pool) -> Result<Parities, AllocError> {
        let is_large = variables as usize > LARGEST || pool.len() > LARGEST;
        let variables = if is_large { 0 } else { variables as usize };
        let clauses = if is_large { 0 } else { pool.len() };
        Ok(Parities {
            values: vec![in alloc; None; variables]?,
            columns: Columns::new(alloc, variables, variables.min(COLUMNS))?,
            index: Index::new(alloc, clauses)?,
            leaders: Vec::with_capacity(alloc, clauses.min(ROWS))?,
            rows: Vec::with_capacity(alloc, clauses.min(ROWS))?,
            pivots: vec![in alloc; false; clauses.min(ROWS)]?,
        })
    }

    /// Learns what is known with no parity.
    fn learn(&mut self, pool: &Pool)
        ensures { (v : ℕ → Bool) → AreTrue v pool.now → Knows self.new.values.items v }
    {
        forget(&mut self.values);
        learn(&mut self.values, pool);
    }

    /// Adds what follows from the parities that the clauses contain: variables that have one value, and pairs that are
    /// the same or each other's negation, as clauses of one literal and of two, as far as there is room. False: no
    /// valuation makes all clauses true. Only the first clauses are looked at, as many as the pool had when the room
    /// was taken.
    pub fn derive(&mut self, pool: &Pool, into: &mut Pool) -> bool
        ensures none { result ≡ false → (v : ℕ → Bool) → AreTrue v pool.now → ⊥ }
        ensures kept { (v : ℕ → Bool) → AreTrue v pool.now → AreTrue v into.old → AreTrue v into.new }
    {
        self.learn(pool);
        self.index.fill(pool, &self.values);
        read(
            &self.index,
            pool,
            &mut self.values,
            &mut self.leaders,
            &mut self.columns,
            &mut self.rows,
        );
        reduce(&self.columns, &mut self.rows, &mut self.pivots, into)
    }
}
