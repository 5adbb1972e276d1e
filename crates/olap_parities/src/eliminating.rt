// Elimination: rows are added to others, so that few columns are left in some of them.
ghost use Rattle.std.specs.Prelude.{◌≡◌, ℕ, Bool, false, All};
ghost use Rattle.olap_parities.specs.Rows.{IsZero};

use crate::rows::Row;

/// The first row with this column that is no pivot yet. Nothing is proved about it.
fn next_pivot<const W: usize>(rows: &[Row<W>], pivots: &[bool], column: usize) -> Option<usize> {
    'rows: for k in 0..rows.len() {
        if k < pivots.len() && !pivots[k] && rows[k].has(column) {
            return Some(k);
        }
    }
    None
}

/// Adds this row to each other one with this column, and returns how many there are.
fn add_to_others<const W: usize>(
    rows: &mut [Row<W>],
    row: &Row<W>,
    place: usize,
    column: usize,
) -> usize
    ensures { (w : ℕ → Bool) → IsZero w row.now → All (IsZero w) rows.old → All (IsZero w) rows.new }
{
    let mut count: usize = 0;
    'rows: for k in 0..rows.len() {
        if k != place && rows[k].has(column) {
            rows[k].add(row);
            count = count.saturating_add(1);
        }
    }
    count
}

/// Takes a column out of each row but the pivot, and returns how many there were.
fn clear_column<const W: usize>(rows: &mut [Row<W>], pivot: usize, column: usize) -> usize
    ensures { (w : ℕ → Bool) → All (IsZero w) rows.old → All (IsZero w) rows.new }
{
    if pivot >= rows.len() {
        return 0;
    }
    let row = rows[pivot];
    add_to_others(rows, &row, pivot, column)
}

/// Eliminates the columns from 1 to this one, from the first to the last or from the last to the first, while there is
/// patience for this many sums.
pub(crate) fn eliminate<const W: usize>(
    rows: &mut [Row<W>],
    pivots: &mut [bool],
    columns: usize,
    rising: bool,
    patience: usize,
)
    ensures { (w : ℕ → Bool) → All (IsZero w) rows.old → All (IsZero w) rows.new }
{
    'pivots: for is_pivot in pivots.iter_mut() {
        *is_pivot = false;
    }
    let mut count: usize = 0;
    'columns: for k in 0..columns {
        if count >= patience {
            return;
        }
        let column = if rising { k + 1 } else { columns - k };
        if let Some(pivot) = next_pivot(rows, pivots, column) {
            if pivot < pivots.len() {
                pivots[pivot] = true;
            }
            count = count.saturating_add(clear_column(rows, pivot, column));
        }
    }
}
