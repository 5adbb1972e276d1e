// Whether a view may be stored.
ghost use Rattle.std.specs.Prelude.{◌≡◌, ◌↔◌, ◌≤◌, ◌≤ℤ◌, ℕ, All, IsTrue, neg_ℤ, pos};
ghost use Rattle.olap_base.specs.Limits.{most_count, most_sum};
ghost use Rattle.olap_view.specs.Seen.{row_of, rows_of, view_of};
ghost use Rattle.olap_view.specs.StoredNumbers.{is_sum};
ghost use Rattle.olap_view.specs.Stores.{Fits, IsStored};

use crate::{Row, Summary, View};
use olap_base::{MOST_COUNT, MOST_SUM};

/// Whether a stored row may have this count.
pub(crate) fn count_fits(count: u64) -> bool
    ensures { IsTrue result ↔ ((1 ≤ count) × (count ≤ most_count)) }
{
    1 <= count && count <= MOST_COUNT
}

/// Whether a stored row may have this sum.
pub(crate) fn sum_fits(sum: i128) -> bool
    ensures value { result ≡ is_sum sum }
    ensures bounds { IsTrue result ↔ ((neg_ℤ (pos most_sum) ≤ℤ sum) × (sum ≤ℤ pos most_sum)) }
{
    -MOST_SUM <= sum && sum <= MOST_SUM
}

impl Summary {
    /// Whether a stored row may have the sum: its magnitude is at most `MOST_SUM`.
    pub fn sum_fits(&self) -> bool
        ensures { result ≡ is_sum self.now.sum }
    {
        sum_fits(self.sum)
    }
}

/// Whether a row is within the bounds of stored rows.
fn row_fits(row: Row) -> bool
    ensures { IsTrue result ↔ IsStored (row_of row) }
{
    count_fits(row.count) && sum_fits(row.sum)
}

/// Whether each row is within those bounds.
fn rows_fit(rows: &[Row]) -> bool
    ensures { IsTrue result ↔ All IsStored (rows_of rows.now) }
{
    'rows: for row in rows {
        if !row_fits(*row) {
            return false;
        }
    }
    true
}

impl View {
    /// Whether the view may be stored: each row has a count from 1 to `MOST_COUNT`, and a sum of magnitude at most
    /// `MOST_SUM`.
    pub fn fits(&self) -> bool
        ensures { IsTrue result ↔ Fits (view_of self.now) }
    {
        rows_fit(self.rows.items())
    }
}
