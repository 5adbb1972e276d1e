// The lines that tell of the made input.
ghost use Rattle.std.specs.Prelude.{◌≡◌, ◌++◌, ◌<◌, ◌≤◌, ◌^◌, All, IfOk, codes, decimal, length, string_bytes, sum_by};
ghost use Rattle.std.specs.Fmt.{signed_decimal};
ghost use Rattle.olap_base.specs.Limits.{most_members, most_views};
ghost use Rattle.olap_view.specs.Seen.{rows_of, views_of};
ghost use Rattle.olap_view.specs.Stores.{IsStored};
ghost use Rattle.olap_generate.specs.Generated.{counted, row_count, sum_of_rows};

use olap_base::Memory;
use olap_view::{Row, Store};
use std::alloc::Global;

/// How many rows stored views have together.
fn row_count(store: &Store) -> u64
    requires { length store.now.views ≤ most_views }
    ensures { result ≡ row_count (views_of store.now) }
{
    let mut count = 0;
    'views: for view in store.views.items() {
        let rows = view.rows.items().len();
        count += rows as u64;
    }
    count
}

/// The total of the rows' counts.
fn count(rows: &[Row]) -> u64
    requires fit { All IsStored (rows_of rows.now) }
    requires few { length rows.now ≤ most_members }
    ensures { result ≡ sum_by (λ r. r.summary.count) (rows_of rows.now) }
{
    let mut count = 0;
    'rows: for row in rows {
        count += row.count;
    }
    count
}

/// The total of the rows' sums.
fn sum(rows: &[Row]) -> i128
    requires fit { All IsStored (rows_of rows.now) }
    requires few { length rows.now ≤ most_members }
    ensures { result ≡ sum_of_rows (rows_of rows.now) }
{
    let mut sum = 0;
    'rows: for row in rows {
        sum += row.sum;
    }
    sum
}

/// The lines before the plan's: the members without `all`, the facts, and the rows of the stored views.
pub(crate) fn input_lines(
    alloc: Global,
    members: u32,
    facts: u32,
    store: &Store,
) -> Result<String, Memory>
    requires { length store.now.views ≤ most_views }
    ensures { IfOk result (λ text. string_bytes text ≡ counted (codes "members") (decimal members)
        ++ counted (codes "facts") (decimal facts)
        ++ counted (codes "stored") (decimal (row_count (views_of store.now)))) }
{
    let stored = row_count(store);
    Ok(format!(in alloc; "members {members}\nfacts {facts}\nstored {stored}\n")?)
}

/// The lines after the plan's: the rows of its view, and the totals of their counts and sums.
pub(crate) fn view_lines(alloc: Global, rows: &[Row]) -> Result<String, Memory>
    requires fit { All IsStored (rows_of rows.now) }
    requires few { length rows.now ≤ most_members }
    ensures { IfOk result (λ text. string_bytes text ≡ counted (codes "rows") (decimal (length rows.now))
        ++ counted (codes "count") (decimal (sum_by (λ r. r.summary.count) (rows_of rows.now)))
        ++ counted (codes "sum") (signed_decimal (sum_of_rows (rows_of rows.now)))) }
{
    let count = count(rows);
    let sum = sum(rows);
    Ok(format!(in alloc; "rows {}\ncount {count}\nsum {sum}\n", rows.len())?)
}
