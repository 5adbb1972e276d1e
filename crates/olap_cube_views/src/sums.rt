// Rows of which some may be of one tuple, and the same rows joined.
ghost use Rattle.std.specs.Prelude.{◌≡◌, ◌+◌, ◌<◌, ◌≤◌, ◌++◌, ◌∷◌, ℕ, [], List as Items, OnErr, OnOk, length, take};
ghost use Rattle.std.specs.List.Sorted.{IsSortedByKey, IsStrictlySortedBy};
ghost use Rattle.std.specs.Map.{keys_of};
ghost use Rattle.olap_base.specs.Limits.{most_count};
ghost use Rattle.olap_base.specs.Summaries.{joined as joined_summary, of_value};
ghost use Rattle.olap_view.specs.Bounds.{IsJoinable};
ghost use Rattle.olap_view.specs.Seen.{summary_of};
ghost use Rattle.olap_cube_views.specs.CubeTallies.{IsWithin, entries_of, key_cmp, summary_at};
ghost use Rattle.olap_cube_views.specs.Seen.{entry_of};

use crate::{CubeRow, Members};
use olap_base::Memory;
use olap_view::Summary;
use std::alloc::Global;

/// How many rows are gathered before those of one tuple are joined for the first time.
const LOT: usize = 65_536;

/// The row of one value.
fn row(members: Members, value: i64) -> CubeRow
    ensures { entry_of result ≡ (members.places, of_value value) }
{
    CubeRow {
        members,
        summary: Summary::of_value(value),
    }
}

/// The row of two of one tuple.
fn joined(row: CubeRow, other: CubeRow) -> CubeRow
    requires this { IsJoinable (summary_of row.summary) }
    requires that { IsJoinable (summary_of other.summary) }
    ensures { entry_of result
        ≡ (row.members.places, joined_summary (summary_of row.summary) (summary_of other.summary)) }
{
    CubeRow {
        members: row.members,
        summary: row.summary.joined(other.summary),
    }
}

/// Joins the rows of one tuple, which stand side by side, and puts the joined ones in front. How many those are.
fn join_neighbours(rows: &mut [CubeRow]) -> usize
    requires some { 0 < length rows.old }
    requires within { IsWithin most_count (entries_of rows.old) }
    requires sorted { IsSortedByKey (λ r. r.members.places) key_cmp rows.old }
    ensures count { result ≤ length rows.old }
    ensures size { length rows.new ≡ length rows.old }
    ensures same { (q : Items ℕ)
        → summary_at (entries_of (take result rows.new)) q ≡ summary_at (entries_of rows.old) q }
    ensures within { (n : ℕ) → IsWithin n (entries_of rows.old)
        → IsWithin n (entries_of (take result rows.new)) }
    ensures order { IsStrictlySortedBy key_cmp (keys_of (entries_of (take result rows.new))) }
{
    let mut last = 0;
    'rows: for next in 1..rows.len() {
        let row = rows[next];
        if rows[last].members.places == row.members.places {
            rows[last] = joined(rows[last], row);
        } else {
            last += 1;
            rows[last] = row;
        }
    }
    last + 1
}

/// Joins the rows of one tuple, and puts the rows in order of their tuples.
pub(crate) fn join_rows(rows: &mut Vec<CubeRow>)
    requires { IsWithin most_count (entries_of rows.old.items) }
    ensures same { (q : Items ℕ)
        → summary_at (entries_of rows.new.items) q ≡ summary_at (entries_of rows.old.items) q }
    ensures within { (n : ℕ) → IsWithin n (entries_of rows.old.items)
        → IsWithin n (entries_of rows.new.items) }
    ensures order { IsStrictlySortedBy key_cmp (keys_of (entries_of rows.new.items)) }
{
    if !rows.is_empty() {
        rows.sort_unstable_by_key(
            |row|
                ensures { result ≡ row.now.members.places }
            { row.members.places },
        );
        let count = join_neighbours(rows.as_mut_slice());
        rows.truncate(count);
    }
}

/// Rows that are gathered. Those of one tuple are joined when they have doubled, so that memory goes by tuples; or when
/// they are four times as many, if few were of one tuple the last time: rows of many tuples are sorted in vain.
#[derive(Drop)]
pub(crate) struct Sums {
    pub(crate) rows: Vec<CubeRow>,
    // How many rows there are when they are joined next.
    most: usize,
}

impl Sums {
    /// No row.
    pub(crate) fn new(alloc: Global) -> Sums
        ensures { result.rows.items ≡ [] }
    {
        Sums {
            rows: Vec::new(alloc),
            most: LOT,
        }
    }

    /// Joins the rows of one tuple where it is time.
    fn make_room(&mut self)
        requires { IsWithin most_count (entries_of self.old.rows.items) }
        ensures same { (q : Items ℕ) → summary_at (entries_of self.new.rows.items) q
            ≡ summary_at (entries_of self.old.rows.items) q }
        ensures within { (n : ℕ) → IsWithin n (entries_of self.old.rows.items)
            → IsWithin n (entries_of self.new.rows.items) }
    {
        let before = self.rows.len();
        if before >= self.most {
            join_rows(&mut self.rows);
            let count = self.rows.len();
            let more = if count > before / 4 * 3 { 3 } else { 1 };
            self.most = count.saturating_add(count.max(LOT).saturating_mul(more));
        }
    }

    /// Adds the row of one value.
    pub(crate) fn add(&mut self, members: Members, value: i64) -> Result<(), Memory>
        requires { IsWithin most_count (entries_of self.old.rows.items) }
        ensures ok { OnOk result ((q : Items ℕ) → summary_at (entries_of self.new.rows.items) q
            ≡ summary_at (entries_of self.old.rows.items ++ (members.places, of_value value) ∷ []) q) }
        ensures within { OnOk result ((n : ℕ) → IsWithin n (entries_of self.old.rows.items)
            → IsWithin (n + 1) (entries_of self.new.rows.items)) }
        ensures err { OnErr result ((q : Items ℕ) → summary_at (entries_of self.new.rows.items) q
            ≡ summary_at (entries_of self.old.rows.items) q) }
        ensures left { OnErr result ((n : ℕ) → IsWithin n (entries_of self.old.rows.items)
            → IsWithin n (entries_of self.new.rows.items)) }
    {
        self.make_room();
        self.rows.push(row(members, value))?;
        Ok(())
    }
}
