// The view of a category, from facts or from stored views.
ghost use Rattle.std.specs.Int.{bit_at};
ghost use Rattle.std.specs.Prelude.{◌≡◌, ℕ, ◌==◌, ◌++◌, ◌<◌, ◌≤◌, ◌*◌, ◌^◌, All, IfOk, List as Items, length};
ghost use Rattle.olap_base.specs.Limits.{most_count, most_members};
ghost use Rattle.olap_base.specs.Views.{Row as TheRow, direct_view, members, rows_from_views};
ghost use Rattle.olap_facts.specs.Seen.{facts_of};
ghost use Rattle.olap_view.specs.Merging.{AreMerged, HoldsRows};
ghost use Rattle.olap_view.specs.Seen.{rows_of, view_of, views_of};
ghost use Rattle.olap_view.specs.Stores.{Fits, IsStore, IsStored, chosen};

use crate::{Row, Store, SummaryTable, Tally, View};
use olap_base::{CatId, Memory};
use olap_facts::Facts;
use olap_legal::Legal;
use std::alloc::Global;

/// The direct view of c: a row for each member of c that some fact's member reaches, in file order, with
/// the count, sum, least and greatest of those facts' values. The view may be stored.
///
/// It takes the memory of a tally, and one look at a table for each fact. `Memory`: out of memory.
pub fn direct(alloc: Global, legal: &Legal, facts: &Facts, c: CatId) -> Result<View, Memory>
    requires at_members { All (λ f. f.member.0 < length legal.now) facts.now.rows }
    requires few { length facts.now.rows ≤ most_count }

    ensures view { IfOk result (λ v. view_of v ≡ direct_view (members legal.now) (facts_of facts.now) c.0) }
    ensures members { IfOk result (λ v. All (λ r. r.member.0 < length legal.now) v.rows) }
    ensures fits { IfOk result (λ v. Fits (view_of v)) }
{
    let mut tally = Tally::new(alloc, legal, &[c])?;
    tally.add_all(facts.rows.items());
    tally.into_view(c)
}

/// Whether the k-th bit is in the mask.
fn has_bit(mask: u16, k: usize) -> bool
    requires { k < 8 }
    ensures { result ≡ (bit_at mask k == 1) }
{
    mask >> k & 1 == 1
}

/// Joins each row to what stands at the members that its member reaches. This many rows may have been joined before.
fn join_rows(table: &mut SummaryTable, rows: &[Row])
    requires at_members { All (λ r. r.member.0 < length table.old.instance) rows.now }
    requires stored { All IsStored (rows_of rows.now) }
    requires short { length rows.now ≤ most_members }
    requires few { HoldsRows (7 * most_members) table.old }
    ensures instance { table.new.instance ≡ table.old.instance }
    ensures categories { table.new.categories ≡ table.old.categories }
    ensures merged { (earlier : Items (TheRow ℕ)) → AreMerged earlier table.old
        → AreMerged (earlier ++ rows_of rows.now) table.new }
{
    'rows: for row in rows {
        table.join(row.member, row.summary());
    }
}

/// The view of c from stored views: a row for each member of c that the member of some row of the views
/// whose bits are in the mask reaches, in file order, with the counts and the sums of those rows added, the
/// least of their leasts and the greatest of their greatests. The i-th view's bit is the i-th.
///
/// It takes the memory of a tally, and one look at a table for each row. `Memory`: out of memory.
pub fn from_views(
    alloc: Global,
    legal: &Legal,
    store: &Store,
    mask: u16,
    c: CatId,
) -> Result<View, Memory>
    requires store { IsStore (views_of store.now) }
    requires fit { All Fits (views_of store.now) }
    requires at_members { All (λ v. All (λ r. r.at < length legal.now) v.rows) (views_of store.now) }
    requires bits { mask < 2 ^ length store.now.views }

    ensures view { IfOk result (λ v. view_of v
        ≡ record { target = c.0; rows = rows_from_views (members legal.now) c.0 (chosen (views_of store.now) mask) }) }
    ensures members { IfOk result (λ v. All (λ r. r.member.0 < length legal.now) v.rows) }
{
    let mut table = SummaryTable::new(alloc, legal, &[c])?;
    'views: for (k, view) in store.views.items().iter().enumerate() {
        if has_bit(mask, k) {
            join_rows(&mut table, view.rows.items());
        }
    }
    table.view(c)
}
