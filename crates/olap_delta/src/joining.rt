// What lots of facts make of the views of a summary table, each at once.
ghost use Rattle.std.specs.Prelude.{◌≡◌, ℕ, ◌<◌, ◌≤◌, All, IfOk, IfSome, IsTrue, List as Items, None, Ok, Some, length, slice_index};
ghost use Rattle.std.specs.Option.{option_map};
ghost use Rattle.olap_base.specs.Limits.{most_count};
ghost use Rattle.olap_base.specs.Views.{Fact as TheFact};
ghost use Rattle.olap_delta.specs.Changing.{AreStorable, IsStorable};
ghost use Rattle.olap_delta.specs.Joining.{AreJoined, HasRoom, IsJoined, IsJoinedIn, IsOnce, less};
ghost use Rattle.olap_delta.specs.Lots.{AreLots, IsLot, StandFor, lots_at};
ghost use Rattle.olap_delta.specs.Taking.{IsStoreAfter};
ghost use Rattle.olap_delta.specs.declared.changes.Change.TheVariants as by;
ghost use Rattle.olap_view.specs.Bounds.{IsOfValues};
ghost use Rattle.olap_view.specs.Seen.{summary_of, views_of};
ghost use Rattle.olap_view.specs.Stores.{Fits, IsInFileOrder, IsStore};
ghost use Rattle.olap_view.specs.Tables.{when};
ghost use Rattle.olap_base.specs.Reaching.{reaches};

use crate::Change;
use crate::lots::{Lot, Lots};
use olap_base::{MOST_COUNT, MOST_SUM, Memory};
use olap_legal::Legal;
use olap_view::{Store, Summary, SummaryTable};
use std::alloc::Global;

/// The greatest magnitude of a value of 64 bits: 2^63.
const MOST_VALUE: i128 = 9_223_372_036_854_775_808;

/// Whether the row's sum stays within `MOST_SUM`, whichever values of 64 bits come or go, up to this many.
fn has_room(row: Summary, values: u64) -> bool
    requires { values ≤ most_count }
    ensures { IsTrue result → HasRoom values (summary_of row) }
{
    let most = MOST_SUM - i128::from(values) * MOST_VALUE;
    -most <= row.sum && row.sum <= most
}

/// The summary of a member's row after the values of a lot came, or none if one of them might be refused.
fn append(there: Option<Summary>, lot: Summary) -> Option<Summary>
    requires there { IfSome (option_map summary_of there) IsStorable }
    requires values { IsOfValues lot.count (summary_of lot) }
    requires few { lot.count ≤ most_count }
    ensures joined { IfSome result (λ s. IsJoined by.Append (option_map summary_of there)
        (Some (summary_of lot)) (Some (summary_of s))) }
    ensures storable { IfSome result (λ s. IsStorable (summary_of s)) }
{
    let Some(row) = there else {
        return Some(lot);
    };
    if row.count + lot.count > MOST_COUNT || !has_room(row, MOST_COUNT - row.count) {
        return None;
    }
    Some(row.joined(lot))
}

/// The row without the values of a lot, none of which is its least or its greatest.
fn without(row: Summary, lot: Summary) -> Summary
    requires row { IsStorable (summary_of row) }
    requires values { IsOfValues lot.count (summary_of lot) }
    requires few { lot.count ≤ row.count }
    ensures { summary_of result ≡ less (summary_of row) (summary_of lot) }
{
    Summary {
        count: row.count - lot.count,
        sum: row.sum - lot.sum,
        least: row.least,
        greatest: row.greatest,
    }
}

/// The summary of a member's row after the values of a lot were withdrawn, or none if one of them might be refused.
fn retract(there: Option<Summary>, lot: Summary) -> Option<Summary>
    requires there { IfSome (option_map summary_of there) IsStorable }
    requires values { IsOfValues lot.count (summary_of lot) }
    requires few { lot.count ≤ most_count }
    ensures joined { IfSome result (λ s. IsJoined by.Retract (option_map summary_of there)
        (Some (summary_of lot)) (Some (summary_of s))) }
    ensures storable { IfSome result (λ s. IsStorable (summary_of s)) }
{
    let Some(row) = there else {
        return None;
    };
    if lot.least <= row.least || row.greatest <= lot.greatest {
        return None;
    }
    if row.count < lot.count + 2 || !has_room(row, row.count) {
        return None;
    }
    Some(without(row, lot))
}

impl Change {
    /// The summary of a member's row after the change by the values of a lot, or none if one of them might be refused.
    fn of_lot(self, there: Option<Summary>, lot: Summary) -> Option<Summary>
        requires there { IfSome (option_map summary_of there) IsStorable }
        requires values { IsOfValues lot.count (summary_of lot) }
        requires few { lot.count ≤ most_count }
        ensures joined { IfSome result (λ s. IsJoined self (option_map summary_of there)
            (Some (summary_of lot)) (Some (summary_of s))) }
        ensures storable { IfSome result (λ s. IsStorable (summary_of s)) }
    {
        match self {
            Change::Append => append(there, lot),
            Change::Retract => retract(there, lot),
        }
    }

    /// Changes what stands at the member of the k-th category that the lot's member reaches, if there is one; or says
    /// that a fact might be refused.
    fn join(self, table: &mut SummaryTable, k: usize, lot: Lot) -> bool
        requires category { k < length table.old.categories }
        requires lot { IsLot most_count (length table.old.instance) lot }
        requires storable { AreStorable table.old }
        ensures instance { table.new.instance ≡ table.old.instance }
        ensures categories { table.new.categories ≡ table.old.categories }
        ensures storable { AreStorable table.new }
        ensures once { IsTrue result
            → IsOnce table.old.instance (slice_index table.old.categories k) lot.member.0 }
        ensures joined { IsTrue result → IsJoinedIn self (slice_index table.old.categories k)
            (λ y. when (reaches table.old.instance lot.member.0 y) (summary_of lot.summary))
            table.old table.new }
    {
        if let Some(y) = table.ancestor(k, lot.member) {
            let Some(summary) = self.of_lot(table.at(y), lot.summary) else {
                return false;
            };
            table.put(y, summary);
        }
        true
    }

    /// The same for each of the lots.
    fn join_in(self, table: &mut SummaryTable, k: usize, lots: &[Lot]) -> bool
        requires category { k < length table.old.categories }
        requires lots { All (IsLot most_count (length table.old.instance)) lots.now }
        requires storable { AreStorable table.old }
        ensures instance { table.new.instance ≡ table.old.instance }
        ensures categories { table.new.categories ≡ table.old.categories }
        ensures storable { AreStorable table.new }
        ensures once { IsTrue result
            → All (λ l. IsOnce table.old.instance (slice_index table.old.categories k) l.member.0)
            lots.now }
        ensures joined { IsTrue result → IsJoinedIn self (slice_index table.old.categories k)
            (lots_at table.old.instance lots.now) table.old table.new }
    {
        'lots: for lot in lots {
            if !self.join(table, k, *lot) {
                return false;
            }
        }
        true
    }

    /// Changes what stands at the members of the categories that the lots' members reach, or says that a fact might be
    /// refused.
    pub(crate) fn join_all(self, table: &mut SummaryTable, lots: &[Lot]) -> bool
        requires lots { All (IsLot most_count (length table.old.instance)) lots.now }
        requires storable { AreStorable table.old }
        ensures instance { table.new.instance ≡ table.old.instance }
        ensures categories { table.new.categories ≡ table.old.categories }
        ensures storable { AreStorable table.new }
        ensures joined { IsTrue result → AreJoined self lots.now table.old table.new }
    {
        'categories: for k in 0..table.categories().len() {
            if !self.join_in(table, k, lots) {
                return false;
            }
        }
        true
    }
}

/// The stored views after the change by the facts that these lots have, or none if one of them might be refused.
pub(crate) fn joined(
    alloc: Global,
    change: Change,
    legal: &Legal,
    store: &Store,
    lots: Lots,
) -> Result<Option<Store>, Memory>
    requires store { IsStore (views_of store.now) }
    requires fit { All Fits (views_of store.now) }
    requires order { All (IsInFileOrder legal.now) (views_of store.now) }
    requires lots { AreLots lots }
    requires size { length lots.places.items ≡ length legal.now }
    requires few { lots.taken ≤ most_count }
    ensures { IfOk result (λ o. IfSome o (λ s. (facts : Items (TheFact ℕ)) → StandFor legal.now facts lots
        → IsStoreAfter change legal.now (views_of store.now) facts (Ok s))) }
{
    let mut table = SummaryTable::of(alloc, legal, store)?;
    if change.join_all(&mut table, &lots.lots) {
        Ok(Some(Store {
            views: table.views()?,
        }))
    } else {
        Ok(None)
    }
}
