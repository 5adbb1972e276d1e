// What a record of a text of stored views says, or what is wrong with it.
ghost use Rattle.std.specs.Prelude.{◌≡◌, ◌==◌, ◌∷◌, ◌++◌, ◌<◌, [], ℕ, IfOk, List as Items, MatchResult, None, OnOk, Some, false, length};
ghost use Rattle.std.specs.List.{list_any};
ghost use Rattle.olap_base.specs.Graph.{Graph as TheGraph};
ghost use Rattle.olap_base.specs.Instance.{Instance as TheInstance, category_of};
ghost use Rattle.olap_base.specs.Limits.{most_views};
ghost use Rattle.olap_view.specs.Seen.{ids, summary_of};
ghost use Rattle.olap_view.specs.StoreReading.{IsNew, IsRowFor, Record, Says, Tells};
ghost use Rattle.olap_view.specs.StoredRows.{IsPlaced, stored_at};
ghost use Rattle.olap_view.specs.StoreText.{beginning_fault, begun, category_number, is_beginning as begins, row_fault, store_fault};

use crate::guessing::Guess;
use crate::numbers::summary;
use crate::stored_rows::StoredRows;
use crate::tables::is_among;
use crate::{StoreKind, Summary};
use olap_base::{CatId, MOST_VIEWS, MemberId, Memory};
use olap_graph::Graph;
use olap_instance::Instance;
use olap_records::Rows;

/// What a record without a fault says.
#[derive(Clone, Copy)]
pub(crate) enum Entry {
    /// The view of a category begins.
    Beginning(CatId),
    /// The row of a member has these numbers.
    Row(MemberId, Summary),
}

/// Whether the record that was read last begins a view: nothing stands after the category.
fn is_beginning(rows: &Rows) -> bool
    ensures { result ≡ begins rows.now.row }
{
    'fields: for k in 1..rows.len() {
        if !rows.field(k).is_empty() {
            return false;
        }
    }
    true
}

/// Whether a view of c may begin after those of these categories.
fn beginning(categories: &[CatId], c: CatId) -> Result<(), StoreKind>
    ensures { (g : TheGraph) (earlier : Items Record) → ids categories.now ≡ begun g earlier → MatchResult result
        (λ _. (beginning_fault g earlier c.0 ≡ None) × (list_any (λ d. d == c.0) (begun g earlier) ≡ false)
        × (length (begun g earlier) < most_views))
        (λ k. beginning_fault g earlier c.0 ≡ Some k) }
{
    if is_among(categories, c) {
        return Err(StoreKind::DuplicateView);
    }
    if categories.len() >= MOST_VIEWS {
        return Err(StoreKind::TooManyViews);
    }
    Ok(())
}

/// The member and the numbers of the row that was read last, in the view of c.
fn row(
    instance: &Instance,
    rows: &Rows,
    table: &StoredRows,
    guess: Guess,
    c: CatId,
) -> Result<(MemberId, Summary), StoreKind>
    requires width { length rows.now.row ≡ 6 }
    requires members { length table.now.places.items ≡ length instance.now }
    ensures new { IfOk result
        (λ p. (p.0.0 < length table.now.places.items) × (stored_at table.now p.0.0 ≡ None)) }
    ensures judged { (g : TheGraph) (earlier : Items Record) → Tells g instance.now earlier table.now
        → c.0 ≡ category_number g rows.now.row → begins rows.now.row ≡ false → MatchResult result
        (λ p. (row_fault g instance.now earlier rows.now.row ≡ None)
        × IsRowFor instance.now earlier rows.now.row p.0.0 (summary_of p.1))
        (λ k. row_fault g instance.now earlier rows.now.row ≡ Some k) }
{
    if !is_among(&table.categories, c) {
        return Err(StoreKind::NoView);
    }
    let Some(member) = guess.member(instance, rows.field(1)) else {
        return Err(StoreKind::UnknownMember);
    };
    if instance.category(member).0 != c.0 {
        return Err(StoreKind::WrongCategory);
    }
    let Some(summary) = summary(rows) else {
        return Err(StoreKind::BadNumber);
    };
    if table.at(member).is_some() {
        return Err(StoreKind::DuplicateRow);
    }
    Ok((member, summary))
}

/// What the record that was read last says after those that the table tells, or its first fault.
pub(crate) fn judge(
    graph: &Graph,
    instance: &Instance,
    rows: &Rows,
    table: &StoredRows,
    guess: Guess,
) -> Result<Entry, StoreKind>
    requires { length table.now.places.items ≡ length instance.now }
    ensures new { IfOk result (IsNew table.now) }
    ensures judged { (earlier : Items Record) → Tells graph.now instance.now earlier table.now → MatchResult result
        (λ e. (store_fault graph.now instance.now earlier rows.now.row ≡ None)
        × Says graph.now instance.now earlier rows.now.row e)
        (λ k. store_fault graph.now instance.now earlier rows.now.row ≡ Some k) }
{
    if rows.len() != 6 {
        return Err(StoreKind::FieldCount);
    }
    let Some(c) = guess.category(graph, rows.field(0)) else {
        return Err(StoreKind::UnknownCategory);
    };
    if is_beginning(rows) {
        beginning(&table.categories, c)?;
        return Ok(Entry::Beginning(c));
    }
    let (member, summary) = row(instance, rows, table, guess, c)?;
    Ok(Entry::Row(member, summary))
}

/// Enters what a record says into the table.
pub(crate) fn enter(table: &mut StoredRows, entry: Entry) -> Result<(), Memory>
    requires placed { IsPlaced table.old }
    requires new { IsNew table.old entry }
    ensures { OnOk result ((g : TheGraph) (i : TheInstance) (earlier : Items Record) (r : Record)
        → Tells g i earlier table.old → Says g i earlier r entry → Tells g i (earlier ++ r ∷ []) table.new) }
{
    match entry {
        Entry::Beginning(c) => table.begin(c),
        Entry::Row(member, summary) => table.put(member, summary),
    }
}
