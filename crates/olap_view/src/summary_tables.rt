// Summary tables: stored views are read in, changed member by member, and read out.
ghost use Rattle.std.specs.Prelude.{◌≡◌, ◌≢◌, ◌==◌, ◌<◌, ◌≤◌, ◌^◌, ℕ, All, AllPairs, Contains, IfOk, IfSome, IsNone, None, Some, if◌then◌else◌, length, map, slice_index};
ghost use Rattle.std.specs.Option.{option_map, option_or};
ghost use Rattle.olap_base.specs.Instance.{ReachesCategory};
ghost use Rattle.olap_base.specs.Limits.{most_members};
ghost use Rattle.olap_base.specs.Reaching.{reaches};
ghost use Rattle.olap_base.specs.Summaries.{◌⊕◌};
ghost use Rattle.olap_legal.specs.Ancestors.{IsAncestor};
ghost use Rattle.olap_view.specs.Bounds.{IsJoinable};
ghost use Rattle.olap_view.specs.Seen.{each_view_of, ids, rows_of, summary_of, view_of, views_of};
ghost use Rattle.olap_view.specs.Stores.{IsInFileOrder, summary_in};
ghost use Rattle.olap_view.specs.SummaryTables.{categories_in, stands_at, view_at, views_at};
ghost use Rattle.olap_view.specs.Tables.{IsAmong, when};

use crate::columns::{Column, columns};
use crate::tables::Table;
use crate::{Store, Summary, View};
use olap_base::{CatId, List, MemberId, Memory};
use olap_legal::Legal;
use std::alloc::Global;
use std::marker::Model;

/// What stands at each member of some categories: a summary, or nothing.
#[derive(Drop)]
pub struct SummaryTable<'a> {
    alloc: Global,
    legal: &'a Legal,
    // For each category the members that members reach.
    columns: Vec<Column<'a>>,
    table: Table,
}

impl<'a> Model for SummaryTable<'a> {
    ghost use Rattle.olap_view.specs.Columns.{AreColumns};
    ghost use Rattle.olap_view.specs.SummaryTables.{IsSummaryTable, Summarized, summarized};
    ghost use Rattle.olap_view.specs.Tables.{categories_of};

    ghost Value = { Summarized };

    ghost view = { λ a. summarized a.legal.now a.table };

    ghost invariant = { λ a. IsSummaryTable a.legal.now a.table
        × AreColumns a.legal.now (categories_of a.table) a.columns.items };
}

/// The categories of stored views, in their order.
fn categories(alloc: Global, store: &Store) -> Result<Vec<CatId>, Memory>
    ensures { IfOk result (λ v. ids v.items ≡ categories_in (views_of store.now)) }
{
    let mut categories = Vec::new(alloc);
    'views: for view in store.views.items() {
        categories.push(view.category)?;
    }
    Ok(categories)
}

impl<'a> SummaryTable<'a> {
    /// A table of these categories in which nothing stands. It takes four bytes for each member of the instance, four
    /// more for each category, and memory for a summary at each member of the categories. `Memory`: out of memory.
    pub fn new(
        alloc: Global,
        legal: &'a Legal,
        categories: &[CatId],
    ) -> Result<SummaryTable<'a>, Memory>
        requires differ { AllPairs ◌≢◌ (ids categories.now) }
        ensures instance { IfOk result (λ t. t.instance ≡ legal.now) }
        ensures categories { IfOk result (λ t. t.categories ≡ ids categories.now) }
        ensures empty { IfOk result (λ t. (y : ℕ) → IsAmong t.instance t.categories y → stands_at t y ≡ None) }
        ensures few { IfOk result (λ t. length t.instance ≤ most_members) }
    {
        Ok(SummaryTable {
            alloc,
            legal,
            columns: columns(alloc, legal, categories)?,
            table: Table::new(alloc, legal.instance(), categories)?,
        })
    }

    /// The table of stored views, whose rows are in file order. It takes the memory of `new`. `Memory`: out of memory.
    pub fn of(alloc: Global, legal: &'a Legal, store: &Store) -> Result<SummaryTable<'a>, Memory>
        requires differ { AllPairs ◌≢◌ (categories_in (views_of store.now)) }
        requires order { All (IsInFileOrder legal.now) (views_of store.now) }
        ensures instance { IfOk result (λ t. t.instance ≡ legal.now) }
        ensures categories { IfOk result (λ t. t.categories ≡ categories_in (views_of store.now)) }
        ensures views { IfOk result (λ t. views_at t ≡ views_of store.now) }
    {
        let categories = categories(alloc, store)?;
        let mut table = SummaryTable::new(alloc, legal, &categories)?;
        'views: for view in store.views.items() {
            table.fill(view);
        }
        Ok(table)
    }

    /// Puts the summary of each row at its member.
    fn fill(&mut self, view: &View)
        requires among { Contains self.old.categories view.now.category.0 }
        requires order { IsInFileOrder self.old.instance (view_of view.now) }
        ensures instance { self.new.instance ≡ self.old.instance }
        ensures categories { self.new.categories ≡ self.old.categories }
        ensures at { (y : ℕ) → IsAmong self.old.instance self.old.categories y
            → stands_at self.new y ≡ option_or (summary_in (rows_of view.now.rows) y) (stands_at self.old y) }
    {
        'rows: for row in view.rows.items() {
            self.put(row.member, row.summary());
        }
    }

    /// The categories, in their order, which differ.
    pub fn categories(&self) -> &[CatId]
        ensures categories { ids result.now ≡ self.now.categories }
        ensures differ { AllPairs ◌≢◌ self.now.categories }
    {
        &self.table.categories
    }

    /// The member of the k-th category that x reaches. It takes one look at a list.
    pub fn ancestor(&self, k: usize, x: MemberId) -> Option<MemberId>
        requires category { k < length self.now.categories }
        requires member { x.0 < length self.now.instance }
        ensures some { IfSome result (λ y.
            IsAncestor self.now.instance x.0 (slice_index self.now.categories k) y.0) }
        ensures none { IsNone result → ReachesCategory self.now.instance x.0 (slice_index self.now.categories k) → ⊥ }
    {
        self.columns[k].ancestor(x)
    }

    /// What stands at a member of the categories.
    pub fn at(&self, y: MemberId) -> Option<Summary>
        requires among { IsAmong self.now.instance self.now.categories y.0 }
        ensures { option_map summary_of result ≡ stands_at self.now y.0 }
    {
        self.table.at(y)
    }

    /// Puts a summary at a member of the categories, whatever stands there.
    pub fn put(&mut self, y: MemberId, summary: Summary)
        requires among { IsAmong self.old.instance self.old.categories y.0 }
        ensures instance { self.new.instance ≡ self.old.instance }
        ensures categories { self.new.categories ≡ self.old.categories }
        ensures at { (z : ℕ) → IsAmong self.old.instance self.old.categories z
            → stands_at self.new z ≡ (if z == y.0 then Some (summary_of summary) else stands_at self.old z) }
    {
        self.table.put(y, summary);
    }

    /// Joins a summary to what stands at each member of the categories that x reaches.
    pub(crate) fn join(&mut self, x: MemberId, summary: Summary)
        requires member { x.0 < length self.old.instance }
        requires this { IsJoinable (summary_of summary) }
        requires room { (y : ℕ) → IsAmong self.old.instance self.old.categories y
            → IfSome (stands_at self.old y) IsJoinable }
        ensures instance { self.new.instance ≡ self.old.instance }
        ensures categories { self.new.categories ≡ self.old.categories }
        ensures at { (y : ℕ) → IsAmong self.old.instance self.old.categories y → stands_at self.new y
            ≡ stands_at self.old y ⊕ when (reaches self.old.instance x.0 y) (summary_of summary) }
    {
        let legal = self.legal;
        self.table.join(legal, &self.columns, x, summary);
    }

    /// The view of one of the categories.
    pub(crate) fn view(&self, c: CatId) -> Result<View, Memory>
        requires among { Contains self.now.categories c.0 }
        ensures view { IfOk result (λ v. view_of v ≡ view_at self.now c.0) }
        ensures members { IfOk result (λ v. All (λ r. r.member.0 < length self.now.instance) v.rows) }
    {
        self.table.view(self.alloc, self.legal.instance(), c)
    }

    /// The view of each of the categories, in their order: a row for each member at which something stands, in file
    /// order. `Memory`: out of memory.
    pub fn views(&self) -> Result<List<View>, Memory>
        ensures views { IfOk result (λ v. each_view_of v ≡ views_at self.now) }
        ensures members { IfOk result (λ v. All (λ w. All (λ r. r.member.0 < length self.now.instance) w.rows) v) }
    {
        self.table.views(self.alloc, self.legal.instance())
    }
}
