// Totals of values at each member of some categories.
ghost use Rattle.std.specs.Prelude.{◌≡◌, ◌<◌, ◌≤◌, ◌^◌, ◌↔◌, ℕ, All, AllPairs, ◌≢◌, Contains, IfOk, IfSome, IsTrue, None, Some, length, map, set};
ghost use Rattle.std.specs.Option.{option_map};
ghost use Rattle.olap_base.specs.Limits.{most_members};
ghost use Rattle.olap_base.specs.Views.{row_at};
ghost use Rattle.olap_view.specs.Bounds.{IsJoinable};
ghost use Rattle.olap_view.specs.Columns.{AreColumns, ascent};
ghost use Rattle.olap_view.specs.Seen.{each_view_of, ids, row_of, rows_of, summary_of, view_of};
ghost use Rattle.olap_view.specs.Tables.{AreJoined, AreJoinedIn, HasPlaces, HasRoom, categories_of, place_in, summary_at, view_in};

use crate::columns::Column;
use crate::{Row, Summary, View};
use olap_base::{CatId, List, MemberId, Memory};
use olap_instance::Instance;
use olap_legal::Legal;
use std::alloc::Global;

/// The total of some values at each member of some categories, if there are any.
#[derive(Drop)]
pub(crate) struct Table {
    /// The categories.
    pub(crate) categories: Vec<CatId>,
    /// For each member of the categories the place of its summary.
    pub(crate) places: Vec<u32>,
    /// The summaries.
    pub(crate) summaries: Vec<Option<Summary>>,
}

/// Whether the category is one of these.
pub(crate) fn is_among(categories: &[CatId], c: CatId) -> bool
    ensures { IsTrue result ↔ Contains (ids categories.now) c.0 }
{
    'categories: for d in categories {
        if d.0 == c.0 {
            return true;
        }
    }
    false
}

impl Table {
    /// A table for these categories, with nothing in it.
    pub(crate) fn new(
        alloc: Global,
        instance: &Instance,
        categories: &[CatId],
    ) -> Result<Table, Memory>
        ensures categories { IfOk result (λ t. categories_of t ≡ ids categories.now) }
        ensures places { IfOk result (HasPlaces instance.now) }
        ensures empty { IfOk result (λ t. (y : ℕ) → summary_at t y ≡ None) }
        ensures few { IfOk result (λ t. length instance.now ≤ most_members) }
    {
        let members = instance.members();
        let mut places = vec![in alloc; 0u32; members as usize]?;
        let mut count = 0;
        'places: for y in 0..members {
            if is_among(categories, instance.category(MemberId(y))) {
                places[y as usize] = count;
                count += 1;
            }
        }
        Ok(Table {
            categories: Vec::from_slice(alloc, categories)?,
            places,
            summaries: vec![in alloc; None; count as usize]?,
        })
    }

    /// Puts a summary at a member, whatever stands there.
    pub(crate) fn put(&mut self, y: MemberId, summary: Summary)
        requires member { y.0 < length self.old.places.items }
        requires place { place_in self.old y.0 < length self.old.summaries.items }
        ensures categories { self.new.categories ≡ self.old.categories }
        ensures places { self.new.places ≡ self.old.places }
        ensures summaries { self.new.summaries.items
            ≡ set self.old.summaries.items (place_in self.old y.0) (Some summary) }
    {
        let place = self.places[y.0 as usize] as usize;
        self.summaries[place] = Some(summary);
    }

    /// Joins the summary to what stands at the member of the category that x reaches, if there is one.
    #[inline(always)]
    fn join_in(&mut self, legal: &Legal, column: &Column, c: CatId, x: MemberId, summary: Summary)
        requires column { column.now ≡ ascent legal.now c.0 }
        requires member { x.0 < length legal.now }
        requires among { Contains (categories_of self.old) c.0 }
        requires places { HasPlaces legal.now self.old }
        requires this { IsJoinable (summary_of summary) }
        requires room { HasRoom legal.now c.0 self.old }
        ensures { AreJoinedIn legal.now c.0 x.0 (summary_of summary) self.old self.new }
    {
        if let Some(y) = column.ancestor(x) {
            let place = self.places[y.0 as usize] as usize;
            self.summaries[place] = Some(summary.beside(self.summaries[place]));
        }
    }

    /// Joins the summary to what stands at the members of the categories that x reaches.
    #[inline(always)]
    pub(crate) fn join(&mut self, legal: &Legal, columns: &[Column], x: MemberId, summary: Summary)
        requires columns { AreColumns legal.now (categories_of self.old) columns.now }
        requires member { x.0 < length legal.now }
        requires differ { AllPairs ◌≢◌ (categories_of self.old) }
        requires places { HasPlaces legal.now self.old }
        requires this { IsJoinable (summary_of summary) }
        requires room { (c : ℕ) → Contains (categories_of self.old) c → HasRoom legal.now c self.old }
        ensures { AreJoined legal.now x.0 (summary_of summary) self.old self.new }
    {
        'categories: for k in 0..self.categories.len() {
            let c = self.categories[k];
            self.join_in(legal, &columns[k], c, x, summary);
        }
    }

    /// The summary of a member of the categories.
    pub(crate) fn at(&self, y: MemberId) -> Option<Summary>
        requires member { y.0 < length self.now.places.items }
        requires place { place_in self.now y.0 < length self.now.summaries.items }
        ensures { option_map summary_of result ≡ summary_at self.now y.0 }
    {
        self.summaries[self.places[y.0 as usize] as usize]
    }

    /// The view of one of the categories: a row for each member that has a summary, in file order.
    pub(crate) fn view(&self, alloc: Global, instance: &Instance, c: CatId) -> Result<View, Memory>
        requires among { Contains (categories_of self.now) c.0 }
        requires places { HasPlaces instance.now self.now }
        ensures view { IfOk result (λ v. view_of v ≡ view_in instance.now self.now c.0) }
        ensures members { IfOk result (λ v. All (λ r. r.member.0 < length instance.now) v.rows) }
    {
        let mut rows = Vec::new(alloc);
        'rows: for y in 0..instance.members() {
            let member = MemberId(y);
            if instance.category(member).0 == c.0 {
                if let Some(row) = row(member, self.at(member)) {
                    rows.push(row)?;
                }
            }
        }
        Ok(View {
            category: c,
            rows: List::from_vec(rows),
        })
    }

    /// The view of each of the categories, in their order.
    pub(crate) fn views(&self, alloc: Global, instance: &Instance) -> Result<List<View>, Memory>
        requires places { HasPlaces instance.now self.now }
        ensures views { IfOk result
            (λ v. each_view_of v ≡ map (view_in instance.now self.now) (categories_of self.now)) }
        ensures members { IfOk result (λ v. All (λ w. All (λ r. r.member.0 < length instance.now) w.rows) v) }
    {
        let mut views = Vec::new(alloc);
        'categories: for c in &self.categories {
            let view = self.view(alloc, instance, *c)?;
            views.push(view)?;
        }
        Ok(List::from_vec(views))
    }
}

/// The row of a member, if it has a summary.
pub(crate) fn row(member: MemberId, summary: Option<Summary>) -> Option<Row>
    ensures row { option_map row_of result ≡ row_at member.0 (option_map summary_of summary) }
    ensures member { IfSome result (λ r. r.member.0 ≡ member.0) }
{
    match summary {
        None => None,
        Some(s) => Some(Row {
            member,
            count: s.count,
            sum: s.sum,
            least: s.least,
            greatest: s.greatest,
        }),
    }
}
