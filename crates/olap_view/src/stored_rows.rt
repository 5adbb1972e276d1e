// The rows of stored views, while they are read.
ghost use Rattle.std.specs.Prelude.{◌≡◌, ◌<◌, ◌∷◌, ◌++◌, [], ℕ, All, IfOk, None, OnOk, length, map};
ghost use Rattle.std.specs.Option.{option_map};
ghost use Rattle.olap_view.specs.Seen.{each_view_of, summary_of, view_of};
ghost use Rattle.olap_view.specs.StoredRows.{HasPut, IsPlaced, begun_in, stored_at};
ghost use Rattle.olap_view.specs.Tables.{view_by};

use crate::tables::row;
use crate::{Summary, View};
use olap_base::{CatId, List, MemberId, Memory};
use olap_instance::Instance;
use std::alloc::Global;

/// The rows that were read of stored views. A row stands in the view of its member's category, so that a member has
/// one row or none.
#[derive(Drop)]
pub(crate) struct StoredRows {
    /// The categories whose views have begun.
    pub(crate) categories: Vec<CatId>,
    /// For each member the number of its row, from 1 on, or 0 where it has none.
    pub(crate) places: Vec<u32>,
    /// What the rows tell, in the order in which they were read.
    pub(crate) summaries: Vec<Summary>,
}

impl StoredRows {
    /// No view, and no row of any member.
    pub(crate) fn new(alloc: Global, instance: &Instance) -> Result<StoredRows, Memory>
        ensures categories { IfOk result (λ t. begun_in t ≡ []) }
        ensures members { IfOk result (λ t. length t.places.items ≡ length instance.now) }
        ensures placed { IfOk result IsPlaced }
        ensures empty { IfOk result (λ t. t.summaries.items ≡ []) }
        ensures nothing { IfOk result (λ t. (y : ℕ) → stored_at t y ≡ None) }
    {
        Ok(StoredRows {
            categories: Vec::new(alloc),
            places: vec![in alloc; 0u32; instance.members() as usize]?,
            summaries: Vec::new(alloc),
        })
    }

    /// Adds a category after the others.
    pub(crate) fn begin(&mut self, c: CatId) -> Result<(), Memory>
        ensures categories { OnOk result (begun_in self.new ≡ begun_in self.old ++ c.0 ∷ []) }
        ensures places { self.new.places ≡ self.old.places }
        ensures summaries { self.new.summaries ≡ self.old.summaries }
    {
        self.categories.push(c)?;
        Ok(())
    }

    /// Puts a summary at a member that has no row.
    pub(crate) fn put(&mut self, y: MemberId, summary: Summary) -> Result<(), Memory>
        requires placed { IsPlaced self.old }
        requires member { y.0 < length self.old.places.items }
        requires nothing { stored_at self.old y.0 ≡ None }
        ensures { OnOk result (HasPut y.0 (summary_of summary) self.old self.new) }
    {
        self.summaries.push(summary)?;
        self.places[y.0 as usize] = self.summaries.len() as u32;
        Ok(())
    }

    /// The summary in a member's row.
    pub(crate) fn at(&self, y: MemberId) -> Option<Summary>
        requires { y.0 < length self.now.places.items }
        ensures { option_map summary_of result ≡ stored_at self.now y.0 }
    {
        match self.places[y.0 as usize] {
            0 => None,
            place => self.summaries.get(place as usize - 1).copied(),
        }
    }

    /// The view of a category: a row for each of its members that has one, in file order.
    fn view(&self, alloc: Global, instance: &Instance, c: CatId) -> Result<View, Memory>
        requires { length self.now.places.items ≡ length instance.now }
        ensures view { IfOk result (λ v. view_of v ≡ view_by instance.now (stored_at self.now) c.0) }
        ensures members { IfOk result (λ v. All (λ r. r.member.0 < length instance.now) v.rows) }
    {
        let mut rows = Vec::new(alloc);
        'rows: for y in 0..instance.members() {
            let member = MemberId(y);
            if instance.category(member).0 == c.0 {
                if let Some(row) = row(member, self.at(member)) {
                    rows.push(row)?;
                }
            }
        }
        Ok(View {
            category: c,
            rows: List::from_vec(rows),
        })
    }

    /// The views that have begun, in their order.
    pub(crate) fn views(&self, alloc: Global, instance: &Instance) -> Result<List<View>, Memory>
        requires { length self.now.places.items ≡ length instance.now }
        ensures views { IfOk result
            (λ v. each_view_of v ≡ map (view_by instance.now (stored_at self.now)) (begun_in self.now)) }
        ensures members { IfOk result (λ v. All (λ w. All (λ r. r.member.0 < length instance.now) w.rows) v) }
    {
        let mut views = Vec::new(alloc);
        'categories: for c in &self.categories {
            let view = self.view(alloc, instance, *c)?;
            views.push(view)?;
        }
        Ok(List::from_vec(views))
    }
}
