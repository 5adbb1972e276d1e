// For one category the member that each member reaches, side by side: a fact asks a list of four bytes a member.
ghost use Rattle.std.specs.Prelude.{◌≡◌, ◌<◌, ◌≤◌, length, IfOk, IfSome, IsNone};
ghost use Rattle.olap_base.specs.Instance.{ReachesCategory};
ghost use Rattle.olap_base.specs.Limits.{most_members};
ghost use Rattle.olap_legal.specs.Ancestors.{IsAncestor};
ghost use Rattle.olap_view.specs.Columns.{AreColumns, IsTold, Tells, ascent};
ghost use Rattle.olap_view.specs.Seen.{ids};

use olap_base::{CatId, MemberId, Memory};
use olap_instance::Instance;
use olap_legal::Legal;
use std::alloc::Global;
use std::borrow::CowSlice;
use std::marker::Model;

// No member's place.
const NOBODY: u32 = 0xFFFF_FFFF;

/// For one category the member that each member of a legal instance reaches.
#[derive(Drop)]
pub struct Column<'a> {
    instance: &'a Instance,
    category: CatId,
    // For each member the place of the one that it reaches, or `NOBODY`.
    cells: CowSlice<'a, u32>,
}

impl<'a> Model for Column<'a> {
    ghost use Rattle.olap_view.specs.Columns.{Ascent, IsTold, ascent};
    ghost use Rattle.std.specs.Cow.{cow_slice_items};
    ghost use Rattle.std.specs.Prelude.{length};

    ghost Value = { Ascent };

    ghost view = { λ a. ascent a.instance.now a.category.0 };

    ghost invariant = { λ a.
        IsTold a.instance.now a.category.0 (length a.instance.now) (cow_slice_items a.cells) };
}

/// The place of the member of the category that x reaches, or `NOBODY`.
fn cell(legal: &Legal, category: CatId, x: MemberId) -> u32
    requires member { x.0 < length legal.now }
    requires few { length legal.now ≤ most_members }
    ensures { Tells legal.now category.0 x.0 result }
{
    match legal.ancestor(x, category) {
        Some(y) => y.0,
        None => NOBODY,
    }
}

/// The cells of all members.
fn cells(alloc: Global, legal: &Legal, category: CatId) -> Result<Vec<u32>, Memory>
    ensures { IfOk result (λ v. IsTold legal.now category.0 (length legal.now) v.items) }
{
    let members = legal.instance().members();
    let mut cells = Vec::with_capacity(alloc, members as usize)?;
    'members: for x in 0..members {
        cells.push(cell(legal, category, MemberId(x)))?;
    }
    Ok(cells)
}

impl<'a> Column<'a> {
    /// The column of a category. It takes one look at the table of ancestors, and four bytes, for each member.
    /// `Memory`: out of memory.
    pub fn new(alloc: Global, legal: &'a Legal, category: CatId) -> Result<Column<'a>, Memory>
        ensures { IfOk result (λ a. a ≡ ascent legal.now category.0) }
    {
        let cells = cells(alloc, legal, category)?;
        Ok(Column {
            instance: legal.instance(),
            category,
            cells: CowSlice::Owned(cells),
        })
    }

    /// The member of the category that x reaches. One look at a list.
    #[inline(always)]
    pub fn ancestor(&self, x: MemberId) -> Option<MemberId>
        requires { x.0 < length self.now.instance }
        ensures some { IfSome result (λ y. IsAncestor self.now.instance x.0 self.now.category y.0) }
        ensures none { IsNone result → ReachesCategory self.now.instance x.0 self.now.category → ⊥ }
    {
        let cell = self.cells.as_slice()[x.0 as usize];
        if cell == NOBODY {
            None
        } else {
            Some(MemberId(cell))
        }
    }
}

/// A legal instance that keeps the column of one category, and no table of ancestors.
#[derive(Drop)]
pub struct OwnedColumn {
    instance: Instance,
    category: CatId,
    // As in a `Column`.
    cells: Vec<u32>,
}

impl Model for OwnedColumn {
    ghost use Rattle.olap_view.specs.Columns.{Ascent, IsTold, ascent};
    ghost use Rattle.std.specs.Prelude.{length};

    ghost Value = { Ascent };

    ghost view = { λ a. ascent a.instance a.category.0 };

    ghost invariant = { λ a. IsTold a.instance a.category.0 (length a.instance) a.cells.items };
}

impl OwnedColumn {
    /// The column of a category. It takes one look at the table of ancestors, and four bytes, for each member, and
    /// gives the table's memory back. `Memory`: out of memory; the instance is dropped.
    pub fn new(alloc: Global, legal: Legal, category: CatId) -> Result<OwnedColumn, Memory>
        ensures { IfOk result (λ a. a ≡ ascent legal category.0) }
    {
        let cells = cells(alloc, &legal, category)?;
        Ok(OwnedColumn {
            instance: legal.into_instance(),
            category,
            cells,
        })
    }

    /// The instance.
    pub fn instance(&self) -> &Instance
        ensures { result.now ≡ self.now.instance }
    {
        &self.instance
    }

    /// The category.
    pub fn category(&self) -> CatId
        ensures { result.0 ≡ self.now.category }
    {
        self.category
    }

    /// The column, lent. Nothing is copied.
    pub fn column(&self) -> Column<'_>
        ensures { result ≡ self.now }
    {
        Column {
            instance: &self.instance,
            category: self.category,
            cells: CowSlice::Borrowed(&self.cells),
        }
    }
}

/// The columns of these categories, in their order.
pub(crate) fn columns<'a>(
    alloc: Global,
    legal: &'a Legal,
    categories: &[CatId],
) -> Result<Vec<Column<'a>>, Memory>
    ensures { IfOk result (λ v. AreColumns legal.now (ids categories.now) v.items) }
{
    let mut columns = Vec::new(alloc);
    'categories: for k in 0..categories.len() {
        columns.push(Column::new(alloc, legal, categories[k])?)?;
    }
    Ok(columns)
}
