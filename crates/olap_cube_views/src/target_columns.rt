// The instances of a cube's dimensions, each with the column of the target's category alone.
ghost use Rattle.std.specs.Prelude.{◌≡◌, ◌++◌, ◌∷◌, ◌<◌, ◌≤◌, [], IfErr, IfOk, OnErr, OnOk, length, slice_index_or};
ghost use Rattle.olap_cube.specs.Limits.{most_dimensions};
ghost use Rattle.olap_view.specs.Columns.{ascent};
ghost use Rattle.olap_view.specs.Seen.{ids};
ghost use Rattle.olap_cube_views.specs.Dimensions.{categories_in, instances_in, instances_of};

use olap_base::{CatId, Memory};
use olap_instance::Instance;
use olap_view::{Column, OwnedColumn};
use std::alloc::{AllocFailed, Global};
use std::marker::Model;

/// The legal instances of up to four dimensions, in order, each with the column of the target's category and no table
/// of ancestors.
#[derive(Drop)]
pub struct TargetColumns {
    columns: Vec<OwnedColumn>,
}

impl Model for TargetColumns {
    ghost use Rattle.std.specs.Prelude.{◌≤◌, List as Items, length};
    ghost use Rattle.olap_cube.specs.Limits.{most_dimensions};
    ghost use Rattle.olap_view.specs.Columns.{Ascent};

    ghost Value = { Items Ascent };

    ghost view = { λ a. a.columns.items };

    ghost invariant = { λ a. length a.columns.items ≤ most_dimensions };
}

impl TargetColumns {
    /// No dimension.
    pub fn new(alloc: Global) -> TargetColumns
        ensures { result ≡ [] }
    {
        TargetColumns {
            columns: Vec::new(alloc),
        }
    }

    /// Adds the column of one dimension more. Out of memory it comes back with the refusal, and the others
    /// stay.
    pub fn push(&mut self, column: OwnedColumn) -> Result<(), AllocFailed<OwnedColumn>>
        requires { length self.old < most_dimensions }
        ensures ok { OnOk result (self.new ≡ self.old ++ column ∷ []) }
        ensures err { OnErr result (self.new ≡ self.old) }
        ensures back { IfErr result (λ failed. failed.value ≡ column) }
    {
        self.columns.push(column)
    }

    /// How many dimensions there are: at most four.
    pub fn len(&self) -> usize
        ensures count { result ≡ length self.now }
        ensures few { length self.now ≤ most_dimensions }
    {
        self.columns.len()
    }

    /// The column of a dimension, from 0.
    pub fn column(&self, i: usize) -> &OwnedColumn
        requires { i < length self.now }
        ensures { result.now ≡ slice_index_or self.now i (ascent [] 0) }
    {
        &self.columns[i]
    }

    /// The instance of a dimension, from 0.
    pub fn instance(&self, i: usize) -> &Instance
        requires { i < length self.now }
        ensures { result.now ≡ (slice_index_or self.now i (ascent [] 0)).instance }
    {
        self.column(i).instance()
    }

    /// The instances, in order.
    pub(crate) fn instances(&self, alloc: Global) -> Result<Vec<&Instance>, Memory>
        ensures instances { IfOk result (λ v. instances_of v.items ≡ instances_in self.now) }
        ensures few { IfOk result (λ v. length v.items ≤ most_dimensions) }
    {
        let mut instances = Vec::new(alloc);
        'dimensions: for k in 0..self.len() {
            instances.push(self.instance(k))?;
        }
        Ok(instances)
    }

    /// The columns, in order, lent.
    pub(crate) fn lent(&self, alloc: Global) -> Result<Vec<Column<'_>>, Memory>
        ensures columns { IfOk result (λ v. v.items ≡ self.now) }
        ensures few { IfOk result (λ v. length v.items ≤ most_dimensions) }
    {
        let mut columns = Vec::new(alloc);
        'dimensions: for k in 0..self.len() {
            columns.push(self.column(k).column())?;
        }
        Ok(columns)
    }

    /// The target: the columns' categories, in order.
    pub(crate) fn target(&self, alloc: Global) -> Result<Vec<CatId>, Memory>
        ensures { IfOk result (λ v. ids v.items ≡ categories_in self.now) }
    {
        let mut target = Vec::new(alloc);
        'dimensions: for k in 0..self.len() {
            target.push(self.column(k).category())?;
        }
        Ok(target)
    }
}
