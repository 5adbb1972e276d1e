// The legal instances of a cube's dimensions.
ghost use Rattle.std.specs.Prelude.{◌≡◌, ◌++◌, ◌∷◌, ◌<◌, ◌≤◌, [], IfErr, IfOk, OnErr, OnOk, length, slice_index_or};
ghost use Rattle.olap_cube.specs.Limits.{most_dimensions};
ghost use Rattle.olap_cube_views.specs.Dimensions.{instances_of};

use olap_base::Memory;
use olap_instance::Instance;
use olap_legal::Legal;
use std::alloc::{AllocFailed, Global};
use std::marker::Model;

/// The legal instances of up to four dimensions, in order.
#[derive(Drop)]
pub struct Legals {
    legals: Vec<Legal>,
}

impl Model for Legals {
    ghost use Rattle.std.specs.Prelude.{◌≤◌, List as Items, length};
    ghost use Rattle.olap_base.specs.Instance.{Instance};
    ghost use Rattle.olap_cube.specs.Limits.{most_dimensions};

    ghost Value = { Items Instance };

    ghost view = { λ a. a.legals.items };

    ghost invariant = { λ a. length a.legals.items ≤ most_dimensions };
}

impl Legals {
    /// No dimension.
    pub fn new(alloc: Global) -> Legals
        ensures { result ≡ [] }
    {
        Legals {
            legals: Vec::new(alloc),
        }
    }

    /// Adds the legal instance of one dimension more. Out of memory it comes back with the refusal, and the others
    /// stay.
    pub fn push(&mut self, legal: Legal) -> Result<(), AllocFailed<Legal>>
        requires { length self.old < most_dimensions }
        ensures ok { OnOk result (self.new ≡ self.old ++ legal ∷ []) }
        ensures err { OnErr result (self.new ≡ self.old) }
        ensures back { IfErr result (λ failed. failed.value ≡ legal) }
    {
        self.legals.push(legal)
    }

    /// How many dimensions there are: at most four.
    pub fn len(&self) -> usize
        ensures count { result ≡ length self.now }
        ensures few { length self.now ≤ most_dimensions }
    {
        self.legals.len()
    }

    /// The legal instance of a dimension, from 0.
    pub fn legal(&self, i: usize) -> &Legal
        requires { i < length self.now }
        ensures { result.now ≡ slice_index_or self.now i [] }
    {
        &self.legals[i]
    }

    /// The instances, in order.
    pub(crate) fn instances(&self, alloc: Global) -> Result<Vec<&Instance>, Memory>
        ensures instances { IfOk result (λ v. instances_of v.items ≡ self.now) }
        ensures few { IfOk result (λ v. length v.items ≤ most_dimensions) }
    {
        let mut instances = Vec::new(alloc);
        'dimensions: for k in 0..self.len() {
            instances.push(self.legal(k).instance())?;
        }
        Ok(instances)
    }
}
