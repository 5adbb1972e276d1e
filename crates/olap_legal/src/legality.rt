// Legal instances, with the table of their ancestors.
ghost use Rattle.std.specs.Prelude.{◌≡◌, ◌<◌, length, IfSome, IsNone};
ghost use Rattle.olap_base.specs.Instance.{ReachesCategory};
ghost use Rattle.olap_legal.specs.Ancestors.{IsAncestor};
ghost use Rattle.olap_legal.specs.Rows.{IsBounded};
ghost use Rattle.olap_legal.specs.Tables.{IsTable};

use crate::ancestors::ancestor;
use crate::tables::Table;
use olap_base::{CatId, MemberId};
use olap_instance::Instance;
use std::marker::Model;

/// A legal instance, with the table of its ancestors. That it is legal, the check says that made it.
#[derive(Drop)]
pub struct Legal {
    instance: Instance,
    categories: u16,
    table: Table,
}

impl Model for Legal {
    ghost use Rattle.olap_base.specs.Instance.{Instance as TheInstance};
    ghost use Rattle.std.specs.Prelude.{length};
    ghost use Rattle.olap_legal.specs.Tables.{HasTable};

    ghost Value = { TheInstance };

    ghost view = { λ a. a.instance };

    ghost invariant = { λ a. HasTable a.instance a.categories a.table };
}

impl Legal {
    /// The instance with its table.
    pub fn new(instance: Instance, categories: u16, table: Table) -> Legal
        requires bounded { IsBounded instance categories }
        requires table { IsTable instance categories (length instance) table }
        ensures { result ≡ instance }
    {
        Legal {
            instance,
            categories,
            table,
        }
    }

    /// The instance.
    pub fn instance(&self) -> &Instance
        ensures { result.now ≡ self.now }
    {
        &self.instance
    }

    /// The instance alone. The memory of the table is given back.
    pub fn into_instance(self) -> Instance
        ensures { result ≡ self }
    {
        self.instance
    }

    /// The member of the category that x reaches, x itself for its own category. A few looks at lists.
    pub fn ancestor(&self, x: MemberId, c: CatId) -> Option<MemberId>
        requires { x.0 < length self.now }
        ensures some { IfSome result (λ y. IsAncestor self.now x.0 c.0 y.0) }
        ensures none { IsNone result → ReachesCategory self.now x.0 c.0 → ⊥ }
    {
        if c.0 >= self.categories {
            return None;
        }
        let found = ancestor(&self.instance, &self.table, self.categories, x.0, c.0);
        match found {
            Some(y) => Some(MemberId(y)),
            None => None,
        }
    }
}
