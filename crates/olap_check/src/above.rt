// The shape of what one member reaches.
ghost use Rattle.std.specs.Prelude.{◌≡◌, ◌<◌, ◌↔◌, length, IsTrue, IfSome, IsNone};
ghost use Rattle.olap_check.specs.Above.{IsAbove, is_present};
ghost use Rattle.olap_check.specs.Seen.{GoesOn, IsSo};
ghost use Rattle.olap_legal.specs.Laying.{cell};
ghost use Rattle.olap_eval.specs.Shapes.{IsShape};

use crate::asked::{Asked, Way};
use olap_ast::Op;
use olap_base::{CatId, MemberId, Text};
use olap_eval::Shape;
use olap_instance::Instance;
use olap_legal::{Table, ancestor};

/// What x reaches, read from the table of ancestors.
#[derive(Clone, Copy)]
pub(crate) struct Above<'a> {
    pub instance: &'a Instance,
    pub table: &'a Table,
    pub categories: u16,
    pub x: u32,
    ghost sound: { IsAbove instance.now categories x table.now },
    ghost row_is_shape: { IsShape instance.now (is_present instance.now categories table.now x)
        (cell instance.now categories table.now x) },
}

impl<'a> Above<'a> {
    // The member of the category, if x reaches one.
    fn member(&self, c: u16) -> Option<u32>
        ensures some { let place = cell self.now.instance.now self.now.categories self.now.table.now self.now.x in
            let present = is_present self.now.instance.now self.now.categories self.now.table.now self.now.x in
            IfSome result (λ y. IsTrue (present c) × (place c ≡ y) × (y < length self.now.instance.now)) }
        ensures none { IsNone result
            → IsTrue (is_present self.now.instance.now self.now.categories self.now.table.now self.now.x c) → ⊥ }
    {
        if c < self.categories {
            ancestor(self.instance, self.table, self.categories, self.x, c)
        } else {
            None
        }
    }

    // Whether x reaches a member of c from which it goes on that way to one of d.
    fn goes_on(&self, way: Way, c: CatId, d: CatId) -> bool
        ensures { IsTrue result ↔ GoesOn self.now.instance.now way c.0 d.0 self.now.x }
    {
        match way {
            Way::Reaches => self.reaches(c, d),
            Way::Steps => self.has_edge(c, d),
        }
    }

    /// Whether what is asked of x is so.
    pub(crate) fn is_so(&self, asked: Asked) -> bool
        ensures { IsTrue result ↔ IsSo self.now.instance.now asked.entry self.now.x }
    {
        match asked {
            Asked::GoesOn(way, c, d) => self.goes_on(way, c, d),
            Asked::Named(d, text) => self.name_is(d, text),
            Asked::Compares(d, op, n) => self.number_is(d, op, n),
        }
    }
}

impl<'a> Shape for Above<'a> {
    ghost use Rattle.olap_check.specs.Above.{is_present};
    ghost use Rattle.olap_legal.specs.Laying.{cell};

    ghost instance = { λ s. s.instance.now };

    ghost present = { λ s. is_present s.instance.now s.categories s.table.now s.x };

    ghost place = { λ s. cell s.instance.now s.categories s.table.now s.x };

    fn has_edge(&self, c: CatId, d: CatId) -> bool {
        let Some(y) = self.member(c.0) else {
            return false;
        };
        let Some(z) = self.member(d.0) else {
            return false;
        };
        self.instance.parents(MemberId(y)).contains(&MemberId(z))
    }

    fn reaches(&self, c: CatId, d: CatId) -> bool {
        let Some(y) = self.member(c.0) else {
            return false;
        };
        if self.member(d.0).is_none() {
            return false;
        }
        ancestor(self.instance, self.table, self.categories, y, d.0).is_some()
    }

    fn name_is(&self, c: CatId, k: &Text) -> bool {
        match self.member(c.0) {
            Some(y) => self.instance.name(MemberId(y)) == k.bytes(),
            None => false,
        }
    }

    fn number_is(&self, c: CatId, op: Op, n: i64) -> bool {
        let Some(y) = self.member(c.0) else {
            return false;
        };
        op.passes(self.instance.name(MemberId(y)), n)
    }

    ghost shape = { λ s. s.row_is_shape };
}
