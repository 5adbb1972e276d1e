// What an atom asks of a member.
ghost use Rattle.std.specs.Prelude.{IsTrue};
ghost use Rattle.olap_check.specs.Seen.{IsSameAtom};

use olap_ast::Op;
use olap_base::{CatId, Text};

/// How it goes on from a member that is reached.
#[derive(Clone, Copy)]
pub(crate) enum Way {
    /// To a member that it reaches.
    Reaches,
    /// To a parent.
    Steps,
}

impl Way {
    /// The row of the atoms that go on this way from a category.
    pub(crate) fn row(self, c: CatId) -> usize {
        match self {
            Way::Reaches => 2 * usize::from(c.0),
            Way::Steps => 2 * usize::from(c.0) + 1,
        }
    }
}

/// What is asked of a member.
#[derive(Clone, Copy)]
pub(crate) enum Asked<'a> {
    /// Whether it goes on that way from a member of the first category to one of the second.
    GoesOn(Way, CatId, CatId),
    /// Whether it reaches a member of the category that has this name.
    Named(CatId, &'a Text),
    /// Whether it reaches a member of the category whose number compares so with this one.
    Compares(CatId, Op, i64),
}

impl<'a> Asked<'a> {
    /// Whether the two ask the same.
    pub(crate) fn is(self, other: Asked) -> bool
        ensures { IsTrue result → IsSameAtom self.entry other.entry }
    {
        match (self, other) {
            (Asked::GoesOn(v, c, d), Asked::GoesOn(w, e, f)) => v == w && c.0 == e.0 && d.0 == f.0,
            (Asked::Named(c, s), Asked::Named(d, t)) => c.0 == d.0 && s.bytes() == t.bytes(),
            (Asked::Compares(c, o, m), Asked::Compares(d, p, n)) => c.0 == d.0 && o == p && m == n,
            _ => false,
        }
    }

    /// Whether it stands before the other: pairs by row and second category, then names by category and text, then
    /// numbers by category, number and comparison.
    pub(crate) fn is_before(self, other: Asked) -> bool {
        match (self, other) {
            (Asked::GoesOn(v, c, d), Asked::GoesOn(w, e, f)) => {
                let row = v.row(c);
                let next = w.row(e);
                row < next || (row == next && d.0 < f.0)
            }
            (Asked::Named(c, s), Asked::Named(d, t)) => c.0 < d.0 || (c.0 == d.0 && *s < *t),
            (Asked::Compares(c, o, m), Asked::Compares(d, p, n)) => (c.0, m, o) < (d.0, n, p),
            (Asked::GoesOn(_, _, _), _) => true,
            (Asked::Named(_, _), Asked::Compares(_, _, _)) => true,
            _ => false,
        }
    }
}
