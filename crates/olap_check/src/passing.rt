// Parents that another parent of the same child is far below.
ghost use Rattle.std.specs.Prelude.{◌<◌, ◌↔◌, length, ℕ, IsTrue, IfSome, IsNone};
ghost use Rattle.olap_base.specs.Instance.{IsFarBelow};
ghost use Rattle.olap_legal.specs.Rows.{IsBounded};
ghost use Rattle.olap_legal.specs.Tables.{IsTable};
ghost use Rattle.olap_check.specs.Passing.{HasNoneAt, HasNoShortcut, IsFirstPassed, IsFirstShortcut, IsPassedBy, IsStratified};

use olap_base::MemberId;
use olap_instance::Instance;
use olap_legal::{Table, ancestor};

/// Whether z is far below y.
fn is_far_below(instance: &Instance, table: &Table, categories: u16, z: u32, y: u32) -> bool
    requires z { z < length instance.now }
    requires y { y < length instance.now }
    requires bounded { IsBounded instance.now categories }
    requires table { IsTable instance.now categories (length instance.now) table.now }
    requires strata { IsStratified instance.now }
    ensures { IsTrue result ↔ IsFarBelow instance.now z y }
{
    if z == y {
        return false;
    }
    match ancestor(
        instance,
        table,
        categories,
        z,
        instance.category(MemberId(y)).0,
    ) {
        Some(a) => a == y,
        None => false,
    }
}

/// Whether another parent of x is far below y.
fn is_passed(instance: &Instance, table: &Table, categories: u16, x: u32, y: u32) -> bool
    requires x { x < length instance.now }
    requires y { y < length instance.now }
    requires bounded { IsBounded instance.now categories }
    requires table { IsTable instance.now categories (length instance.now) table.now }
    requires strata { IsStratified instance.now }
    ensures { IsTrue result ↔ IsPassedBy instance.now x y }
{
    'parents: for z in instance.parents(MemberId(x)) {
        if is_far_below(instance, table, categories, z.0, y) {
            return true;
        }
    }
    false
}

/// The place of the first parent of x that another parent of x is far below.
fn shortcut_of(instance: &Instance, table: &Table, categories: u16, x: u32) -> Option<usize>
    requires x { x < length instance.now }
    requires bounded { IsBounded instance.now categories }
    requires table { IsTable instance.now categories (length instance.now) table.now }
    requires strata { IsStratified instance.now }
    ensures some { IfSome result (IsFirstPassed instance.now x) }
    ensures none { IsNone result → HasNoneAt instance.now x }
{
    'parents: for (k, y) in instance.parents(MemberId(x)).iter().enumerate() {
        if is_passed(instance, table, categories, x, y.0) {
            return Some(k);
        }
    }
    None
}

/// The first shortcut: its child, and the parent's place.
pub(crate) fn first_shortcut(
    instance: &Instance,
    table: &Table,
    categories: u16,
) -> Option<(u32, usize)>
    requires bounded { IsBounded instance.now categories }
    requires table { IsTable instance.now categories (length instance.now) table.now }
    requires strata { IsStratified instance.now }
    ensures some { IfSome result (λ s. IsFirstShortcut instance.now s.0 s.1) }
    ensures none { IsNone result → HasNoShortcut instance.now }
{
    'members: for x in 0..instance.members() {
        if let Some(k) = shortcut_of(instance, table, categories, x) {
            return Some((x, k));
        }
    }
    None
}
