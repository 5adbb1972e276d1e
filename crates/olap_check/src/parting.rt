// Members that are far below two members of one category.
ghost use Rattle.std.specs.Prelude.{◌≡◌, ◌<◌, ◌↔◌, length, IfOk, IsTrue};
ghost use Rattle.olap_check.specs.Passing.{IsStratified};
ghost use Rattle.olap_check.specs.Splitting.{HasTwo, IsLeastSplit, MarksAbove};
ghost use Rattle.olap_legal.specs.Rows.{IsBounded, Splits};

use olap_base::{MemberId, Memory};
use olap_instance::Instance;
use olap_legal::mark;
use std::alloc::Global;

/// Marks the members that x is far below. No member has the number of categories as its category, so no parent stops
/// the marking.
fn above(alloc: Global, instance: &Instance, categories: u16, x: u32) -> Result<Vec<bool>, Memory>
    requires x { x < length instance.now }
    requires bounded { IsBounded instance.now categories }
    ensures { IfOk result (λ marks. MarksAbove instance.now x marks.items) }
{
    let count = instance.members() as usize;
    let mut seen = vec![in alloc; false; count]?;
    let mut list = Vec::new(alloc);
    let _first = mark(instance, categories, x, &mut seen, &mut list)?;
    'listed: while let Some(z) = list.pop() {
        let _whole = mark(instance, categories, z, &mut seen, &mut list)?;
    }
    Ok(seen)
}

/// Whether two members of the category are marked.
fn has_two(instance: &Instance, seen: &[bool], category: u16) -> bool
    requires { length seen.now ≡ length instance.now }
    ensures { IsTrue result ↔ HasTwo instance.now seen.now category }
{
    let mut one = None;
    'members: for y in 0..instance.members() {
        if seen[y as usize] && instance.category(MemberId(y)).0 == category {
            if one.is_some() {
                return true;
            }
            one = Some(y);
        }
    }
    false
}

/// The least category with two members that x is far below.
pub(crate) fn split_category(
    alloc: Global,
    instance: &Instance,
    categories: u16,
    x: u32,
) -> Result<u16, Memory>
    requires x { x < length instance.now }
    requires bounded { IsBounded instance.now categories }
    requires strata { IsStratified instance.now }
    requires splits { Splits instance.now x }
    ensures { IfOk result (IsLeastSplit instance.now x) }
{
    let seen = above(alloc, instance, categories, x)?;
    'categories: for c in 0..categories {
        if has_two(instance, &seen, c) {
            return Ok(c);
        }
    }
    unreachable!()
}
