// The walk upwards from one member, with one place for each category.
ghost use Rattle.std.specs.Prelude.{◌≡◌, ◌<◌, length, ℕ, IfOk, IsTrue, false, vec_len};
ghost use Rattle.olap_base.specs.Instance.{parents_of};
ghost use Rattle.olap_legal.specs.Rows.{IsBounded, IsRise, IsRow, Splits, VisitGives};

use olap_base::{MemberId, Memory};
use olap_instance::Instance;

/// No member's place.
pub const NONE: u32 = 4_294_967_295;

/// Writes the parents of z into the places of their categories, and lists those that are new there. False where the
/// place of one has another member.
fn visit(
    instance: &Instance,
    z: u32,
    row: &mut Vec<u32>,
    list: &mut Vec<u32>,
) -> Result<bool, Memory>
    requires z { z < length instance.now }
    requires bounded { IsBounded instance.now (vec_len row.old) }
    requires own { IsRow instance.now row.old.items }
    ensures { let parents = parents_of instance.now z in
        IfOk result (λ b. VisitGives b instance.now parents row.old.items row.new.items list.old.items list.new.items) }
{
    'parents: for p in instance.parents(MemberId(z)) {
        let d = usize::from(instance.category(*p).0);
        let q = row[d];
        if q == NONE {
            row[d] = p.0;
            list.push(p.0)?;
        } else if q != p.0 {
            return Ok(false);
        }
    }
    Ok(true)
}

/// For each category the member that x reaches, or `NONE`, as the row; false where two such members share a category.
///
/// A place is filled once, so the walk ends on a cycle too. Cost: the parents of the members that are met, of which
/// there is at most one for each category. What stood in the row and in the list doesn't count.
pub(crate) fn rise(
    instance: &Instance,
    x: u32,
    row: &mut Vec<u32>,
    list: &mut Vec<u32>,
) -> Result<bool, Memory>
    requires x { x < length instance.now }
    requires bounded { IsBounded instance.now (vec_len row.old) }
    ensures whole { IfOk result (λ whole. IsTrue whole → IsRise instance.now (vec_len row.old) x row.new.items) }
    ensures split { IfOk result (λ whole. whole ≡ false → Splits instance.now x) }
{
    row.fill(NONE);
    row[usize::from(instance.category(MemberId(x)).0)] = x;
    list.clear();
    list.push(x)?;
    'listed: while let Some(z) = list.pop() {
        let whole = visit(instance, z, row, list)?;
        if !whole {
            return Ok(false);
        }
    }
    Ok(true)
}
