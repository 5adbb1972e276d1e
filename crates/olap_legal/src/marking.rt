// Marks of members, on a walk upwards.
ghost use Rattle.std.specs.Prelude.{◌≡◌, ◌<◌, length, IfOk, vec_len};
ghost use Rattle.olap_base.specs.Instance.{parents_of};
ghost use Rattle.olap_legal.specs.Marks.{MarkGives};

use olap_base::{MemberId, Memory};
use olap_instance::Instance;

/// Marks the parents of z and lists those that are new. False where one is of the category; a category that no member
/// has stops nothing. `Memory` where the list has no room.
pub fn mark(
    instance: &Instance,
    category: u16,
    z: u32,
    seen: &mut Vec<bool>,
    list: &mut Vec<u32>,
) -> Result<bool, Memory>
    requires z { z < length instance.now }
    requires seen { vec_len seen.old ≡ length instance.now }
    ensures { let parents = parents_of instance.now z in
        IfOk result (λ b. MarkGives b instance.now category parents
        seen.old.items seen.new.items list.old.items list.new.items) }
{
    'parents: for p in instance.parents(MemberId(z)) {
        if instance.category(*p).0 == category {
            return Ok(false);
        }
        if !seen[p.0 as usize] {
            seen[p.0 as usize] = true;
            list.push(p.0)?;
        }
    }
    Ok(true)
}
