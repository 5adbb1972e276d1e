// The patterns that the frozen dimensions of bottom categories have.
ghost use Rattle.std.specs.Prelude.{◌≡◌, IfOk, length};
ghost use Rattle.olap_base.specs.Graph.{IsBottom, category_count};
ghost use Rattle.olap_cube_summ.specs.Patterns.{AreFamilies, IsFamily};
ghost use Rattle.olap_cube_summ.specs.Questions.{IsQuestionOf};
ghost use Rattle.olap_schema.specs.Schemas.{schema_of};

use crate::asking::other_found;
use crate::families::Family;
use crate::looking::soon_found;
use crate::masks::Patterns;
use crate::questions::Question;
use crate::ways::pattern;
use olap_base::{CatId, List, Memory};
use olap_frozen::Room;
use olap_schema::Schema;
use std::alloc::Global;

// The patterns of the frozen dimensions with this root. Behind those that are soon found each search finds one that is
// new, and the last one none.
fn patterns_of(
    alloc: Global,
    schema: &Schema,
    question: &Question,
    root: CatId,
    room: &mut Room,
) -> Result<Patterns, Memory>
    requires question { IsQuestionOf (schema_of schema.now) question.now }
    requires root { IsBottom (schema_of schema.now).graph root.0 }
    requires room { length room.old.rows.items ≡ category_count (schema_of schema.now).graph }
    ensures family { IfOk result (λ patterns. IsFamily (schema_of schema.now) question.now
        (record { bottom = root; patterns = patterns })) }
    ensures room { length room.new.rows.items ≡ category_count (schema_of schema.now).graph }
{
    let mut patterns = soon_found(alloc, schema, question, root)?;
    'patterns: while let Some(found) = other_found(alloc, schema, question, root, &patterns)? {
        let new = pattern(schema, question, &found.candidates, &found.frozen, room);
        patterns = patterns.with(new);
    }
    Ok(patterns)
}

/// The family of each bottom category, in declaration order.
pub(crate) fn families(
    alloc: Global,
    schema: &Schema,
    question: &Question,
) -> Result<List<Family>, Memory>
    requires { IsQuestionOf (schema_of schema.now) question.now }
    ensures { IfOk result (AreFamilies (schema_of schema.now) question.now) }
{
    let mut room = Room::new(alloc, schema.graph())?;
    let mut families = Vec::new(alloc);
    'categories: for b in 0..schema.graph().categories() {
        let bottom = CatId(b);
        if schema.graph().is_bottom(bottom) {
            let patterns = patterns_of(alloc, schema, question, bottom, &mut room)?;
            families.push(Family { bottom, patterns })?;
        }
    }
    Ok(List::from_vec(families))
}
