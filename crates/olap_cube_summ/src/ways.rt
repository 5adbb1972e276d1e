// By way of which sources the root of a frozen dimension reaches the target.
ghost use Rattle.std.specs.Prelude.{◌≡◌, ◌<◌, ◌≤◌, ◌↔◌, ◌^◌, ℕ, IsTrue, length};
ghost use Rattle.olap_base.specs.Graph.{category_count};
ghost use Rattle.olap_base.specs.Instance.{IsMemberOf, ReachesVia};
ghost use Rattle.olap_base.specs.Limits.{most_views};
ghost use Rattle.olap_cube_summ.specs.Patterns.{HasPattern, IsFoundFor, named_by, shape_of};
ghost use Rattle.olap_cube_summ.specs.Questions.{target_in};
ghost use Rattle.olap_cube_summ.specs.Found.{chosen_of};
ghost use Rattle.olap_schema.specs.Schemas.{schema_of};

use crate::questions::Question;
use olap_ast::Formula;
use olap_base::CatId;
use olap_frozen::{Frozen, Room, is_frozen};
use olap_names::Candidates;
use olap_schema::Schema;

// Whether the root reaches the target by way of the source: whether the same choice of edges and names is a frozen
// dimension for that question.
fn reaches_by(
    schema: &Schema,
    target: CatId,
    source: CatId,
    candidates: &Candidates,
    frozen: &Frozen,
    room: &mut Room,
) -> bool
    requires found { IsFoundFor (schema_of schema.now) target.0 (named_by candidates.now frozen.now) }
    requires room { length room.old.rows.items ≡ category_count (schema_of schema.now).graph }
    ensures way { let h = chosen_of (named_by candidates.now frozen.now) in (x : ℕ)
        → IsMemberOf (shape_of (schema_of schema.now) h) frozen.now.root.0 x
        → IsTrue result ↔ ReachesVia (shape_of (schema_of schema.now) h) x source.0 target.0 }
    ensures room { length room.new.rows.items ≡ category_count (schema_of schema.now).graph }
{
    let via = Formula::Via(source, target);
    let is_way = is_frozen(
        schema.graph(),
        schema.constraints(),
        &via,
        candidates,
        frozen,
        room,
    );
    is_way
}

/// The pattern of a frozen dimension.
pub(crate) fn pattern(
    schema: &Schema,
    question: &Question,
    candidates: &Candidates,
    frozen: &Frozen,
    room: &mut Room,
) -> u16
    requires found { IsFoundFor (schema_of schema.now) (target_in question.now)
        (named_by candidates.now frozen.now) }
    requires few { length question.now.sources ≤ most_views }
    requires room { length room.old.rows.items ≡ category_count (schema_of schema.now).graph }
    ensures pattern { HasPattern (schema_of schema.now) question.now
        (chosen_of (named_by candidates.now frozen.now)) result }
    ensures small { result < 2 ^ most_views }
    ensures room { length room.new.rows.items ≡ category_count (schema_of schema.now).graph }
{
    let sources = question.sources.items();
    let mut pattern = 0;
    'sources: for k in 0..sources.len() {
        if reaches_by(
            schema,
            question.target,
            sources[k],
            candidates,
            frozen,
            room,
        ) {
            pattern |= 1u16 << k;
        }
    }
    pattern
}
