// What one counterexample says of all choices of stored views.
//
// A counterexample is an instance whose root stands at a bottom category and reaches the target. Its pattern says for
// each stored view whether the root reaches the target by way of the view's category. A choice of views serves only
// where exactly one of them is such a way, so the pattern refutes many masks at once.
ghost use Rattle.std.specs.Prelude.{◌≡◌, ◌≢◌, ◌↔◌, ◌≤◌, ◌^◌, ℕ, IfOk, IsTrue, length};
ghost use Rattle.olap_base.specs.Graph.{category_count};
ghost use Rattle.olap_base.specs.Instance.{ReachesVia};
ghost use Rattle.olap_base.specs.Limits.{most_views};
ghost use Rattle.olap_nav.specs.Choices.{MayServe};
ghost use Rattle.olap_nav.specs.Patterns.{IsPattern, IsSomeCounterexample, found_instance, found_root, ways_in};
ghost use Rattle.olap_schema.specs.Schemas.{schema_of};
ghost use Rattle.olap_view.specs.Seen.{views_of};

use crate::masks::has_bit;
use olap_ast::Formula;
use olap_base::{CatId, List, Memory};
use olap_frozen::{Found, Room, is_frozen};
use olap_schema::Schema;
use olap_view::Store;
use std::alloc::Global;

/// Whether the root of a counterexample reaches the target by way of the category: whether the same choice of edges and
/// names is a frozen dimension for that question.
fn reaches_by(
    schema: &Schema,
    target: CatId,
    category: CatId,
    found: &Found,
    room: &mut Room,
) -> bool
    requires found { IsSomeCounterexample (schema_of schema.now) target.0 found.now }
    requires room { length room.old.rows.items ≡ category_count (schema_of schema.now).graph }
    ensures way { IsTrue result ↔ ReachesVia (found_instance (schema_of schema.now) found.now)
        (found_root (schema_of schema.now) found.now) category.0 target.0 }
    ensures room { length room.new.rows.items ≡ category_count (schema_of schema.now).graph }
{
    let via = Formula::Via(category, target);
    let is_way = is_frozen(
        schema.graph(),
        schema.constraints(),
        &via,
        &found.candidates,
        &found.frozen,
        room,
    );
    is_way
}

/// The pattern of a counterexample.
pub(crate) fn pattern(
    alloc: Global,
    schema: &Schema,
    store: &Store,
    target: CatId,
    found: &Found,
    room: &mut Room,
) -> Result<Vec<bool>, Memory>
    requires found { IsSomeCounterexample (schema_of schema.now) target.0 found.now }
    requires room { length room.old.rows.items ≡ category_count (schema_of schema.now).graph }
    ensures pattern { IfOk result (λ p. IsPattern (schema_of schema.now) (views_of store.now) target.0 p.items) }
    ensures count { IfOk result (λ p. length p.items ≡ length store.now.views) }
    ensures room { length room.new.rows.items ≡ category_count (schema_of schema.now).graph }
{
    // Called for its clause: the schema is valid.
    let _valid = schema.constraints();
    let mut pattern = Vec::new(alloc);
    'views: for view in store.views.items() {
        pattern.push(reaches_by(schema, target, view.category, found, room))?;
    }
    Ok(pattern)
}

/// How many of the mask's views are ways.
fn ways(mask: u16, pattern: &[bool]) -> usize
    requires { length pattern.now ≤ most_views }
    ensures { result ≡ ways_in pattern.now mask }
{
    let mut ways = 0;
    'views: for (k, is_way) in pattern.iter().enumerate() {
        if *is_way && has_bit(mask, k) {
            ways += 1;
        }
    }
    ways
}

/// Refutes the mask that was asked, and each mask of whose views not exactly one is a way.
pub(crate) fn refute(may_serve: &mut List<bool>, asked: u16, pattern: &[bool])
    requires masks { length may_serve.old ≤ 2 ^ most_views }
    requires few { length pattern.now ≤ most_views }
    ensures left { (m : ℕ) → MayServe may_serve.new m
        ↔ (MayServe may_serve.old m × (m ≢ asked) × (ways_in pattern.now m ≡ 1)) }
    ensures count { length may_serve.new ≡ length may_serve.old }
{
    'masks: for m in 0..may_serve.items().len() {
        let mask = m as u16;
        if mask == asked || ways(mask, pattern) != 1 {
            may_serve.set(m, false);
        }
    }
}
