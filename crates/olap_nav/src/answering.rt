// A view from stored views.
ghost use Rattle.std.specs.Prelude.{◌≡◌, ◌<◌, ℕ, All, IfErr, IfOk, List as Items, length};
ghost use Rattle.olap_ast.specs.Schema.{IsLegal};
ghost use Rattle.olap_base.specs.Graph.{IsCategory};
ghost use Rattle.olap_base.specs.Refusing.{IsFor};
ghost use Rattle.olap_base.specs.Views.{Fact, IsFactTable, direct_view, direct_views, members, rows_from_views};
ghost use Rattle.olap_nav.specs.Plans.{IsPlan, Serves, categories_of, rows_in};
ghost use Rattle.olap_schema.specs.Schemas.{schema_of};
ghost use Rattle.olap_view.specs.Seen.{view_of, views_of};
ghost use Rattle.olap_view.specs.Stores.{IsSoundStore, chosen};

use crate::choice::{NotAnswerable, Plan};
use crate::planning::plan;
use olap_base::{CatId, Refusal};
use olap_legal::Legal;
use olap_schema::Schema;
use olap_view::{Store, View, from_views};
use std::alloc::Global;

/// The plan for the target, and the view of the target from the plan's views.
///
/// Where the stored views are the direct views of one fact table on the instance, this is the target's direct view.
/// `NotAnswerable`: exactly if there is no plan. `Memory`: out of memory.
pub fn answer(
    alloc: Global,
    schema: &Schema,
    legal: &Legal,
    store: &Store,
    target: CatId,
) -> Result<(Plan, View), Refusal<NotAnswerable>>
    requires target { IsCategory (schema_of schema.now).graph target.0 }
    requires legal { IsLegal (schema_of schema.now) legal.now }
    requires sound { IsSoundStore (schema_of schema.now).graph legal.now (views_of store.now) }

    ensures plan { IfOk result (λ a. IsPlan (schema_of schema.now) (views_of store.now) target.0 a.0.mask) }
    ensures rows { IfOk result (λ a. a.0.rows ≡ rows_in (views_of store.now) a.0.mask) }
    ensures view { IfOk result (λ a. view_of a.1 ≡ record {
      target = target.0;
      rows = rows_from_views (members legal.now) target.0 (chosen (views_of store.now) a.0.mask);
    }) }
    ensures members { IfOk result (λ a. All (λ r. r.member.0 < length legal.now) a.1.rows) }

    ensures direct { IfOk result
        (λ a. (facts : Items (Fact ℕ)) → IsFactTable (schema_of schema.now).graph legal.now facts
        → views_of store.now ≡ direct_views (members legal.now) facts (categories_of (views_of store.now))
        → view_of a.1 ≡ direct_view (members legal.now) facts target.0) }

    ensures not_answerable { IfErr result (IsFor (λ _. (m : ℕ)
        → Serves (schema_of schema.now) (views_of store.now) target.0 m → ⊥)) }
{
    let plan = plan(alloc, schema, store, target)?;
    let view = from_views(alloc, legal, store, plan.mask, target)?;
    Ok((plan, view))
}
