// The command `answer`: a view from stored views.
ghost use Rattle.std.specs.Prelude.{◌≡◌, [], ◌++◌, ◌∷◌, ◌<◌, All, IfOk, length};
ghost use Rattle.olap_ast.specs.Schema.{IsLegal};
ghost use Rattle.olap_base.specs.Graph.{IsCategory};
ghost use Rattle.olap_instance.specs.Made.{IsMadeFor};
ghost use Rattle.olap_nav.specs.PlanText.{plan_text};
ghost use Rattle.olap_nav.specs.Plans.{sources_in};
ghost use Rattle.olap_schema.specs.Schemas.{schema_of};
ghost use Rattle.olap_view.specs.Seen.{view_of, views_of};
ghost use Rattle.olap_view.specs.Stores.{IsSoundStore, IsStore};
ghost use Rattle.olap_view.specs.ViewText.{view_text};
ghost use Rattle.olap_plans.specs.Commands.{answer_order};
ghost use Rattle.olap_order.specs.Judged.{Judged, Replies};
ghost use Rattle.olap_order.specs.Order.{Done};
ghost use Rattle.olap_plans.specs.Questions.{ByPlan, IsAnswer};
ghost use Rattle.olap_plans.specs.Under.{answer_of, answer_under};

use olap_base::{CatId, Memory, Refusal};
use olap_graph::Graph;
use olap_legal::Legal;
use olap_nav::{NotAnswerable, print_plan};
use olap_order::{Reply, Stop, category_at, refuse, schema_in, yes};
use olap_outside::Library;
use olap_reading::{legal_in, store_in};
use olap_schema::Schema;
use olap_view::{Store, View, print_view_behind};
use std::alloc::Global;

/// The line of a plan, and the view that it gives.
fn answer_text(
    alloc: Global,
    graph: &Graph,
    legal: &Legal,
    store: &Store,
    mask: u16,
    view: &View,
) -> Result<Vec<u8>, Memory>
    requires store { IsStore (views_of store.now) }
    requires categories { All (λ v. IsCategory graph.now v.target) (views_of store.now) }
    requires members { All (λ r. r.member.0 < length legal.now) view.now.rows }
    ensures { IfOk result (λ text. text.items ≡ plan_text graph.now (sources_in (views_of store.now) mask)
        ++ view_text legal.now (view_of view.now)) }
{
    let line = print_plan(alloc, graph, store, mask)?;
    print_view_behind(line.into_bytes(), legal.instance(), view)
}

/// The view of the target from the stored views, if there is a plan.
fn answered(
    alloc: Global,
    schema: &Schema,
    legal: &Legal,
    store: &Store,
    target: CatId,
) -> Result<Reply, Stop>
    requires target { IsCategory (schema_of schema.now).graph target.0 }
    requires legal { IsLegal (schema_of schema.now) legal.now }
    requires sound { IsSoundStore (schema_of schema.now).graph legal.now (views_of store.now) }
    ensures replies { Replies IsAnswer
        (Done (ByPlan (schema_of schema.now) legal.now (views_of store.now) target.0)) result }
{
    match olap_nav::answer(alloc, schema, legal, store, target) {
        Ok((plan, view)) => {
            let text = answer_text(alloc, schema.graph(), legal, store, plan.mask, &view)?;
            Ok(yes(text))
        }
        Err(Refusal::Kind(NotAnswerable)) => Err(refuse(alloc, "answer NotAnswerable")),
        Err(Refusal::Memory(memory)) => Err(Stop::Memory(memory)),
    }
}

/// The view of the target from the stored views in a file.
fn of_store<L: Library>(
    alloc: Global,
    schema: &Schema,
    legal: &Legal,
    store: &str,
    target: CatId,
    lib: &mut L,
) -> Result<Reply, Stop>
    requires target { IsCategory (schema_of schema.now).graph target.0 }
    requires legal { IsLegal (schema_of schema.now) legal.now }
    requires made { IsMadeFor (schema_of schema.now).graph legal.now }
    ensures judged { Judged IsAnswer L.Library lib.old lib.new
        (answer_of (schema_of schema.now) legal.now store.now target.0) result }
{
    let store = store_in(alloc, schema, legal, "store", store, lib)?;
    answered(alloc, schema, legal, &store, target)
}

/// A view from stored views under a schema, from an instance and a store.
fn answer_under_schema<L: Library>(
    alloc: Global,
    schema: &Schema,
    instance: &str,
    store: &str,
    target: &str,
    lib: &mut L,
) -> Result<Reply, Stop>
    ensures judged { Judged IsAnswer L.Library lib.old lib.new
        (answer_under (schema_of schema.now) instance.now store.now target.now) result }
{
    let target = category_at(alloc, 5, schema, target)?;
    let legal = legal_in(alloc, schema, "instance", instance, lib)?;
    of_store(alloc, schema, &legal, store, target, lib)
}

/// A view from stored views, from a schema, an instance and a store.
pub(crate) fn answer<L: Library>(
    alloc: Global,
    schema: &str,
    instance: &str,
    store: &str,
    target: &str,
    lib: &mut L,
) -> Result<Reply, Stop>
    ensures judged { Judged IsAnswer L.Library lib.old lib.new
        (answer_order (schema.now ∷ instance.now ∷ store.now ∷ target.now ∷ [])) result }
{
    let schema = schema_in(alloc, "schema", schema, lib)?;
    answer_under_schema(alloc, &schema, instance, store, target, lib)
}
