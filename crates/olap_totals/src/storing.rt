// The command `store`: the direct views of some categories as a text of stored views.
ghost use Rattle.std.specs.Prelude.{◌≢◌, ◌<◌, ◌^◌, All, AllPairs, codes, length};
ghost use Rattle.olap_base.specs.Graph.{IsCategory};
ghost use Rattle.olap_base.specs.Views.{direct_views, members};
ghost use Rattle.olap_instance.specs.Made.{IsMadeFor};
ghost use Rattle.olap_schema.specs.Schemas.{schema_of};
ghost use Rattle.olap_view.specs.Seen.{ids, views_of};
ghost use Rattle.olap_totals.specs.Commands.{store_told};
ghost use Rattle.olap_totals.specs.Under.{store_of, store_under};
ghost use Rattle.olap_order.specs.Judged.{Judged, Replies};
ghost use Rattle.olap_order.specs.Order.{and_then};
ghost use Rattle.olap_totals.specs.Questions.{IsAnswer};
ghost use Rattle.olap_reading.specs.Steps.{facts_file};
ghost use Rattle.olap_order.specs.Words.{texts};

use olap_base::{CatId, MOST_STORE_BYTES};
use olap_legal::Legal;
use olap_order::{Reply, Stop, categories_at, refuse_long, yes};
use olap_outside::Library;
use olap_reading::{legal_in, views_in};
use olap_schema::Schema;
use olap_view::{Store, print_store};
use std::alloc::Global;

/// The text of stored views, if it isn't longer than a file of them may be.
pub(crate) fn told(
    alloc: Global,
    schema: &Schema,
    legal: &Legal,
    store: &Store,
) -> Result<Reply, Stop>
    requires categories { All (λ v. IsCategory (schema_of schema.now).graph v.target) (views_of store.now) }
    requires at_members { All (λ v. All (λ r. r.at < length legal.now) v.rows) (views_of store.now) }
    ensures replies { Replies IsAnswer
        (store_told (schema_of schema.now).graph legal.now (views_of store.now)) result }
{
    let text = print_store(alloc, schema.graph(), legal.instance(), store)?;
    let bytes = text.into_bytes();
    if bytes.len() as u64 > MOST_STORE_BYTES {
        return Err(refuse_long(alloc, "store"));
    }
    Ok(yes(bytes))
}

/// The direct views of some categories, from the facts in a file.
fn stored<L: Library>(
    alloc: Global,
    schema: &Schema,
    legal: &Legal,
    categories: &[CatId],
    file: &str,
    lib: &mut L,
) -> Result<Reply, Stop>
    requires made { IsMadeFor (schema_of schema.now).graph legal.now }
    requires categories { All (IsCategory (schema_of schema.now).graph) (ids categories.now) }
    requires differ { AllPairs ◌≢◌ (ids categories.now) }
    ensures judged { Judged IsAnswer L.Library lib.old lib.new
        (and_then (facts_file (schema_of schema.now) legal.now (codes "facts") file.now) (λ table.
        store_told (schema_of schema.now).graph legal.now
        (direct_views (members legal.now) table (ids categories.now)))) result }
{
    let views = views_in(alloc, schema, legal, categories, file, lib)?;
    let store = Store { views };
    told(alloc, schema, legal, &store)
}

/// The direct views of some categories, from an instance and facts.
fn of_instance<L: Library>(
    alloc: Global,
    schema: &Schema,
    categories: &[CatId],
    instance: &str,
    facts: &str,
    lib: &mut L,
) -> Result<Reply, Stop>
    requires categories { All (IsCategory (schema_of schema.now).graph) (ids categories.now) }
    requires differ { AllPairs ◌≢◌ (ids categories.now) }
    ensures judged { Judged IsAnswer L.Library lib.old lib.new
        (store_of (schema_of schema.now) instance.now facts.now (ids categories.now)) result }
{
    let legal = legal_in(alloc, schema, "instance", instance, lib)?;
    stored(alloc, schema, &legal, categories, facts, lib)
}

/// The direct views of some categories of a schema, from an instance and facts.
pub(crate) fn store<L: Library>(
    alloc: Global,
    schema: &Schema,
    instance: &str,
    facts: &str,
    categories: &[String],
    lib: &mut L,
) -> Result<Reply, Stop>
    requires few { length categories.now < 2 ^ 63 }
    ensures judged { Judged IsAnswer L.Library lib.old lib.new
        (store_under (schema_of schema.now) instance.now facts.now (texts categories.now)) result }
{
    let categories = categories_at(alloc, 5, "DuplicateView", schema, categories)?;
    of_instance(alloc, schema, &categories, instance, facts, lib)
}
