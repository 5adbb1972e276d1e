// The command `rollup`: the direct view of a category.
ghost use Rattle.std.specs.Prelude.{codes};
ghost use Rattle.olap_base.specs.Views.{direct_view, members};
ghost use Rattle.olap_instance.specs.Made.{IsMadeFor};
ghost use Rattle.olap_schema.specs.Schemas.{schema_of};
ghost use Rattle.olap_view.specs.ViewText.{view_text};
ghost use Rattle.olap_order.specs.Judged.{Judged};
ghost use Rattle.olap_order.specs.Order.{Told, and_then};
ghost use Rattle.olap_reading.specs.Steps.{facts_file};
ghost use Rattle.olap_totals.specs.Under.{rollup_under};
ghost use Rattle.olap_totals.specs.Questions.{IsAnswer};

use olap_base::CatId;
use olap_legal::Legal;
use olap_order::{Reply, Status, Stop, category_at, yes};
use olap_outside::Library;
use olap_reading::{legal_in, views_in};
use olap_schema::Schema;
use olap_view::print_view;
use std::alloc::Global;

/// The direct view of a category, from the facts in a file.
fn view_in<L: Library>(
    alloc: Global,
    schema: &Schema,
    legal: &Legal,
    category: CatId,
    file: &str,
    lib: &mut L,
) -> Result<Reply, Stop>
    requires { IsMadeFor (schema_of schema.now).graph legal.now }
    ensures judged { Judged IsAnswer L.Library lib.old lib.new
        (and_then (facts_file (schema_of schema.now) legal.now (codes "facts") file.now) (λ table.
        Told Status.Yes (view_text legal.now (direct_view (members legal.now) table category.0)))) result }
{
    let views = views_in(alloc, schema, legal, &[category], file, lib)?;
    let text = print_view(alloc, legal.instance(), &views.items()[0])?;
    Ok(yes(text.into_bytes()))
}

/// The direct view of a category of a schema, from an instance and facts.
pub(crate) fn rollup<L: Library>(
    alloc: Global,
    schema: &Schema,
    instance: &str,
    facts: &str,
    category: &str,
    lib: &mut L,
) -> Result<Reply, Stop>
    ensures judged { Judged IsAnswer L.Library lib.old lib.new
        (rollup_under (schema_of schema.now) instance.now facts.now category.now) result }
{
    let category = category_at(alloc, 5, schema, category)?;
    let legal = legal_in(alloc, schema, "instance", instance, lib)?;
    view_in(alloc, schema, &legal, category, facts, lib)
}
