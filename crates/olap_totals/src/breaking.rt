// The command `breaks`: the members of an instance at which a view isn't that from other views.
ghost use Rattle.std.specs.Prelude.{◌<◌, ◌^◌, codes, length};
ghost use Rattle.olap_breaks.specs.Breaks.{breaks, breaks_text};
ghost use Rattle.olap_breaks.specs.Seen.{ids};
ghost use Rattle.olap_instance.specs.Made.{IsMadeFor};
ghost use Rattle.olap_schema.specs.Schemas.{schema_of};
ghost use Rattle.olap_order.specs.Judged.{Judged, Replies};
ghost use Rattle.olap_order.specs.Order.{Told};
ghost use Rattle.olap_order.specs.Words.{texts};
ghost use Rattle.olap_totals.specs.Questions.{IsAnswer};
ghost use Rattle.olap_totals.specs.Under.{breaks_of, breaks_status, breaks_under};

use olap_base::CatId;
use olap_breaks::print_breaks;
use olap_legal::Legal;
use olap_order::{Reply, Stop, categories_at, category_at, no, yes};
use olap_outside::Library;
use olap_reading::legal_in;
use olap_schema::Schema;
use std::alloc::Global;

/// The members of a legal instance at which totals differ.
fn told(
    alloc: Global,
    schema: &Schema,
    legal: &Legal,
    target: CatId,
    sources: &[CatId],
) -> Result<Reply, Stop>
    requires { IsMadeFor (schema_of schema.now).graph legal.now }
    ensures replies { let found = breaks (schema_of schema.now).graph legal.now target.0 (ids sources.now) in
        Replies IsAnswer (Told (breaks_status found) (breaks_text legal.now found)) result }
{
    let found = olap_breaks::breaks(alloc, schema.graph(), legal, target, sources)?;
    let text = print_breaks(alloc, legal.instance(), &found)?;
    if found.is_empty() {
        Ok(yes(text))
    } else {
        Ok(no(text))
    }
}

/// The same of the instance in a file.
fn of_instance<L: Library>(
    alloc: Global,
    schema: &Schema,
    target: CatId,
    sources: &[CatId],
    instance: &str,
    lib: &mut L,
) -> Result<Reply, Stop>
    ensures judged { Judged IsAnswer L.Library lib.old lib.new
        (breaks_of (schema_of schema.now) instance.now target.0 (ids sources.now)) result }
{
    let legal = legal_in(alloc, schema, "instance", instance, lib)?;
    told(alloc, schema, &legal, target, sources)
}

/// The members at which the target's view isn't that from the sources' views, of an instance in a file.
pub(crate) fn breaks<L: Library>(
    alloc: Global,
    schema: &Schema,
    instance: &str,
    target: &str,
    sources: &[String],
    lib: &mut L,
) -> Result<Reply, Stop>
    requires few { length sources.now < 2 ^ 63 }
    ensures judged { Judged IsAnswer L.Library lib.old lib.new
        (breaks_under (schema_of schema.now) instance.now target.now (texts sources.now)) result }
{
    let target = category_at(alloc, 4, schema, target)?;
    let sources = categories_at(alloc, 5, "DuplicateSource", schema, sources)?;
    of_instance(alloc, schema, target, &sources, instance, lib)
}
