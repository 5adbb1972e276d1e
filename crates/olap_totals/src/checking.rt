// The command `check`: whether an instance is legal.
ghost use Rattle.std.specs.Prelude.{◌++◌, ◌-◌, codes, decimal, length};
ghost use Rattle.olap_schema.specs.Schemas.{schema_of};
ghost use Rattle.olap_totals.specs.Under.{check_under};
ghost use Rattle.olap_order.specs.Judged.{Judged, Replies};
ghost use Rattle.olap_order.specs.Order.{Told};
ghost use Rattle.olap_order.specs.Outputs.{line};
ghost use Rattle.olap_totals.specs.Questions.{IsAnswer};

use olap_legal::Legal;
use olap_order::{Reply, Status, Stop, yes};
use olap_outside::Library;
use olap_reading::legal_in;
use olap_schema::Schema;
use std::alloc::Global;

/// How many members beside `all` a legal instance has.
fn counted(alloc: Global, legal: &Legal) -> Result<Reply, Stop>
    ensures replies { Replies IsAnswer (Told Status.Yes
        (line (codes "legal " ++ decimal (length legal.now - 1)))) result }
{
    let count = legal.instance().members() - 1;
    let text = format!(in alloc; "legal {count}\n")?;
    Ok(yes(text.into_bytes()))
}

/// Whether the instance in a file is legal for a schema.
pub(crate) fn check<L: Library>(
    alloc: Global,
    schema: &Schema,
    instance: &str,
    lib: &mut L,
) -> Result<Reply, Stop>
    ensures judged { Judged IsAnswer L.Library lib.old lib.new
        (check_under (schema_of schema.now) instance.now) result }
{
    let legal = legal_in(alloc, schema, "instance", instance, lib)?;
    counted(alloc, &legal)
}
