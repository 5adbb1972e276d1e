// The command `format`: the canonical text of a schema.
ghost use Rattle.olap_schema_text.specs.Printing.{schema_text};
ghost use Rattle.olap_schema.specs.Schemas.{schema_of};
ghost use Rattle.olap_order.specs.Judged.{Replies};
ghost use Rattle.olap_order.specs.Order.{Told};
ghost use Rattle.olap_reasoning.specs.Questions.{IsAnswer};

use olap_order::{Reply, Status, Stop, yes};
use olap_schema::Schema;
use olap_schema_text::print_schema;
use std::alloc::Global;

/// The canonical text of a schema.
pub(crate) fn format(alloc: Global, schema: &Schema) -> Result<Reply, Stop>
    ensures replies { Replies IsAnswer (Told Status.Yes (schema_text (schema_of schema.now))) result }
{
    let text = print_schema(alloc, schema)?;
    Ok(yes(text.into_bytes()))
}
