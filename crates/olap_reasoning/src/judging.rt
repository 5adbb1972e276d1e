// What comes of the commands about all legal instances of a schema, before anything is written.
ghost use Rattle.olap_schema.specs.Schemas.{schema_of};
ghost use Rattle.olap_order.specs.Families.{FamilyJudged};
ghost use Rattle.olap_order.specs.Judged.{Judged, Replies};
ghost use Rattle.olap_order.specs.Words.{texts};
ghost use Rattle.olap_reasoning.specs.Commands.{order_named};
ghost use Rattle.olap_reasoning.specs.Questions.{IsAnswer};
ghost use Rattle.olap_reasoning.specs.Seen.{seen, seen_under};

use crate::auditing::audit;
use crate::formatting::format;
use crate::implying::implies;
use crate::listing::frozen;
use crate::needing::needs;
use crate::satisfying::satisfiable;
use crate::shaping::shapes;
use crate::summarizing::summarizable;
use crate::words::{Asked, Command, parse};
use olap_order::{Reply, Stop, schema_in};
use olap_outside::Library;
use olap_schema::Schema;
use std::alloc::Global;

/// The reply to what is asked of a schema.
fn reply(alloc: Global, schema: &Schema, asked: Asked) -> Result<Reply, Stop>
    ensures replies { Replies IsAnswer (seen_under (schema_of schema.now) asked.entry) result }
{
    match asked {
        Asked::Format => format(alloc, schema),
        Asked::Satisfiable { category } => satisfiable(alloc, schema, category),
        Asked::Implies { root, formula } => implies(alloc, schema, root, formula),
        Asked::Summarizable {
            wanted,
            target,
            sources,
        } => summarizable(alloc, wanted, schema, target, sources),
        Asked::Needs { target, sources } => needs(alloc, schema, target, sources),
        Asked::Frozen { category } => frozen(alloc, schema, category),
        Asked::Shapes { category } => shapes(alloc, schema, category),
        Asked::Audit => audit(alloc, schema),
    }
}

/// The reply of a command.
fn run<L: Library>(alloc: Global, command: Command, lib: &mut L) -> Result<Reply, Stop>
    ensures judged { Judged IsAnswer L.Library lib.old lib.new (seen command.entry) result }
{
    let schema = schema_in(alloc, "schema", command.schema, lib)?;
    reply(alloc, &schema, command.asked)
}

/// The reply of the command of that name with these words after it; none, and no file is opened, if this family has no
/// such command.
pub fn judge<L: Library>(
    alloc: Global,
    name: &str,
    words: &[String],
    lib: &mut L,
) -> Option<Result<Reply, Stop>>
    ensures judged { FamilyJudged IsAnswer L.Library lib.old lib.new
        (order_named name.now (texts words.now)) result }
{
    let command = parse(name, words)?;
    Some(run(alloc, command, lib))
}
