// What comes of the commands over an instance and its facts, before anything is written.
ghost use Rattle.olap_schema.specs.Schemas.{schema_of};
ghost use Rattle.olap_order.specs.Families.{FamilyJudged};
ghost use Rattle.olap_order.specs.Judged.{Judged};
ghost use Rattle.olap_order.specs.Words.{texts};
ghost use Rattle.olap_totals.specs.Commands.{order_named};
ghost use Rattle.olap_totals.specs.Questions.{IsAnswer};
ghost use Rattle.olap_totals.specs.Seen.{seen, seen_under};

use crate::breaking::breaks;
use crate::changing::change;
use crate::checking::check;
use crate::rolling_up::rollup;
use crate::storing::store;
use crate::words::{Asked, Command, parse};
use olap_order::{Reply, Stop, schema_in};
use olap_outside::Library;
use olap_schema::Schema;
use std::alloc::Global;

/// The reply to what is asked under a schema.
fn reply<L: Library>(
    alloc: Global,
    schema: &Schema,
    asked: Asked,
    lib: &mut L,
) -> Result<Reply, Stop>
    ensures judged { Judged IsAnswer L.Library lib.old lib.new
        (seen_under (schema_of schema.now) asked.entry) result }
{
    match asked {
        Asked::Rollup {
            instance,
            facts,
            category,
        } => rollup(alloc, schema, instance, facts, category, lib),
        Asked::Check { instance } => check(alloc, schema, instance, lib),
        Asked::Store {
            instance,
            facts,
            categories,
        } => store(alloc, schema, instance, facts, categories, lib),
        Asked::Breaks {
            instance,
            target,
            sources,
        } => breaks(alloc, schema, instance, target, sources, lib),
        Asked::Change {
            change: how,
            instance,
            store,
            facts,
        } => change(alloc, how, schema, instance, store, facts, lib),
    }
}

/// The reply of a command.
fn run<L: Library>(alloc: Global, command: Command, lib: &mut L) -> Result<Reply, Stop>
    ensures judged { Judged IsAnswer L.Library lib.old lib.new (seen command.entry) result }
{
    let schema = schema_in(alloc, "schema", command.schema, lib)?;
    reply(alloc, &schema, command.asked, lib)
}

/// The reply of the command of that name with these words after it; none, and no file is opened, if this family has no
/// such command.
pub fn judge<L: Library>(
    alloc: Global,
    name: &str,
    words: &[String],
    lib: &mut L,
) -> Option<Result<Reply, Stop>>
    ensures judged { FamilyJudged IsAnswer L.Library lib.old lib.new
        (order_named name.now (texts words.now)) result }
{
    let command = parse(name, words)?;
    Some(run(alloc, command, lib))
}
