// The command `satisfiable`: whether a category can have a member.
ghost use Rattle.std.specs.Prelude.{◌≡◌, ◌++◌, codes, IfErr, IfOk};
ghost use Rattle.olap_base.specs.Graph.{IsCategory};
ghost use Rattle.olap_cex.specs.FrozenText.{frozen_text};
ghost use Rattle.olap_frozen.specs.LeastFound.{frozen_of};
ghost use Rattle.olap_frozen.specs.Leaves.{IsSized};
ghost use Rattle.olap_names.specs.Names.{candidates_of};
ghost use Rattle.olap_schema.specs.Schemas.{schema_of};
ghost use Rattle.olap_reasoning.specs.Under.{category_under};
ghost use Rattle.olap_order.specs.Judged.{Replies};
ghost use Rattle.olap_order.specs.Order.{Done};
ghost use Rattle.olap_order.specs.Outputs.{line};
ghost use Rattle.olap_order.specs.Refusals.{IsOutOfMemory};
ghost use Rattle.olap_reasoning.specs.Questions.{BySatisfiable, IsAnswer};

use olap_base::CatId;
use olap_cex::print_frozen;
use olap_frozen::Found;
use olap_order::{Reply, Status, Stop, category_at, no, yes};
use olap_schema::Schema;
use std::alloc::Global;

/// `yes`, and the line of a frozen dimension.
fn shown(alloc: Global, schema: &Schema, found: &Found) -> Result<Reply, Stop>
    requires { IsSized (schema_of schema.now).graph found.now.candidates found.now.frozen.edges
        found.now.frozen.names }
    ensures status { IfOk result (λ r. r.status ≡ Status.Yes) }
    ensures text { IfOk result (λ r. r.bytes.items ≡ line (codes "yes")
        ++ frozen_text (schema_of schema.now).graph (candidates_of found.now.candidates)
        found.now.frozen.root.0 (frozen_of found.now.frozen)) }
    ensures memory { IfErr result IsOutOfMemory }
{
    let line = print_frozen(alloc, schema.graph(), &found.frozen, &found.candidates)?;
    let mut text = Vec::from_slice(alloc, b"yes\n")?;
    text.extend_from_slice(line.bytes())?;
    Ok(yes(text))
}

/// Whether a category can have a member, with what shows it.
fn answered(alloc: Global, schema: &Schema, category: CatId) -> Result<Reply, Stop>
    requires { IsCategory (schema_of schema.now).graph category.0 }
    ensures replies { Replies IsAnswer
        (Done (BySatisfiable (schema_of schema.now) category.0)) result }
{
    match olap_summ::satisfiable(alloc, schema, category)? {
        None => Ok(no(Vec::from_slice(alloc, b"no\n")?)),
        Some(found) => shown(alloc, schema, &found),
    }
}

/// Whether a category can have a member in an instance that is legal for a schema.
pub(crate) fn satisfiable(alloc: Global, schema: &Schema, category: &str) -> Result<Reply, Stop>
    ensures replies { Replies IsAnswer
        (category_under BySatisfiable (schema_of schema.now) category.now) result }
{
    let category = category_at(alloc, 3, schema, category)?;
    answered(alloc, schema, category)
}
