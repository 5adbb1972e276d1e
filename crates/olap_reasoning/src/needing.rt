// The command `needs`: what must be added so that a view is always that from other views.
ghost use Rattle.std.specs.Prelude.{◌≡◌, ◌<◌, ◌^◌, ◌++◌, All, IfOk, codes, flat_map, length};
ghost use Rattle.olap_ast.specs.Findings.{Finding.Unsatisfiable};
ghost use Rattle.olap_ast.specs.Trees.{numbers_of};
ghost use Rattle.olap_base.specs.Graph.{IsCategory};
ghost use Rattle.olap_needs.specs.Listing.{ListsNeeded};
ghost use Rattle.olap_order.specs.Judged.{Replies};
ghost use Rattle.olap_order.specs.Order.{Done};
ghost use Rattle.olap_order.specs.Outputs.{line};
ghost use Rattle.olap_order.specs.Words.{texts};
ghost use Rattle.olap_reasoning.specs.Listings.{finding_text};
ghost use Rattle.olap_reasoning.specs.Questions.{ByNeeds, IsAnswer};
ghost use Rattle.olap_reasoning.specs.Under.{sources_under};
ghost use Rattle.olap_schema.specs.Schemas.{schema_of};

use crate::auditing::push_unsatisfiable;
use olap_base::{CatId, Memory};
use olap_graph::Graph;
use olap_needs::{Needs, has_room, needed};
use olap_order::{Reply, Stop, categories_at, category_at, no, refuse, yes};
use olap_schema::Schema;
use olap_schema_text::print_constraints;
use std::alloc::Global;

/// The line `no`, and a line for each category that can have no member.
fn emptied_lines(alloc: Global, graph: &Graph, emptied: &[CatId]) -> Result<Vec<u8>, Memory>
    requires { All (λ c. IsCategory graph.now c.0) emptied.now }
    ensures { IfOk result (λ text. text.items ≡ line (codes "no")
        ++ flat_map (λ b. finding_text graph.now (Unsatisfiable b)) (numbers_of emptied.now)) }
{
    let mut text = Vec::from_slice(alloc, b"no\n")?;
    'emptied: for category in emptied {
        push_unsatisfiable(&mut text, graph, *category)?;
    }
    Ok(text)
}

/// The lines of the constraints that are needed, or the categories that they leave without members.
fn told(
    alloc: Global,
    schema: &Schema,
    needs: &Needs,
    target: CatId,
    sources: &[CatId],
) -> Result<Reply, Stop>
    requires { ListsNeeded (schema_of schema.now) target.0 (numbers_of sources.now) needs.now }
    ensures replies { Replies IsAnswer
        (Done (ByNeeds (schema_of schema.now) target.0 (numbers_of sources.now))) result }
{
    let _target = target;
    if !has_room(schema, sources.len(), needs.constraints.len()) {
        return Err(refuse(alloc, "needs TooMany"));
    }
    if needs.emptied.is_empty() {
        let lines = print_constraints(alloc, schema.graph(), &needs.constraints)?;
        return Ok(yes(lines.into_bytes()));
    }
    let text = emptied_lines(alloc, schema.graph(), &needs.emptied)?;
    Ok(no(text))
}

/// What must be added so that the target's view is always that from the sources' views.
fn answered(alloc: Global, schema: &Schema, target: CatId, sources: &[CatId]) -> Result<Reply, Stop>
    requires target { IsCategory (schema_of schema.now).graph target.0 }
    requires sources { All (IsCategory (schema_of schema.now).graph) (numbers_of sources.now) }
    ensures replies { Replies IsAnswer
        (Done (ByNeeds (schema_of schema.now) target.0 (numbers_of sources.now))) result }
{
    let needs = needed(alloc, schema, target, sources)?;
    told(alloc, schema, &needs, target, sources)
}

/// What must be added to a schema so that the target's view is always that from the sources' views.
pub(crate) fn needs(
    alloc: Global,
    schema: &Schema,
    target: &str,
    sources: &[String],
) -> Result<Reply, Stop>
    requires few { length sources.now < 2 ^ 63 }
    ensures replies { Replies IsAnswer (sources_under ByNeeds (schema_of schema.now)
        target.now (texts sources.now)) result }
{
    let target = category_at(alloc, 3, schema, target)?;
    let sources = categories_at(alloc, 4, "DuplicateSource", schema, sources)?;
    answered(alloc, schema, target, &sources)
}
