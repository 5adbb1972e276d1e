// The commands `summarizable`, `prove` and `prove-short`: whether a view is always that from others, and why.
ghost use Rattle.std.specs.Prelude.{◌≢◌, All, AllPairs, length, ◌<◌, ◌^◌};
ghost use Rattle.olap_base.specs.Graph.{IsCategory};
ghost use Rattle.olap_schema.specs.Schemas.{schema_of};
ghost use Rattle.olap_ast.specs.Trees.{numbers_of};
ghost use Rattle.olap_reasoning.specs.Under.{sources_under};
ghost use Rattle.olap_order.specs.Judged.{Replies};
ghost use Rattle.olap_order.specs.Order.{Done};
ghost use Rattle.olap_reasoning.specs.Questions.{BySummarizable, IsAnswer};
ghost use Rattle.olap_reasoning.specs.Seen.{question_of};
ghost use Rattle.olap_order.specs.Words.{texts};

use crate::differing::shown;
use crate::proving::proved;
use crate::words::Wanted;
use olap_base::{CatId, Refusal};
use olap_order::{Reply, Stop, categories_at, category_at, yes};
use olap_schema::Schema;
use olap_summ::DuplicateSource;
use std::alloc::Global;

/// Whether the target's view is always that from the sources' views, with what shows that it isn't.
fn decided(alloc: Global, schema: &Schema, target: CatId, sources: &[CatId]) -> Result<Reply, Stop>
    requires target { IsCategory (schema_of schema.now).graph target.0 }
    requires sources { All (IsCategory (schema_of schema.now).graph) (numbers_of sources.now) }
    requires differ { AllPairs ◌≢◌ (numbers_of sources.now) }
    ensures replies { Replies IsAnswer
        (Done (BySummarizable (schema_of schema.now) target.0 (numbers_of sources.now))) result }
{
    match olap_summ::summarizable(alloc, schema, target, sources) {
        Ok(None) => Ok(yes(Vec::from_slice(alloc, b"yes\n")?)),
        Ok(Some(found)) => shown(alloc, schema, &found, target, sources),
        Err(Refusal::Kind(DuplicateSource)) => unreachable!(),
        Err(Refusal::Memory(memory)) => Err(Stop::Memory(memory)),
    }
}

/// What is wanted: whether the target's view is always that from the sources' views, or why.
fn answered(
    alloc: Global,
    wanted: Wanted,
    schema: &Schema,
    target: CatId,
    sources: &[CatId],
) -> Result<Reply, Stop>
    requires target { IsCategory (schema_of schema.now).graph target.0 }
    requires sources { All (IsCategory (schema_of schema.now).graph) (numbers_of sources.now) }
    requires differ { AllPairs ◌≢◌ (numbers_of sources.now) }
    ensures replies { Replies IsAnswer
        (Done (question_of wanted (schema_of schema.now) target.0 (numbers_of sources.now))) result }
{
    match wanted {
        Wanted::Answer => decided(alloc, schema, target, sources),
        Wanted::Certificate(form) => proved(alloc, schema, form, target, sources),
    }
}

/// Whether the target's view is always that from the sources' views, in all instances that are legal for a schema, or
/// why.
pub(crate) fn summarizable(
    alloc: Global,
    wanted: Wanted,
    schema: &Schema,
    target: &str,
    sources: &[String],
) -> Result<Reply, Stop>
    requires few { length sources.now < 2 ^ 63 }
    ensures replies { Replies IsAnswer (sources_under (question_of wanted) (schema_of schema.now)
        target.now (texts sources.now)) result }
{
    let target = category_at(alloc, 3, schema, target)?;
    let sources = categories_at(alloc, 4, "DuplicateSource", schema, sources)?;
    answered(alloc, wanted, schema, target, &sources)
}
