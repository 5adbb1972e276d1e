// Why a view is always that from others: a certificate.
ghost use Rattle.std.specs.Prelude.{◌≢◌, All, AllPairs};
ghost use Rattle.olap_base.specs.Graph.{IsCategory};
ghost use Rattle.olap_schema.specs.Schemas.{schema_of};
ghost use Rattle.olap_ast.specs.Trees.{numbers_of};
ghost use Rattle.olap_order.specs.Judged.{Replies};
ghost use Rattle.olap_order.specs.Order.{Done};
ghost use Rattle.olap_reasoning.specs.Questions.{ByProof, IsAnswer};

use crate::differing::shown;
use olap_base::{CatId, Refusal};
use olap_order::{Reply, Stop, yes};
use olap_proof::Form;
use olap_prove::{Proof, prove};
use olap_schema::Schema;
use olap_summ::DuplicateSource;
use std::alloc::Global;

/// Why the target's view is always that from the sources' views, or what shows that it isn't.
pub(crate) fn proved(
    alloc: Global,
    schema: &Schema,
    form: Form,
    target: CatId,
    sources: &[CatId],
) -> Result<Reply, Stop>
    requires target { IsCategory (schema_of schema.now).graph target.0 }
    requires sources { All (IsCategory (schema_of schema.now).graph) (numbers_of sources.now) }
    requires differ { AllPairs ◌≢◌ (numbers_of sources.now) }
    ensures replies { Replies IsAnswer
        (Done (ByProof form (schema_of schema.now) target.0 (numbers_of sources.now))) result }
{
    match prove(alloc, schema, form, target, sources) {
        Ok(Proof::Yes(text)) => Ok(yes(text.into_bytes())),
        Ok(Proof::No(found)) => shown(alloc, schema, &found, target, sources),
        Err(Refusal::Kind(DuplicateSource)) => unreachable!(),
        Err(Refusal::Memory(memory)) => Err(Stop::Memory(memory)),
    }
}
