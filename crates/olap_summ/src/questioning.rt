// The question of summarizability, as it is asked of bottom categories.
ghost use Rattle.std.specs.Prelude.{◌≡◌, ◌≢◌, ◌↔◌, All, AllPairs, Err, IfOk};
ghost use Rattle.olap_base.specs.Graph.{IsCategory};
ghost use Rattle.olap_base.specs.declared.refusals.Refusal.TheVariants as refusal;
ghost use Rattle.olap_schema.specs.Schemas.{schema_of};
ghost use Rattle.olap_ast.specs.Trees.{numbers_of};
ghost use Rattle.olap_summ.specs.Decisions.{AreQuestionsFor, duplicate_source, sources_of, target_of};

use olap_ast::{Formula, are_distinct, not_by_one};
use olap_base::{CatId, List, Refusal};
use olap_schema::Schema;
use std::alloc::Global;

/// Why a question has no answer: a source stands twice.
#[derive(Clone, Copy, PartialEq, Eq, Debug)]
pub struct DuplicateSource;

/// Whether a target is summarizable from sources: the question, as it is asked of each bottom category.
#[derive(Drop)]
pub struct Questions {
    target: CatId,
    sources: List<CatId>,
    pub(crate) formula: Formula,
}

impl Questions {
    /// The question of this target and these sources. It keeps them, and the formula, which is the same at each bottom
    /// category.
    ///
    /// `DuplicateSource`: exactly if a source stands twice. The target may be a source, and either may be `All`.
    pub fn of(
        alloc: Global,
        schema: &Schema,
        target: CatId,
        sources: &[CatId],
    ) -> Result<Questions, Refusal<DuplicateSource>>
        requires target { IsCategory (schema_of schema.now).graph target.0 }
        requires sources { All (IsCategory (schema_of schema.now).graph) (numbers_of sources.now) }
        ensures duplicate { (result ≡ Err (refusal.Kind duplicate_source))
            ↔ (AllPairs ◌≢◌ (numbers_of sources.now) → ⊥) }
        ensures made { IfOk result (AreQuestionsFor (schema_of schema.now)) }
        ensures target { IfOk result (λ q. target_of q ≡ target.0) }
        ensures sources { IfOk result (λ q. sources_of q ≡ numbers_of sources.now) }
    {
        // Called for its clause: it is the schema's graph.
        let _graph = schema.graph();
        if !are_distinct(sources) {
            return Err(Refusal::Kind(DuplicateSource));
        }
        let kept = List::from_vec(Vec::from_slice(alloc, sources)?);
        let formula = not_by_one(alloc, target, sources)?;
        Ok(Questions {
            target,
            sources: kept,
            formula,
        })
    }

    /// The target that it was made with.
    pub fn target(&self) -> CatId
        ensures { result.0 ≡ target_of self.now }
    {
        self.target
    }

    /// The sources that it was made with, in their order.
    pub fn sources(&self) -> &[CatId]
        ensures { numbers_of result.now ≡ sources_of self.now }
    {
        self.sources.items()
    }
}
