// Tuples of categories that can be computed from others.
ghost use Rattle.std.specs.Prelude.{◌≡◌, ◌≢◌, ◌<◌, ◌≤◌, ◌↔◌, All, AllPairs, Err, IfOk, IfSome, IsNone, length};
ghost use Rattle.olap_ast.specs.Valid.{IsValidSchema};
ghost use Rattle.olap_base.specs.Limits.{most_views};
ghost use Rattle.olap_base.specs.declared.refusals.Refusal.TheVariants as refusal;
ghost use Rattle.olap_cube.specs.CubeSummarizable.{IsCubeSummarizable};
ghost use Rattle.olap_cube.specs.Told.{tuple_of, tuples_in};
ghost use Rattle.olap_cube_summ.specs.Choices.{AreFamiliesOf};
ghost use Rattle.olap_cube_summ.specs.Questions.{AreQuestionsOf, duplicate_source};
ghost use Rattle.olap_cube_summ.specs.Dimensions.{AreCategoriesOf, schemas_of};
ghost use Rattle.olap_cube_summ.specs.Found.{IsCubeCounterexampleFound};

use crate::bottoms::families;
use crate::choosing::least_choice;
use crate::cubes::Cube;
use crate::distinct::are_distinct;
use crate::families::{Family, first_families, unions};
use crate::found::CubeFound;
use crate::masks::{all, can_be_bad};
use crate::questions::{Question, questions};
use olap_base::{List, Memory, Refusal};
use olap_cube::{Tuple, cube_summarizable_exactly_if_none_bad};
use std::alloc::Global;

/// Why a question on a cube has no answer: a source stands twice.
#[derive(Clone, Copy, PartialEq, Eq, Debug)]
pub struct DuplicateSource;

// The families of each dimension.
fn all_families(
    alloc: Global,
    cube: &Cube,
    questions: &[Question],
) -> Result<Vec<List<Family>>, Memory>
    requires { AreQuestionsOf (schemas_of cube.now) questions.now }
    ensures families { IfOk result (λ families. AreFamiliesOf (schemas_of cube.now) questions.now families.items) }
    ensures valid { IfOk result (λ _. All IsValidSchema (schemas_of cube.now)) }
{
    let mut all = Vec::new(alloc);
    'dimensions: for i in 0..cube.len() {
        let schema = cube.schema(i);
        // Called for its clause: the schema is valid.
        let _valid = schema.constraints();
        let next = families(alloc, schema, &questions[i])?;
        all.push(next)?;
    }
    Ok(all)
}

// The counterexample, where no source stands twice.
fn counterexample(
    alloc: Global,
    cube: &Cube,
    target: &Tuple,
    sources: &[Tuple],
) -> Result<Option<CubeFound>, Memory>
    requires target { AreCategoriesOf (schemas_of cube.now) (tuple_of target.now) }
    requires sources { All (AreCategoriesOf (schemas_of cube.now)) (tuples_in sources.now) }
    requires few { length sources.now ≤ most_views }
    ensures none { IfOk result (λ o. IsNone o
        ↔ IsCubeSummarizable (schemas_of cube.now) (tuple_of target.now) (tuples_in sources.now)) }
    ensures found { IfOk result (λ o. IfSome o
        (λ found. IsCubeCounterexampleFound (schemas_of cube.now) (tuple_of target.now) (tuples_in sources.now)
        found.founds)) }
{
    let count = sources.len();
    let questions = questions(alloc, cube.len(), target, sources)?;
    let families = all_families(alloc, cube, &questions)?;
    let sets = unions(alloc, &families)?;
    cube_summarizable_exactly_if_none_bad();
    if !can_be_bad(all(count), sets.items(), count) {
        return Ok(None);
    }
    let first = first_families(alloc, &families, sets.items(), count)?;
    let founds = least_choice(alloc, cube, &questions, first.items(), count)?;
    Ok(Some(CubeFound { founds }))
}

/// The counterexample to summarizability of a cube: of the first tuple of bottom categories that has a bad choice of
/// frozen dimensions the one whose list of codes is least. None exactly if the target is summarizable from the
/// sources: for all legal instances of the schemas and all fact tables its view from the sources' views is its direct
/// view.
///
/// `DuplicateSource`: exactly if a source stands twice. `Memory`: out of memory. The target may be a source.
///
/// It makes two searches for each bottom category of each dimension, one more for each pattern that the first of them
/// passes over, and one for each dimension; one stands at a time.
pub fn cube_summarizable(
    alloc: Global,
    cube: &Cube,
    target: &Tuple,
    sources: &[Tuple],
) -> Result<Option<CubeFound>, Refusal<DuplicateSource>>
    requires some { 0 < length (schemas_of cube.now) }
    requires target { AreCategoriesOf (schemas_of cube.now) (tuple_of target.now) }
    requires sources { All (AreCategoriesOf (schemas_of cube.now)) (tuples_in sources.now) }
    requires few { length sources.now ≤ most_views }
    ensures duplicate { (result ≡ Err (refusal.Kind duplicate_source))
        ↔ (AllPairs ◌≢◌ (tuples_in sources.now) → ⊥) }
    ensures none { IfOk result (λ o. IsNone o
        ↔ IsCubeSummarizable (schemas_of cube.now) (tuple_of target.now) (tuples_in sources.now)) }
    ensures found { IfOk result (λ o. IfSome o
        (λ found. IsCubeCounterexampleFound (schemas_of cube.now) (tuple_of target.now) (tuples_in sources.now)
        found.founds)) }
{
    if !are_distinct(sources) {
        return Err(Refusal::Kind(DuplicateSource));
    }
    let found = counterexample(alloc, cube, target, sources)?;
    Ok(found)
}
