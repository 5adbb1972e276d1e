// Questions, one of each dimension.
ghost use Rattle.std.specs.Prelude.{◌≡◌, ◌<◌, All, IfOk, length, slice_index};
ghost use Rattle.olap_cube.specs.Told.{tuple_of, tuples_in};
ghost use Rattle.olap_cube_summ.specs.Questions.{AreQuestions, IsColumn};
ghost use Rattle.olap_ast.specs.Trees.{numbers_of};

use olap_base::{CatId, List, Memory};
use olap_cube::Tuple;
use std::alloc::Global;

/// What is asked of a dimension: by way of which sources its roots reach the target.
#[derive(Drop)]
pub(crate) struct Question {
    pub(crate) target: CatId,
    pub(crate) sources: List<CatId>,
}

// The tuple's category in the i-th dimension.
fn category(tuple: &Tuple, i: usize) -> CatId
    requires { i < length (tuple_of tuple.now) }
    ensures { result.0 ≡ slice_index (tuple_of tuple.now) i }
{
    tuple.categories.items()[i]
}

// The categories that the sources have in the i-th dimension.
fn column(alloc: Global, sources: &[Tuple], i: usize) -> Result<List<CatId>, Memory>
    requires { All (λ t. i < length t) (tuples_in sources.now) }
    ensures { IfOk result (λ column. IsColumn i (tuples_in sources.now) (numbers_of column)) }
{
    let mut column = Vec::new(alloc);
    'sources: for source in sources {
        column.push(category(source, i))?;
    }
    Ok(List::from_vec(column))
}

/// The question of each of this many dimensions.
pub(crate) fn questions(
    alloc: Global,
    dimensions: usize,
    target: &Tuple,
    sources: &[Tuple],
) -> Result<Vec<Question>, Memory>
    requires target { length (tuple_of target.now) ≡ dimensions }
    requires sources { All (λ t. length t ≡ dimensions) (tuples_in sources.now) }
    ensures { IfOk result (λ questions. AreQuestions (tuple_of target.now) (tuples_in sources.now) questions.items) }
{
    let mut questions = Vec::new(alloc);
    'dimensions: for i in 0..dimensions {
        let column = column(alloc, sources, i)?;
        let question = Question {
            target: category(target, i),
            sources: column,
        };
        questions.push(question)?;
    }
    Ok(questions)
}
