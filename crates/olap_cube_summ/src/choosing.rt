// The least bad choice of frozen dimensions with given roots.
ghost use Rattle.std.specs.Prelude.{◌≡◌, ◌<◌, ◌≤◌, ◌^◌, ◌∷◌, All, IfOk, length};
ghost use Rattle.olap_base.specs.Limits.{most_views};
ghost use Rattle.olap_cube_summ.specs.Choices.{AreLeast, IsDimension, IsLeastBefore, dimensions_of};
ghost use Rattle.olap_cube_summ.specs.Dimensions.{schemas_of};
ghost use Rattle.olap_cube_summ.specs.Families.{patterns_of};
ghost use Rattle.olap_cube_summ.specs.Masks.{CanBeBad, all_of};
ghost use Rattle.olap_schema.specs.Schemas.{schema_of};

use crate::asking::least_found;
use crate::cubes::Cube;
use crate::families::Family;
use crate::masks::{Patterns, all, possible};
use crate::questions::Question;
use crate::ways::pattern;
use olap_base::{List, Memory};
use olap_frozen::{Found, Room};
use olap_schema::Schema;
use std::alloc::Global;

// A frozen dimension, and what its pattern leaves of a mask.
#[derive(Drop)]
struct Taken {
    found: Found,
    left: u16,
}

// The least frozen dimension of the family with whose pattern the rest can still be bad.
fn take_least(
    alloc: Global,
    schema: &Schema,
    question: &Question,
    family: Family,
    rest: &[Patterns],
    mask: u16,
) -> Result<Taken, Memory>
    requires dimension { IsDimension (length question.now.sources)
        (record { schema = schema_of schema.now; question = question.now; family = family }) }
    requires mask { mask < 2 ^ most_views }
    requires bad { CanBeBad (length question.now.sources) (family.patterns ∷ rest.now) mask }
    ensures least { IfOk result (λ taken. IsLeastBefore (length question.now.sources)
        (record { schema = schema_of schema.now; question = question.now; family = family })
        rest.now mask taken.found taken.left) }
    ensures small { IfOk result (λ taken. taken.left < 2 ^ most_views) }
{
    let sources = question.sources.items().len();
    let patterns = possible(mask, &family.patterns, rest, sources);
    let found = least_found(alloc, schema, question, family.bottom, &patterns)?;
    let mut room = Room::new(alloc, schema.graph())?;
    let pattern = pattern(
        schema,
        question,
        &found.candidates,
        &found.frozen,
        &mut room,
    );
    let left = mask & pattern;
    Ok(Taken { found, left })
}

// The patterns of each family.
fn sets(alloc: Global, families: &[Family]) -> Result<Vec<Patterns>, Memory>
    ensures { IfOk result (λ sets. sets.items ≡ patterns_of families.now) }
{
    let mut sets = Vec::new(alloc);
    'families: for k in 0..families.len() {
        sets.push(families[k].patterns)?;
    }
    Ok(sets)
}

/// Of the bad choices with the families' roots the one whose list of codes is least: dimension by dimension the least
/// frozen dimension with whose pattern the rest can still be bad.
pub(crate) fn least_choice(
    alloc: Global,
    cube: &Cube,
    questions: &[Question],
    families: &[Family],
    sources: usize,
) -> Result<List<Found>, Memory>
    requires few { sources ≤ most_views }
    requires questions { length questions.now ≡ length (schemas_of cube.now) }
    requires families { length families.now ≡ length (schemas_of cube.now) }
    requires dimensions { All (IsDimension sources)
        (dimensions_of (schemas_of cube.now) questions.now families.now) }
    requires bad { CanBeBad sources (patterns_of families.now) (all_of sources) }
    ensures { IfOk result (AreLeast sources (dimensions_of (schemas_of cube.now) questions.now families.now)
        (all_of sources)) }
{
    let sets = sets(alloc, families)?;
    let mut mask = all(sources);
    let mut founds = Vec::new(alloc);
    'dimensions: for i in 0..cube.len() {
        let schema = cube.schema(i);
        let taken = take_least(
            alloc,
            schema,
            &questions[i],
            families[i],
            &sets[i + 1..],
            mask,
        )?;
        mask = taken.left;
        founds.push(taken.found)?;
    }
    Ok(List::from_vec(founds))
}
