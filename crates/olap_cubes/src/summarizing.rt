// The command `cube`: whether a target is summarizable from sources, each a category of each dimension.
ghost use Rattle.std.specs.Prelude.{◌≡◌, ◌≢◌, ◌+◌, ◌++◌, ◌<◌, ◌^◌, ◌≤◌, All, AllPairs, IfOk, codes, length, map};
ghost use Rattle.olap_base.specs.Limits.{most_views};
ghost use Rattle.olap_cube.specs.Told.{tuple_of, tuples_in};
ghost use Rattle.olap_cube_summ.specs.CubeCexText.{cube_counterexample_text};
ghost use Rattle.olap_cube_summ.specs.Dimensions.{AreCategoriesOf, schemas_of};
ghost use Rattle.olap_cube_summ.specs.Found.{IsCubeCounterexampleFound, chosen_of};
ghost use Rattle.olap_order.specs.Judged.{Judged, Replies};
ghost use Rattle.olap_order.specs.Order.{Done};
ghost use Rattle.olap_order.specs.Outputs.{line};
ghost use Rattle.olap_order.specs.Words.{texts};
ghost use Rattle.olap_cubes.specs.Cut.{cube_of};
ghost use Rattle.olap_cubes.specs.Questions.{ByCube, IsAnswer};
ghost use Rattle.olap_cubes.specs.Seen.{AreDimensions};
ghost use Rattle.olap_cubes.specs.Under.{cube_from, cube_under};

use crate::dimensions::schemas_in;
use crate::naming::{tuple_at, tuples_at};
use olap_base::{List, Memory, Refusal};
use olap_cube::Tuple;
use olap_cube_summ::{Cube, CubeFound, DuplicateSource, cube_summarizable, print_cube};
use olap_order::{Reply, Stop, no, yes};
use olap_outside::Library;
use std::alloc::Global;

/// The line `no`, and the lines of the counterexample.
fn difference(
    alloc: Global,
    cube: &Cube,
    found: &CubeFound,
    target: &Tuple,
    sources: &[Tuple],
) -> Result<Vec<u8>, Memory>
    requires target { AreCategoriesOf (schemas_of cube.now) (tuple_of target.now) }
    requires sources { All (AreCategoriesOf (schemas_of cube.now)) (tuples_in sources.now) }
    requires found { IsCubeCounterexampleFound (schemas_of cube.now) (tuple_of target.now)
        (tuples_in sources.now) found.now.founds }
    ensures text { IfOk result (λ text. text.items
        ≡ line (codes "no") ++ cube_counterexample_text (schemas_of cube.now)
        (map chosen_of found.now.founds) (tuple_of target.now) (tuples_in sources.now)) }
{
    let mut text = Vec::from_slice(alloc, b"no\n")?;
    let lines = print_cube(alloc, cube, found, target, sources)?;
    text.extend_from_slice(lines.bytes())?;
    Ok(text)
}

/// Whether the target is summarizable from the sources, and else the counterexample.
fn told(alloc: Global, cube: &Cube, target: &Tuple, sources: &[Tuple]) -> Result<Reply, Stop>
    requires some { 0 < length (schemas_of cube.now) }
    requires target { AreCategoriesOf (schemas_of cube.now) (tuple_of target.now) }
    requires sources { All (AreCategoriesOf (schemas_of cube.now)) (tuples_in sources.now) }
    requires few { length sources.now ≤ most_views }
    requires differ { AllPairs ◌≢◌ (tuples_in sources.now) }
    ensures replies { Replies IsAnswer
        (Done (ByCube (schemas_of cube.now) (tuple_of target.now) (tuples_in sources.now))) result }
{
    match cube_summarizable(alloc, cube, target, sources) {
        Ok(None) => Ok(yes(Vec::from_slice(alloc, b"yes\n")?)),
        Ok(Some(found)) => Ok(no(difference(alloc, cube, &found, target, sources)?)),
        Err(Refusal::Kind(DuplicateSource)) => unreachable!(),
        Err(Refusal::Memory(memory)) => Err(Stop::Memory(memory)),
    }
}

/// Whether the target is summarizable from the sources that the words from this number on name.
fn of_target(
    alloc: Global,
    at: u64,
    cube: &Cube,
    target: &Tuple,
    sources: &[String],
) -> Result<Reply, Stop>
    requires some { 0 < length (schemas_of cube.now) }
    requires target { AreCategoriesOf (schemas_of cube.now) (tuple_of target.now) }
    requires few { length sources.now ≤ most_views }
    requires counted { at + length sources.now < 2 ^ 64 }
    ensures replies { Replies IsAnswer
        (cube_from (schemas_of cube.now) at (tuple_of target.now) (texts sources.now)) result }
{
    let sources = tuples_at(alloc, at, cube, sources)?;
    told(alloc, cube, target, &sources)
}

/// Whether the target that the word of this number names is summarizable from the sources that the words after it
/// name.
fn of_cube(
    alloc: Global,
    at: u64,
    cube: &Cube,
    target: &str,
    sources: &[String],
) -> Result<Reply, Stop>
    requires some { 0 < length (schemas_of cube.now) }
    requires few { length sources.now ≤ most_views }
    requires counted { at + 1 + length sources.now < 2 ^ 64 }
    ensures replies { Replies IsAnswer
        (cube_under (schemas_of cube.now) at target.now (texts sources.now)) result }
{
    let categories = tuple_at(alloc, at, cube, target)?;
    let target = Tuple {
        categories: List::from_vec(categories),
    };
    of_target(alloc, at + 1, cube, &target, sources)
}

/// Whether a target is summarizable from sources in the cube of the schemas in files.
pub(crate) fn cube<L: Library>(
    alloc: Global,
    schemas: &[String],
    target: &str,
    sources: &[String],
    lib: &mut L,
) -> Result<Reply, Stop>
    requires few { AreDimensions (length schemas.now) }
    requires sources { length sources.now ≤ most_views }
    ensures judged { Judged IsAnswer L.Library lib.old lib.new
        (cube_of (texts schemas.now) target.now (texts sources.now)) result }
{
    let at = schemas.len() as u64 + 3;
    let cube = schemas_in(alloc, schemas, lib)?;
    of_cube(alloc, at, &cube, target, sources)
}
