// The command `cubeview`: the direct view of a target, a category of each dimension.
ghost use Rattle.std.specs.Prelude.{◌≡◌, All, Err, IfOk, MatchResult, length};
ghost use Rattle.olap_base.specs.Views.{direct_view};
ghost use Rattle.olap_cube.specs.CubeSummarizable.{graphs_of};
ghost use Rattle.olap_cube.specs.CubeViews.{tuples};
ghost use Rattle.olap_cube_views.specs.CubeTallies.{AreMembers};
ghost use Rattle.olap_cube_views.specs.CubeViewText.{cube_view_text};
ghost use Rattle.olap_cube_views.specs.Dimensions.{AreMadeFor, categories_in, instances_in};
ghost use Rattle.olap_cube_views.specs.Seen.{cube_view_of};
ghost use Rattle.olap_cube_summ.specs.Dimensions.{schemas_of};
ghost use Rattle.olap_order.specs.Judged.{Judged};
ghost use Rattle.olap_order.specs.Order.{Told, and_then};
ghost use Rattle.olap_order.specs.Taken.{FileStep};
ghost use Rattle.olap_order.specs.Words.{texts};
ghost use Rattle.olap_cubes.specs.Cut.{cubeview_of};
ghost use Rattle.olap_cubes.specs.OfFacts.{IsOfFacts};
ghost use Rattle.olap_cubes.specs.Questions.{IsAnswer};
ghost use Rattle.olap_cubes.specs.Seen.{AreDimensions};
ghost use Rattle.olap_cubes.specs.Steps.{cube_facts_file};
ghost use Rattle.olap_cubes.specs.Under.{cubeview_from, cubeview_under};
ghost use Rattle.olap_view.specs.Seen.{ids};

use crate::dimensions::{columns_in, schemas_in};
use crate::naming::tuple_at;
use crate::rolling::{Unrolled, rolled_up};
use olap_base::{CatId, Refusal};
use olap_cube_summ::Cube;
use olap_cube_views::{CubeView, TargetColumns, print_rolled_up};
use olap_order::{Reply, Status, Stop, refuse_part, yes};
use olap_outside::Library;
use std::alloc::Global;

/// The direct view of the columns' categories from the facts in a file, which may be of any length.
fn view_in<L: Library>(
    alloc: Global,
    cube: &Cube,
    columns: &TargetColumns,
    file: &str,
    lib: &mut L,
) -> Result<CubeView, Stop>
    requires made { AreMadeFor (graphs_of (schemas_of cube.now)) (instances_in columns.now) }
    ensures step { MatchResult result
        (λ v. IsOfFacts L.Library lib.old lib.new (schemas_of cube.now) (instances_in columns.now)
        (categories_in columns.now) file.now (cube_view_of v))
        (λ stop. FileStep L.Library lib.old lib.new
        (cube_facts_file (schemas_of cube.now) (instances_in columns.now) file.now)
        (λ facts. facts) (Err stop)) }
    ensures members { IfOk result (λ v.
        All (λ r. AreMembers (instances_in columns.now) r.at) (cube_view_of v).rows) }
{
    let Ok(()) = lib.open_file(file) else {
        return Err(Stop::Read);
    };
    match rolled_up(alloc, cube, columns, lib) {
        Ok(view) => Ok(view),
        Err(Unrolled::Failed) => Err(Stop::Read),
        Err(Unrolled::Refused(Refusal::Kind(fault))) => Err(refuse_part(
            alloc,
            "facts",
            "record",
            fault.at,
            fault.kind.name(),
        )),
        Err(Unrolled::Refused(Refusal::Memory(memory))) => Err(Stop::Memory(memory)),
    }
}

/// The text of the direct view of the columns' categories from the facts in a file.
fn told<L: Library>(
    alloc: Global,
    cube: &Cube,
    columns: &TargetColumns,
    file: &str,
    lib: &mut L,
) -> Result<Reply, Stop>
    requires made { AreMadeFor (graphs_of (schemas_of cube.now)) (instances_in columns.now) }
    ensures judged { Judged IsAnswer L.Library lib.old lib.new
        (and_then (cube_facts_file (schemas_of cube.now) (instances_in columns.now) file.now)
        (λ table. Told Status.Yes (cube_view_text (instances_in columns.now)
        (direct_view (tuples (instances_in columns.now)) table (categories_in columns.now))))) result }
{
    let view = view_in(alloc, cube, columns, file, lib)?;
    let text = print_rolled_up(alloc, columns, &view)?;
    Ok(yes(text.into_bytes()))
}

/// The direct view of the target's categories, from an instance of each dimension and facts.
fn of_target<L: Library>(
    alloc: Global,
    cube: &Cube,
    target: &[CatId],
    instances: &[String],
    facts: &str,
    lib: &mut L,
) -> Result<Reply, Stop>
    requires each { length instances.now ≡ length (schemas_of cube.now) }
    requires target { length target.now ≡ length (schemas_of cube.now) }
    ensures judged { Judged IsAnswer L.Library lib.old lib.new
        (cubeview_from (schemas_of cube.now) (ids target.now) (texts instances.now) facts.now) result }
{
    let columns = columns_in(alloc, cube, target, instances, lib)?;
    told(alloc, cube, &columns, facts, lib)
}

/// The direct view of the target that the word of this number names, from an instance of each dimension and facts.
fn of_cube<L: Library>(
    alloc: Global,
    at: u64,
    cube: &Cube,
    instances: &[String],
    facts: &str,
    target: &str,
    lib: &mut L,
) -> Result<Reply, Stop>
    requires { length instances.now ≡ length (schemas_of cube.now) }
    ensures judged { Judged IsAnswer L.Library lib.old lib.new
        (cubeview_under (schemas_of cube.now) at (texts instances.now) facts.now target.now) result }
{
    let target = tuple_at(alloc, at, cube, target)?;
    of_target(alloc, cube, &target, instances, facts, lib)
}

/// The direct view of a target, from a schema and an instance of each dimension and facts.
pub(crate) fn cubeview<L: Library>(
    alloc: Global,
    schemas: &[String],
    instances: &[String],
    facts: &str,
    target: &str,
    lib: &mut L,
) -> Result<Reply, Stop>
    requires few { AreDimensions (length schemas.now) }
    requires each { length instances.now ≡ length schemas.now }
    ensures judged { Judged IsAnswer L.Library lib.old lib.new
        (cubeview_of (texts schemas.now) (texts instances.now) facts.now target.now) result }
{
    let at = 2 * schemas.len() as u64 + 4;
    let cube = schemas_in(alloc, schemas, lib)?;
    of_cube(alloc, at, &cube, instances, facts, target, lib)
}
