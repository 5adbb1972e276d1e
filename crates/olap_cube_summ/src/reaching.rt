// The sources by which the roots of a choice reach the target.
ghost use Rattle.std.specs.Prelude.{◌<◌, ◌↔◌, All, IfOk, IsTrue, length};
ghost use Rattle.olap_base.specs.OneFact.{HoldsTimes};
ghost use Rattle.olap_cube.specs.Told.{tuple_of, tuples_in};
ghost use Rattle.olap_cube_summ.specs.Drawn.{AreDrawn, AreFound, IsDrawn, IsFoundOf};
ghost use Rattle.olap_cube_summ.specs.Reaching.{ReachBy, ReachesAt};
ghost use Rattle.olap_cube_summ.specs.Dimensions.{AreCategoriesOf, schemas_of};
ghost use Rattle.olap_schema.specs.Schemas.{schema_of};

use crate::cubes::Cube;
use olap_base::Memory;
use olap_cex::is_way;
use olap_cube::Tuple;
use olap_frozen::{Found, Room, close};
use olap_schema::Schema;
use std::alloc::Global;

/// What each category reaches in a frozen dimension.
fn drawn(alloc: Global, schema: &Schema, found: &Found) -> Result<Room, Memory>
    requires { IsFoundOf (schema_of schema.now) found.now }
    ensures { IfOk result (IsDrawn (schema_of schema.now) found.now) }
{
    let graph = schema.graph();
    let mut room = Room::new(alloc, graph)?;
    close(graph, found.frozen.edges.items(), &mut room.rows);
    Ok(room)
}

/// What each category reaches, in the frozen dimension of each dimension.
pub(crate) fn drawn_of_each(
    alloc: Global,
    cube: &Cube,
    founds: &[Found],
) -> Result<Vec<Room>, Memory>
    requires { AreFound (schemas_of cube.now) founds.now }
    ensures { IfOk result (λ rooms. AreDrawn (schemas_of cube.now) founds.now rooms.items) }
{
    let mut rooms = Vec::new(alloc);
    'dimensions: for i in 0..cube.len() {
        let room = drawn(alloc, cube.schema(i), &founds[i])?;
        rooms.push(room)?;
    }
    Ok(rooms)
}

/// Whether the root of the i-th dimension reaches the target by the source.
fn reaches_at(
    cube: &Cube,
    founds: &[Found],
    rooms: &[Room],
    source: &Tuple,
    target: &Tuple,
    i: usize,
) -> bool
    requires drawn { AreDrawn (schemas_of cube.now) founds.now rooms.now }
    requires source { AreCategoriesOf (schemas_of cube.now) (tuple_of source.now) }
    requires target { AreCategoriesOf (schemas_of cube.now) (tuple_of target.now) }
    requires inside { i < length (schemas_of cube.now) }
    ensures { IsTrue result
        ↔ ReachesAt (schemas_of cube.now) founds.now (tuple_of source.now) (tuple_of target.now) i }
{
    // Called for its clauses: there are few dimensions.
    let _few = cube.len();
    let from = source.categories.items();
    let to = target.categories.items();
    let found = &founds[i];
    let room = &rooms[i];
    is_way(&room.rows, found.frozen.root, from[i], to[i])
}

/// Whether the roots reach the target by the source, in every dimension.
fn reach_by(cube: &Cube, founds: &[Found], rooms: &[Room], source: &Tuple, target: &Tuple) -> bool
    requires drawn { AreDrawn (schemas_of cube.now) founds.now rooms.now }
    requires source { AreCategoriesOf (schemas_of cube.now) (tuple_of source.now) }
    requires target { AreCategoriesOf (schemas_of cube.now) (tuple_of target.now) }
    ensures { IsTrue result
        ↔ ReachBy (schemas_of cube.now) founds.now (tuple_of source.now) (tuple_of target.now) }
{
    'dimensions: for i in 0..cube.len() {
        if !reaches_at(cube, founds, rooms, source, target, i) {
            return false;
        }
    }
    true
}

/// By how many of the sources the roots reach the target.
pub(crate) fn count_ways(
    cube: &Cube,
    founds: &[Found],
    rooms: &[Room],
    target: &Tuple,
    sources: &[Tuple],
) -> u64
    requires drawn { AreDrawn (schemas_of cube.now) founds.now rooms.now }
    requires target { AreCategoriesOf (schemas_of cube.now) (tuple_of target.now) }
    requires sources { All (AreCategoriesOf (schemas_of cube.now)) (tuples_in sources.now) }
    ensures { HoldsTimes (λ t. ReachBy (schemas_of cube.now) founds.now t (tuple_of target.now))
        (tuples_in sources.now) result }
{
    let mut ways = 0;
    'sources: for source in sources {
        if reach_by(cube, founds, rooms, source, target) {
            ways += 1;
        }
    }
    ways
}
