// The facts of an opened file, rolled up piece by piece.
ghost use Rattle.std.specs.Prelude.{◌≡◌, ◌<◌, ◌≤◌, All, IfErr, IfOk, IsErrOf, IsTrue, false};
ghost use Rattle.olap_cube.specs.CubeSummarizable.{graphs_of};
ghost use Rattle.olap_cube_views.specs.CubeRollingUp.{IsCubeRolledUp};
ghost use Rattle.olap_cube_views.specs.CubeTallies.{AreMembers};
ghost use Rattle.olap_cube_views.specs.Dimensions.{AreMadeFor, categories_in, graphs_of as graphs_at, instances_in};
ghost use Rattle.olap_cube_views.specs.Seen.{cube_view_of};
ghost use Rattle.olap_cube_summ.specs.Dimensions.{schemas_of};
ghost use Rattle.olap_outside.specs.Faults.{Rose};
ghost use Rattle.olap_outside.specs.Pieces.{IsKept};
ghost use Rattle.olap_reading.specs.Rest.{IsOfRest};
ghost use Rattle.olap_records.specs.Records.{records_of};
ghost use Rattle.olap_cubes.specs.Rest.{IsWhyUnrolled};

use olap_base::{Fault, Memory, Refusal};
use olap_cube_summ::Cube;
use olap_cube_views::{CubeRoller, CubeView, TargetColumns};
use olap_facts::FactKind;
use olap_graph::Graph;
use olap_outside::{Failed, Library, fill};
use olap_records::{records_are_those_at_the_end, without_mark};
use std::alloc::Global;

/// Why the facts of an opened file came to no view.
#[derive(Clone, Copy)]
pub(crate) enum Unrolled {
    /// The library refused a read.
    Failed,
    /// The facts have a fault, or memory ran out.
    Refused(Refusal<Fault<FactKind>>),
}

impl From<Failed> for Unrolled {
    ghost use Rattle.olap_cubes.specs.declared.rolling.Unrolled.TheVariants as unrolled;

    ghost from_gives = { λ _ e. e ≡ unrolled.Failed };

    fn from(_: Failed) -> Unrolled {
        Unrolled::Failed
    }
}

impl From<Refusal<Fault<FactKind>>> for Unrolled {
    ghost use Rattle.olap_cubes.specs.declared.rolling.Unrolled.TheVariants as unrolled;

    ghost from_gives = { λ r e. e ≡ unrolled.Refused r };

    fn from(refusal: Refusal<Fault<FactKind>>) -> Unrolled {
        Unrolled::Refused(refusal)
    }
}

impl From<Memory> for Unrolled {
    ghost use Rattle.olap_cubes.specs.Rest.{IsOutOfMemory};

    ghost from_gives = { λ _ e. IsOutOfMemory e };

    fn from(memory: Memory) -> Unrolled {
        Unrolled::Refused(Refusal::Memory(memory))
    }
}

/// How many bytes are asked for at a time.
const PIECE: usize = 65_536;

/// The direct view of the columns' categories, from the facts of the opened file. Of the file no more is held than a
/// piece and a record.
fn rolled_up_on<L: Library>(
    alloc: Global,
    graphs: &[&Graph],
    columns: &TargetColumns,
    lib: &mut L,
) -> Result<CubeView, Unrolled>
    requires ready { IsTrue (L.ready lib.old) }
    requires made { AreMadeFor (graphs_at graphs.now) (instances_in columns.now) }
    ensures view { IfOk result (λ v. IsOfRest (L.rest lib.old) (λ text.
        IsCubeRolledUp (graphs_at graphs.now) (instances_in columns.now) (records_of text) (categories_in columns.now)
        (cube_view_of v))) }
    ensures members { IfOk result (λ v.
        All (λ r. AreMembers (instances_in columns.now) r.at) (cube_view_of v).rows) }
    ensures fault { IfErr result (IsWhyUnrolled (graphs_at graphs.now) (instances_in columns.now) (L.rest lib.old)) }
    ensures risen { IsErrOf result Unrolled.Failed → Rose (L.faults lib.old) (L.faults lib.new) }
    ensures unready { IsErrOf result Unrolled.Failed → L.ready lib.new ≡ false }
    ensures unsure { IsErrOf result Unrolled.Failed → L.sure lib.old ≡ false }
    ensures later { L.faults lib.old ≤ L.faults lib.new }
    ensures kept { IsKept L.Library lib.old lib.new }
{
    // Called for its clause: what is fed of the text has its records.
    records_are_those_at_the_end();
    let roller = CubeRoller::new(alloc, graphs, columns)?;
    let mut piece = [0u8; PIECE];
    let mut count = fill(lib, &mut piece)?;
    let mut roller = roller.take(without_mark(&piece[..count]))?;
    'pieces: while count == PIECE {
        count = fill(lib, &mut piece)?;
        roller = roller.take(&piece[..count])?;
    }
    Ok(roller.finish(alloc)?)
}

/// The graphs of the dimensions, in order.
fn graphs(alloc: Global, cube: &Cube) -> Result<Vec<&Graph>, Memory>
    ensures { IfOk result (λ graphs. graphs_at graphs.items ≡ graphs_of (schemas_of cube.now)) }
{
    let mut graphs = Vec::new(alloc);
    'dimensions: for k in 0..cube.len() {
        graphs.push(cube.schema(k).graph())?;
    }
    Ok(graphs)
}

/// The same, on the graphs of these dimensions.
pub(crate) fn rolled_up<L: Library>(
    alloc: Global,
    cube: &Cube,
    columns: &TargetColumns,
    lib: &mut L,
) -> Result<CubeView, Unrolled>
    requires ready { IsTrue (L.ready lib.old) }
    requires made { AreMadeFor (graphs_of (schemas_of cube.now)) (instances_in columns.now) }
    ensures view { IfOk result (λ v. IsOfRest (L.rest lib.old) (λ text.
        IsCubeRolledUp (graphs_of (schemas_of cube.now)) (instances_in columns.now) (records_of text)
        (categories_in columns.now) (cube_view_of v))) }
    ensures members { IfOk result (λ v.
        All (λ r. AreMembers (instances_in columns.now) r.at) (cube_view_of v).rows) }
    ensures fault { IfErr result
        (IsWhyUnrolled (graphs_of (schemas_of cube.now)) (instances_in columns.now) (L.rest lib.old)) }
    ensures risen { IsErrOf result Unrolled.Failed → Rose (L.faults lib.old) (L.faults lib.new) }
    ensures unready { IsErrOf result Unrolled.Failed → L.ready lib.new ≡ false }
    ensures unsure { IsErrOf result Unrolled.Failed → L.sure lib.old ≡ false }
    ensures later { L.faults lib.old ≤ L.faults lib.new }
    ensures kept { IsKept L.Library lib.old lib.new }
{
    let graphs = graphs(alloc, cube)?;
    rolled_up_on(alloc, &graphs, columns, lib)
}
