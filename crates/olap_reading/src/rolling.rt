// The facts of an opened file, rolled up piece by piece.
ghost use Rattle.std.specs.Prelude.{◌≡◌, ◌≢◌, ◌<◌, ◌≤◌, All, AllPairs, IfErr, IfOk, IsErrOf, IsTrue, false, length};
ghost use Rattle.olap_instance.specs.Made.{IsMadeFor};
ghost use Rattle.olap_outside.specs.Faults.{Rose};
ghost use Rattle.olap_outside.specs.Pieces.{IsKept};
ghost use Rattle.olap_records.specs.Records.{records_of};
ghost use Rattle.olap_view.specs.RollingUp.{AreRolledUp};
ghost use Rattle.olap_view.specs.Seen.{each_view_of, ids};
ghost use Rattle.olap_reading.specs.Rest.{IsOfRest, IsWhyUnrolled};

use olap_base::{CatId, Fault, List, Memory, Refusal};
use olap_facts::FactKind;
use olap_graph::Graph;
use olap_legal::Legal;
use olap_outside::{Failed, Library, fill};
use olap_records::{records_are_those_at_the_end, without_mark};
use olap_view::{Roller, View};
use std::alloc::Global;

/// Why the facts of an opened file came to no views.
#[derive(Clone, Copy)]
pub(crate) enum Unrolled {
    /// The library refused a read.
    Failed,
    /// The facts have a fault, or memory ran out.
    Refused(Refusal<Fault<FactKind>>),
}

impl From<Failed> for Unrolled {
    ghost use Rattle.olap_reading.specs.declared.rolling.Unrolled.TheVariants as unrolled;

    ghost from_gives = { λ _ e. e ≡ unrolled.Failed };

    fn from(_: Failed) -> Unrolled {
        Unrolled::Failed
    }
}

impl From<Refusal<Fault<FactKind>>> for Unrolled {
    ghost use Rattle.olap_reading.specs.declared.rolling.Unrolled.TheVariants as unrolled;

    ghost from_gives = { λ r e. e ≡ unrolled.Refused r };

    fn from(refusal: Refusal<Fault<FactKind>>) -> Unrolled {
        Unrolled::Refused(refusal)
    }
}

impl From<Memory> for Unrolled {
    ghost use Rattle.olap_reading.specs.Rest.{IsOutOfMemory};

    ghost from_gives = { λ _ e. IsOutOfMemory e };

    fn from(memory: Memory) -> Unrolled {
        Unrolled::Refused(Refusal::Memory(memory))
    }
}

/// How many bytes are asked for at a time.
const PIECE: usize = 65_536;

/// The direct views of some categories, from the facts of the opened file. Of the file no more is held than a piece
/// and a record.
pub(crate) fn rolled_up<L: Library>(
    alloc: Global,
    graph: &Graph,
    legal: &Legal,
    categories: &[CatId],
    lib: &mut L,
) -> Result<List<View>, Unrolled>
    requires ready { IsTrue (L.ready lib.old) }
    requires made { IsMadeFor graph.now legal.now }
    requires differ { AllPairs ◌≢◌ (ids categories.now) }
    ensures views { IfOk result (λ views. IsOfRest (L.rest lib.old) (λ text.
        AreRolledUp graph.now legal.now (records_of text) (ids categories.now) (each_view_of views))) }
    ensures members { IfOk result (λ views. All (λ v. All (λ r. r.member.0 < length legal.now) v.rows) views) }
    ensures fault { IfErr result (IsWhyUnrolled graph.now legal.now (L.rest lib.old)) }
    ensures risen { IsErrOf result Unrolled.Failed → Rose (L.faults lib.old) (L.faults lib.new) }
    ensures unready { IsErrOf result Unrolled.Failed → L.ready lib.new ≡ false }
    ensures unsure { IsErrOf result Unrolled.Failed → L.sure lib.old ≡ false }
    ensures later { L.faults lib.old ≤ L.faults lib.new }
    ensures kept { IsKept L.Library lib.old lib.new }
{
    // Called for its clause: what is fed of the text has its records.
    records_are_those_at_the_end();
    let roller = Roller::new(alloc, graph, legal, categories)?;
    let mut piece = [0u8; PIECE];
    let mut count = fill(lib, &mut piece)?;
    let mut roller = roller.take(without_mark(&piece[..count]))?;
    'pieces: while count == PIECE {
        count = fill(lib, &mut piece)?;
        roller = roller.take(&piece[..count])?;
    }
    Ok(roller.finish()?)
}
