// The facts of an opened file, by which stored views are changed piece by piece.
ghost use Rattle.std.specs.Prelude.{◌≡◌, ◌≤◌, All, IfErr, IfOk, IsErrOf, IsTrue, Ok, false};
ghost use Rattle.olap_delta.specs.Changing.{step_of};
ghost use Rattle.olap_instance.specs.Made.{IsMadeFor};
ghost use Rattle.olap_outside.specs.Faults.{Rose};
ghost use Rattle.olap_outside.specs.Pieces.{IsKept};
ghost use Rattle.olap_reading.specs.Rest.{IsOfRest};
ghost use Rattle.olap_records.specs.Records.{records_of};
ghost use Rattle.olap_totals.specs.Feeding.{IsChangedBy, IsWhyUnchanged};
ghost use Rattle.olap_view.specs.Seen.{views_of};
ghost use Rattle.olap_view.specs.Stores.{Fits, IsInFileOrder, IsStore};

use olap_base::{Fault, MOST_FACTS, Refusal};
use olap_delta::{Change, ChangeKind, Changer};
use olap_graph::Graph;
use olap_legal::Legal;
use olap_outside::{Failed, Library, fill};
use olap_records::{records_are_those_at_the_end, without_mark};
use olap_view::Store;
use std::alloc::Global;

/// Why the facts of an opened file changed no stored views.
#[derive(Clone, Copy)]
pub(crate) enum Unchanged {
    /// The library refused a read.
    Failed,
    /// The text has a fault, a fact can't be taken, or memory ran out.
    Refused(Refusal<Fault<ChangeKind>>),
}

impl From<Failed> for Unchanged {
    ghost use Rattle.olap_totals.specs.declared.feeding.Unchanged.TheVariants as unchanged;

    ghost from_gives = { λ _ e. e ≡ unchanged.Failed };

    fn from(_: Failed) -> Unchanged {
        Unchanged::Failed
    }
}

impl From<Refusal<Fault<ChangeKind>>> for Unchanged {
    ghost use Rattle.olap_totals.specs.declared.feeding.Unchanged.TheVariants as unchanged;

    ghost from_gives = { λ r e. e ≡ unchanged.Refused r };

    fn from(refusal: Refusal<Fault<ChangeKind>>) -> Unchanged {
        Unchanged::Refused(refusal)
    }
}

/// How many bytes are asked for at a time.
const PIECE: usize = 65_536;

/// The stored views after the change by the facts of the opened file. Of the file no more is held than a piece and a
/// record, and its facts while they are few.
pub(crate) fn changed_by_rest<L: Library>(
    alloc: Global,
    change: Change,
    graph: &Graph,
    legal: &Legal,
    store: &Store,
    lib: &mut L,
) -> Result<Store, Unchanged>
    requires ready { IsTrue (L.ready lib.old) }
    requires made { IsMadeFor graph.now legal.now }
    requires store { IsStore (views_of store.now) }
    requires fit { All Fits (views_of store.now) }
    requires order { All (IsInFileOrder legal.now) (views_of store.now) }
    ensures changed { IfOk result (λ s. IsOfRest (L.rest lib.old) (λ text.
        IsChangedBy change graph.now legal.now (views_of store.now) (records_of text) (Ok s))) }
    ensures fault { IfErr result
        (IsWhyUnchanged (step_of change) graph.now legal.now (views_of store.now) (L.rest lib.old)) }
    ensures risen { IsErrOf result Unchanged.Failed → Rose (L.faults lib.old) (L.faults lib.new) }
    ensures unready { IsErrOf result Unchanged.Failed → L.ready lib.new ≡ false }
    ensures unsure { IsErrOf result Unchanged.Failed → L.sure lib.old ≡ false }
    ensures later { L.faults lib.old ≤ L.faults lib.new }
    ensures kept { IsKept L.Library lib.old lib.new }
{
    // Called for its clause: what is fed of the text has its records.
    records_are_those_at_the_end();
    let changer = Changer::new(alloc, change, graph, legal, store, MOST_FACTS);
    let mut piece = [0u8; PIECE];
    let mut count = fill(lib, &mut piece)?;
    let mut changer = changer.take(alloc, without_mark(&piece[..count]))?;
    'pieces: while count == PIECE {
        count = fill(lib, &mut piece)?;
        changer = changer.take(alloc, &piece[..count])?;
    }
    Ok(changer.finish(alloc)?)
}
