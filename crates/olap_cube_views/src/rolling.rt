// The direct view of a cube's target from a text of facts that comes in pieces.
ghost use Rattle.std.specs.Prelude.{◌≡◌, ◌↔◌, ◌++◌, ◌∷◌, ◌+◌, ◌<◌, ◌≤◌, ℕ, [], All, IfOk, IsTrue, List as Items, MatchResult, None, Some, length, take};
ghost use Rattle.olap_base.specs.Graph.{Graph as TheGraph};
ghost use Rattle.olap_base.specs.Instance.{Instance as Members};
ghost use Rattle.olap_base.specs.Limits.{most_facts};
ghost use Rattle.olap_base.specs.Refusing.{IsRefusedBy};
ghost use Rattle.olap_base.specs.Views.{Fact as TheFact};
ghost use Rattle.olap_cube.specs.Limits.{most_dimensions};
ghost use Rattle.olap_cube.specs.Tuples.{IsBottomTuple};
ghost use Rattle.olap_records.specs.Standing.{records_fed};
ghost use Rattle.olap_cube_views.specs.CubeFactText.{cube_fact_fault_within, cube_fact_read, cube_facts_read_within, header, members_fault, members_read};
ghost use Rattle.olap_cube_views.specs.CubeFeeding.{Counted, HasCounted, HasTakenFacts, cube_fed_read, cube_rolling};
ghost use Rattle.olap_cube_views.specs.CubeRollingUp.{IsCubeRolledUp};
ghost use Rattle.olap_cube_views.specs.CubeTallies.{AreMembers, CubeStandsFor, HasTallied};
ghost use Rattle.olap_cube_views.specs.Dimensions.{AreMadeFor, categories_in, graphs_of, instances_in};
ghost use Rattle.olap_cube_views.specs.Seen.{cube_view_of, fact_at, members_of};

use crate::reading::member;
use crate::tallies::CubeTally;
use crate::viewing::view;
use crate::{CubeView, TargetColumns};
use olap_base::{Fault, MOST_FACTS, MemberId, Memory, Refusal};
use olap_cube::MOST_DIMENSIONS;
use olap_facts::FactKind;
use olap_graph::Graph;
use olap_numerals::value;
use olap_records::Splitter;
use std::alloc::Global;
use std::marker::Model;

/// A value at members, of which the first ones are those of the dimensions.
#[derive(Clone, Copy)]
struct FactAt {
    members: [MemberId; MOST_DIMENSIONS],
    value: i64,
}

/// Whether the record that was found last is the header for this many dimensions.
fn is_header(row: &Splitter, dimensions: usize) -> bool
    requires few { dimensions ≤ most_dimensions }
    ensures { IsTrue result ↔ (row.now.row ≡ header dimensions) }
{
    match dimensions {
        0 => row.is_row(&[b"value"]),
        1 => row.is_row(&[b"m1", b"value"]),
        2 => row.is_row(&[b"m1", b"m2", b"value"]),
        3 => row.is_row(&[b"m1", b"m2", b"m3", b"value"]),
        _ => row.is_row(&[b"m1", b"m2", b"m3", b"m4", b"value"]),
    }
}

/// The members that the first fields of the record that was found last name, one of each dimension.
fn members(
    graphs: &[&Graph],
    columns: &TargetColumns,
    row: &Splitter,
) -> Result<[MemberId; MOST_DIMENSIONS], FactKind>
    requires made { AreMadeFor (graphs_of graphs.now) (instances_in columns.now) }
    requires width { length row.now.row ≡ length columns.now + 1 }
    ensures read { MatchResult result
        (λ v. (members_fault (graphs_of graphs.now) (instances_in columns.now) row.now.row ≡ None)
        × (members_of (take (length columns.now) v) ≡ members_read (instances_in columns.now) row.now.row))
        (λ k. members_fault (graphs_of graphs.now) (instances_in columns.now) row.now.row ≡ Some k) }
    ensures bottom { IfOk result (λ v. IsBottomTuple (graphs_of graphs.now) (instances_in columns.now)
        (members_of (take (length columns.now) v))) }
{
    let mut members = [MemberId(0); MOST_DIMENSIONS];
    'dimensions: for k in 0..columns.len() {
        let place = member(graphs[k], columns.instance(k), row.field(k))?;
        members[k] = place;
    }
    Ok(members)
}

/// The fact of the record that was found last, after this many facts.
fn fact(
    graphs: &[&Graph],
    columns: &TargetColumns,
    row: &Splitter,
    before: u64,
) -> Result<FactAt, FactKind>
    requires made { AreMadeFor (graphs_of graphs.now) (instances_in columns.now) }
    ensures fact { (earlier : Items (Items (Items ℕ))) → length earlier ≡ before → MatchResult result
        (λ f. (cube_fact_fault_within most_facts (graphs_of graphs.now) (instances_in columns.now) earlier row.now.row
        ≡ None)
        × (fact_at (take (length columns.now) f.members) f.value
        ≡ cube_fact_read (instances_in columns.now) row.now.row))
        (λ k. cube_fact_fault_within most_facts (graphs_of graphs.now) (instances_in columns.now) earlier row.now.row
        ≡ Some k) }
    ensures bottom { IfOk result (λ f. IsBottomTuple (graphs_of graphs.now) (instances_in columns.now)
        (members_of (take (length columns.now) f.members))) }
    ensures few { IfOk result (λ f. before < most_facts) }
{
    let dimensions = columns.len();
    if row.len() != dimensions + 1 {
        return Err(FactKind::FieldCount);
    }
    let members = members(graphs, columns, row)?;
    let Some(value) = value(row.field(dimensions)) else {
        return Err(FactKind::BadNumber);
    };
    if before >= MOST_FACTS {
        return Err(FactKind::TooManyFacts);
    }
    Ok(FactAt { members, value })
}

/// Adds the record that was found last to a tally: the header where none was found before, else a fact.
fn add_record(
    graphs: &[&Graph],
    columns: &TargetColumns,
    row: &Splitter,
    begun: bool,
    tally: &mut CubeTally,
) -> Result<(), Refusal<Fault<FactKind>>>
    requires made { AreMadeFor (graphs_of graphs.now) (instances_in columns.now) }
    requires instances { tally.old.instances ≡ instances_in columns.now }
    ensures counts { let gs = graphs_of graphs.now in let is = instances_in columns.now in
        (done : Items (Items (Items ℕ))) (facts : Items (TheFact (Items ℕ))) → Counted gs is begun done facts
        → CubeStandsFor tally.old facts → MatchResult result
        (λ _. HasCounted gs is (done ++ row.now.row ∷ []) tally.new)
        (λ e. (left : Items (Items (Items ℕ))) → IsRefusedBy e
        (cube_facts_read_within most_facts gs is ((done ++ row.now.row ∷ []) ++ left))) }
    ensures instances { tally.new.instances ≡ tally.old.instances }
    ensures target { tally.new.target ≡ tally.old.target }
{
    let dimensions = columns.len();
    if !begun {
        if !is_header(row, dimensions) {
            return Err(Refusal::Kind(Fault {
                at: 1,
                kind: FactKind::BadHeader,
            }));
        }
        return Ok(());
    }
    let before = tally.added();
    match fact(graphs, columns, row, before) {
        Ok(fact) => Ok(tally.add(&fact.members[..dimensions], fact.value)?),
        Err(kind) => Err(Refusal::Kind(Fault {
            at: before + 2,
            kind,
        })),
    }
}

/// How far a text was read: its records so far, whether the header was found, and the totals of the facts.
#[derive(Drop)]
struct Front<'a> {
    splitter: Splitter,
    begun: bool,
    tally: CubeTally<'a>,
}

impl<'a> Front<'a> {
    /// Takes a piece of the text.
    fn take(
        &mut self,
        graphs: &[&Graph],
        columns: &TargetColumns,
        piece: &[u8],
    ) -> Result<(), Refusal<Fault<FactKind>>>
        requires made { AreMadeFor (graphs_of graphs.now) (instances_in columns.now) }
        requires instances { self.old.tally.instances ≡ instances_in columns.now }
        ensures takes { let gs = graphs_of graphs.now in let is = instances_in columns.now in
            (target fed : Items ℕ)
            → HasTakenFacts gs is target fed
            (cube_rolling gs self.old.begun self.old.splitter.stands self.old.tally) → MatchResult result
            (λ _. HasTakenFacts gs is target (fed ++ piece.now)
            (cube_rolling gs self.new.begun self.new.splitter.stands self.new.tally))
            (λ e. (more : Items ℕ) → IsRefusedBy e (cube_fed_read gs is ((fed ++ piece.now) ++ more))) }
        ensures instances { self.new.tally.instances ≡ self.old.tally.instances }
        ensures target { self.new.tally.target ≡ self.old.tally.target }
    {
        let mut at = 0;
        'records: loop {
            let cut = self.splitter.next(&piece[at..])?;
            at += cut.taken;
            if !cut.found {
                return Ok(());
            }
            add_record(graphs, columns, &self.splitter, self.begun, &mut self.tally)?;
            self.begun = true;
        }
    }

    /// The text ends: the last record, which no line break ended, is added if there is one.
    fn finish(
        &mut self,
        graphs: &[&Graph],
        columns: &TargetColumns,
    ) -> Result<(), Refusal<Fault<FactKind>>>
        requires made { AreMadeFor (graphs_of graphs.now) (instances_in columns.now) }
        requires instances { self.old.tally.instances ≡ instances_in columns.now }
        ensures ends { let gs = graphs_of graphs.now in let is = instances_in columns.now in
            (target fed : Items ℕ)
            → HasTakenFacts gs is target fed
            (cube_rolling gs self.old.begun self.old.splitter.stands self.old.tally) → MatchResult result
            (λ _. HasTallied gs is (records_fed fed) self.new.tally)
            (λ e. IsRefusedBy e (cube_fed_read gs is fed)) }
        ensures instances { self.new.tally.instances ≡ self.old.tally.instances }
        ensures target { self.new.tally.target ≡ self.old.tally.target }
    {
        if self.splitter.finish()? {
            return add_record(graphs, columns, &self.splitter, self.begun, &mut self.tally);
        }
        if !self.begun {
            return Err(Refusal::Kind(Fault {
                at: 1,
                kind: FactKind::BadHeader,
            }));
        }
        Ok(())
    }
}

/// Rolls up the facts of a text that comes in pieces, without its byte order mark (`olap_records::without_mark`). Each
/// fact is added and forgotten: beside the totals, one record is kept.
#[derive(Drop)]
pub struct CubeRoller<'a> {
    graphs: &'a [&'a Graph],
    columns: &'a TargetColumns,
    front: Front<'a>,
}

impl<'a> Model for CubeRoller<'a> {
    ghost use Rattle.olap_cube_views.specs.CubeFeeding.{CubeRolling, IsCubeRoller, cube_rolling};
    ghost use Rattle.olap_cube_views.specs.Dimensions.{categories_in, graphs_of, instances_in};

    ghost Value = { CubeRolling };

    ghost view = { λ a. cube_rolling (graphs_of a.graphs.now) a.front.begun a.front.splitter.stands a.front.tally };

    ghost invariant = { λ a. IsCubeRoller (graphs_of a.graphs.now) (instances_in a.columns.now)
        (categories_in a.columns.now) a.front.tally };
}

impl<'a> CubeRoller<'a> {
    /// At the start of a text of at most `MOST_FACTS` facts, for the columns' categories. The graphs are those of the
    /// dimensions, in order. `Memory`: out of memory.
    pub fn new(
        alloc: Global,
        graphs: &'a [&'a Graph],
        columns: &'a TargetColumns,
    ) -> Result<CubeRoller<'a>, Memory>
        requires made { AreMadeFor (graphs_of graphs.now) (instances_in columns.now) }
        ensures taken { IfOk result
            (HasTakenFacts (graphs_of graphs.now) (instances_in columns.now) (categories_in columns.now) []) }
    {
        Ok(CubeRoller {
            graphs,
            columns,
            front: Front {
                splitter: Splitter::new(alloc),
                begun: false,
                tally: CubeTally::new(alloc, columns.lent(alloc)?),
            },
        })
    }

    /// Takes the next piece of the text. A refusal tells the first fault of the whole text, whatever comes after the
    /// piece.
    ///
    /// Of a record the first of these is its fault: `FieldCount`; for each member from left to right `UnknownMember`,
    /// `NotBottom`; `BadNumber`; `TooManyFacts` if it is one more than `MOST_FACTS`.
    pub fn take(self, piece: &[u8]) -> Result<CubeRoller<'a>, Refusal<Fault<FactKind>>>
        ensures takes { (gs : Items TheGraph) (is : Items Members) (target fed : Items ℕ)
            → HasTakenFacts gs is target fed self.entry → MatchResult result
            (HasTakenFacts gs is target (fed ++ piece.now))
            (λ e. (more : Items ℕ) → IsRefusedBy e (cube_fed_read gs is ((fed ++ piece.now) ++ more))) }
    {
        let graphs = self.graphs;
        let columns = self.columns;
        let mut front = self.front;
        front.take(graphs, columns, piece)?;
        Ok(CubeRoller {
            graphs,
            columns,
            front,
        })
    }

    /// The text ends: the direct view of the columns' categories, or the text's first fault.
    pub fn finish(self, alloc: Global) -> Result<CubeView, Refusal<Fault<FactKind>>>
        ensures view { (gs : Items TheGraph) (is : Items Members) (target fed : Items ℕ)
            → HasTakenFacts gs is target fed self.entry → MatchResult result
            (λ v. IsCubeRolledUp gs is (records_fed fed) target (cube_view_of v))
            (λ e. IsRefusedBy e (cube_fed_read gs is fed)) }
        ensures members { IfOk result (λ v.
            All (λ r. AreMembers self.entry.tally.instances r.at) (cube_view_of v).rows) }
    {
        let mut front = self.front;
        let target = self.columns.target(alloc)?;
        front.finish(self.graphs, self.columns)?;
        Ok(view(alloc, &target, front.tally)?)
    }
}
