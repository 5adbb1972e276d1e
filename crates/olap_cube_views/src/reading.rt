// The facts of a cube, read from a text.
ghost use Rattle.std.specs.Prelude.{◌≡◌, ◌↔◌, ◌+◌, ◌<◌, ◌≤◌, ℕ, All, IfOk, IsTrue, List as Items, MatchResult, None, Ok, Some, [], drop, length, map};
ghost use Rattle.olap_base.specs.Graph.{IsBottom};
ghost use Rattle.olap_base.specs.Instance.{category_of};
ghost use Rattle.olap_base.specs.Limits.{most_listed_facts};
ghost use Rattle.olap_base.specs.Refusing.{IsRefusedBy};
ghost use Rattle.olap_cube.specs.CubeViews.{IsCubeFactTable};
ghost use Rattle.olap_cube.specs.Tuples.{IsBottomTuple};
ghost use Rattle.olap_instance.specs.Made.{IsMadeFor};
ghost use Rattle.olap_records.specs.Faults.{first_fault};
ghost use Rattle.olap_records.specs.Records.{records_of};
ghost use Rattle.olap_instance.specs.Members.{member_number};
ghost use Rattle.olap_cube_views.specs.CubeFactText.{cube_fact_fault, cube_fact_read, cube_facts_read, header, member_fault, members_fault, members_read};
ghost use Rattle.olap_cube_views.specs.CubeTallies.{AreMembers};
ghost use Rattle.olap_cube_views.specs.CubeRefusals.{IsFaultCause, IsToldAt};
ghost use Rattle.olap_cube.specs.Limits.{most_dimensions};
ghost use Rattle.olap_cube_views.specs.Dimensions.{AreMadeFor, graphs_of, instances_of};
ghost use Rattle.olap_cube_views.specs.Seen.{cube_fact_of, cube_facts_of, members_of};
ghost use Rattle.olap_records.specs.Tables.{begins_with};

use crate::{CubeFact, CubeFacts, Legals};
use olap_base::{Fault, List, MOST_LISTED_FACTS, MemberId, Memory, Refusal};
use olap_facts::{FactKind, is_at_bottom};
use olap_graph::Graph;
use olap_instance::Instance;
use olap_numerals::value;
use olap_records::Rows;
use std::alloc::Global;

/// Reads the first record, and says whether it is the header for this many dimensions.
fn begins(rows: &mut Rows, dimensions: usize) -> Result<bool, Memory>
    requires few { dimensions ≤ most_dimensions }
    ensures header { IfOk result (λ b. b ≡ begins_with (header dimensions) rows.old.left) }
    ensures left { IfOk result (λ b. IsTrue b → rows.new.left ≡ drop 1 rows.old.left) }
{
    let found = rows.advance()?;
    Ok(found && is_header(rows, dimensions))
}

/// Whether the record that was read last is the header for this many dimensions.
fn is_header(rows: &Rows, dimensions: usize) -> bool
    requires few { dimensions ≤ most_dimensions }
    ensures { IsTrue result ↔ (rows.now.row ≡ header dimensions) }
{
    match dimensions {
        0 => rows.is_row(&[b"value"]),
        1 => rows.is_row(&[b"m1", b"value"]),
        2 => rows.is_row(&[b"m1", b"m2", b"value"]),
        3 => rows.is_row(&[b"m1", b"m2", b"m3", b"value"]),
        _ => rows.is_row(&[b"m1", b"m2", b"m3", b"m4", b"value"]),
    }
}

/// The member of a bottom category that a field names.
pub(crate) fn member(graph: &Graph, instance: &Instance, field: &[u8]) -> Result<MemberId, FactKind>
    requires made { IsMadeFor graph.now instance.now }
    ensures member { MatchResult result
        (λ m. (member_fault graph.now instance.now field.now ≡ None)
        × (m.0 ≡ member_number instance.now field.now))
        (λ k. member_fault graph.now instance.now field.now ≡ Some k) }
    ensures inside { IfOk result (λ m. m.0 < length instance.now) }
    ensures bottom { IfOk result (λ m. IsBottom graph.now (category_of instance.now m.0)) }
{
    let Some(member) = instance.find(field) else {
        return Err(FactKind::UnknownMember);
    };
    if !is_at_bottom(graph, instance, member) {
        return Err(FactKind::NotBottom);
    }
    Ok(member)
}

/// The members that the first fields of the record that was read last name, one of each dimension. A fault is reported
/// at the record of this number.
fn members(
    alloc: Global,
    graphs: &[&Graph],
    instances: &[&Instance],
    rows: &Rows,
    at: u64,
) -> Result<Vec<MemberId>, Refusal<Fault<FactKind>>>
    requires made { AreMadeFor (graphs_of graphs.now) (instances_of instances.now) }
    requires width { length rows.now.row ≡ length instances.now + 1 }
    ensures read { MatchResult result
        (λ v. (members_fault (graphs_of graphs.now) (instances_of instances.now) rows.now.row ≡ None)
        × (members_of v.items ≡ members_read (instances_of instances.now) rows.now.row))
        (IsToldAt at
        (members_fault (graphs_of graphs.now) (instances_of instances.now) rows.now.row)) }
    ensures bottom { IfOk result (λ v.
        IsBottomTuple (graphs_of graphs.now) (instances_of instances.now) (members_of v.items)) }
{
    let mut members = Vec::new(alloc);
    'dimensions: for k in 0..instances.len() {
        match member(graphs[k], instances[k], rows.field(k)) {
            Ok(member) => members.push(member)?,
            Err(kind) => return Err(Refusal::Kind(Fault { at, kind })),
        }
    }
    Ok(members)
}

/// The fact of the record that was read last, after this many facts.
fn fact(
    alloc: Global,
    graphs: &[&Graph],
    instances: &[&Instance],
    rows: &Rows,
    before: u64,
) -> Result<CubeFact, Refusal<Fault<FactKind>>>
    requires made { AreMadeFor (graphs_of graphs.now) (instances_of instances.now) }
    requires before { before ≤ most_listed_facts }
    ensures fact { (earlier : Items (Items (Items ℕ))) → length earlier ≡ before
        → MatchResult result
        (λ f. (cube_fact_fault (graphs_of graphs.now) (instances_of instances.now) earlier rows.now.row
        ≡ None)
        × (cube_fact_of f ≡ cube_fact_read (instances_of instances.now) rows.now.row))
        (IsToldAt (before + 2)
        (cube_fact_fault (graphs_of graphs.now) (instances_of instances.now) earlier rows.now.row)) }
    ensures bottom { IfOk result (λ f.
        IsBottomTuple (graphs_of graphs.now) (instances_of instances.now) (members_of f.members)) }
    ensures few { IfOk result (λ f. before < most_listed_facts) }
{
    let at = before + 2;
    let dimensions = instances.len();
    if rows.len() != dimensions + 1 {
        return Err(Refusal::Kind(Fault {
            at,
            kind: FactKind::FieldCount,
        }));
    }
    let members = members(alloc, graphs, instances, rows, at)?;
    let Some(value) = value(rows.field(dimensions)) else {
        return Err(Refusal::Kind(Fault {
            at,
            kind: FactKind::BadNumber,
        }));
    };
    if before >= MOST_LISTED_FACTS {
        return Err(Refusal::Kind(Fault {
            at,
            kind: FactKind::TooManyFacts,
        }));
    }
    Ok(CubeFact {
        members: List::from_vec(members),
        value,
    })
}

/// The facts of the records that are left.
fn read_rows(
    alloc: Global,
    graphs: &[&Graph],
    instances: &[&Instance],
    rows: &mut Rows,
) -> Result<Vec<CubeFact>, Refusal<Fault<FactKind>>>
    requires made { AreMadeFor (graphs_of graphs.now) (instances_of instances.now) }
    ensures facts { MatchResult result
        (λ v. (first_fault (cube_fact_fault (graphs_of graphs.now) (instances_of instances.now))
        [] rows.old.left ≡ None)
        × (map cube_fact_of v.items ≡ map (cube_fact_read (instances_of instances.now)) rows.old.left))
        (IsFaultCause (first_fault
        (cube_fact_fault (graphs_of graphs.now) (instances_of instances.now)) [] rows.old.left)) }
    ensures table { IfOk result
        (λ v. IsCubeFactTable (graphs_of graphs.now) (instances_of instances.now)
        (map cube_fact_of v.items)) }
    ensures few { IfOk result (λ v. length v.items ≤ most_listed_facts) }
{
    let mut facts = Vec::new(alloc);
    'rows: while rows.advance()? {
        let fact = fact(alloc, graphs, instances, rows, facts.len() as u64)?;
        facts.push(fact)?;
    }
    Ok(facts)
}

/// The fact table that the records tell that are left, or their first fault.
fn read_left(
    alloc: Global,
    graphs: &[&Graph],
    instances: &[&Instance],
    rows: &mut Rows,
) -> Result<CubeFacts, Refusal<Fault<FactKind>>>
    requires few { length instances.now ≤ most_dimensions }
    requires made { AreMadeFor (graphs_of graphs.now) (instances_of instances.now) }
    ensures read { MatchResult result
        (λ f. cube_facts_read (graphs_of graphs.now) (instances_of instances.now)
        rows.old.left ≡ Ok (cube_facts_of f))
        (λ e. IsRefusedBy e
        (cube_facts_read (graphs_of graphs.now) (instances_of instances.now) rows.old.left)) }
    ensures members { IfOk result
        (λ f. All (λ q. AreMembers (instances_of instances.now) (members_of q.members)) f.rows) }
    ensures few { IfOk result (λ f. length f.rows ≤ most_listed_facts) }
    ensures table { IfOk result
        (λ f. IsCubeFactTable (graphs_of graphs.now) (instances_of instances.now) (cube_facts_of f)) }
{
    if !begins(rows, instances.len())? {
        return Err(Refusal::Kind(Fault {
            at: 1,
            kind: FactKind::BadHeader,
        }));
    }
    let facts = read_rows(alloc, graphs, instances, rows)?;
    Ok(CubeFacts {
        rows: List::from_vec(facts),
    })
}

/// The fact table that a text tells on these instances, or the text's first fault.
fn read(
    alloc: Global,
    graphs: &[&Graph],
    instances: &[&Instance],
    text: &[u8],
) -> Result<CubeFacts, Refusal<Fault<FactKind>>>
    requires few { length instances.now ≤ most_dimensions }
    requires made { AreMadeFor (graphs_of graphs.now) (instances_of instances.now) }
    ensures read { MatchResult result
        (λ f. cube_facts_read (graphs_of graphs.now) (instances_of instances.now)
        (records_of text.now) ≡ Ok (cube_facts_of f))
        (λ e. IsRefusedBy e
        (cube_facts_read (graphs_of graphs.now) (instances_of instances.now) (records_of text.now))) }
    ensures members { IfOk result
        (λ f. All (λ q. AreMembers (instances_of instances.now) (members_of q.members)) f.rows) }
    ensures few { IfOk result (λ f. length f.rows ≤ most_listed_facts) }
    ensures table { IfOk result
        (λ f. IsCubeFactTable (graphs_of graphs.now) (instances_of instances.now) (cube_facts_of f)) }
{
    let mut rows = Rows::new(alloc, text);
    read_left(alloc, graphs, instances, &mut rows)
}

/// The fact table that a text tells, or the text's first fault. The graphs are those of the dimensions, in order. Each
/// record takes a look-up of an id for each dimension.
///
/// Of a record the first of these is its fault: `FieldCount`; for each member from left to right `UnknownMember`,
/// `NotBottom`; `BadNumber`; `TooManyFacts` if it is one more than `MOST_LISTED_FACTS`. `Memory`: out of memory.
pub fn read_cube_facts(
    alloc: Global,
    graphs: &[&Graph],
    legals: &Legals,
    text: &[u8],
) -> Result<CubeFacts, Refusal<Fault<FactKind>>>
    requires made { AreMadeFor (graphs_of graphs.now) legals.now }

    ensures read { MatchResult result
        (λ f. cube_facts_read (graphs_of graphs.now) legals.now (records_of text.now)
        ≡ Ok (cube_facts_of f))
        (λ e. IsRefusedBy e
        (cube_facts_read (graphs_of graphs.now) legals.now (records_of text.now))) }

    ensures members { IfOk result
        (λ f. All (λ q. AreMembers legals.now (members_of q.members)) f.rows) }
    ensures few { IfOk result (λ f. length f.rows ≤ most_listed_facts) }
    ensures table { IfOk result
        (λ f. IsCubeFactTable (graphs_of graphs.now) legals.now (cube_facts_of f)) }
{
    let instances = legals.instances(alloc)?;
    read(alloc, graphs, &instances, text)
}
