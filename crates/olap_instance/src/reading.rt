// An instance read from a text.
ghost use Rattle.std.specs.Prelude.{◌≡◌, ◌<◌, [], codes, true, drop, length, map, None, IfOk, IsTrue, MatchResult, Ok, OnOk};
ghost use Rattle.olap_base.specs.Limits.{most_members};
ghost use Rattle.olap_base.specs.Naming.{place_of};
ghost use Rattle.olap_records.specs.Records.{records_of};
ghost use Rattle.olap_instance.specs.InstanceText.{header, instance_read, parents_field};
ghost use Rattle.olap_instance.specs.Made.{IsMadeFor};
ghost use Rattle.olap_instance.specs.Members.{AreSound, HasShortNames, with_parents};
ghost use Rattle.olap_instance.specs.Passes.{PassesFirst, ids_in, parents_in};
ghost use Rattle.olap_base.specs.Refusing.{IsRefusedBy};
ghost use Rattle.olap_records.specs.Tables.{begins_with};

use crate::entering::enter_rows;
use crate::hashing::KeyedHash;
use crate::linking::link_all;
use crate::lists::Lists;
use crate::rosters::Roster;
use crate::{Instance, InstanceKind};
use olap_base::{Fault, MemberId, Memory, Refusal};
use olap_graph::Graph;
use olap_records::Rows;
use std::alloc::Global;

// Reads the first record, and says whether it is the header.
fn begins(rows: &mut Rows) -> Result<bool, Memory>
    ensures header { IfOk result (λ b. b ≡ begins_with header rows.old.left) }
    ensures left { IfOk result (λ b. IsTrue b → rows.new.left ≡ drop 1 rows.old.left) }
{
    let found = rows.advance()?;
    Ok(found && rows.is_row(&[b"id", b"category", b"name", b"parents"]))
}

// Adds the members that records tell, their parents aside, and the field of parents of each, if the first record is
// the header.
fn enter_table(
    graph: &Graph,
    rows: &mut Rows,
    roster: &mut Roster,
    fields: &mut Lists<u8>,
) -> Result<(), Refusal<Fault<InstanceKind>>>
    requires members { roster.old ≡ [] }
    requires fields { fields.old ≡ [] }
    ensures members { MatchResult result
        (λ _. (begins_with header rows.old.left ≡ true) × PassesFirst graph.now (drop 1 rows.old.left) roster.new)
        (λ e. IsRefusedBy e (instance_read graph.now rows.old.left)) }
    ensures fields { OnOk result (fields.new ≡ map parents_field (drop 1 rows.old.left)) }
    ensures few { OnOk result (length roster.new < most_members) }
    ensures others { OnOk result (place_of (codes "all") (ids_in roster.new) ≡ None) }
{
    if !begins(rows)? {
        return Err(Refusal::Kind(Fault {
            at: 1,
            kind: InstanceKind::BadHeader,
        }));
    }
    enter_rows(graph, rows, roster, fields)
}

// Adds the members that a text tells, their parents aside, and the field of parents of each.
fn enter_text(
    alloc: Global,
    graph: &Graph,
    text: &[u8],
    roster: &mut Roster,
    fields: &mut Lists<u8>,
) -> Result<(), Refusal<Fault<InstanceKind>>>
    requires members { roster.old ≡ [] }
    requires fields { fields.old ≡ [] }
    ensures members { MatchResult result
        (λ _. (begins_with header (records_of text.now) ≡ true)
        × PassesFirst graph.now (drop 1 (records_of text.now)) roster.new)
        (λ e. IsRefusedBy e (instance_read graph.now (records_of text.now))) }
    ensures fields { OnOk result (fields.new ≡ map parents_field (drop 1 (records_of text.now))) }
    ensures few { OnOk result (length roster.new < most_members) }
    ensures others { OnOk result (place_of (codes "all") (ids_in roster.new) ≡ None) }
{
    let mut rows = Rows::new(alloc, text);
    enter_table(graph, &mut rows, roster, fields)
}

// Adds the members that a text tells, with `all` as the last, and the parents of each. The fields of parents are kept
// until all members are known.
fn read_parts(
    alloc: Global,
    graph: &Graph,
    text: &[u8],
    roster: &mut Roster,
    fields: &mut Lists<u8>,
    parents: &mut Lists<MemberId>,
) -> Result<(), Refusal<Fault<InstanceKind>>>
    requires members { roster.old ≡ [] }
    requires fields { fields.old ≡ [] }
    requires parents { parents.old ≡ [] }
    ensures read { MatchResult result
        (λ _. instance_read graph.now (records_of text.now) ≡ Ok (with_parents roster.new (parents_in parents.new)))
        (λ e. IsRefusedBy e (instance_read graph.now (records_of text.now))) }
    ensures sound { OnOk result (AreSound roster.new (parents_in parents.new)) }
    ensures made { OnOk result (IsMadeFor graph.now (with_parents roster.new (parents_in parents.new))) }
    ensures names { OnOk result (HasShortNames (with_parents roster.new (parents_in parents.new))) }
{
    enter_text(alloc, graph, text, roster, fields)?;
    roster.add_all()?;
    link_all(alloc, roster, fields, parents)?;
    parents.begin()?;
    Ok(())
}

/// The instance that a text tells, or the text's first fault. Each record has passed the checks of its own fields
/// before any record's parents are looked at.
pub fn read_instance(
    alloc: Global,
    graph: &Graph,
    text: &[u8],
) -> Result<Instance, Refusal<Fault<InstanceKind>>>
    ensures read { MatchResult result
        (λ i. instance_read graph.now (records_of text.now) ≡ Ok i)
        (λ e. IsRefusedBy e (instance_read graph.now (records_of text.now))) }
    ensures made { IfOk result (λ i. IsMadeFor graph.now i) }
    ensures names { IfOk result (λ i. HasShortNames i) }
{
    let mut roster = Roster::new(alloc, KeyedHash::by_text(text));
    let mut fields = Lists::new(alloc);
    let mut parents = Lists::new(alloc);
    read_parts(alloc, graph, text, &mut roster, &mut fields, &mut parents)?;
    Ok(Instance::from_parts(roster, parents))
}
