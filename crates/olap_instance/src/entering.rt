// The first pass over a text: its members, their parents aside.
ghost use Rattle.std.specs.Prelude.{◌≡◌, ◌<◌, ◌+◌, ◌∷◌, ◌++◌, [], ℕ, List, codes, false, length, map, None, Some, OnOk, IfSome, MatchResult};
ghost use Rattle.olap_base.specs.Graph.{IsCategory};
ghost use Rattle.std.specs.Str.{bytes_eq};
ghost use Rattle.olap_base.specs.Limits.{most_members};
ghost use Rattle.olap_base.specs.Naming.{place_of};
ghost use Rattle.olap_graph.specs.Lookups.{category_named};
ghost use Rattle.olap_records.specs.Faults.{first_fault};
ghost use Rattle.olap_instance.specs.InstanceText.{category_number, id_field, is_no_text, member_fault, member_read, parents_field};
ghost use Rattle.olap_instance.specs.Passes.{PassesFirst, ids_in};
ghost use Rattle.olap_instance.specs.Refusals.{IsFaultCause, IsRecordCause};

use crate::InstanceKind;
use crate::lists::Lists;
use crate::rosters::Roster;
use crate::texts::{is_bad, is_bad_number, is_long, is_text};
use olap_base::{CatId, Fault, MOST_MEMBERS, Refusal};
use olap_graph::Graph;
use olap_records::Rows;

fn category(graph: &Graph, name: &[u8]) -> Option<u16>
    ensures named { result ≡ category_named graph.now name.now }
    ensures category { IfSome result (IsCategory graph.now) }
{
    match graph.category(name) {
        Some(category) => Some(category.0),
        None => None,
    }
}

fn holds_no_text(rows: &Rows) -> bool
    requires { length rows.now.row ≡ 4 }
    ensures { result ≡ is_no_text rows.now.row }
{
    !is_text(rows.field(0))
        || !is_text(rows.field(1))
        || !is_text(rows.field(2))
        || !is_text(rows.field(3))
}

// Checks the record that was read last, after the members of the records before it, and gives its category.
fn checked(graph: &Graph, roster: &Roster, rows: &Rows) -> Result<u16, InstanceKind>
    ensures member { (earlier : List (List (List ℕ)))
        → map id_field earlier ≡ ids_in roster.now → length earlier ≡ length roster.now
        → MatchResult result
        (λ c. (member_fault graph.now earlier rows.now.row ≡ None) × (c ≡ category_number graph.now rows.now.row))
        (λ k. member_fault graph.now earlier rows.now.row ≡ Some k) }
    ensures fields { OnOk result (length rows.now.row ≡ 4) }
    ensures absent { OnOk result (place_of (id_field rows.now.row) (ids_in roster.now) ≡ None) }
    ensures room { OnOk result (length roster.now + 1 < most_members) }
    ensures other { OnOk result (bytes_eq (id_field rows.now.row) (codes "all") ≡ false) }
{
    if rows.len() != 4 {
        return Err(InstanceKind::FieldCount);
    }
    if holds_no_text(rows) {
        return Err(InstanceKind::BadUtf8);
    }
    let id = rows.field(0);
    if is_bad(id) {
        return Err(InstanceKind::BadId);
    }
    if is_long(id) || is_long(rows.field(2)) {
        return Err(InstanceKind::TextTooLong);
    }
    let Some(category) = category(graph, rows.field(1)) else {
        return Err(InstanceKind::UnknownCategory);
    };
    if category == 0 {
        return Err(InstanceKind::RowForAll);
    }
    if is_bad_number(graph.is_number(CatId(category)), rows.field(2)) {
        return Err(InstanceKind::BadNumber);
    }
    if id == b"all".as_slice() || roster.find(id).is_some() {
        return Err(InstanceKind::DuplicateId);
    }
    if roster.len() >= MOST_MEMBERS - 1 {
        return Err(InstanceKind::TooManyMembers);
    }
    Ok(category)
}

// Adds the member of the record that was read last.
fn enter(
    graph: &Graph,
    roster: &mut Roster,
    rows: &Rows,
) -> Result<(), Refusal<Fault<InstanceKind>>>
    requires few { length roster.old < most_members }
    ensures member { (earlier : List (List (List ℕ))) → roster.old ≡ map (member_read graph.now) earlier
        → MatchResult result
        (λ _. (member_fault graph.now earlier rows.now.row ≡ None)
        × (roster.new ≡ roster.old ++ member_read graph.now rows.now.row ∷ []))
        (λ e. IsRecordCause (member_fault graph.now earlier rows.now.row) (length earlier) e) }
    ensures few { OnOk result (length roster.new < most_members) }
    ensures others { place_of (codes "all") (ids_in roster.old) ≡ None
        → OnOk result (place_of (codes "all") (ids_in roster.new) ≡ None) }
{
    match checked(graph, roster, rows) {
        Ok(category) => {
            roster.add(rows.field(0), CatId(category), rows.field(2))?;
            Ok(())
        }
        Err(kind) => Err(Refusal::Kind(Fault {
            at: roster.len() as u64 + 2,
            kind,
        })),
    }
}

// The field of parents of the record that was read last. What isn't there is empty.
fn parents_of<'b>(rows: &'b Rows) -> &'b [u8]
    ensures { result.now ≡ parents_field rows.now.row }
{
    if rows.len() > 3 { rows.field(3) } else { &[] }
}

/// Adds the members of the records that are left, their parents aside, and the field of parents of each.
pub(crate) fn enter_rows(
    graph: &Graph,
    rows: &mut Rows,
    roster: &mut Roster,
    fields: &mut Lists<u8>,
) -> Result<(), Refusal<Fault<InstanceKind>>>
    requires members { roster.old ≡ [] }
    requires fields { fields.old ≡ [] }
    ensures members { MatchResult result
        (λ _. PassesFirst graph.now rows.old.left roster.new)
        (λ e. IsFaultCause (first_fault (member_fault graph.now) [] rows.old.left) e) }
    ensures fields { OnOk result (fields.new ≡ map parents_field rows.old.left) }
    ensures few { OnOk result (length roster.new < most_members) }
    ensures others { OnOk result (place_of (codes "all") (ids_in roster.new) ≡ None) }
{
    'rows: while rows.advance()? {
        enter(graph, roster, rows)?;
        fields.add(parents_of(rows))?;
    }
    Ok(())
}
