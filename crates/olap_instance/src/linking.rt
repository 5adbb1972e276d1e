// The second pass over the records of a text: the parents of its members.
ghost use Rattle.std.specs.Prelude.{◌≡◌, ◌<◌, ◌+◌, [], ℕ, List, length, map, None, Some, OnOk, IfOk, MatchResult};
ghost use Rattle.olap_base.specs.Naming.{place_of};
ghost use Rattle.olap_records.specs.Faults.{first_fault};
ghost use Rattle.olap_instance.specs.InstanceText.{parents_fault, parents_field, piece_fault, pieces_fault, pieces_of};
ghost use Rattle.olap_instance.specs.Passes.{AddsParents, AreBelow, AreStamped, FieldsPass, PassesSecond, field_fault, ids_in, parents_in};
ghost use Rattle.olap_instance.specs.Refusals.{IsFaultCause, IsRecordCause};

use crate::InstanceKind;
use crate::lists::Lists;
use crate::rosters::Roster;
use crate::texts::{all_pieces, first_piece};
use olap_base::{Fault, MemberId, Refusal};
use std::alloc::Global;

// The member that a piece names, where the mark stands at the members that the pieces before it name.
fn named(roster: &Roster, stamps: &[usize], mark: usize, piece: &[u8]) -> Result<u32, InstanceKind>
    requires { length stamps.now ≡ length roster.now }
    ensures parent { (before : List (List ℕ)) (found : List ℕ)
        → map (λ p. place_of p (ids_in roster.now)) before ≡ map Some found → AreStamped stamps.now mark found
        → MatchResult result
        (λ m. (piece_fault (ids_in roster.now) before piece.now ≡ None)
        × (place_of piece.now (ids_in roster.now) ≡ Some m))
        (λ k. piece_fault (ids_in roster.now) before piece.now ≡ Some k) }
    ensures inside { IfOk result (λ m. m < length stamps.now) }
{
    let Some(place) = roster.find(piece) else {
        return Err(InstanceKind::UnknownParent);
    };
    if stamps[place as usize] == mark {
        return Err(InstanceKind::DuplicateParent);
    }
    Ok(place)
}

// The members that a field names, as parents of the next member. It is cut piece by piece, to its first fault.
fn link(
    roster: &Roster,
    stamps: &mut [usize],
    parents: &mut Lists<MemberId>,
    field: &[u8],
) -> Result<(), Refusal<Fault<InstanceKind>>>
    requires as_many { length stamps.old ≡ length roster.now }
    requires below { AreBelow stamps.old (length parents.old + 1) }
    ensures parents { MatchResult result
        (λ _. AddsParents (ids_in roster.now) (pieces_of field.now) parents.old parents.new)
        (λ e. IsRecordCause (pieces_fault (ids_in roster.now) (pieces_of field.now)) (length parents.old) e) }
    ensures as_many { length stamps.new ≡ length roster.now }
    ensures below { OnOk result (AreBelow stamps.new (length parents.old + 2)) }
{
    let child = parents.len();
    parents.begin()?;
    let mut left = all_pieces(field);
    'pieces: while let Some(text) = left {
        let (piece, others) = first_piece(text);
        match named(roster, stamps, child + 1, piece) {
            Ok(place) => {
                stamps[place as usize] = child + 1;
                parents.push(MemberId(place))?;
            }
            Err(kind) => {
                return Err(Refusal::Kind(Fault {
                    at: child as u64 + 2,
                    kind,
                }));
            }
        }
        left = others;
    }
    Ok(())
}

// Adds the parents that fields tell, each those of one member.
fn link_fields(
    roster: &Roster,
    stamps: &mut [usize],
    fields: &Lists<u8>,
    parents: &mut Lists<MemberId>,
) -> Result<(), Refusal<Fault<InstanceKind>>>
    requires as_many { length stamps.old ≡ length roster.now }
    requires below { AreBelow stamps.old 1 }
    requires none { parents.old ≡ [] }
    ensures { MatchResult result
        (λ _. FieldsPass (ids_in roster.now) fields.now (parents_in parents.new))
        (λ e. IsFaultCause (first_fault (field_fault (ids_in roster.now)) [] fields.now) e) }
{
    parents.reserve(roster.len())?;
    'fields: for child in 0..fields.len() {
        link(roster, stamps, parents, fields.of(child))?;
    }
    Ok(())
}

/// Adds the parents that the fields of records tell.
pub(crate) fn link_all(
    alloc: Global,
    roster: &Roster,
    fields: &Lists<u8>,
    parents: &mut Lists<MemberId>,
) -> Result<(), Refusal<Fault<InstanceKind>>>
    requires none { parents.old ≡ [] }
    ensures { (rows : List (List (List ℕ))) → fields.now ≡ map parents_field rows → MatchResult result
        (λ _. PassesSecond (ids_in roster.now) rows (parents_in parents.new))
        (λ e. IsFaultCause (first_fault (parents_fault (ids_in roster.now)) [] rows) e) }
{
    let mut stamps = vec![in alloc; 0usize; roster.len()]?;
    link_fields(roster, &mut stamps, fields, parents)
}
