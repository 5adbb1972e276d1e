// How far a text of facts that comes in pieces was read.
ghost use Rattle.std.specs.Prelude.{◌≡◌, ◌∷◌, ◌++◌, ◌+◌, ◌<◌, ◌≤◌, ℕ, IfOk, IfSome, List as Items, MatchOption, MatchResult, None, OnOk, Ok, Some, [], false, length, map, true};
ghost use Rattle.olap_base.specs.Graph.{IsBottom};
ghost use Rattle.olap_base.specs.Instance.{category_of};
ghost use Rattle.olap_base.specs.Refusing.{IsRefusedBy};
ghost use Rattle.olap_base.specs.Views.{Fact as TheFact, IsFactTable};
ghost use Rattle.olap_instance.specs.Made.{IsMadeFor};
ghost use Rattle.olap_records.specs.Standing.{at_start};
ghost use Rattle.olap_facts.specs.FactText.{fact_fault_within, fact_read, facts_read_within};
ghost use Rattle.olap_facts.specs.Feeding.{Counted, Fed, facts_if, fed_read, feeding_in};
ghost use Rattle.olap_facts.specs.Seen.{fact_of};

use crate::judging::{judged, settle};
use crate::pending::{Pending, nth_field, told_of};
use crate::settings::Setting;
use crate::{Fact, FactKind};
use olap_base::{Fault, Refusal};
use olap_records::Splitter;
use std::alloc::Global;

// With this many members or more, their ids don't fit in a near cache.
const MANY_MEMBERS: u32 = 16_384;

/// What the record is that was found last: the header where none was found before, else a fact.
#[inline(always)]
fn taken(
    setting: Setting<'_>,
    row: &Splitter,
    begun: bool,
    handed: u64,
) -> Result<Option<Fact>, Refusal<Fault<FactKind>>>
    requires few { handed ≤ setting.most }
    ensures counts { let g = setting.entry.graph.now in let i = setting.entry.instance.now in
        (done : Items (Items (Items ℕ))) (facts : Items (TheFact ℕ))
        → Counted setting.entry.most g i handed begun done facts → MatchResult result
        (λ o. MatchOption o
        (Counted setting.entry.most g i handed true (done ++ row.now.row ∷ []) facts)
        (λ f. Counted setting.entry.most g i (handed + 1) true (done ++ row.now.row ∷ [])
        (facts ++ fact_of f ∷ [])))
        (λ e. (left : Items (Items (Items ℕ))) → IsRefusedBy e
        (facts_read_within setting.entry.most g i ((done ++ row.now.row ∷ []) ++ left))) }
    ensures member { IfOk result (λ o. IfSome o (λ f. f.member.0 < length setting.entry.instance.now)) }
    ensures bottom { IfOk result (λ o. IfSome o (λ f.
        IsBottom setting.entry.graph.now (category_of setting.entry.instance.now f.member.0))) }
    ensures few { IfOk result (λ o. IfSome o (λ f. handed < setting.entry.most)) }
{
    if !begun {
        if !row.is_row(&[b"member", b"value"]) {
            return Err(Refusal::Kind(Fault {
                at: 1,
                kind: FactKind::BadHeader,
            }));
        }
        return Ok(None);
    }
    match judged(setting, nth_field(row, 0), told_of(row), handed) {
        Ok(fact) => Ok(Some(fact)),
        Err(kind) => Err(Refusal::Kind(Fault {
            at: handed + 2,
            kind,
        })),
    }
}

/// How far a text was read: its records so far, how many facts they had, and whether the header was found.
#[derive(Drop)]
pub(crate) struct Front {
    pub(crate) splitter: Splitter,
    // Empty, or of no more use.
    pending: Pending,
    pub(crate) handed: u64,
    pub(crate) begun: bool,
}

impl Front {
    /// At the start of a text.
    pub(crate) fn new(alloc: Global) -> Front
        ensures stands { result.splitter.stands ≡ at_start }
        ensures none { result.handed ≡ 0 }
        ensures fresh { result.begun ≡ false }
    {
        Front {
            splitter: Splitter::new(alloc),
            pending: Pending::new(alloc),
            handed: 0,
            begun: false,
        }
    }

    /// Takes a piece of the text, and adds the facts of the records that end in it to an empty batch.
    pub(crate) fn take(
        &mut self,
        setting: Setting<'_>,
        piece: &[u8],
        batch: &mut Vec<Fact>,
    ) -> Result<(), Refusal<Fault<FactKind>>>
        requires few { self.old.handed ≤ setting.most }
        requires empty { batch.old.items ≡ [] }
        ensures feeds { let old = feeding_in setting.entry self.old.splitter self.old.handed self.old.begun in
            (fed : Items ℕ) (facts : Items (TheFact ℕ)) → Fed old fed facts → MatchResult result
            (λ _. Fed (feeding_in setting.entry self.new.splitter self.new.handed self.new.begun)
            (fed ++ piece.now) (facts ++ map fact_of batch.new.items))
            (λ e. (more : Items ℕ) → IsRefusedBy e (fed_read old ((fed ++ piece.now) ++ more))) }
        ensures table { OnOk result
            (IsFactTable setting.entry.graph.now setting.entry.instance.now (map fact_of batch.new.items)) }
        ensures handed { OnOk result (self.new.handed ≡ self.old.handed + length batch.new.items) }
        ensures few { self.new.handed ≤ setting.entry.most }
    {
        if self.begun && setting.instance.members() >= MANY_MEMBERS {
            self.take_many(setting, piece, batch)
        } else {
            self.take_each(setting, piece, batch)
        }
    }

    /// The same, record by record.
    fn take_each(
        &mut self,
        setting: Setting<'_>,
        piece: &[u8],
        batch: &mut Vec<Fact>,
    ) -> Result<(), Refusal<Fault<FactKind>>>
        requires few { self.old.handed ≤ setting.most }
        requires empty { batch.old.items ≡ [] }
        ensures feeds { let old = feeding_in setting.entry self.old.splitter self.old.handed self.old.begun in
            (fed : Items ℕ) (facts : Items (TheFact ℕ)) → Fed old fed facts → MatchResult result
            (λ _. Fed (feeding_in setting.entry self.new.splitter self.new.handed self.new.begun)
            (fed ++ piece.now) (facts ++ map fact_of batch.new.items))
            (λ e. (more : Items ℕ) → IsRefusedBy e (fed_read old ((fed ++ piece.now) ++ more))) }
        ensures table { OnOk result
            (IsFactTable setting.entry.graph.now setting.entry.instance.now (map fact_of batch.new.items)) }
        ensures handed { OnOk result (self.new.handed ≡ self.old.handed + length batch.new.items) }
        ensures few { self.new.handed ≤ setting.entry.most }
    {
        let mut at = 0;
        'records: loop {
            let cut = self.splitter.next(&piece[at..])?;
            at += cut.taken;
            if !cut.found {
                return Ok(());
            }
            let row = taken(setting, &self.splitter, self.begun, self.handed)?;
            self.begun = true;
            if let Some(fact) = row {
                batch.push(fact)?;
                self.handed += 1;
            }
        }
    }

    /// The same after the header, so many records at a time that the looks at the index of ids overlap.
    fn take_many(
        &mut self,
        setting: Setting<'_>,
        piece: &[u8],
        batch: &mut Vec<Fact>,
    ) -> Result<(), Refusal<Fault<FactKind>>>
        requires few { self.old.handed ≤ setting.most }
        requires empty { batch.old.items ≡ [] }
        requires begun { self.old.begun ≡ true }
        ensures feeds { let old = feeding_in setting.entry self.old.splitter self.old.handed self.old.begun in
            (fed : Items ℕ) (facts : Items (TheFact ℕ)) → Fed old fed facts → MatchResult result
            (λ _. Fed (feeding_in setting.entry self.new.splitter self.new.handed self.new.begun)
            (fed ++ piece.now) (facts ++ map fact_of batch.new.items))
            (λ e. (more : Items ℕ) → IsRefusedBy e (fed_read old ((fed ++ piece.now) ++ more))) }
        ensures table { OnOk result
            (IsFactTable setting.entry.graph.now setting.entry.instance.now (map fact_of batch.new.items)) }
        ensures handed { OnOk result (self.new.handed ≡ self.old.handed + length batch.new.items) }
        ensures few { self.new.handed ≤ setting.entry.most }
    {
        let mut at = 0;
        'pieces: while at < piece.len() {
            let taken = self.pending.cut(&mut self.splitter, &piece[at..])?;
            at += taken;
            settle(setting, &self.pending, self.handed, batch)?;
            self.handed += self.pending.told.len() as u64;
        }
        Ok(())
    }

    /// The text ends: the fact of a last record that no line break ended, if there is one.
    pub(crate) fn finish(
        &mut self,
        setting: Setting<'_>,
    ) -> Result<Option<Fact>, Refusal<Fault<FactKind>>>
        requires few { self.old.handed ≤ setting.most }
        ensures reads { let old = feeding_in setting.entry self.old.splitter self.old.handed self.old.begun in
            (fed : Items ℕ) (facts : Items (TheFact ℕ)) → Fed old fed facts → MatchResult result
            (λ last. fed_read old fed ≡ Ok (facts ++ facts_if last))
            (λ e. IsRefusedBy e (fed_read old fed)) }
        ensures member { IfOk result (λ o. IfSome o (λ f. f.member.0 < length setting.entry.instance.now)) }
        ensures bottom { IfOk result (λ o. IfSome o (λ f.
            IsBottom setting.entry.graph.now (category_of setting.entry.instance.now f.member.0))) }
        ensures few { IfOk result (λ o. IfSome o (λ f. self.old.handed < setting.entry.most)) }
        ensures handed { self.new.handed ≡ self.old.handed }
    {
        if self.splitter.finish()? {
            return taken(setting, &self.splitter, self.begun, self.handed);
        }
        if !self.begun {
            return Err(Refusal::Kind(Fault {
                at: 1,
                kind: FactKind::BadHeader,
            }));
        }
        Ok(None)
    }
}
