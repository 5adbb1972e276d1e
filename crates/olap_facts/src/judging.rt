// What a record says, or what is wrong with it.
ghost use Rattle.std.specs.Prelude.{◌≡◌, ◌==◌, ◌∷◌, ◌++◌, ◌+◌, ◌<◌, ◌≤◌, ℕ, IfOk, List as Items, MatchResult, None, OnOk, Some, length, map, true};
ghost use Rattle.olap_base.specs.Graph.{IsBottom};
ghost use Rattle.olap_base.specs.Instance.{category_of};
ghost use Rattle.olap_base.specs.Refusing.{IsRefusedBy};
ghost use Rattle.olap_base.specs.Views.{Fact as TheFact, IsFactTable};
ghost use Rattle.olap_numerals.specs.Values.{value_of};
ghost use Rattle.olap_records.specs.Faults.{field};
ghost use Rattle.olap_facts.specs.FactText.{fact_fault_within, fact_read, facts_read_within};
ghost use Rattle.olap_facts.specs.Feeding.{Counted};
ghost use Rattle.csv.specs.Records.{fields_of};
ghost use Rattle.olap_facts.specs.Pending.{ArePending};
ghost use Rattle.olap_facts.specs.Seen.{fact_of};

use crate::pending::{Pending, Told};
use crate::reading::is_at_bottom;
use crate::settings::Setting;
use crate::{Fact, FactKind};
use olap_base::{Fault, Refusal};

/// The fact of a record that has this first field and tells this besides, after this many facts.
#[inline(always)]
pub(crate) fn judged(
    setting: Setting<'_>,
    id: &[u8],
    told: Told,
    before: u64,
) -> Result<Fact, FactKind>
    ensures fact { (earlier : Items (Items (Items ℕ))) (row : Items (Items ℕ)) → length earlier ≡ before
        → id.now ≡ field row 0 → told.is_pair ≡ (length row == 2) → told.value ≡ value_of (field row 1)
        → MatchResult result
        (λ f.
        (fact_fault_within setting.entry.most setting.entry.graph.now setting.entry.instance.now earlier row ≡ None)
        × (fact_of f ≡ fact_read setting.entry.instance.now row))
        (λ k. fact_fault_within setting.entry.most setting.entry.graph.now setting.entry.instance.now earlier row
        ≡ Some k) }
    ensures member { IfOk result (λ f. f.member.0 < length setting.entry.instance.now) }
    ensures bottom { IfOk result (λ f.
        IsBottom setting.entry.graph.now (category_of setting.entry.instance.now f.member.0)) }
    ensures few { IfOk result (λ f. before < setting.entry.most) }
{
    if !told.is_pair {
        return Err(FactKind::FieldCount);
    }
    let Some(member) = setting.instance.find(id) else {
        return Err(FactKind::UnknownMember);
    };
    if !is_at_bottom(setting.graph, setting.instance, member) {
        return Err(FactKind::NotBottom);
    }
    let Some(value) = told.value else {
        return Err(FactKind::BadNumber);
    };
    if before >= setting.most {
        return Err(FactKind::TooManyFacts);
    }
    Ok(Fact { member, value })
}

/// Adds the facts of the records that are pending to the batch, after so many that were handed out before them.
pub(crate) fn settle(
    setting: Setting<'_>,
    pending: &Pending,
    handed: u64,
    batch: &mut Vec<Fact>,
) -> Result<(), Refusal<Fault<FactKind>>>
    requires few { handed ≤ setting.most }
    requires as_many { length (fields_of pending.now.ids) ≡ length pending.now.told.items }
    ensures counts { let g = setting.entry.graph.now in let i = setting.entry.instance.now in
        (rows done : Items (Items (Items ℕ))) (facts : Items (TheFact ℕ)) → ArePending rows pending.now
        → Counted setting.entry.most g i handed true done (facts ++ map fact_of batch.old.items)
        → MatchResult result
        (λ _. Counted setting.entry.most g i (handed + length pending.now.told.items) true (done ++ rows)
        (facts ++ map fact_of batch.new.items))
        (λ e. (left : Items (Items (Items ℕ)))
        → IsRefusedBy e (facts_read_within setting.entry.most g i ((done ++ rows) ++ left))) }
    ensures table { let g = setting.entry.graph.now in let i = setting.entry.instance.now in
        IsFactTable g i (map fact_of batch.old.items) → OnOk result (IsFactTable g i (map fact_of batch.new.items)) }
    ensures more { OnOk result
        (length batch.new.items ≡ length batch.old.items + length pending.now.told.items) }
    ensures few { OnOk result (handed + length pending.now.told.items ≤ setting.entry.most) }
{
    'records: for k in 0..pending.told.len() {
        let before = handed + k as u64;
        match judged(setting, pending.id(k), pending.told[k], before) {
            Ok(fact) => batch.push(fact)?,
            Err(kind) => {
                return Err(Refusal::Kind(Fault {
                    at: before + 2,
                    kind,
                }));
            }
        }
    }
    Ok(())
}
