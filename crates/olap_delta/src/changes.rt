// What a fact's value makes of a row, and what the fact makes of the views of a summary table.
ghost use Rattle.std.specs.Prelude.{◌≡◌, ◌≢◌, ◌<◌, ℕ, Contains, Err, IfOk, IfSome, MatchResult, Ok, Some, length, slice_index};
ghost use Rattle.std.specs.Option.{option_map};
ghost use Rattle.olap_delta.specs.Changes.{appended, retracted, without as less_one};
ghost use Rattle.olap_delta.specs.FactByFact.{view_after_fact, views_after_fact};
ghost use Rattle.olap_delta.specs.Changing.{AreStorable, IsStorable, step_of};
ghost use Rattle.olap_facts.specs.Seen.{fact_of};
ghost use Rattle.olap_view.specs.Seen.{summary_of};
ghost use Rattle.olap_view.specs.SummaryTables.{view_at, views_at};

use crate::DeltaKind;
use olap_base::MOST_COUNT;
use olap_facts::Fact;
use olap_view::{Summary, SummaryTable};

/// How stored views change.
#[derive(Clone, Copy, PartialEq, Eq)]
pub enum Change {
    /// Facts come.
    Append,
    /// Facts are withdrawn.
    Retract,
}

/// The summary of a member's row after a value came, or why it can't.
fn append(there: Option<Summary>, value: i64) -> Result<Summary, DeltaKind>
    requires { IfSome (option_map summary_of there) IsStorable }
    ensures step { MatchResult result
        (λ s. appended (option_map summary_of there) value ≡ Ok (summary_of s))
        (λ k. appended (option_map summary_of there) value ≡ Err k) }
    ensures storable { IfOk result (λ s. IsStorable (summary_of s)) }
{
    let alone = Summary::of_value(value);
    let Some(row) = there else {
        return Ok(alone);
    };
    if row.count == MOST_COUNT {
        return Err(DeltaKind::Full);
    }
    let joined = row.joined(alone);
    if !joined.sum_fits() {
        return Err(DeltaKind::Bound);
    }
    Ok(joined)
}

/// The summary without a value that is neither the least nor the greatest.
fn without(row: Summary, value: i64) -> Summary
    requires { IsStorable (summary_of row) }
    ensures { summary_of result ≡ less_one (summary_of row) value }
{
    Summary {
        count: row.count - 1,
        sum: row.sum - i128::from(value),
        least: row.least,
        greatest: row.greatest,
    }
}

/// The summary of a member's row after a value was withdrawn, or why it can't be. The row keeps its least and its
/// greatest.
fn retract(there: Option<Summary>, value: i64) -> Result<Summary, DeltaKind>
    requires { IfSome (option_map summary_of there) IsStorable }
    ensures step { MatchResult result
        (λ s. retracted (option_map summary_of there) value ≡ Ok (summary_of s))
        (λ k. retracted (option_map summary_of there) value ≡ Err k) }
    ensures storable { IfOk result (λ s. IsStorable (summary_of s)) }
{
    let Some(row) = there else {
        return Err(DeltaKind::NoRow);
    };
    if value < row.least || value > row.greatest {
        return Err(DeltaKind::Outside);
    }
    if value == row.least || value == row.greatest {
        return Err(DeltaKind::Extreme);
    }
    if row.count <= 2 {
        return Err(DeltaKind::Short);
    }
    let left = without(row, value);
    if !left.sum_fits() {
        return Err(DeltaKind::Bound);
    }
    Ok(left)
}

impl Change {
    /// The summary of a member's row after the change by a value, or why it can't be.
    fn of_row(self, there: Option<Summary>, value: i64) -> Result<Summary, DeltaKind>
        requires { IfSome (option_map summary_of there) IsStorable }
        ensures step { MatchResult result
            (λ s. step_of self (option_map summary_of there) value ≡ Ok (summary_of s))
            (λ k. step_of self (option_map summary_of there) value ≡ Err k) }
        ensures storable { IfOk result (λ s. IsStorable (summary_of s)) }
    {
        match self {
            Change::Append => append(there, value),
            Change::Retract => retract(there, value),
        }
    }

    /// Changes what stands at the member of the k-th category that the fact's member reaches, if there is one.
    fn view(self, table: &mut SummaryTable, k: usize, fact: &Fact) -> Result<(), DeltaKind>
        requires category { k < length table.old.categories }
        requires member { fact.now.member.0 < length table.old.instance }
        requires storable { AreStorable table.old }
        ensures instance { table.new.instance ≡ table.old.instance }
        ensures categories { table.new.categories ≡ table.old.categories }
        ensures storable { AreStorable table.new }
        ensures view { let c = slice_index table.old.categories k in MatchResult result
            (λ _. view_after_fact (step_of self) table.old.instance (view_at table.old c)
            (fact_of fact.now) ≡ Ok (view_at table.new c))
            (λ e. view_after_fact (step_of self) table.old.instance (view_at table.old c)
            (fact_of fact.now) ≡ Err e) }
        ensures others { (c : ℕ) → Contains table.old.categories c
            → c ≢ slice_index table.old.categories k → view_at table.new c ≡ view_at table.old c }
    {
        if let Some(y) = table.ancestor(k, fact.member) {
            let summary = self.of_row(table.at(y), fact.value)?;
            table.put(y, summary);
        }
        Ok(())
    }

    /// Changes what stands at the members of the categories that the fact's member reaches.
    pub(crate) fn views(self, table: &mut SummaryTable, fact: &Fact) -> Result<(), DeltaKind>
        requires member { fact.now.member.0 < length table.old.instance }
        requires storable { AreStorable table.old }
        ensures instance { table.new.instance ≡ table.old.instance }
        ensures categories { table.new.categories ≡ table.old.categories }
        ensures storable { AreStorable table.new }
        ensures views { MatchResult result
            (λ _. views_after_fact (step_of self) table.old.instance (views_at table.old)
            (fact_of fact.now) ≡ Ok (views_at table.new))
            (λ e. views_after_fact (step_of self) table.old.instance (views_at table.old)
            (fact_of fact.now) ≡ Err e) }
    {
        'categories: for k in 0..table.categories().len() {
            self.view(table, k, fact)?;
        }
        Ok(())
    }
}
