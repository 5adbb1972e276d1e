// A tally of a cube's facts: the total of the values at each tuple of the target's members that some fact reaches.
ghost use Rattle.std.specs.Prelude.{◌≡◌, ◌+◌, ◌++◌, ◌∷◌, ◌<◌, ◌≤◌, ℕ, All, IfOk, IfSome, IsNone, List as Items, OnErr, OnOk, [], length};
ghost use Rattle.olap_base.specs.Limits.{most_count};
ghost use Rattle.olap_base.specs.Views.{Fact as TheFact, direct_rows};
ghost use Rattle.olap_cube.specs.CubeViews.{tuples};
ghost use Rattle.olap_view.specs.Seen.{ids};
ghost use Rattle.olap_cube_views.specs.CubeTallies.{AreMembers, CubeStandsFor, IsTupleAncestor, IsWithin, ReachesNone, entries_of, key_of, summary_at, tallied};
ghost use Rattle.olap_cube.specs.Limits.{most_dimensions};
ghost use Rattle.olap_cube_views.specs.Dimensions.{categories_in, instances_in};
ghost use Rattle.olap_cube_views.specs.Seen.{cube_rows_of, fact_at, members_of};

use crate::sums::{Sums, join_rows};
use crate::{CubeRow, Legals, Members};
use olap_base::{CatId, MemberId, Memory};
use olap_cube::MOST_DIMENSIONS;
use olap_view::Column;
use std::alloc::Global;
use std::marker::Model;

/// The total of the values of the facts that were added, at each tuple of members of a target.
#[derive(Drop)]
pub(crate) struct CubeTally<'a> {
    // For each dimension the member of the target's category that each member reaches.
    columns: Vec<Column<'a>>,
    sums: Sums,
    added: u64,
}

impl<'a> Model for CubeTally<'a> {
    ghost use Rattle.olap_cube_views.specs.CubeTallies.{CubeTallied, IsCubeTally, tallied};

    ghost Value = { CubeTallied };

    ghost view = { λ a. tallied a.columns.items a.sums.rows.items a.added };

    ghost invariant = { λ a. IsCubeTally (tallied a.columns.items a.sums.rows.items a.added) };
}

/// For each dimension the column of the target's category. It takes four bytes for each member of the instances.
pub(crate) fn columns<'a>(
    alloc: Global,
    legals: &'a Legals,
    target: &[CatId],
) -> Result<Vec<Column<'a>>, Memory>
    requires { length target.now ≡ length legals.now }
    ensures instances { IfOk result (λ v. instances_in v.items ≡ legals.now) }
    ensures categories { IfOk result (λ v. categories_in v.items ≡ ids target.now) }
    ensures few { IfOk result (λ v. length v.items ≤ most_dimensions) }
{
    let mut columns = Vec::new(alloc);
    'dimensions: for k in 0..legals.len() {
        columns.push(Column::new(alloc, legals.legal(k), target[k])?)?;
    }
    Ok(columns)
}

/// The one tuple of the target's members that these members reach, if there is one, and first members after it.
fn key(columns: &[Column], members: &[MemberId]) -> Option<Members>
    requires few { length columns.now ≤ most_dimensions }
    requires members { AreMembers (instances_in columns.now) (members_of members.now) }
    ensures some { IfSome result (λ q. (y : Items ℕ)
        × IsTupleAncestor (instances_in columns.now) (members_of members.now)
        (categories_in columns.now) y × (q.places ≡ key_of y)) }
    ensures none { IsNone result
        → ReachesNone (instances_in columns.now) (members_of members.now) (categories_in columns.now) }
{
    let mut key = [0; MOST_DIMENSIONS];
    'dimensions: for k in 0..columns.len() {
        match columns[k].ancestor(members[k]) {
            Some(y) => key[k] = y.0,
            None => return None,
        }
    }
    Some(Members { places: key })
}

/// Adds a value at the tuple that these members reach, if they reach one: what stood for some facts stands for them and
/// this one after them.
fn add_fact(
    columns: &[Column],
    sums: &mut Sums,
    members: &[MemberId],
    value: i64,
) -> Result<(), Memory>
    requires few { length columns.now ≤ most_dimensions }
    requires members { AreMembers (instances_in columns.now) (members_of members.now) }
    requires within { IsWithin most_count (entries_of sums.old.rows.items) }
    ensures stands { OnOk result ((n : ℕ) (facts : Items (TheFact (Items ℕ)))
        → CubeStandsFor (tallied columns.now sums.old.rows.items n) facts
        → CubeStandsFor (tallied columns.now sums.new.rows.items (n + 1))
        (facts ++ fact_at members.now value ∷ [])) }
    ensures within { OnOk result ((n : ℕ) → IsWithin n (entries_of sums.old.rows.items)
        → IsWithin (n + 1) (entries_of sums.new.rows.items)) }
    ensures err { OnErr result ((q : Items ℕ) → summary_at (entries_of sums.new.rows.items) q
        ≡ summary_at (entries_of sums.old.rows.items) q) }
    ensures left { OnErr result ((n : ℕ) → IsWithin n (entries_of sums.old.rows.items)
        → IsWithin n (entries_of sums.new.rows.items)) }
{
    match key(columns, members) {
        Some(key) => sums.add(key, value),
        None => Ok(()),
    }
}

impl<'a> CubeTally<'a> {
    /// A tally over these columns, to which no fact was added.
    pub(crate) fn new(alloc: Global, columns: Vec<Column<'a>>) -> CubeTally<'a>
        requires few { length columns.items ≤ most_dimensions }
        ensures instances { result.instances ≡ instances_in columns.entry.items }
        ensures target { result.target ≡ categories_in columns.entry.items }
        ensures stands { CubeStandsFor result [] }
    {
        CubeTally {
            columns,
            sums: Sums::new(alloc),
            added: 0,
        }
    }

    /// How many facts were added.
    pub(crate) fn added(&self) -> u64
        ensures count { result ≡ self.now.added }
        ensures few { result ≤ most_count }
    {
        self.added
    }

    /// Adds a value at members: a tally that stood for some facts stands for them and this one after them. It takes
    /// one look at a list for each dimension; memory goes by the tuples that were reached.
    pub(crate) fn add(&mut self, members: &[MemberId], value: i64) -> Result<(), Memory>
        requires members { AreMembers self.old.instances (members_of members.now) }
        requires room { self.old.added < most_count }
        ensures instances { self.new.instances ≡ self.old.instances }
        ensures target { self.new.target ≡ self.old.target }
        ensures added { OnOk result (self.new.added ≡ self.old.added + 1) }
        ensures stands { OnOk result ((facts : Items (TheFact (Items ℕ))) → CubeStandsFor self.old facts
            → CubeStandsFor self.new (facts ++ fact_at members.now value ∷ [])) }
    {
        add_fact(&self.columns, &mut self.sums, members, value)?;
        self.added += 1;
        Ok(())
    }

    /// The rows of the direct view.
    pub(crate) fn into_rows(self) -> Vec<CubeRow>
        ensures rows { (facts : Items (TheFact (Items ℕ))) → CubeStandsFor self.entry facts
            → cube_rows_of (length self.entry.instances) result.items
            ≡ direct_rows (tuples self.entry.instances) self.entry.target facts }
        ensures members { All (λ r. AreMembers self.entry.instances r.at)
            (cube_rows_of (length self.entry.instances) result.items) }
        ensures width { length self.entry.target ≡ length self.entry.instances }
    {
        let mut rows = self.sums.rows;
        join_rows(&mut rows);
        rows
    }
}
