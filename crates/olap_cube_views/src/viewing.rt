// The direct view of a cube's target from facts.
ghost use Rattle.std.specs.Prelude.{◌≡◌, ℕ, ◌≤◌, All, IfOk, List as Items, OnOk, [], length};
ghost use Rattle.olap_base.specs.Limits.{most_count};
ghost use Rattle.olap_base.specs.Views.{Fact as TheFact, direct_view};
ghost use Rattle.olap_cube.specs.CubeViews.{tuples};
ghost use Rattle.olap_view.specs.Seen.{ids};
ghost use Rattle.olap_cube_views.specs.CubeTallies.{AreMembers, CubeStandsFor};
ghost use Rattle.olap_cube_views.specs.Seen.{cube_facts_of, cube_view_of, members_of};

use crate::tallies::{CubeTally, columns};
use crate::{CubeFacts, CubeView, Legals};
use olap_base::{CatId, List, Memory};
use std::alloc::Global;

/// The direct view of a tally's target from the facts that were added.
pub(crate) fn view(
    alloc: Global,
    target: &[CatId],
    tally: CubeTally<'_>,
) -> Result<CubeView, Memory>
    requires { tally.target ≡ ids target.now }
    ensures view { IfOk result (λ v. (facts : Items (TheFact (Items ℕ))) → CubeStandsFor tally.entry facts
        → cube_view_of v ≡ direct_view (tuples tally.entry.instances) facts (ids target.now)) }
    ensures members { IfOk result (λ v.
        All (λ r. AreMembers tally.entry.instances r.at) (cube_view_of v).rows) }
{
    let mut categories = Vec::new(alloc);
    categories.extend_from_slice(target)?;
    Ok(CubeView {
        target: List::from_vec(categories),
        rows: List::from_vec(tally.into_rows()),
    })
}

/// Adds facts to an empty tally.
fn add_facts(facts: &CubeFacts, tally: &mut CubeTally) -> Result<(), Memory>
    requires start { CubeStandsFor tally.old [] }
    requires at_members { All (λ f. AreMembers tally.old.instances (members_of f.members)) facts.now.rows }
    requires few { length facts.now.rows ≤ most_count }
    ensures instances { tally.new.instances ≡ tally.old.instances }
    ensures target { tally.new.target ≡ tally.old.target }
    ensures stands { OnOk result (CubeStandsFor tally.new (cube_facts_of facts.now)) }
{
    'facts: for fact in facts.rows.items() {
        tally.add(fact.members.items(), fact.value)?;
    }
    Ok(())
}

/// The direct view of a target, a category of each dimension: a row for each tuple of their members that some fact's
/// members reach, in file order of the first dimension's members, then of the second's, and so on, with the count, sum,
/// least and greatest of those facts' values.
///
/// It takes four bytes for each member of the instances, and memory for each row; a fact takes a look at a list for
/// each dimension and a look-up among the rows. `Memory`: out of memory.
pub fn cube_direct(
    alloc: Global,
    legals: &Legals,
    facts: &CubeFacts,
    target: &[CatId],
) -> Result<CubeView, Memory>
    requires target { length target.now ≡ length legals.now }
    requires at_members { All (λ f. AreMembers legals.now (members_of f.members)) facts.now.rows }
    requires few { length facts.now.rows ≤ most_count }

    ensures view { IfOk result
        (λ v. cube_view_of v
        ≡ direct_view (tuples legals.now) (cube_facts_of facts.now) (ids target.now)) }
    ensures members { IfOk result (λ v. All (λ r. AreMembers legals.now r.at) (cube_view_of v).rows) }
{
    let mut tally = CubeTally::new(alloc, columns(alloc, legals, target)?);
    add_facts(facts, &mut tally)?;
    view(alloc, target, tally)
}
