// The patterns of bottom categories, and the first bottom categories with which a choice is bad.
ghost use Rattle.std.specs.Prelude.{◌≡◌, ◌≤◌, ◌++◌, ◌∷◌, All, Contains, IfOk};
ghost use Rattle.olap_base.specs.Limits.{most_views};
ghost use Rattle.olap_cube_summ.specs.Families.{AreFirst, AreUnions, IsOrdered, IsUnion};
ghost use Rattle.olap_cube_summ.specs.Masks.{CanBeBad, all_of};
ghost use Rattle.olap_cube_summ.specs.declared.families.Family.{Family as Item};

use crate::masks::{Patterns, all_can_be_bad};
use olap_base::{CatId, List, Memory};
use std::alloc::Global;

/// A bottom category, and the patterns that its frozen dimensions have.
#[derive(Clone, Copy)]
pub struct Family {
    /// The category.
    pub bottom: CatId,
    /// The patterns.
    pub patterns: Patterns,
}

/// The patterns of all of them.
fn union(families: &[Family]) -> Patterns
    ensures { IsUnion families.now result }
{
    let mut all = Patterns::empty();
    'families: for k in 0..families.len() {
        all = all.union(families[k].patterns);
    }
    all
}

/// The patterns of each dimension, whatever the bottom category.
pub fn unions(alloc: Global, dimensions: &[List<Family>]) -> Result<List<Patterns>, Memory>
    ensures { IfOk result (λ sets. AreUnions dimensions.now sets) }
{
    let mut sets = Vec::new(alloc);
    'dimensions: for i in 0..dimensions.len() {
        let set = union(dimensions[i].items());
        sets.push(set)?;
    }
    Ok(List::from_vec(sets))
}

/// The first of the families with which the masks can become bad, between these sets and those.
fn first_family(families: &[Family], done: &[Patterns], rest: &[Patterns], sources: usize) -> Family
    requires few { sources ≤ most_views }
    requires ordered { IsOrdered families.now }
    requires some { (f : Item) × Contains families.now f
        × CanBeBad sources (done.now ++ f.patterns ∷ rest.now) (all_of sources) }
    ensures is_one { Contains families.now result }
    ensures bad { CanBeBad sources (done.now ++ result.patterns ∷ rest.now) (all_of sources) }
    ensures first { (f : Item) → Contains families.now f
        → CanBeBad sources (done.now ++ f.patterns ∷ rest.now) (all_of sources) → result.bottom.0 ≤ f.bottom.0 }
{
    'families: for k in 0..families.len() {
        let family = families[k];
        if all_can_be_bad(done, &family.patterns, rest, sources) {
            return family;
        }
    }
    unreachable!()
}

/// Of each dimension the family of the first bottom categories with which a choice is bad.
pub fn first_families(
    alloc: Global,
    dimensions: &[List<Family>],
    sets: &[Patterns],
    sources: usize,
) -> Result<List<Family>, Memory>
    requires few { sources ≤ most_views }
    requires ordered { All IsOrdered dimensions.now }
    requires sets { AreUnions dimensions.now sets.now }
    requires bad { CanBeBad sources sets.now (all_of sources) }
    ensures { IfOk result (λ first. AreFirst sources dimensions.now first) }
{
    let mut done = Vec::new(alloc);
    let mut first = Vec::new(alloc);
    'dimensions: for i in 0..dimensions.len() {
        let family = first_family(dimensions[i].items(), &done, &sets[i + 1..], sources);
        done.push(family.patterns)?;
        first.push(family)?;
    }
    Ok(List::from_vec(first))
}
