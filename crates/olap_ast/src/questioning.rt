// The question of summarizability, as a formula.
ghost use Rattle.olap_ast.specs.Summarizable as summarizable;
ghost use Rattle.olap_ast.specs.Trees.{formula_of, numbers_of, terms_of};
ghost use Rattle.std.specs.Prelude.{◌≡◌, ◌≢◌, ◌<◌, ◌↔◌, ℕ, AllPairs, IfOk, IsTrue, length, slice_index};

use crate::{Formula, Terms};
use olap_base::{CatId, Memory};
use std::alloc::Global;

// A member of the target is reached by the source; the next source likewise; and so on.
fn vias(alloc: Global, target: CatId, sources: &[CatId]) -> Result<Terms, Memory>
    ensures { IfOk result (λ ts. terms_of ts ≡ summarizable.vias target.0 (numbers_of sources.now)) }
{
    let mut terms = Terms::End;
    let mut left = sources.len();
    'sources: while left > 0 {
        left -= 1;
        let via = Box::new(alloc, Formula::Via(sources[left], target))?;
        terms = Terms::More(via, Box::new(alloc, terms)?);
    }
    Ok(terms)
}

/// A member of the target is reached, and not by exactly one source. `Memory`: out of memory.
pub fn not_by_one(alloc: Global, target: CatId, sources: &[CatId]) -> Result<Formula, Memory>
    ensures { IfOk result (λ f. formula_of f ≡ summarizable.not_by_one target.0 (numbers_of sources.now)) }
{
    let one = Box::new(alloc, Formula::One(vias(alloc, target, sources)?))?;
    let not = Box::new(alloc, Formula::Not(one))?;
    let reach = Box::new(alloc, Formula::Reach(target))?;
    Ok(Formula::And(reach, not))
}

// Whether the source at this place stands before it.
fn stands_before(sources: &[CatId], k: usize) -> bool
    requires { k < length sources.now }
    ensures { let numbers = numbers_of sources.now in
        IsTrue result ↔ ((j : ℕ) × (j < k) × (slice_index numbers j ≡ slice_index numbers k)) }
{
    let source = sources[k].0;
    'earlier: for j in 0..k {
        if sources[j].0 == source {
            return true;
        }
    }
    false
}

/// Whether no source stands twice.
pub fn are_distinct(sources: &[CatId]) -> bool
    ensures { IsTrue result ↔ AllPairs ◌≢◌ (numbers_of sources.now) }
{
    'sources: for k in 0..sources.len() {
        if stands_before(sources, k) {
            return false;
        }
    }
    true
}
