// Masks over the sources, and sets of masks.
ghost use Rattle.std.specs.Int.{bit_at};
ghost use Rattle.std.specs.Int.Bits.{bit_and};
ghost use Rattle.std.specs.Prelude.{◌≡◌, ◌==◌, ◌<◌, ◌≤◌, ◌⊎◌, ◌↔◌, ◌++◌, ◌∷◌, ℕ, IsTrue, List as Items};
ghost use Rattle.olap_base.specs.Limits.{most_views};
ghost use Rattle.olap_bits.specs.declared.sets.CatSet.{CatSet};
ghost use Rattle.olap_cube_summ.specs.Masks.{CanBeBad, IsBad, IsIn, OneCanBeBad, all_of};

use olap_bits::CatSet;

/// How many masks there are over eight sources.
pub const PATTERNS: u16 = 256;

/// A set of masks over the sources.
pub type Patterns = CatSet<4>;

/// Whether the k-th source's bit is in the mask.
pub fn has_bit(mask: u16, k: usize) -> bool
    requires { k < most_views }
    ensures { result ≡ (bit_at mask k == 1) }
{
    mask >> k & 1 == 1
}

/// The mask of all sources.
pub fn all(sources: usize) -> u16
    requires { sources ≤ most_views }
    ensures value { result ≡ all_of sources }
    ensures small { result < 256 }
{
    (1u16 << sources) - 1
}

/// Whether not exactly one of the first sources has its bit in the mask.
fn is_bad(mask: u16, sources: usize) -> bool
    requires { sources ≤ most_views }
    ensures { IsTrue result ↔ IsBad sources mask }
{
    let mut count = 0usize;
    let mut left = sources;
    'sources: while left > 0 {
        left -= 1;
        if has_bit(mask, left) {
            count += 1;
        }
    }
    count != 1
}

/// Whether one of the masks is bad.
fn has_bad(masks: &Patterns, sources: usize) -> bool
    requires { sources ≤ most_views }
    ensures { IsTrue result ↔ ((m : ℕ) × IsIn masks.now m × IsBad sources m) }
{
    'masks: for m in 0..PATTERNS {
        if masks.has(m) && is_bad(m, sources) {
            return true;
        }
    }
    false
}

/// The masks, and what the mask has in common with each pattern.
fn meet_each(masks: Patterns, mask: u16, patterns: &Patterns) -> Patterns
    requires { mask < 256 }
    ensures { (m : ℕ) → IsIn result m
        ↔ (IsIn masks m ⊎ ((p : ℕ) × IsIn patterns.now p × (m ≡ bit_and mask p))) }
{
    let mut met = masks;
    'patterns: for p in 0..PATTERNS {
        if patterns.has(p) {
            met = met.with(mask & p);
        }
    }
    met
}

/// What the masks have in common with the patterns.
fn meets(masks: &Patterns, patterns: &Patterns) -> Patterns
    ensures { (m : ℕ) → IsIn result m
        ↔ ((s p : ℕ) × IsIn masks.now s × IsIn patterns.now p × (m ≡ bit_and s p)) }
{
    let mut met = Patterns::empty();
    'masks: for m in 0..PATTERNS {
        if masks.has(m) {
            met = meet_each(met, m, patterns);
        }
    }
    met
}

/// The set of one mask.
fn only(mask: u16) -> Patterns
    requires { mask < 256 }
    ensures { (n : ℕ) (sets : Items (CatSet 4)) → OneCanBeBad n sets result ↔ CanBeBad n sets mask }
{
    Patterns::empty().with(mask)
}

/// What the masks have in common with a pattern of each set.
fn meet_all(masks: Patterns, sets: &[Patterns]) -> Patterns
    ensures { (n : ℕ) (after : Items (CatSet 4))
        → OneCanBeBad n (sets.now ++ after) masks ↔ OneCanBeBad n after result }
{
    let mut met = masks;
    'sets: for k in 0..sets.len() {
        met = meets(&met, &sets[k]);
    }
    met
}

/// Whether the mask can become bad: whether there is a pattern in each set so that not exactly one of the mask's
/// sources is in all of them.
pub fn can_be_bad(mask: u16, sets: &[Patterns], sources: usize) -> bool
    requires few { sources ≤ most_views }
    requires mask { mask < 256 }
    ensures { IsTrue result ↔ CanBeBad sources sets.now mask }
{
    let met = meet_all(only(mask), sets);
    has_bad(&met, sources)
}

/// Whether the mask of all sources can become bad, where a set stands between some and others.
pub fn all_can_be_bad(done: &[Patterns], set: &Patterns, rest: &[Patterns], sources: usize) -> bool
    requires { sources ≤ most_views }
    ensures { IsTrue result ↔ CanBeBad sources (done.now ++ set.now ∷ rest.now) (all_of sources) }
{
    let before = meet_all(only(all(sources)), done);
    let between = meets(&before, set);
    let met = meet_all(between, rest);
    has_bad(&met, sources)
}

/// The patterns with which the mask can become bad, before these sets.
pub fn possible(mask: u16, patterns: &Patterns, rest: &[Patterns], sources: usize) -> Patterns
    requires few { sources ≤ most_views }
    requires mask { mask < 256 }
    ensures { (p : ℕ) → IsIn result p ↔ (IsIn patterns.now p × CanBeBad sources rest.now (bit_and mask p)) }
{
    let mut possible = Patterns::empty();
    'patterns: for p in 0..PATTERNS {
        if patterns.has(p) && can_be_bad(mask & p, rest, sources) {
            possible = possible.with(p);
        }
    }
    possible
}
