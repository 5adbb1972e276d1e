// The test whether a source stands twice.
ghost use Rattle.std.specs.Prelude.{◌≡◌, ◌≢◌, ◌<◌, ◌↔◌, [], ℕ, AllPairs, IsTrue, length, slice_index_or};
ghost use Rattle.olap_cube.specs.Told.{tuple_of, tuples_in};

use olap_cube::Tuple;

// Whether the two are the same categories.
fn is_same(one: &Tuple, other: &Tuple) -> bool
    ensures { IsTrue result ↔ (tuple_of one.now ≡ tuple_of other.now) }
{
    one.categories.items() == other.categories.items()
}

// Whether the source at this place stands before it.
fn stands_before(sources: &[Tuple], k: usize) -> bool
    requires { k < length sources.now }
    ensures { let tuples = tuples_in sources.now in
        IsTrue result ↔ ((j : ℕ) × (j < k) × (slice_index_or tuples j [] ≡ slice_index_or tuples k [])) }
{
    'earlier: for j in 0..k {
        if is_same(&sources[j], &sources[k]) {
            return true;
        }
    }
    false
}

/// Whether no source stands twice.
pub(crate) fn are_distinct(sources: &[Tuple]) -> bool
    ensures { IsTrue result ↔ AllPairs ◌≢◌ (tuples_in sources.now) }
{
    'sources: for k in 0..sources.len() {
        if stands_before(sources, k) {
            return false;
        }
    }
    true
}
