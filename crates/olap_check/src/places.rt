// Places of a block.
ghost use Rattle.olap_bits.specs.Sets.{members};
ghost use Rattle.olap_check.specs.Blocks.{Collects, width};

use olap_bits::CatSet;

/// How many places a block has.
pub(crate) const WIDTH: usize = 1024;

/// Places of a block, counted from its start.
pub(crate) type Places = CatSet<16>;

/// All places.
pub(crate) fn all_places() -> Places
    ensures { Collects width (λ k. Unit {0}) (members result) }
{
    let mut places = Places::empty();
    'places: for k in 0..WIDTH as u16 {
        places = places.with(k);
    }
    places
}
