// Sets of numbers, one bit a number.
ghost use Rattle.olap_bits.specs.CatSet.{IsOfWidth};
ghost use Rattle.std.specs.Prelude.{◌≤◌, ℕ, length};

/// A set of numbers below `64 * W`, one bit a number.
#[derive(Clone, Copy)]
pub struct CatSet<const W: usize> {
    words: [u64; W],
    ghost few_words: { IsOfWidth W },
}

impl<const W: usize> CatSet<W> {
    ghost use Rattle.olap_bits.specs.CatSet.{IsOfWidth, IsLeast};
    ghost use Rattle.olap_bits.specs.Sets.{members};
    ghost use Rattle.std.specs.FinSet as set;
    ghost use Rattle.std.specs.Prelude.{◌≡◌, ◌≤◌, ◌<◌, ◌*◌, ◌↔◌, IfSome, IsNone, IsTrue, ℕ};

    /// The set of no numbers.
    pub fn empty() -> Self
        requires { IsOfWidth W }
        ensures { members result ≡ set.empty }
    {
        CatSet { words: [0; W] }
    }

    /// Whether the number is in it. No number from `64 * W` on is.
    pub fn has(&self, n: u16) -> bool
        ensures { result ≡ set.contains (members self.now) n }
    {
        let place = usize::from(n) / 64;
        place < W && (self.words[place] >> (n % 64)) & 1 == 1
    }

    /// The numbers of the set, and this one.
    pub fn with(self, n: u16) -> Self
        requires { n < 64 * W }
        ensures { members result ≡ set.insert (members self.entry) n }
    {
        let mut words = self.words;
        words[usize::from(n) / 64] |= 1u64 << (n % 64);
        CatSet { words }
    }

    /// The numbers of the set without this one.
    pub fn without(self, n: u16) -> Self
        requires { n < 64 * W }
        ensures { members result ≡ set.remove (members self.entry) n }
    {
        let mut words = self.words;
        words[usize::from(n) / 64] &= !(1u64 << (n % 64));
        CatSet { words }
    }

    /// The numbers that are in either set.
    pub fn union(self, other: Self) -> Self
        ensures { members result ≡ set.union (members self.entry) (members other.entry) }
    {
        let mut words = self.words;
        'words: for k in 0..W {
            words[k] |= other.words[k];
        }
        CatSet { words }
    }

    /// The numbers that are in both sets.
    pub fn meet(self, other: Self) -> Self
        ensures { members result ≡ set.intersection (members self.entry) (members other.entry) }
    {
        let mut words = self.words;
        'words: for k in 0..W {
            words[k] &= other.words[k];
        }
        CatSet { words }
    }

    /// The numbers of the set that aren't in the other.
    pub fn minus(self, other: Self) -> Self
        ensures { members result ≡ set.difference (members self.entry) (members other.entry) }
    {
        let mut words = self.words;
        'words: for k in 0..W {
            words[k] &= !other.words[k];
        }
        CatSet { words }
    }

    /// Whether each number of the set is in the other.
    pub fn is_subset(&self, other: &Self) -> bool
        ensures { result ≡ set.is_subset (members self.now) (members other.now) }
    {
        'words: for k in 0..W {
            let left = self.words[k] & !other.words[k];
            if left != 0 {
                return false;
            }
        }
        true
    }

    /// The least number of the set.
    pub fn first(&self) -> Option<u16>
        ensures none { IsNone result ↔ (members self.now ≡ set.empty) }
        ensures least { IfSome result (IsLeast (members self.now)) }
    {
        'words: for k in 0..W {
            if self.words[k] != 0 {
                let place = self.words[k].trailing_zeros();
                return Some((k * 64) as u16 + place as u16);
            }
        }
        None
    }

    /// How many numbers it has.
    pub fn len(&self) -> u16
        ensures { result ≡ set.len (members self.now) }
    {
        let mut count = 0;
        'words: for k in 0..W {
            count += self.words[k].count_ones() as u16;
        }
        count
    }
}
