// Rows: sums of columns modulo 2, one bit a column.
ghost use Rattle.std.specs.Prelude.{◌≡◌, ℕ, Bool, true, false, IfSome};
ghost use Rattle.olap_parities.specs.Sums.{xor, sum_of};

/// A sum modulo 2 of some of `64 * W` columns.
#[derive(Clone, Copy)]
pub(crate) struct Row<const W: usize> {
    pub(crate) words: [u64; W],
}

impl<const W: usize> Row<W> {
    /// The sum of no columns.
    pub(crate) fn empty() -> Self
        ensures { (w : ℕ → Bool) → sum_of w result.words ≡ false }
    {
        Row { words: [0; W] }
    }

    /// Whether the column is in it. Nothing is proved about it.
    pub(crate) fn has(&self, column: usize) -> bool {
        let place = column / 64;
        place < W && (self.words[place] >> (column % 64)) & 1 == 1
    }

    /// Adds a column, and returns whether there is that column.
    pub(crate) fn flip(&mut self, column: usize) -> bool
        ensures done { result ≡ true → (w : ℕ → Bool)
            → sum_of w self.new.words ≡ xor (sum_of w self.old.words) (w column) }
        ensures same { result ≡ false → self.new ≡ self.old }
    {
        let place = column / 64;
        if place >= W {
            return false;
        }
        self.words[place] ^= 1u64 << (column % 64);
        true
    }

    /// What is always true, or the sum of no columns.
    pub(crate) fn constant(odd: bool) -> Option<Self>
        ensures { IfSome result (λ row. (w : ℕ → Bool) → w 0 ≡ true → sum_of w row.words ≡ odd) }
    {
        let mut row = Row::empty();
        if odd && !row.flip(0) {
            return None;
        }
        Some(row)
    }

    /// Takes out what is always true, which is column 0, and returns whether it was in the row.
    pub(crate) fn take_truth(&mut self) -> bool
        ensures { (w : ℕ → Bool) → w 0 ≡ true
            → sum_of w self.new.words ≡ xor (sum_of w self.old.words) result }
    {
        self.has(0) && self.flip(0)
    }

    /// The first column that is in it. Nothing is proved about it.
    pub(crate) fn first(&self) -> Option<usize> {
        'words: for k in 0..W {
            let word = self.words[k];
            if word != 0 {
                return Some(
                    k.saturating_mul(64)
                        .saturating_add(word.trailing_zeros() as usize),
                );
            }
        }
        None
    }

    /// Whether no column is in it.
    pub(crate) fn is_empty(&self) -> bool
        ensures { result ≡ true → (w : ℕ → Bool) → sum_of w self.now.words ≡ false }
    {
        'words: for k in 0..W {
            if self.words[k] != 0 {
                return false;
            }
        }
        true
    }

    /// Adds a row.
    pub(crate) fn add(&mut self, other: &Self)
        ensures { (w : ℕ → Bool) → sum_of w self.new.words
            ≡ xor (sum_of w self.old.words) (sum_of w other.now.words) }
    {
        'words: for k in 0..W {
            self.words[k] ^= other.words[k];
        }
    }
}
