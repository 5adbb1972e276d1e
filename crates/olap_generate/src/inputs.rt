// What is drawn from a seed and a number of stores.
ghost use Rattle.std.specs.Prelude.{◌≡◌, ◌<◌, ◌*◌, ◌%◌, ◌≤◌};
ghost use Rattle.olap_base.specs.Limits.{most_generated};
ghost use Rattle.olap_generate.specs.Members.{groups, step, value};

/// A seed and a number of stores, from which everything else of the input is made.
#[derive(Clone, Copy)]
pub(crate) struct Input {
    pub(crate) seed: u64,
    pub(crate) size: u32,
    ghost some: { 1 ≤ size },
    ghost few: { size ≤ most_generated },
}

impl Input {
    /// How many states there are of each kind, how many provinces, and how many regions of each kind.
    pub(crate) fn groups(&self) -> u32
        ensures value { result ≡ groups self.now.size }
        ensures few { result ≤ most_generated }
    {
        1 + self.size / 64
    }

    /// What is drawn for the i-th store.
    fn step(&self, i: u32) -> u32
        requires { i ≤ most_generated }
        ensures value { result ≡ step self.now.seed i }
        ensures few { result < 1000 }
    {
        let shift = (self.seed % 1000) as u32;
        (shift + 37 * i) % 1000
    }

    /// The city of the i-th store.
    pub(crate) fn city(&self, i: u32) -> u32
        requires { i ≤ most_generated }
        ensures { result ≡ step self.now.seed i % (4 * groups self.now.size) }
    {
        self.step(i) % (4 * self.groups())
    }

    /// The value of the i-th store's fact.
    pub(crate) fn value(&self, i: u32) -> i64
        requires { i ≤ most_generated }
        ensures { result ≡ value self.now.seed i }
    {
        i64::from(self.step(i)) - 500
    }
}
