// The calls of a library or a sink in memory, which fail where they are listed.
ghost use Rattle.std.specs.Prelude.{◌≡◌, ◌≤◌};
ghost use Rattle.olap_outside.specs.Calls.{after_call, fails_next, no_calls};

use olap_base::List;

/// How many calls were made and how many of them were refused, and the numbers, from 1, of those that are to fail.
#[derive(Drop)]
pub(crate) struct Calls {
    fails: List<u64>,
    made: u64,
    faults: u64,
}

impl Calls {
    /// None was made.
    pub(crate) fn new(fails: List<u64>) -> Calls
        ensures { result ≡ no_calls fails }
    {
        Calls {
            fails,
            made: 0,
            faults: 0,
        }
    }

    /// Whether the next call is listed to fail.
    pub(crate) fn is_next_listed(&self) -> bool
        ensures { result ≡ fails_next self.now }
    {
        self.fails.items().contains(&self.made.saturating_add(1))
    }

    /// Counts a call, and a fault if it was refused.
    pub(crate) fn count(&mut self, is_ok: bool)
        ensures counted { self.new ≡ after_call self.old is_ok }
        ensures later { self.old.faults ≤ self.new.faults }
    {
        self.made = self.made.saturating_add(1);
        if !is_ok {
            self.faults = self.faults.saturating_add(1);
        }
    }
}
