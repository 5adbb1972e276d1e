// Standard output, as a sink. It tells nothing of what was written.
ghost use Rattle.std.specs.Prelude.{◌≡◌, ◌==◌, None};
ghost use Rattle.olap_files.specs.Calls.{refused_writes};

use olap_outside::{Failed, Sink};

/// Standard output. It is a fault if it takes nothing of a piece.
#[derive(Drop)]
pub struct StdoutSink<'a, P: Print> {
    to: &'a P,
    faults: u64,
}

impl<'a, P: Print> StdoutSink<'a, P> {
    /// Nothing is written, and no call was refused.
    pub fn new(to: &'a P) -> StdoutSink<'a, P>
        ensures quiet { refused_writes result ≡ 0 }
    {
        StdoutSink { to, faults: 0 }
    }
}

impl<'a, P: Print> Sink for StdoutSink<'a, P> {
    ghost contents = { λ _. None };

    ghost faults = { λ s. s.faults };

    ghost takes = { λ _ more. more == 0 };

    fn write(&mut self, piece: &[u8]) -> Result<usize, Failed> {
        match self.to.write_some(piece) {
            Ok(count) if count > 0 => Ok(count),
            _ => {
                self.faults = self.faults.saturating_add(1);
                Err(Failed)
            }
        }
    }
}
