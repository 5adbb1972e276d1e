// The outside: where files are read from and where bytes are written to.
ghost use Rattle.std.specs.Prelude.{◌≡◌, ◌+◌, ◌<◌, ◌≤◌, ◌^◌, ℕ, Bool, List, length, take, Option, is_ok, is_some, IsTrue, IsSome, IsOk, IsOkUnless, IfOk, OnOk, OnErr, IsErrOf};
ghost use Rattle.std.specs.Io.KnownBytes.{WriteAppends};
ghost use Rattle.olap_outside.specs.Faults.{HasCause};
ghost use Rattle.olap_outside.specs.Files.{Files, Asks, Opens, Takes, Lacks};
ghost use Rattle.olap_outside.specs.Sinks.{TakesSurely};
ghost use Rattle.olap_outside.specs.declared.outside.OpenError.TheVariants.{Missing};

/// Why a file wasn't opened.
#[derive(Clone, Copy, Debug, PartialEq, Eq)]
pub enum OpenError {
    /// There is no file of that name.
    Missing,
    /// The file couldn't be opened.
    Failed,
}

/// The outside refused a read or a write.
#[derive(Clone, Copy, Debug, PartialEq, Eq)]
pub struct Failed;

/// Files by name, one of which is open at a time.
pub trait Library {
    /// For each name its content, or that it has none. A library may leave this untold.
    ghost contents: { Self → Option Files };

    /// What is left of the opened file. It is told wherever the contents are told and `ready` is true.
    ghost rest: { Self → Option (List ℕ) };

    /// The name last handed to `open_file`, or nothing where that name has no content. It may be left untold.
    ghost asked: { Self → Option (Option (List ℕ)) };

    /// A file is open, and no read of it was refused.
    ghost ready: { Self → Bool };

    /// How many bytes were handed out since the last `open_file`.
    ghost taken: { Self → ℕ };

    /// How many calls were refused. It never falls, and stands still at its last value.
    ghost faults: { Self → ℕ };

    /// No call is refused but the opening of a name without content.
    ghost sure: { Self → Bool };

    /// Opens the file of that name.
    fn open_file(&mut self, name: &str) -> Result<(), OpenError>
        ensures contents { contents self.new ≡ contents self.old }
        ensures told { is_some (asked self.new) ≡ is_some (asked self.old) }
        ensures asked { Asks (contents self.old) name.now (asked self.new) }
        ensures ready { ready self.new ≡ is_ok result }
        ensures taken { taken self.new ≡ 0 }
        ensures opened { OnOk result (Opens (contents self.old) name.now (rest self.new)) }
        ensures missing { IsErrOf result Missing → Lacks (contents self.old) name.now }
        ensures cause { HasCause (faults self.old) (faults self.new) result }
        ensures sure { sure self.new ≡ sure self.old }
        ensures surely { IsTrue (sure self.old) → IsOkUnless result Missing };

    /// Fills the front of the buffer with the next bytes. None on a buffer that isn't empty is the end. A read that
    /// would take more than 2^64 - 1 bytes of a file is refused.
    fn read(&mut self, buf: &mut [u8]) -> Result<usize, Failed>
        requires { IsTrue (ready self.old) }
        ensures contents { contents self.new ≡ contents self.old }
        ensures asked { asked self.new ≡ asked self.old }
        ensures ready { ready self.new ≡ is_ok result }
        ensures bound { IfOk result (λ n. n ≤ length buf.new) }
        ensures taken { IfOk result (λ n. taken self.new ≡ taken self.old + n) }
        ensures untaken { OnErr result (taken self.new ≡ taken self.old) }
        ensures few { IfOk result (λ _. taken self.new < 2 ^ 64) }
        ensures bytes { IfOk result (λ n. Takes (rest self.old) (rest self.new) (take n buf.new) (length buf.new)) }
        ensures cause { HasCause (faults self.old) (faults self.new) result }
        ensures sure { sure self.new ≡ sure self.old }
        ensures surely { IsTrue (sure self.old) → IsOk result };

    /// Where the contents are told, what is left of an open file is told too.
    ghost told: { (s : Self) → IsTrue (ready s) → IsSome (contents s) → IsSome (rest s) };
}

/// Where bytes are written to.
pub trait Sink {
    /// The bytes that it holds. A sink may leave this untold.
    ghost contents: { Self → Option (List ℕ) };

    /// How many calls were refused. It never falls, and stands still at its last value.
    ghost faults: { Self → ℕ };

    /// Whether it is sure to take this many more bytes, in as many calls as it needs.
    ghost takes: { Self → ℕ → Bool };

    /// Writes the front of the piece, and says how many bytes of it.
    fn write(&mut self, piece: &[u8]) -> Result<usize, Failed>
        requires { 0 < length piece.now }
        ensures some { IfOk result (λ n. 0 < n) }
        ensures bound { IfOk result (λ n. n ≤ length piece.now) }
        ensures written { WriteAppends (contents self.old) (contents self.new) result piece.now }
        ensures cause { HasCause (faults self.old) (faults self.new) result }
        ensures surely { TakesSurely (takes self.old) (takes self.new) (length piece.now) result };
}
