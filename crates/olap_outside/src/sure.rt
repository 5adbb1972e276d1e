// A library and a sink that refuse nothing, so that no fault can come from them.
ghost use Rattle.std.specs.Prelude.{◌≡◌, ◌+◌, ◌<◌, ◌≤◌, ◌^◌, is_ok, false, IfOk, IsTrue, None, Ok, OnOk, length, take, true};
ghost use Rattle.std.specs.Option.{ForSome};
ghost use Rattle.olap_outside.specs.Files.{opened_content};

use crate::library_in_memory::{hand_out, place};
use crate::{Failed, Library, OpenError, Sink};
use olap_base::{List, Text};

/// Files by name in memory, none of which is missing: a name that isn't held has no bytes. A read hands out at most
/// `chunk` bytes. It tells its contents, and not what it was asked for.
#[derive(Drop)]
pub struct SureLibrary {
    files: List<(Text, Text)>,
    chunk: usize,
    ready: bool,
    opened: Option<usize>,
    taken: usize,
    ghost some: { 0 < chunk },
    ghost within: { ForSome opened (λ i. i < length files) },
    ghost front: { taken ≤ length (opened_content files opened) },
}

/// The bytes of the file at that place, or none.
fn content(files: &[(Text, Text)], opened: Option<usize>) -> &[u8]
    requires { ForSome opened (λ i. i < length files.now) }
    ensures { result.now ≡ opened_content files.now opened }
{
    match opened {
        Some(i) => files[i].1.bytes(),
        None => &[],
    }
}

impl SureLibrary {
    ghost use Rattle.olap_outside.specs.Written.{sure_chunk, sure_files, sure_ready, sure_taken};

    /// A library of these files, names with contents.
    pub fn new(files: List<(Text, Text)>, chunk: usize) -> SureLibrary
        requires { 0 < chunk }
        ensures files { sure_files result ≡ files }
        ensures chunk { sure_chunk result ≡ chunk }
        // Fresh: no call was made.
        ensures ready { sure_ready result ≡ false }
        ensures taken { sure_taken result ≡ 0 }
    {
        SureLibrary {
            files,
            chunk,
            ready: false,
            opened: None,
            taken: 0,
        }
    }
}

impl Library for SureLibrary {
    ghost use Rattle.olap_outside.specs.Files.{Opens, Takes};
    ghost use Rattle.olap_outside.specs.Written.{sure_chunk, sure_contents, sure_files, sure_ready, sure_rest, sure_taken};

    ghost contents = { sure_contents };

    ghost rest = { sure_rest };

    ghost asked = { λ _. None };

    ghost ready = { sure_ready };

    ghost taken = { sure_taken };

    ghost faults = { λ _. 0 };

    ghost sure = { λ _. true };

    ghost told = { λ _ _ t. t };

    fn open_file(&mut self, name: &str) -> Result<(), OpenError>
        ensures contents { sure_contents self.new ≡ sure_contents self.old }
        ensures ready { sure_ready self.new ≡ is_ok result }
        ensures taken { sure_taken self.new ≡ 0 }
        ensures opened { OnOk result (Opens (sure_contents self.old) name.now (sure_rest self.new)) }
        // Beside the trait's: it is never refused, and what it was made with stays.
        ensures sure { is_ok result ≡ true }
        ensures files { sure_files self.new ≡ sure_files self.old }
        ensures chunk { sure_chunk self.new ≡ sure_chunk self.old }
    {
        self.ready = true;
        self.taken = 0;
        self.opened = place(self.files.items(), name.as_bytes());
        Ok(())
    }

    fn read(&mut self, buf: &mut [u8]) -> Result<usize, Failed>
        requires { IsTrue (sure_ready self.old) }
        ensures contents { sure_contents self.new ≡ sure_contents self.old }
        ensures ready { sure_ready self.new ≡ is_ok result }
        ensures bound { IfOk result (λ n. n ≤ length buf.new) }
        ensures taken { IfOk result (λ n. sure_taken self.new ≡ sure_taken self.old + n) }
        ensures few { IfOk result (λ _. sure_taken self.new < 2 ^ 64) }
        ensures bytes { IfOk result
            (λ n. Takes (sure_rest self.old) (sure_rest self.new) (take n buf.new) (length buf.new)) }
        // Beside the trait's: it is never refused, hands out at most `chunk` bytes, and what it was made with stays.
        ensures sure { is_ok result ≡ true }
        ensures piece { IfOk result (λ n. n ≤ sure_chunk self.old) }
        ensures files { sure_files self.new ≡ sure_files self.old }
        ensures chunk { sure_chunk self.new ≡ sure_chunk self.old }
    {
        let content = content(self.files.items(), self.opened);
        let count = hand_out(content, self.taken, self.chunk, buf);
        self.taken += count;
        Ok(count)
    }
}

/// Output that is dropped. It takes every piece whole, and tells nothing about what it took.
#[derive(Drop)]
pub struct SureSink {}

impl SureSink {
    /// A sink that took nothing yet.
    pub fn new() -> SureSink {
        SureSink {}
    }
}

impl Sink for SureSink {
    ghost contents = { λ _. None };

    ghost faults = { λ _. 0 };

    ghost takes = { λ _ _. true };

    fn write(&mut self, piece: &[u8]) -> Result<usize, Failed>
        requires { 0 < length piece.now }
        // Beside the trait's: it is never refused, and takes the piece whole.
        ensures whole { result ≡ Ok (length piece.now) }
    {
        Ok(piece.len())
    }
}
