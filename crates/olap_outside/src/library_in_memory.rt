// A library in memory, which refuses the calls that are listed.
ghost use Rattle.std.specs.Prelude.{◌≡◌, ◌+◌, not, is_ok, is_some, OnOk, OnErr, IsErrOf, IsOk, IsOkUnless, ◌<◌, ◌≤◌, ◌^◌, ℕ, Bool, false, true, List as Items, length, take, drop, IfSome, IfNone, IfOk, IsTrue, IsSome, None, Some, slice_index_or};
ghost use Rattle.std.specs.Option.{ForSome, option_map};
ghost use Rattle.olap_outside.specs.Files.{content_of, file_at, IsPlace, Takes};
ghost use Rattle.olap_outside.specs.Told.{rest_told};

use crate::calls::Calls;
use crate::{Failed, Library, OpenError};
use olap_base::{List, Text};

/// Files by name in memory, for tests. A read hands out at most `chunk` bytes. Calls of `open_file` and `read` are
/// numbered together from 1, and those that are listed are refused; else only a name that isn't held is. It tells
/// its contents and what it was asked for.
#[derive(Drop)]
pub struct MemLibrary {
    files: List<(Text, Text)>,
    chunk: usize,
    calls: Calls,
    ready: bool,
    asked: Option<usize>,
    taken: usize,
    ghost some: { 0 < chunk },
    ghost open: { IsTrue ready → IsSome asked },
    ghost within: { ForSome asked (λ i. i < length files) },
    ghost front: { ForSome asked (λ i. taken ≤ length (file_at files i).1) },
}

/// The place of the first file of that name.
pub(crate) fn place(files: &[(Text, Text)], name: &[u8]) -> Option<usize>
    ensures found { IfSome result (IsPlace files.now name.now) }
    ensures none { IfNone result (content_of files.now name.now ≡ None) }
{
    for (i, file) in files.iter().enumerate() {
        if file.0.bytes() == name {
            return Some(i);
        }
    }
    None
}

impl MemLibrary {
    ghost use Rattle.olap_outside.specs.Calls.{no_calls};
    ghost use Rattle.olap_outside.specs.Written.{mem_files, mem_chunk, mem_calls, mem_asked, mem_ready, mem_taken};

    /// A library of these files, names with contents, and of the numbers of the calls that are to fail.
    pub fn new(files: List<(Text, Text)>, chunk: usize, fails: List<u64>) -> MemLibrary
        requires { 0 < chunk }
        ensures files { mem_files result ≡ files }
        ensures chunk { mem_chunk result ≡ chunk }
        // Fresh: no call was made.
        ensures calls { mem_calls result ≡ no_calls fails }
        ensures asked { mem_asked result ≡ Some None }
        ensures ready { mem_ready result ≡ false }
        ensures taken { mem_taken result ≡ 0 }
    {
        MemLibrary {
            files,
            chunk,
            calls: Calls::new(fails),
            ready: false,
            asked: None,
            taken: 0,
        }
    }
}

/// Copies at most `chunk` of the bytes from `start` on to the front of the buffer, and says how many.
pub(crate) fn hand_out(content: &[u8], start: usize, chunk: usize, buf: &mut [u8]) -> usize
    requires some { 0 < chunk }
    requires within { start ≤ length content.now }
    ensures within { start + result ≤ length content.now }
    ensures bound { result ≤ length buf.new }
    ensures piece { result ≤ chunk }
    ensures handed { Takes (Some (drop start content.now)) (Some (drop (start + result) content.now))
        (take result buf.new) (length buf.new) }
{
    let left = &content[start..];
    let count = left.len().min(buf.len()).min(chunk);
    buf[..count].copy_from_slice(&left[..count]);
    count
}

impl Library for MemLibrary {
    ghost use Rattle.olap_outside.specs.Calls.{after_call, fails_next};
    ghost use Rattle.olap_outside.specs.Faults.{HasCause};
    ghost use Rattle.olap_outside.specs.Files.{Asks, Opens, Lacks};
    ghost use Rattle.olap_outside.specs.Written.{mem_files, mem_chunk, mem_calls, mem_contents, mem_rest, mem_asked, mem_ready, mem_taken, mem_faults, mem_sure};
    ghost use Rattle.olap_outside.specs.declared.outside.OpenError.TheVariants.{Missing, Failed as Refused};

    ghost contents = { mem_contents };

    ghost rest = { mem_rest };

    ghost asked = { mem_asked };

    ghost ready = { mem_ready };

    ghost taken = { mem_taken };

    ghost faults = { mem_faults };

    ghost sure = { mem_sure };

    ghost told = { λ m r t. rest_told _ _ (m.open r) };

    fn open_file(&mut self, name: &str) -> Result<(), OpenError>
        ensures contents { mem_contents self.new ≡ mem_contents self.old }
        ensures told { is_some (mem_asked self.new) ≡ is_some (mem_asked self.old) }
        ensures asked { Asks (mem_contents self.old) name.now (mem_asked self.new) }
        ensures ready { mem_ready self.new ≡ is_ok result }
        ensures taken { mem_taken self.new ≡ 0 }
        ensures opened { OnOk result (Opens (mem_contents self.old) name.now (mem_rest self.new)) }
        ensures missing { IsErrOf result Missing → Lacks (mem_contents self.old) name.now }
        ensures cause { HasCause (mem_faults self.old) (mem_faults self.new) result }
        ensures sure { mem_sure self.new ≡ mem_sure self.old }
        ensures surely { IsTrue (mem_sure self.old) → IsOkUnless result Missing }
        // Beside the trait's: exactly when each result comes.
        ensures listed { IsTrue (fails_next (mem_calls self.old)) → IsErrOf result Refused }
        ensures only { IsErrOf result Refused → IsTrue (fails_next (mem_calls self.old)) }
        ensures unheld { IsTrue (not (fails_next (mem_calls self.old)))
            → is_ok result ≡ is_some (content_of (mem_files self.old) name.now) }
        // What it was made with stays; the calls are counted, and the faults at a refusal alone.
        ensures files { mem_files self.new ≡ mem_files self.old }
        ensures chunk { mem_chunk self.new ≡ mem_chunk self.old }
        ensures calls { mem_calls self.new ≡ after_call (mem_calls self.old) (is_ok result) }
    {
        let listed = self.calls.is_next_listed();
        self.taken = 0;
        self.asked = place(self.files.items(), name.as_bytes());
        let found = self.asked.is_some();
        self.ready = !listed && found;
        self.calls.count(self.ready);
        if listed {
            return Err(OpenError::Failed);
        }
        if !found {
            return Err(OpenError::Missing);
        }
        Ok(())
    }

    fn read(&mut self, buf: &mut [u8]) -> Result<usize, Failed>
        requires { IsTrue (mem_ready self.old) }
        ensures contents { mem_contents self.new ≡ mem_contents self.old }
        ensures asked { mem_asked self.new ≡ mem_asked self.old }
        ensures ready { mem_ready self.new ≡ is_ok result }
        ensures bound { IfOk result (λ n. n ≤ length buf.new) }
        ensures taken { IfOk result (λ n. mem_taken self.new ≡ mem_taken self.old + n) }
        ensures untaken { OnErr result (mem_taken self.new ≡ mem_taken self.old) }
        ensures few { IfOk result (λ _. mem_taken self.new < 2 ^ 64) }
        ensures bytes { IfOk result
            (λ n. Takes (mem_rest self.old) (mem_rest self.new) (take n buf.new) (length buf.new)) }
        ensures cause { HasCause (mem_faults self.old) (mem_faults self.new) result }
        ensures sure { mem_sure self.new ≡ mem_sure self.old }
        ensures surely { IsTrue (mem_sure self.old) → IsOk result }
        // Beside the trait's: it is refused exactly if it is listed, and hands out at most `chunk` bytes.
        ensures listed { is_ok result ≡ not (fails_next (mem_calls self.old)) }
        ensures piece { IfOk result (λ n. n ≤ mem_chunk self.old) }
        // What it was made with stays; the calls are counted, and the faults at a refusal alone.
        ensures files { mem_files self.new ≡ mem_files self.old }
        ensures chunk { mem_chunk self.new ≡ mem_chunk self.old }
        ensures calls { mem_calls self.new ≡ after_call (mem_calls self.old) (is_ok result) }
    {
        let Some(i) = self.asked else {
            unreachable!();
        };
        self.ready = !self.calls.is_next_listed();
        self.calls.count(self.ready);
        if !self.ready {
            return Err(Failed);
        }
        let count = hand_out(self.files.items()[i].1.bytes(), self.taken, self.chunk, buf);
        self.taken += count;
        Ok(count)
    }
}
