// A whole file from a library.
ghost use Rattle.std.specs.Prelude.{◌≡◌, ◌⊎◌, ◌<◌, ◌≤◌, ◌↔◌, false, length, IfOk, IsErrOf, IsFalse, is_some};
ghost use Rattle.olap_outside.specs.Faults.{Rose};
ghost use Rattle.olap_outside.specs.Files.{Asks, IsContent, IsLonger, Lacks};
ghost use Rattle.olap_base.specs.declared.refusals.Refusal.TheVariants as refusal;

use crate::{Library, OpenError};
use olap_base::Refusal;
use std::alloc::Global;

/// Why a file wasn't fetched.
#[derive(Clone, Copy, Debug, PartialEq, Eq)]
pub enum FetchFault {
    /// The library has no file of that name.
    Missing,
    /// Opening or reading was refused.
    Failed,
    /// The file has more bytes than the limit.
    TooLong,
}

/// How many bytes are asked for at a time.
const PIECE: usize = 16_384;

/// The whole file of that name, if it has at most `limit` bytes. Its growth takes at most twice its length in
/// memory, and nothing is reserved for the limit. Of a longer file, one piece after the limit is read.
pub fn fetch<L: Library>(
    alloc: Global,
    lib: &mut L,
    name: &str,
    limit: u64,
) -> Result<Vec<u8>, Refusal<FetchFault>>
    ensures whole { IfOk result (λ bytes. IsContent (L.contents lib.old) name.now bytes.items) }
    ensures short { IfOk result (λ bytes. length bytes.items ≤ limit) }
    // Each refusal, and where it comes from.
    ensures missing { IsErrOf result (refusal.Kind FetchFault.Missing) → Lacks (L.contents lib.old) name.now }
    ensures too_long { IsErrOf result (refusal.Kind FetchFault.TooLong) ↔ (limit < L.taken lib.new) }
    ensures longer { IsErrOf result (refusal.Kind FetchFault.TooLong) → IsLonger (L.contents lib.old) name.now limit }
    ensures risen { IsErrOf result (refusal.Kind FetchFault.Missing)
        ⊎ IsErrOf result (refusal.Kind FetchFault.Failed) → Rose (L.faults lib.old) (L.faults lib.new) }
    ensures failed { IsErrOf result (refusal.Kind FetchFault.Failed) → IsFalse (L.sure lib.old) }
    ensures unready { IsErrOf result (refusal.Kind FetchFault.Missing)
        ⊎ IsErrOf result (refusal.Kind FetchFault.Failed) → L.ready lib.new ≡ false }
    // What the library was asked for, and what stays.
    ensures asked { Asks (L.contents lib.old) name.now (L.asked lib.new) }
    ensures told { is_some (L.asked lib.new) ≡ is_some (L.asked lib.old) }
    ensures contents { L.contents lib.new ≡ L.contents lib.old }
    ensures sure { L.sure lib.new ≡ L.sure lib.old }
    ensures later { L.faults lib.old ≤ L.faults lib.new }
{
    match lib.open_file(name) {
        Ok(()) => {}
        Err(OpenError::Missing) => return Err(Refusal::Kind(FetchFault::Missing)),
        Err(OpenError::Failed) => return Err(Refusal::Kind(FetchFault::Failed)),
    }
    let mut bytes = Vec::new(alloc);
    let mut room = limit;
    let mut piece = [0u8; PIECE];
    'pieces: loop {
        let Ok(count) = lib.read(&mut piece) else {
            return Err(Refusal::Kind(FetchFault::Failed));
        };
        if count == 0 {
            return Ok(bytes);
        }
        if count as u64 > room {
            return Err(Refusal::Kind(FetchFault::TooLong));
        }
        room -= count as u64;
        bytes.extend_from_slice(&piece[..count])?;
    }
}
