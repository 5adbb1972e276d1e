// Replies, and why a run ends before its question is asked.
ghost use Rattle.std.specs.Prelude.{◌≡◌, ◌++◌, codes};
ghost use Rattle.olap_order.specs.Refusals.{IsOutOfMemory, IsRefusal, part_text};
ghost use Rattle.olap_order.specs.Steps.{fault_text};

use crate::Status;
use olap_base::Memory;
use std::alloc::{AllocError, AllocFailed, Global};

/// A status and the bytes that are to be written.
#[derive(Drop)]
pub struct Reply {
    pub status: Status,
    pub bytes: Vec<u8>,
}

/// Why a run ends before its question is asked.
#[derive(Drop)]
pub enum Stop {
    /// A file or a word is at fault, and this is the line that says so.
    Refused(Vec<u8>),
    /// The library refused.
    Read,
    /// Out of memory.
    Memory(Memory),
}

impl From<Memory> for Stop {
    ghost from_gives = { λ _ e. IsOutOfMemory e };

    fn from(memory: Memory) -> Self {
        Stop::Memory(memory)
    }
}

impl From<AllocError> for Stop {
    ghost from_gives = { λ _ e. IsOutOfMemory e };

    fn from(refused: AllocError) -> Self {
        Stop::Memory(Memory::from(refused))
    }
}

impl<T: Drop> From<AllocFailed<T>> for Stop {
    ghost from_gives = { λ _ e. IsOutOfMemory e };

    fn from(refused: AllocFailed<T>) -> Self {
        Stop::Memory(Memory::from(refused))
    }
}

/// The reply to a question whose answer is yes.
pub fn yes(bytes: Vec<u8>) -> Reply
    ensures status { result.status ≡ Status.Yes }
    ensures bytes { result.bytes.items ≡ bytes.items }
{
    Reply {
        status: Status::Yes,
        bytes,
    }
}

/// The reply to a question whose answer is no.
pub fn no(bytes: Vec<u8>) -> Reply
    ensures status { result.status ≡ Status.No }
    ensures bytes { result.bytes.items ≡ bytes.items }
{
    Reply {
        status: Status::No,
        bytes,
    }
}

/// Something is refused for this reason.
pub fn refuse(alloc: Global, why: &str) -> Stop
    ensures refused { IsRefusal why.now result }
{
    match format!(in alloc; "refused {why}\n") {
        Ok(text) => Stop::Refused(text.into_bytes()),
        Err(refused) => Stop::from(refused),
    }
}

/// A file that is too long is refused.
pub fn refuse_long(alloc: Global, label: &str) -> Stop
    ensures refused { IsRefusal (label.now ++ codes " TooLong") result }
{
    match format!(in alloc; "refused {label} TooLong\n") {
        Ok(text) => Stop::Refused(text.into_bytes()),
        Err(refused) => Stop::from(refused),
    }
}

/// A line or record of a file is refused.
pub fn refuse_part(alloc: Global, label: &str, part: &str, at: u64, fault: &str) -> Stop
    ensures refused { IsRefusal (part_text label.now part.now at fault.now) result }
{
    match format!(in alloc; "refused {label} {part} {at} {fault}\n") {
        Ok(text) => Stop::Refused(text.into_bytes()),
        Err(refused) => Stop::from(refused),
    }
}

/// The word or file of that number is refused.
pub fn refuse_at(alloc: Global, place: &str, at: u64, fault: &str) -> Stop
    ensures refused { IsRefusal (fault_text place.now at fault.now) result }
{
    match format!(in alloc; "refused {place} {at} {fault}\n") {
        Ok(text) => Stop::Refused(text.into_bytes()),
        Err(refused) => Stop::from(refused),
    }
}
