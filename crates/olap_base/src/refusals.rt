// Refusals for a reason of the call's own, or out of memory.
ghost use Rattle.std.specs.Prelude.{◌≡◌};
ghost use Rattle.olap_base.specs.declared.refusals.Refusal.TheVariants as refusal;

use crate::Memory;
use std::alloc::{AllocError, AllocFailed};

/// The first fault of a file: the line or record at which it stands, counted from 1, and its kind.
#[derive(Clone, Copy, Debug, PartialEq, Eq)]
pub struct Fault<K> {
    pub at: u64,
    pub kind: K,
}

/// Why a call gave no answer: a reason of its own, or out of memory.
#[derive(Clone, Copy, Debug, PartialEq, Eq)]
pub enum Refusal<K> {
    /// A reason of the call's own.
    Kind(K),
    /// Out of memory.
    Memory(Memory),
}

impl<K> From<Memory> for Refusal<K> {
    ghost from_gives = { λ m e. e ≡ refusal.Memory m };

    fn from(memory: Memory) -> Self {
        Refusal::Memory(memory)
    }
}

impl<K> From<AllocError> for Refusal<K> {
    ghost use Rattle.olap_base.specs.Refusing.{IsForMemory};

    ghost from_gives = { λ _ e. IsForMemory e };

    fn from(refused: AllocError) -> Self {
        Refusal::Memory(Memory::from(refused))
    }
}

impl<K, T: Drop> From<AllocFailed<T>> for Refusal<K> {
    ghost use Rattle.olap_base.specs.Refusing.{IsForMemory};

    ghost from_gives = { λ _ e. IsForMemory e };

    fn from(refused: AllocFailed<T>) -> Self {
        Refusal::Memory(Memory::from(refused))
    }
}
