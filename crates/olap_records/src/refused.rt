// A call of the CSV library that was refused.
use csv::{Error, IntoInnerError, Writer};
use olap_base::Memory;
use std::alloc::AllocError;

/// A read or a write was refused. Over bytes in memory, where records may differ in length as they are read and are of
/// one length as they are written, memory is all that either wants for. It is made of the library's error alone.
#[derive(Clone, Copy)]
pub(crate) struct Refused(Memory);

impl From<Error> for Refused {
    fn from(_: Error) -> Refused {
        Refused(Memory::from(AllocError))
    }
}

impl From<IntoInnerError<Writer<Vec<u8>>>> for Refused {
    fn from(_: IntoInnerError<Writer<Vec<u8>>>) -> Refused {
        Refused(Memory::from(AllocError))
    }
}

impl From<Refused> for Memory {
    fn from(refused: Refused) -> Memory {
        refused.0
    }
}
