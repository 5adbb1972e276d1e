//! The outside: where files are read from and where bytes are written to.
//!
//! A `Library` has files that are read, whole (`fetch`) or piece by piece (`fill`), a `Sink` takes bytes that are
//! written (`emit`), and both count the calls that they refuse. Beside the traits stand libraries and sinks in memory,
//! for tests and for proofs. No format of a file is known here.
#![tactic(auto)]

mod calls;
mod emitting;
mod fetching;
mod filling;
mod laws;
mod library_in_memory;
mod outside;
mod sink_in_memory;
mod sure;

pub use emitting::emit;
pub use fetching::{FetchFault, fetch};
pub use filling::fill;
pub use laws::no_faults_none_rose;
pub use library_in_memory::MemLibrary;
pub use outside::{Failed, Library, OpenError, Sink};
pub use sink_in_memory::MemSink;
pub use sure::{SureLibrary, SureSink};
