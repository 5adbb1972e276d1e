//! The real files and standard output, as the library and the sink of `olap_outside`.
//!
//! Both meet their traits and count the calls that were refused. They tell no content and no name: nothing is proved
//! about what a real file holds or about what is shown.
#![tactic(auto)]

mod file_library;
mod stdout_sink;

pub use file_library::FileLibrary;
pub use stdout_sink::StdoutSink;
