// Rows, and one run of the top call over files and output in memory.
ghost use Rattle.std.specs.Prelude.{◌<◌};

use olap_base::{List, Text};
use olap_outside::{Library, MemLibrary, MemSink, Sink, SureLibrary, SureSink};
use olap_run::{Status, olap, olap_surely};
use std::alloc::Global;
use std::process::Abort;
use std::test::Fail;

/// Files by name.
pub(crate) type Files<'a> = &'a [(&'a str, &'a str)];

/// A command line, with the status and the output that it must have.
#[derive(Clone, Copy)]
pub(crate) struct Row<'a> {
    /// What it shows.
    pub(crate) name: &'a str,
    pub(crate) words: &'a [&'a str],
    pub(crate) status: Status,
    pub(crate) output: &'a str,
}

/// How many bytes at most the library hands out at a time.
pub(crate) const READ_CHUNK: usize = 16;

/// How many bytes at most the sink takes at a time.
pub(crate) const WRITE_CHUNK: usize = 7;

/// The outside of a run.
#[derive(Clone, Copy)]
pub(crate) struct Outside {
    /// How many bytes the sink has room for.
    pub(crate) room: usize,
    /// The call of the library that fails; 0: none does.
    pub(crate) failing_read: u64,
    /// The call of the sink that fails; 0: none does.
    pub(crate) failing_write: u64,
}

/// Nothing fails.
pub(crate) const SOUND: Outside = Outside {
    room: 10_000,
    failing_read: 0,
    failing_write: 0,
};

/// The words of a command line.
fn typed(alloc: Global, words: &[&str]) -> Result<Vec<String>, Fail> {
    let mut all = Vec::new(alloc);
    for word in words {
        all.push(String::from_str(alloc, word)?)?;
    }
    Ok(all)
}

/// The files, held in memory.
fn held(alloc: Global, files: Files) -> Result<List<(Text, Text)>, Fail> {
    let mut all = Vec::new(alloc);
    for (name, content) in files {
        let name = Text::from_bytes(alloc, name.as_bytes())?;
        all.push((name, Text::from_bytes(alloc, content.as_bytes())?))?;
    }
    Ok(List::from_vec(all))
}

/// A list of the one number.
fn listed(alloc: Global, call: u64) -> Result<List<u64>, Fail> {
    let mut calls = Vec::new(alloc);
    calls.push(call)?;
    Ok(List::from_vec(calls))
}

/// The library of these files.
fn library(alloc: Global, outside: Outside, files: Files) -> Result<MemLibrary, Fail> {
    let fails = listed(alloc, outside.failing_read)?;
    Ok(MemLibrary::new(held(alloc, files)?, READ_CHUNK, fails))
}

/// The sink of the outside.
fn sink(alloc: Global, outside: Outside) -> Result<MemSink, Fail> {
    let fails = listed(alloc, outside.failing_write)?;
    Ok(MemSink::new(alloc, outside.room, WRITE_CHUNK, fails)?)
}

/// The status of a command line.
fn status<L: Library, K: Sink>(
    alloc: Global,
    words: &[&str],
    library: &mut L,
    sink: &mut K,
) -> Result<Status, Fail> {
    let words = typed(alloc, words)?;
    Ok(olap(alloc, &words, library, sink))
}

/// Runs a row over this library, and compares the status and the output.
pub(crate) fn check_over<L: Library>(
    rt: &impl Abort,
    alloc: Global,
    outside: Outside,
    row: &Row,
    library: &mut L,
) -> Result<(), Fail> {
    let mut sink = sink(alloc, outside)?;
    let status = status(alloc, row.words, library, &mut sink)?;
    let is_right = status == row.status && sink.contents() == row.output.as_bytes();
    assert!(rt; is_right, "{}", row.name);
    Ok(())
}

/// Runs a row over these files, and compares the status and the output.
pub(crate) fn check(
    rt: &impl Abort,
    alloc: Global,
    outside: Outside,
    row: &Row,
    files: Files,
) -> Result<(), Fail> {
    let mut library = library(alloc, outside, files)?;
    check_over(rt, alloc, outside, row, &mut library)
}

/// The status of a command line over files of which none is missing, and a sink that takes all.
pub(crate) fn status_surely(alloc: Global, words: &[&str], files: Files) -> Result<Status, Fail> {
    let words = typed(alloc, words)?;
    let mut library = SureLibrary::new(held(alloc, files)?, READ_CHUNK);
    let mut sink = SureSink::new();
    Ok(olap_surely(alloc, &words, &mut library, &mut sink))
}
