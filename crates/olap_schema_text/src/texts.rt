// Reading a schema from its text.
ghost use Rattle.olap_schema_text.specs.Judging.{first_stuck, lines_on, schema_read, whole, text_ended};
ghost use Rattle.olap_schema_text.specs.Kinds.{IsFaultOf};
ghost use Rattle.olap_schema_text.specs.Laws.{GivesReadable};
ghost use Rattle.olap_schema_text.specs.Lines.{lines_of};
ghost use Rattle.olap_schema_text.specs.Reading.{IsCounted, ReadsLines, above_of};
ghost use Rattle.olap_schema.specs.Schemas.{schema_of};
ghost use Rattle.std.specs.Prelude.{◌≡◌, ◌<◌, ◌-◌, MatchResult, Ok, slice_index};

use crate::SchemaKind;
use crate::lines::{chomped, first_line};
use crate::reading::{Reading, begin, read_line};
use olap_base::{Fault, List, Refusal};
use olap_graph::NoWayToAll;
use olap_schema::Schema;
use std::alloc::Global;

/// The lines from the first to the last, or to the first with a fault.
fn read_lines(
    alloc: Global,
    reading: &mut Reading,
    text: &[u8],
) -> Result<(), Refusal<Fault<SchemaKind>>>
    requires { IsCounted reading.old }
    ensures { ReadsLines result (above_of reading.new) (lines_on (Ok (above_of reading.old)) 0 (lines_of text.now)) }
{
    let mut n = 0u64;
    let mut left = text;
    'lines: while !left.is_empty() {
        let (line, others) = first_line(left);
        n += 1;
        match read_line(alloc, reading, n, chomped(line)) {
            Ok(()) => {}
            Err(Refusal::Kind(kind)) => return Err(Refusal::Kind(Fault { at: n, kind })),
            Err(Refusal::Memory(m)) => return Err(Refusal::Memory(m)),
        }
        left = others;
    }
    Ok(())
}

/// The schema of all lines, if each category reaches `All`.
fn finish(alloc: Global, reading: Reading) -> Result<Schema, Refusal<Fault<SchemaKind>>>
    requires { let a = above_of reading in GivesReadable (whole a (first_stuck a.graph)) }
    ensures { let a = above_of reading in
        let read = whole a (first_stuck a.graph) in
        MatchResult result (λ s. read ≡ Ok (schema_of s)) (λ e. IsFaultOf e read) }
{
    match reading.builder.finish() {
        Ok(graph) => Ok(Schema::new(alloc, graph, List::from_vec(reading.constraints))),
        Err(Refusal::Kind(NoWayToAll(c))) => Err(Refusal::Kind(Fault {
            at: line_of(&reading.category_lines, c.0),
            kind: SchemaKind::NoWayToAll,
        })),
        Err(Refusal::Memory(m)) => Err(Refusal::Memory(m)),
    }
}

/// The line on which the c-th category is declared.
fn line_of(lines: &[u64], c: u16) -> u64
    requires { 0 < c }
    ensures { result ≡ slice_index lines.now (c - 1) }
{
    let place = usize::from(c) - 1;
    if place >= lines.len() {
        return 0;
    }
    lines[place]
}

/// The schema that the text stands for.
///
/// A fault is the first: of the first line that has one, its first; and where no line has one, `NoWayToAll` for the
/// first declared category that doesn't reach `All`, on the line of its declaration. `Memory` if there is no room.
/// Linear in the text; no call is nested deeper than a formula may be, whatever the text is.
#[tactic(auto, unfolding(crate::specs::Judging::schema_read))]
pub fn read_schema(alloc: Global, text: &[u8]) -> Result<Schema, Refusal<Fault<SchemaKind>>>
    ensures { MatchResult result (λ s. schema_read text.now ≡ Ok (schema_of s))
        (λ e. IsFaultOf e (schema_read text.now)) }
{
    match begin(alloc) {
        Ok(started) => read_from(alloc, started, text),
        Err(m) => Err(Refusal::Memory(m)),
    }
}

/// The schema of all lines, from the first on.
fn read_from(
    alloc: Global,
    started: Reading,
    text: &[u8],
) -> Result<Schema, Refusal<Fault<SchemaKind>>>
    requires readable { GivesReadable (text_ended (lines_on (Ok (above_of started)) 0 (lines_of text.now))) }
    requires counted { IsCounted started }
    ensures { let read = text_ended (lines_on (Ok (above_of started)) 0 (lines_of text.now)) in
        MatchResult result (λ s. read ≡ Ok (schema_of s)) (λ e. IsFaultOf e read) }
{
    let mut reading = started;
    match read_lines(alloc, &mut reading, text) {
        Ok(()) => {
            if reading.version.is_none() {
                return Err(Refusal::Kind(Fault {
                    at: 1,
                    kind: SchemaKind::BadForm,
                }));
            }
            finish(alloc, reading)
        }
        Err(e) => Err(e),
    }
}
