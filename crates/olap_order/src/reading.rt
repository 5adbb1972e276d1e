// The steps of an order that read a file.
ghost use Rattle.std.specs.Prelude.{◌≡◌, ◌≤◌, length, false, IfOk, IsErrOf, IsTrue, MatchOption, ⊤};
ghost use Rattle.olap_outside.specs.Faults.{Rose};
ghost use Rattle.olap_outside.specs.Files.{Asks, IsContent, IsLonger, Lacks};
ghost use Rattle.olap_schema.specs.Schemas.{schema_of};
ghost use Rattle.olap_order.specs.Judged.{IsLater};
ghost use Rattle.olap_order.specs.Steps.{schema_file, text_file};
ghost use Rattle.olap_order.specs.Taken.{FileStep};
ghost use Rattle.olap_order.specs.declared.replies.Stop.TheVariants as stops;

use crate::replies::{Stop, refuse_long, refuse_part};
use olap_base::{Fault, MOST_SCHEMA_BYTES, Refusal};
use olap_outside::{FetchFault, Library, fetch};
use olap_schema::Schema;
use olap_schema_text::read_schema;
use std::alloc::Global;

/// A file of the library; none if it has more bytes than the limit.
pub fn read_file<L: Library>(
    alloc: Global,
    file: &str,
    limit: u64,
    lib: &mut L,
) -> Result<Option<Vec<u8>>, Stop>
    ensures read { IfOk result (λ text. MatchOption text
        (IsLonger (L.contents lib.old) file.now limit)
        (λ bytes. IsContent (L.contents lib.old) file.now bytes.items)) }
    ensures within { IfOk result (λ text.
        MatchOption text ⊤ (λ bytes. length bytes.items ≤ limit)) }
    ensures risen { IsErrOf result Stop.Read → Rose (L.faults lib.old) (L.faults lib.new) }
    ensures unready { IsErrOf result Stop.Read → L.ready lib.new ≡ false }
    ensures unrefused { (bytes : _) → IsErrOf result (stops.Refused bytes) → ⊥ }
    ensures asked { Asks (L.contents lib.old) file.now (L.asked lib.new) }
    ensures contents { L.contents lib.new ≡ L.contents lib.old }
    ensures lacking { IsErrOf result Stop.Read → IsTrue (L.sure lib.old) → Lacks (L.contents lib.old) file.now }
    ensures later { IsLater L.Library lib.old lib.new }
{
    match fetch(alloc, lib, file, limit) {
        Ok(bytes) => Ok(Some(bytes)),
        Err(Refusal::Kind(FetchFault::TooLong)) => Ok(None),
        Err(Refusal::Kind(FetchFault::Missing | FetchFault::Failed)) => Err(Stop::Read),
        Err(Refusal::Memory(memory)) => Err(Stop::Memory(memory)),
    }
}

/// The text of a file that has no more bytes than the limit.
pub fn text_in<L: Library>(
    alloc: Global,
    label: &str,
    file: &str,
    limit: u64,
    lib: &mut L,
) -> Result<Vec<u8>, Stop>
    ensures step { FileStep L.Library lib.old lib.new
        (text_file label.now limit file.now) (λ text. text.items) result }
{
    match read_file(alloc, file, limit, lib)? {
        Some(text) => Ok(text),
        None => Err(refuse_long(alloc, label)),
    }
}

/// The schema in a file.
pub fn schema_in<L: Library>(
    alloc: Global,
    label: &str,
    file: &str,
    lib: &mut L,
) -> Result<Schema, Stop>
    ensures step { FileStep L.Library lib.old lib.new
        (schema_file label.now file.now) schema_of result }
{
    let Some(text) = read_file(alloc, file, MOST_SCHEMA_BYTES, lib)? else {
        return Err(refuse_long(alloc, label));
    };
    match read_schema(alloc, &text) {
        Ok(schema) => Ok(schema),
        Err(Refusal::Kind(Fault { at, kind })) => {
            Err(refuse_part(alloc, label, "line", at, kind.name()))
        }
        Err(Refusal::Memory(memory)) => Err(Stop::Memory(memory)),
    }
}
