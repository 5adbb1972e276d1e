// The steps of an order that read an instance and what stands over it.
ghost use Rattle.std.specs.Prelude.{◌≡◌, ◌≢◌, ◌<◌, All, AllPairs, Err, IfOk, MatchResult, codes, length};
ghost use Rattle.olap_ast.specs.Schema.{IsLegal};
ghost use Rattle.olap_instance.specs.Made.{IsMadeFor};
ghost use Rattle.olap_schema.specs.Schemas.{schema_of};
ghost use Rattle.olap_view.specs.Seen.{each_view_of, ids, views_of};
ghost use Rattle.olap_view.specs.Stores.{IsInFileOrder, IsSoundStore};
ghost use Rattle.olap_check.specs.FirstViolation.{first_violation};
ghost use Rattle.olap_order.specs.Taken.{FileStep, PlainStep};
ghost use Rattle.olap_reading.specs.OfFacts.{AreOfFacts};
ghost use Rattle.olap_reading.specs.Steps.{facts_file, legal_file, legal_or_violation, store_file};

use crate::rolling::{Unrolled, rolled_up};
use crate::telling::{check_laws, refuse_violation};
use olap_base::{CatId, List, MOST_INSTANCE_BYTES, MOST_STORE_BYTES, Refusal};
use olap_check::Illegal;
use olap_instance::{Instance, read_instance};
use olap_legal::Legal;
use olap_order::{Stop, read_file, refuse_long, refuse_part};
use olap_outside::Library;
use olap_schema::Schema;
use olap_view::{Store, View, read_store};
use std::alloc::Global;

/// The instance, if it is legal; else the refusal that reports its first violation.
fn legal_or_refused(
    alloc: Global,
    schema: &Schema,
    label: &str,
    members: Instance,
) -> Result<Legal, Stop>
    requires { IsMadeFor (schema_of schema.now).graph members }
    ensures step { PlainStep (legal_or_violation label.now (schema_of schema.now) members
        (first_violation (schema_of schema.now) members)) (λ i. i) result }
    ensures same { IfOk result (λ i. i ≡ members) }
    ensures legal { IfOk result (λ i. IsLegal (schema_of schema.now) i) }
{
    match check_laws(alloc, schema, members) {
        Ok(legal) => Ok(legal),
        Err(
            Refusal::Kind(
                Illegal {
                    instance,
                    violation,
                },
            ),
        ) => Err(refuse_violation(alloc, label, schema.graph(), &instance, violation)),
        Err(Refusal::Memory(memory)) => Err(Stop::Memory(memory)),
    }
}

/// The legal instance in a file.
pub fn legal_in<L: Library>(
    alloc: Global,
    schema: &Schema,
    label: &str,
    file: &str,
    lib: &mut L,
) -> Result<Legal, Stop>
    ensures step { FileStep L.Library lib.old lib.new
        (legal_file (schema_of schema.now) label.now file.now) (λ i. i) result }
    ensures legal { IfOk result (λ i. IsLegal (schema_of schema.now) i) }
    ensures made { IfOk result (λ i. IsMadeFor (schema_of schema.now).graph i) }
{
    // The text is dropped before the check asks for memory.
    let read = {
        let Some(text) = read_file(alloc, file, MOST_INSTANCE_BYTES, lib)? else {
            return Err(refuse_long(alloc, label));
        };
        read_instance(alloc, schema.graph(), &text)
    };
    match read {
        Ok(members) => legal_or_refused(alloc, schema, label, members),
        Err(Refusal::Kind(fault)) => Err(refuse_part(
            alloc,
            label,
            "record",
            fault.at,
            fault.kind.name(),
        )),
        Err(Refusal::Memory(memory)) => Err(Stop::Memory(memory)),
    }
}

/// The stored views of an instance in a file.
pub fn store_in<L: Library>(
    alloc: Global,
    schema: &Schema,
    legal: &Legal,
    label: &str,
    file: &str,
    lib: &mut L,
) -> Result<Store, Stop>
    requires made { IsMadeFor (schema_of schema.now).graph legal.now }
    ensures step { FileStep L.Library lib.old lib.new
        (store_file (schema_of schema.now) legal.now label.now file.now) views_of result }
    ensures sound { IfOk result (λ store.
        IsSoundStore (schema_of schema.now).graph legal.now (views_of store)) }
    ensures order { IfOk result (λ store. All (IsInFileOrder legal.now) (views_of store)) }
{
    let Some(text) = read_file(alloc, file, MOST_STORE_BYTES, lib)? else {
        return Err(refuse_long(alloc, label));
    };
    match read_store(alloc, schema.graph(), legal.instance(), &text) {
        Ok(store) => Ok(store),
        Err(Refusal::Kind(fault)) => Err(refuse_part(
            alloc,
            label,
            "record",
            fault.at,
            fault.kind.name(),
        )),
        Err(Refusal::Memory(memory)) => Err(Stop::Memory(memory)),
    }
}

/// The direct views of some categories, from the facts in a file, which may be of any length.
pub fn views_in<L: Library>(
    alloc: Global,
    schema: &Schema,
    legal: &Legal,
    categories: &[CatId],
    file: &str,
    lib: &mut L,
) -> Result<List<View>, Stop>
    requires made { IsMadeFor (schema_of schema.now).graph legal.now }
    requires differ { AllPairs ◌≢◌ (ids categories.now) }
    ensures step { MatchResult result
        (λ views. AreOfFacts L.Library lib.old lib.new (schema_of schema.now) legal.now
        (ids categories.now) file.now (each_view_of views))
        (λ stop. FileStep L.Library lib.old lib.new
        (facts_file (schema_of schema.now) legal.now (codes "facts") file.now) (λ facts. facts) (Err stop)) }
    ensures members { IfOk result (λ views. All (λ v. All (λ r. r.member.0 < length legal.now) v.rows) views) }
{
    let Ok(()) = lib.open_file(file) else {
        return Err(Stop::Read);
    };
    match rolled_up(alloc, schema.graph(), legal, categories, lib) {
        Ok(views) => Ok(views),
        Err(Unrolled::Failed) => Err(Stop::Read),
        Err(Unrolled::Refused(Refusal::Kind(fault))) => Err(refuse_part(
            alloc,
            "facts",
            "record",
            fault.at,
            fault.kind.name(),
        )),
        Err(Unrolled::Refused(Refusal::Memory(memory))) => Err(Stop::Memory(memory)),
    }
}
