// The commands `append` and `retract`: stored views after facts came or were withdrawn.
ghost use Rattle.std.specs.Prelude.{All, IfOk};
ghost use Rattle.olap_delta.specs.Changing.{step_named};
ghost use Rattle.olap_instance.specs.Made.{IsMadeFor};
ghost use Rattle.olap_schema.specs.Schemas.{schema_of};
ghost use Rattle.olap_view.specs.Seen.{views_of};
ghost use Rattle.olap_view.specs.Stores.{IsInFileOrder, IsSoundStore};
ghost use Rattle.olap_order.specs.Judged.{Judged};
ghost use Rattle.olap_order.specs.Taken.{FileStep};
ghost use Rattle.olap_totals.specs.Commands.{changed_file};
ghost use Rattle.olap_totals.specs.Under.{change_by, change_of, change_under};
ghost use Rattle.olap_totals.specs.Questions.{IsAnswer};

use crate::feeding::{Unchanged, changed_by_rest};
use crate::storing::told;
use olap_base::Refusal;
use olap_delta::Change;
use olap_legal::Legal;
use olap_order::{Reply, Stop, refuse_part};
use olap_outside::Library;
use olap_reading::{legal_in, store_in};
use olap_schema::Schema;
use olap_view::Store;
use std::alloc::Global;

/// The stored views after the change by the facts in a file, which may be of any length.
fn changed_in<L: Library>(
    alloc: Global,
    change: Change,
    schema: &Schema,
    legal: &Legal,
    store: &Store,
    file: &str,
    lib: &mut L,
) -> Result<Store, Stop>
    requires made { IsMadeFor (schema_of schema.now).graph legal.now }
    requires sound { IsSoundStore (schema_of schema.now).graph legal.now (views_of store.now) }
    requires order { All (IsInFileOrder legal.now) (views_of store.now) }
    ensures step { FileStep L.Library lib.old lib.new (changed_file (step_named change) (schema_of schema.now)
        legal.now (views_of store.now) file.now) views_of result }
    ensures sound { IfOk result (λ s.
        IsSoundStore (schema_of schema.now).graph legal.now (views_of s)) }
{
    let Ok(()) = lib.open_file(file) else {
        return Err(Stop::Read);
    };
    match changed_by_rest(alloc, change, schema.graph(), legal, store, lib) {
        Ok(changed) => Ok(changed),
        Err(Unchanged::Failed) => Err(Stop::Read),
        Err(Unchanged::Refused(Refusal::Kind(fault))) => Err(refuse_part(
            alloc,
            "facts",
            "record",
            fault.at,
            fault.kind.name(),
        )),
        Err(Unchanged::Refused(Refusal::Memory(memory))) => Err(Stop::Memory(memory)),
    }
}

/// The text of stored views after the change by the facts in a file.
fn by_facts<L: Library>(
    alloc: Global,
    change: Change,
    schema: &Schema,
    legal: &Legal,
    store: &Store,
    facts: &str,
    lib: &mut L,
) -> Result<Reply, Stop>
    requires made { IsMadeFor (schema_of schema.now).graph legal.now }
    requires sound { IsSoundStore (schema_of schema.now).graph legal.now (views_of store.now) }
    requires order { All (IsInFileOrder legal.now) (views_of store.now) }
    ensures judged { Judged IsAnswer L.Library lib.old lib.new (change_by (step_named change)
        (schema_of schema.now) legal.now (views_of store.now) facts.now) result }
{
    let changed = changed_in(alloc, change, schema, legal, store, facts, lib)?;
    told(alloc, schema, legal, &changed)
}

/// The stored views of a legal instance in a file after the change by the facts in another.
fn of_store<L: Library>(
    alloc: Global,
    change: Change,
    schema: &Schema,
    legal: &Legal,
    store: &str,
    facts: &str,
    lib: &mut L,
) -> Result<Reply, Stop>
    requires { IsMadeFor (schema_of schema.now).graph legal.now }
    ensures judged { Judged IsAnswer L.Library lib.old lib.new (change_of (step_named change)
        (schema_of schema.now) legal.now store.now facts.now) result }
{
    let store = store_in(alloc, schema, legal, "store", store, lib)?;
    by_facts(alloc, change, schema, legal, &store, facts, lib)
}

/// The stored views in a file after the change by the facts in another, from an instance for a schema.
pub(crate) fn change<L: Library>(
    alloc: Global,
    change: Change,
    schema: &Schema,
    instance: &str,
    store: &str,
    facts: &str,
    lib: &mut L,
) -> Result<Reply, Stop>
    ensures judged { Judged IsAnswer L.Library lib.old lib.new (change_under (step_named change)
        (schema_of schema.now) instance.now store.now facts.now) result }
{
    let legal = legal_in(alloc, schema, "instance", instance, lib)?;
    of_store(alloc, change, schema, &legal, store, facts, lib)
}
