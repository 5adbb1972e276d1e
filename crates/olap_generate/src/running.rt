// The made input, step by step: the readers, the check, and the stored views as a text.
ghost use Rattle.std.specs.Prelude.{◌≡◌, ◌<◌, All, IfOk, Ok, length};
ghost use Rattle.olap_schema_text.specs.Judging.{schema_read};
ghost use Rattle.olap_schema.specs.Schemas.{schema_of};
ghost use Rattle.olap_view.specs.Seen.{each_view_of, views_of};
ghost use Rattle.olap_view.specs.Stores.{IsSoundStore};
ghost use Rattle.olap_generate.specs.Location.{location_text};
ghost use Rattle.olap_generate.specs.Stages.{AreMadeMembers, AreMadeViews};

use crate::facts::fact_text;
use crate::inputs::Input;
use crate::members::member_text;
use olap_base::{CatId, List, Memory, Refusal};
use olap_check::check;
use olap_instance::read_instance;
use olap_legal::Legal;
use olap_schema::Schema;
use olap_schema_text::read_schema;
use olap_view::{Store, View, direct_views_are_read_back, print_store, read_store, roll_up};
use std::alloc::Global;

/// The text of the schema of what is made: stores in cities that lie in a state, a province or right below a country.
pub const LOCATION: &[u8] = b"schema 1
category Store
category City
category State
category Province
category Region
category Country
edge Store City
edge City State
edge City Province
edge City Country
edge State Region
edge State Country
edge Province Region
edge Region Country
edge Country All
constraint City: City_Country <-> City = \"Washington\"
constraint City: one(City_State, City_Province, City_Country)
constraint City: City = \"Washington\" -> City.Country = \"USA\"
constraint State: State.Country = \"USA\" | State.Country = \"Mexico\"
constraint State: State_Region <-> State.Country = \"Mexico\"
constraint State: State_Region ^ State_Country
constraint Province: Province.Country = \"Canada\"
";

/// The categories of the views that are stored: the states, the provinces and the cities.
const STORED: [CatId; 3] = [CatId(3), CatId(4), CatId(2)];

/// The schema.
pub(crate) fn made_schema(alloc: Global) -> Result<Schema, Memory>
    ensures { IfOk result (λ s. schema_read location_text ≡ Ok (schema_of s)) }
{
    match read_schema(alloc, LOCATION) {
        Ok(schema) => Ok(schema),
        Err(Refusal::Memory(memory)) => Err(memory),
        Err(Refusal::Kind(_)) => unreachable!(),
    }
}

/// The members, which are a legal instance.
pub(crate) fn made_members(alloc: Global, schema: &Schema, input: &Input) -> Result<Legal, Memory>
    requires { schema_read location_text ≡ Ok (schema_of schema.now) }
    ensures { IfOk result (λ legal.
        AreMadeMembers input.now.seed input.now.size (schema_of schema.now) legal) }
{
    let text = member_text(alloc, input)?;
    let instance = match read_instance(alloc, schema.graph(), &text) {
        Ok(instance) => instance,
        Err(Refusal::Memory(memory)) => return Err(memory),
        Err(Refusal::Kind(_)) => unreachable!(),
    };
    match check(alloc, schema, instance) {
        Ok(legal) => Ok(legal),
        Err(Refusal::Memory(memory)) => Err(memory),
        Err(Refusal::Kind(_)) => unreachable!(),
    }
}

/// The views of the facts.
fn made_views(
    alloc: Global,
    schema: &Schema,
    legal: &Legal,
    input: &Input,
) -> Result<List<View>, Memory>
    requires { AreMadeMembers input.now.seed input.now.size (schema_of schema.now) legal.now }
    ensures views { IfOk result (λ v.
        AreMadeViews input.now.seed input.now.size (schema_of schema.now) legal.now (each_view_of v)) }
    ensures members { IfOk result (λ v. All (λ w. All (λ r. r.member.0 < length legal.now) w.rows) v) }
{
    let text = fact_text(alloc, input)?;
    match roll_up(alloc, schema.graph(), legal, text, &STORED) {
        Ok(views) => Ok(views),
        Err(Refusal::Memory(memory)) => Err(memory),
        Err(Refusal::Kind(_)) => unreachable!(),
    }
}

/// The views of the facts, as they are read from the text that is printed of them.
pub(crate) fn made_store(
    alloc: Global,
    schema: &Schema,
    legal: &Legal,
    input: &Input,
) -> Result<Store, Memory>
    requires { AreMadeMembers input.now.seed input.now.size (schema_of schema.now) legal.now }
    ensures views { IfOk result (λ store.
        AreMadeViews input.now.seed input.now.size (schema_of schema.now) legal.now (views_of store)) }
    ensures sound { IfOk result (λ store.
        IsSoundStore (schema_of schema.now).graph legal.now (views_of store)) }
{
    // Called for its clause: what is printed of direct views is read as these views.
    direct_views_are_read_back();
    let views = made_views(alloc, schema, legal, input)?;
    let text = print_store(alloc, schema.graph(), legal.instance(), &Store { views })?;
    match read_store(alloc, schema.graph(), legal.instance(), text.bytes()) {
        Ok(store) => Ok(store),
        Err(Refusal::Memory(memory)) => Err(memory),
        Err(Refusal::Kind(_)) => unreachable!(),
    }
}
