// What comes of the made input.
ghost use Rattle.std.specs.Prelude.{◌≡◌, ◌++◌, ◌-◌, ◌≤◌, All, IfOk, Ok, OnOk, codes, decimal, length, sum_by};
ghost use Rattle.std.specs.Fmt.{signed_decimal};
ghost use Rattle.olap_base.specs.Graph.{IsCategory};
ghost use Rattle.olap_base.specs.Views.{members as points, rows_from_views};
ghost use Rattle.olap_nav.specs.PlanText.{plan_text};
ghost use Rattle.olap_nav.specs.Plans.{IsPlan, sources_in};
ghost use Rattle.olap_schema.specs.Schemas.{schema_of};
ghost use Rattle.olap_schema_text.specs.Judging.{schema_read};
ghost use Rattle.olap_view.specs.Seen.{rows_of, view_of, views_of};
ghost use Rattle.olap_view.specs.Stores.{IsSoundStore, IsStore, IsStored, chosen};
ghost use Rattle.olap_generate.specs.Generated.{ShowsGenerated, counted, row_count, sum_of_rows};
ghost use Rattle.olap_base.specs.Limits.{most_generated, most_members};
ghost use Rattle.olap_generate.specs.Location.{location_text, region};
ghost use Rattle.olap_generate.specs.Stages.{AreMadeMembers, AreMadeViews};

use crate::inputs::Input;
use crate::lines::{input_lines, view_lines};
use crate::running::{made_members, made_schema, made_store};
use olap_base::{CatId, Memory, Refusal, Text};
use olap_legal::Legal;
use olap_nav::{Plan, print_plan};
use olap_schema::Schema;
use olap_view::{Store, View};
use std::alloc::Global;

/// The category whose view is asked for: the regions.
const REGION: CatId = CatId(5);

/// The plan for the regions, and their view.
fn answer(
    alloc: Global,
    schema: &Schema,
    legal: &Legal,
    store: &Store,
    input: &Input,
) -> Result<(Plan, View), Memory>
    requires views { AreMadeViews input.now.seed input.now.size (schema_of schema.now) legal.now (views_of store.now) }
    requires sound { IsSoundStore (schema_of schema.now).graph legal.now (views_of store.now) }

    ensures plan { IfOk result (λ a. IsPlan (schema_of schema.now) (views_of store.now) region a.0.mask) }
    ensures rows { IfOk result (λ a. rows_of a.1.rows
        ≡ rows_from_views (points legal.now) region (chosen (views_of store.now) a.0.mask)) }
    ensures fit { IfOk result (λ a. All IsStored (rows_of a.1.rows)) }
    ensures few { IfOk result (λ a. length a.1.rows ≤ length legal.now) }
{
    match olap_nav::answer(alloc, schema, legal, store, REGION) {
        Ok(answer) => Ok(answer),
        Err(Refusal::Memory(memory)) => Err(memory),
        Err(Refusal::Kind(_)) => unreachable!(),
    }
}

/// Adds the lines on the plan.
fn add_plan(
    alloc: Global,
    schema: &Schema,
    store: &Store,
    mask: u16,
    text: &mut Vec<u8>,
) -> Result<(), Memory>
    requires store { IsStore (views_of store.now) }
    requires categories { All (λ v. IsCategory (schema_of schema.now).graph v.target) (views_of store.now) }
    ensures { OnOk result (text.new.items ≡ text.old.items
        ++ plan_text (schema_of schema.now).graph (sources_in (views_of store.now) mask)) }
{
    let plan = print_plan(alloc, schema.graph(), store, mask)?;
    text.extend_from_slice(plan.bytes())?;
    Ok(())
}

/// Adds the lines on the view.
fn add_view(alloc: Global, view: &View, text: &mut Vec<u8>) -> Result<(), Memory>
    requires fit { All IsStored (rows_of view.now.rows) }
    requires few { length view.now.rows ≤ most_members }
    ensures { OnOk result (text.new.items ≡ text.old.items
        ++ counted (codes "rows") (decimal (length view.now.rows))
        ++ counted (codes "count") (decimal (sum_by (λ r. r.summary.count) (rows_of view.now.rows)))
        ++ counted (codes "sum") (signed_decimal (sum_of_rows (rows_of view.now.rows)))) }
{
    let lines = view_lines(alloc, view.rows.items())?;
    text.extend_from_slice(lines.as_bytes())?;
    Ok(())
}

/// The lines on the input, the plan and its view.
fn shown(
    alloc: Global,
    schema: &Schema,
    legal: &Legal,
    facts: u32,
    store: &Store,
    plan: Plan,
    view: &View,
) -> Result<Vec<u8>, Memory>
    requires store { IsStore (views_of store.now) }
    requires categories { All (λ v. IsCategory (schema_of schema.now).graph v.target) (views_of store.now) }
    requires fit { All IsStored (rows_of view.now.rows) }
    requires few { length view.now.rows ≤ length legal.now }
    ensures { IfOk result (λ text. text.items
        ≡ counted (codes "members") (decimal (length legal.now - 1))
        ++ counted (codes "facts") (decimal facts)
        ++ counted (codes "stored") (decimal (row_count (views_of store.now)))
        ++ plan_text (schema_of schema.now).graph (sources_in (views_of store.now) plan.mask)
        ++ counted (codes "rows") (decimal (length view.now.rows))
        ++ counted (codes "count") (decimal (sum_by (λ r. r.summary.count) (rows_of view.now.rows)))
        ++ counted (codes "sum") (signed_decimal (sum_of_rows (rows_of view.now.rows)))) }
{
    let members = legal.instance().members() - 1;
    let mut text = input_lines(alloc, members, facts, store)?.into_bytes();
    add_plan(alloc, schema, store, plan.mask, &mut text)?;
    add_view(alloc, view, &mut text)?;
    Ok(text)
}

/// What is printed about the made views.
fn for_store(
    alloc: Global,
    schema: &Schema,
    legal: &Legal,
    store: &Store,
    input: &Input,
) -> Result<Text, Memory>
    requires views { AreMadeViews input.now.seed input.now.size (schema_of schema.now) legal.now (views_of store.now) }
    requires sound { IsSoundStore (schema_of schema.now).graph legal.now (views_of store.now) }
    ensures { IfOk result (λ text. ShowsGenerated input.now.seed input.now.size text) }
{
    let (plan, view) = answer(alloc, schema, legal, store, input)?;
    let text = shown(alloc, schema, legal, input.size, store, plan, &view)?;
    Ok(Text::from_vec(text))
}

/// What is printed about the views that are made of the made members.
fn for_members(alloc: Global, schema: &Schema, legal: &Legal, input: &Input) -> Result<Text, Memory>
    requires { AreMadeMembers input.now.seed input.now.size (schema_of schema.now) legal.now }
    ensures { IfOk result (λ text. ShowsGenerated input.now.seed input.now.size text) }
{
    let store = made_store(alloc, schema, legal, input)?;
    for_store(alloc, schema, legal, &store, input)
}

/// What is printed about the input that is made for the made schema.
fn for_schema(alloc: Global, schema: &Schema, input: &Input) -> Result<Text, Memory>
    requires { schema_read location_text ≡ Ok (schema_of schema.now) }
    ensures { IfOk result (λ text. ShowsGenerated input.now.seed input.now.size text) }
{
    let legal = made_members(alloc, schema, input)?;
    for_members(alloc, schema, &legal, input)
}

/// Makes a schema, an instance and facts from a seed and a number of stores, reads and checks them, stores the views of
/// the states, the provinces and the cities as a text, and returns for the regions from these. The lines tell how much
/// there is of each.
///
/// No text is at fault, the instance is legal, and there is a plan: nothing is refused unless memory runs out. Linear
/// in the number of stores. `Memory`: out of memory.
pub fn generate(alloc: Global, seed: u64, size: u32) -> Result<Text, Memory>
    requires some { 1 ≤ size }
    requires few { size ≤ most_generated }
    ensures { IfOk result (λ text. ShowsGenerated seed size text) }
{
    let schema = made_schema(alloc)?;
    for_schema(alloc, &schema, &Input { seed, size })
}
