// Which stored views a view is computed from.
ghost use Rattle.std.specs.Prelude.{◌≡◌, ◌≢◌, ◌↔◌, ◌≤◌, ◌<◌, ◌+◌, ◌^◌, ℕ, All, AllPairs, Bool, IfErr, IfOk, IfSome, IsNone, List as Items, length};
ghost use Rattle.olap_ast.specs.Summarizable.{IsSummarizable};
ghost use Rattle.olap_base.specs.Graph.{IsCategory, category_count};
ghost use Rattle.olap_base.specs.Limits.{most_views};
ghost use Rattle.olap_base.specs.Refusing.{IsFor};
ghost use Rattle.olap_base.specs.Views.{View};
ghost use Rattle.olap_nav.specs.Choices.{IsCheapest, IsCheapestOf, MayServe};
ghost use Rattle.olap_nav.specs.Patterns.{IsPattern, IsSomeCounterexample};
ghost use Rattle.olap_nav.specs.Plans.{IsPlan, Serves, rows_in, sources_in};
ghost use Rattle.olap_schema.specs.Schemas.{schema_of};
ghost use Rattle.olap_ast.specs.Trees.{numbers_of};
ghost use Rattle.olap_view.specs.Seen.{views_of};
ghost use Rattle.olap_view.specs.Stores.{IsStore};

use crate::choice::{NotAnswerable, Plan};
use crate::masks::{rows, sources};
use crate::refuting::{pattern, refute};
use olap_base::{CatId, List, Memory, Refusal};
use olap_frozen::{Found, Room};
use olap_schema::Schema;
use olap_summ::any_counterexample;
use olap_view::Store;
use std::alloc::Global;

/// For each mask over the views that it may serve.
fn all_masks(alloc: Global, store: &Store) -> Result<List<bool>, Memory>
    requires { length store.now.views ≤ most_views }
    ensures all { IfOk result (λ v. (m : ℕ) → m < 2 ^ length store.now.views → MayServe v m) }
    ensures count { IfOk result (λ v. length v ≡ 2 ^ length store.now.views) }
    ensures few { IfOk result (λ v. length v ≤ 2 ^ most_views) }
{
    let masks = 1usize << store.views.items().len();
    let may_serve = vec![in alloc; true; masks]?;
    Ok(List::from_vec(may_serve))
}

/// The cheaper of the cheapest so far and the next, and the earlier where they cost the same.
fn cheaper(best: Option<Plan>, next: Plan) -> Plan
    ensures { (views : Items (View ℕ ℕ)) (marks : Items Bool) → IsCheapest views marks next.mask best
        → MayServe marks next.mask → next.rows ≡ rows_in views next.mask
        → IsCheapestOf views marks (next.mask + 1) result }
{
    let Some(plan) = best else {
        return next;
    };
    if next.rows < plan.rows { next } else { plan }
}

/// The cheapest of the masks that may serve.
fn cheapest(store: &Store, may_serve: &[bool]) -> Option<Plan>
    requires few { length store.now.views ≤ most_views }
    requires masks { length may_serve.now ≤ 2 ^ most_views }
    ensures { IsCheapest (views_of store.now) may_serve.now (length may_serve.now) result }
{
    let mut best = None;
    'masks: for m in 0..may_serve.len() {
        if may_serve[m] {
            let mask = m as u16;
            let rows = rows(store, mask);
            best = Some(cheaper(best, Plan { mask, rows }));
        }
    }
    best
}

/// A counterexample to summarizability from sources that differ. Which one doesn't matter: each refutes the mask that
/// is asked, and what it refutes besides is never the plan.
fn counterexample(
    alloc: Global,
    schema: &Schema,
    target: CatId,
    sources: &[CatId],
) -> Result<Option<Found>, Memory>
    requires target { IsCategory (schema_of schema.now).graph target.0 }
    requires sources { All (IsCategory (schema_of schema.now).graph) (numbers_of sources.now) }
    requires differ { AllPairs ◌≢◌ (numbers_of sources.now) }
    ensures none { IfOk result (λ o. IsNone o
        ↔ IsSummarizable (schema_of schema.now) target.0 (numbers_of sources.now)) }
    ensures some { IfOk result (λ o. IfSome o (IsSomeCounterexample (schema_of schema.now) target.0)) }
{
    match any_counterexample(alloc, schema, target, sources) {
        Ok(found) => Ok(found),
        Err(Refusal::Kind(_)) => unreachable!(),
        Err(Refusal::Memory(memory)) => Err(memory),
    }
}

/// The pattern of a counterexample to summarizability from these sources, which differ. None exactly if the target
/// is summarizable from them.
fn pattern_of(
    alloc: Global,
    schema: &Schema,
    store: &Store,
    target: CatId,
    sources: &[CatId],
    room: &mut Room,
) -> Result<Option<Vec<bool>>, Memory>
    requires target { IsCategory (schema_of schema.now).graph target.0 }
    requires sources { All (IsCategory (schema_of schema.now).graph) (numbers_of sources.now) }
    requires differ { AllPairs ◌≢◌ (numbers_of sources.now) }
    requires room { length room.old.rows.items ≡ category_count (schema_of schema.now).graph }
    ensures none { IfOk result (λ o. IsNone o
        ↔ IsSummarizable (schema_of schema.now) target.0 (numbers_of sources.now)) }
    ensures some { IfOk result (λ o. IfSome o
        (λ p. IsPattern (schema_of schema.now) (views_of store.now) target.0 p.items)) }
    ensures count { IfOk result (λ o. IfSome o (λ p. length p.items ≡ length store.now.views)) }
    ensures room { length room.new.rows.items ≡ category_count (schema_of schema.now).graph }
{
    let Some(found) = counterexample(alloc, schema, target, sources)? else {
        return Ok(None);
    };
    let pattern = pattern(alloc, schema, store, target, &found, room)?;
    Ok(Some(pattern))
}

/// The same from the mask's views.
fn pattern_against(
    alloc: Global,
    schema: &Schema,
    store: &Store,
    target: CatId,
    mask: u16,
    room: &mut Room,
) -> Result<Option<Vec<bool>>, Memory>
    requires target { IsCategory (schema_of schema.now).graph target.0 }
    requires store { IsStore (views_of store.now) }
    requires categories { All (λ v. IsCategory (schema_of schema.now).graph v.target) (views_of store.now) }
    requires room { length room.old.rows.items ≡ category_count (schema_of schema.now).graph }
    ensures none { IfOk result (λ o. IsNone o
        ↔ IsSummarizable (schema_of schema.now) target.0 (sources_in (views_of store.now) mask)) }
    ensures some { IfOk result (λ o. IfSome o
        (λ p. IsPattern (schema_of schema.now) (views_of store.now) target.0 p.items)) }
    ensures count { IfOk result (λ o. IfSome o (λ p. length p.items ≡ length store.now.views)) }
    ensures room { length room.new.rows.items ≡ category_count (schema_of schema.now).graph }
{
    let sources = sources(alloc, store, mask)?;
    pattern_of(alloc, schema, store, target, &sources, room)
}

/// The cheapest of the masks that may serve from whose views the target is summarizable. Each question that is answered
/// by no refutes all masks that its counterexample does, so few are asked.
fn cheapest_plan(
    alloc: Global,
    schema: &Schema,
    store: &Store,
    target: CatId,
    may_serve: &mut List<bool>,
    room: &mut Room,
) -> Result<Plan, Refusal<NotAnswerable>>
    requires target { IsCategory (schema_of schema.now).graph target.0 }
    requires store { IsStore (views_of store.now) }
    requires categories { All (λ v. IsCategory (schema_of schema.now).graph v.target) (views_of store.now) }
    requires all { (m : ℕ) → m < 2 ^ length store.now.views → MayServe may_serve.old m }
    requires count { length may_serve.old ≡ 2 ^ length store.now.views }
    requires few { length may_serve.old ≤ 2 ^ most_views }
    requires room { length room.old.rows.items ≡ category_count (schema_of schema.now).graph }
    ensures plan { IfOk result (λ p. IsPlan (schema_of schema.now) (views_of store.now) target.0 p.mask) }
    ensures rows { IfOk result (λ p. p.rows ≡ rows_in (views_of store.now) p.mask) }
    ensures not_answerable { IfErr result (IsFor (λ _. (m : ℕ)
        → Serves (schema_of schema.now) (views_of store.now) target.0 m → ⊥)) }
{
    'questions: while let Some(plan) = cheapest(store, may_serve.items()) {
        let refuted = pattern_against(alloc, schema, store, target, plan.mask, room)?;
        let Some(pattern) = refuted else {
            return Ok(plan);
        };
        refute(may_serve, plan.mask, &pattern);
    }
    Err(Refusal::Kind(NotAnswerable))
}

/// The plan: of all choices of stored views from whose categories the target is summarizable, no view at all among
/// them, the one with the fewest rows, and among these the one with the smallest mask.
///
/// `NotAnswerable`: exactly if there is no such choice. `Memory`: out of memory.
pub fn plan(
    alloc: Global,
    schema: &Schema,
    store: &Store,
    target: CatId,
) -> Result<Plan, Refusal<NotAnswerable>>
    requires target { IsCategory (schema_of schema.now).graph target.0 }
    requires store { IsStore (views_of store.now) }
    requires categories { All (λ v. IsCategory (schema_of schema.now).graph v.target) (views_of store.now) }

    ensures plan { IfOk result (λ p. IsPlan (schema_of schema.now) (views_of store.now) target.0 p.mask) }
    ensures rows { IfOk result (λ p. p.rows ≡ rows_in (views_of store.now) p.mask) }
    ensures not_answerable { IfErr result (IsFor (λ _. (m : ℕ)
        → Serves (schema_of schema.now) (views_of store.now) target.0 m → ⊥)) }
{
    let mut room = Room::new(alloc, schema.graph())?;
    let mut may_serve = all_masks(alloc, store)?;
    cheapest_plan(alloc, schema, store, target, &mut may_serve, &mut room)
}
