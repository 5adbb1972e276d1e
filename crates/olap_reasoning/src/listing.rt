// The command `frozen`: all frozen dimensions with a root.
ghost use Rattle.std.specs.Prelude.{◌≡◌, ◌≤◌, ◌++◌, codes, decimal, All, IfErr, IfOk, OnOk, flat_map, length, map};
ghost use Rattle.olap_ast.specs.Formula.{Formula.Truth};
ghost use Rattle.olap_base.specs.Graph.{IsCategory};
ghost use Rattle.olap_base.specs.Limits.{most_frozen};
ghost use Rattle.olap_base.specs.Refusing.{IsFor};
ghost use Rattle.olap_cex.specs.FrozenText.{frozen_text};
ghost use Rattle.olap_dimsat.specs.Listed.{AreAllFrozen, AreMoreThan};
ghost use Rattle.olap_frozen.specs.LeastFound.{frozen_of};
ghost use Rattle.olap_frozen.specs.Leaves.{IsSized};
ghost use Rattle.olap_names.specs.Names.{candidates_of};
ghost use Rattle.olap_schema.specs.Schemas.{schema_of};
ghost use Rattle.olap_reasoning.specs.Under.{category_under};
ghost use Rattle.olap_order.specs.Judged.{Replies};
ghost use Rattle.olap_order.specs.Order.{Done};
ghost use Rattle.olap_order.specs.Outputs.{line};
ghost use Rattle.olap_reasoning.specs.Questions.{ByFrozen, IsAnswer};

use olap_ast::Formula;
use olap_base::{CatId, List, MOST_FROZEN, Memory, Refusal};
use olap_cex::print_frozen;
use olap_dimsat::{Search, TooMany};
use olap_frozen::Frozen;
use olap_graph::Graph;
use olap_names::Candidates;
use olap_order::{Reply, Stop, category_at, refuse, yes};
use olap_schema::Schema;
use std::alloc::Global;

/// Appends the line of each frozen dimension.
fn push_lines(
    alloc: Global,
    out: &mut Vec<u8>,
    graph: &Graph,
    candidates: &Candidates,
    root: CatId,
    all: &[Frozen],
) -> Result<(), Memory>
    requires roots { All (λ f. f.root.0 ≡ root.0) all.now }
    requires sized { All (λ f. IsSized graph.now candidates.now f.edges f.names) all.now }
    ensures { OnOk result (out.new.items ≡ out.old.items ++ flat_map
        (frozen_text graph.now (candidates_of candidates.now) root.0) (map frozen_of all.now)) }
{
    'lines: for frozen in all {
        let line = print_frozen(alloc, graph, frozen, candidates)?;
        out.extend_from_slice(line.bytes())?;
    }
    Ok(())
}

/// The line of each frozen dimension, and how many they are.
pub(crate) fn listed(
    alloc: Global,
    graph: &Graph,
    candidates: &Candidates,
    root: CatId,
    all: &[Frozen],
) -> Result<Vec<u8>, Memory>
    requires roots { All (λ f. f.root.0 ≡ root.0) all.now }
    requires sized { All (λ f. IsSized graph.now candidates.now f.edges f.names) all.now }
    ensures { IfOk result (λ text. text.items ≡ flat_map
        (frozen_text graph.now (candidates_of candidates.now) root.0) (map frozen_of all.now)
        ++ line (codes "count " ++ decimal (length all.now))) }
{
    let mut text = Vec::new(alloc);
    push_lines(alloc, &mut text, graph, candidates, root, all)?;
    let count = format!(in alloc; "count {}\n", all.len())?;
    text.extend_from_slice(count.as_bytes())?;
    Ok(text)
}

/// The lines of these frozen dimensions, or that there are too many.
fn told(
    alloc: Global,
    schema: &Schema,
    candidates: &Candidates,
    root: CatId,
    all: Result<List<Frozen>, Refusal<TooMany>>,
) -> Result<Reply, Stop>
    requires all { IfOk all (λ list. AreAllFrozen (schema_of schema.now) Truth root.0
        (candidates_of candidates.now) (map frozen_of list)) }
    requires few { IfOk all (λ list. length list ≤ most_frozen) }
    requires roots { IfOk all (λ list. All (λ f. f.root.0 ≡ root.0) list) }
    requires sized { IfOk all (λ list.
        All (λ f. IsSized (schema_of schema.now).graph candidates.now f.edges f.names) list) }
    requires too_many { IfErr all (IsFor (λ _.
        AreMoreThan most_frozen (schema_of schema.now) Truth root.0 (candidates_of candidates.now))) }
    ensures replies { Replies IsAnswer (Done (ByFrozen (schema_of schema.now) root.0)) result }
{
    match all {
        Ok(all) => {
            let text = listed(alloc, schema.graph(), candidates, root, all.items())?;
            Ok(yes(text))
        }
        Err(Refusal::Kind(TooMany)) => Err(refuse(alloc, "frozen TooMany")),
        Err(Refusal::Memory(memory)) => Err(Stop::Memory(memory)),
    }
}

/// All frozen dimensions with a root, if they aren't too many.
fn answered(alloc: Global, schema: &Schema, root: CatId) -> Result<Reply, Stop>
    requires { IsCategory (schema_of schema.now).graph root.0 }
    ensures replies { Replies IsAnswer (Done (ByFrozen (schema_of schema.now) root.0)) result }
{
    // Called for its clause: the schema's constants are few.
    let _constraints = schema.constraints();
    let mut search = Search::new(alloc, schema, root, &Formula::True)?;
    let all = search.all(schema, &Formula::True, MOST_FROZEN);
    let candidates = search.into_candidates();
    told(alloc, schema, &candidates, root, all)
}

/// All frozen dimensions with a root, of a schema.
pub(crate) fn frozen(alloc: Global, schema: &Schema, category: &str) -> Result<Reply, Stop>
    ensures replies { Replies IsAnswer (category_under ByFrozen (schema_of schema.now) category.now) result }
{
    let category = category_at(alloc, 3, schema, category)?;
    answered(alloc, schema, category)
}
