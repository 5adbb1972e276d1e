// The command `shapes`: for each set of edges of frozen dimensions with a root the least one with it.
ghost use Rattle.std.specs.Prelude.{◌≡◌, ◌≤◌, All, IfErr, IfOk, length, map};
ghost use Rattle.olap_ast.specs.Formula.{Formula.Truth};
ghost use Rattle.olap_base.specs.Graph.{IsCategory};
ghost use Rattle.olap_base.specs.Limits.{most_frozen};
ghost use Rattle.olap_base.specs.Refusing.{IsFor};
ghost use Rattle.olap_dimsat.specs.Shapes.{AreMoreShapes, AreShapes};
ghost use Rattle.olap_frozen.specs.LeastFound.{frozen_of};
ghost use Rattle.olap_frozen.specs.Leaves.{IsSized};
ghost use Rattle.olap_names.specs.Names.{candidates_of};
ghost use Rattle.olap_schema.specs.Schemas.{schema_of};
ghost use Rattle.olap_reasoning.specs.Under.{category_under};
ghost use Rattle.olap_order.specs.Judged.{Replies};
ghost use Rattle.olap_order.specs.Order.{Done};
ghost use Rattle.olap_reasoning.specs.Questions.{ByShapes, IsAnswer};

use crate::listing::listed;
use olap_ast::Formula;
use olap_base::{CatId, List, MOST_FROZEN, Refusal};
use olap_dimsat::{Search, TooMany};
use olap_frozen::Frozen;
use olap_names::Candidates;
use olap_order::{Reply, Stop, category_at, refuse, yes};
use olap_schema::Schema;
use std::alloc::Global;

/// The lines of these frozen dimensions, or that there are too many.
fn told(
    alloc: Global,
    schema: &Schema,
    candidates: &Candidates,
    root: CatId,
    shapes: Result<List<Frozen>, Refusal<TooMany>>,
) -> Result<Reply, Stop>
    requires all { IfOk shapes (λ list. AreShapes (schema_of schema.now) Truth root.0
        (candidates_of candidates.now) (map frozen_of list)) }
    requires few { IfOk shapes (λ list. length list ≤ most_frozen) }
    requires roots { IfOk shapes (λ list. All (λ f. f.root.0 ≡ root.0) list) }
    requires sized { IfOk shapes (λ list.
        All (λ f. IsSized (schema_of schema.now).graph candidates.now f.edges f.names) list) }
    requires too_many { IfErr shapes (IsFor (λ _.
        AreMoreShapes most_frozen (schema_of schema.now) Truth root.0 (candidates_of candidates.now))) }
    ensures replies { Replies IsAnswer (Done (ByShapes (schema_of schema.now) root.0)) result }
{
    match shapes {
        Ok(shapes) => {
            let text = listed(alloc, schema.graph(), candidates, root, shapes.items())?;
            Ok(yes(text))
        }
        Err(Refusal::Kind(TooMany)) => Err(refuse(alloc, "shapes TooMany")),
        Err(Refusal::Memory(memory)) => Err(Stop::Memory(memory)),
    }
}

/// For each shape of a root the least frozen dimension, if they aren't too many.
fn answered(alloc: Global, schema: &Schema, root: CatId) -> Result<Reply, Stop>
    requires { IsCategory (schema_of schema.now).graph root.0 }
    ensures replies { Replies IsAnswer (Done (ByShapes (schema_of schema.now) root.0)) result }
{
    // Called for its clause: the schema's constants are few.
    let _constraints = schema.constraints();
    let mut search = Search::new(alloc, schema, root, &Formula::True)?;
    let shapes = search.shapes(schema, &Formula::True, MOST_FROZEN);
    let candidates = search.into_candidates();
    told(alloc, schema, &candidates, root, shapes)
}

/// For each set of edges that a frozen dimension with a root has the least one with it, of a schema.
pub(crate) fn shapes(alloc: Global, schema: &Schema, category: &str) -> Result<Reply, Stop>
    ensures replies { Replies IsAnswer (category_under ByShapes (schema_of schema.now) category.now) result }
{
    let category = category_at(alloc, 3, schema, category)?;
    answered(alloc, schema, category)
}
