// A frozen dimension for a question at a root: the least, or any.
ghost use Rattle.std.specs.Prelude.{◌≤◌, ◌↔◌, IfOk, IfSome, IsNone};
ghost use Rattle.olap_ast.specs.Atoms.{all_comparisons, all_equalities};
ghost use Rattle.olap_ast.specs.Pairs.{pair_count};
ghost use Rattle.olap_ast.specs.Trees.{formula_of};
ghost use Rattle.olap_ast.specs.Valid.{IsFormulaAt};
ghost use Rattle.olap_base.specs.Graph.{IsCategory};
ghost use Rattle.olap_base.specs.Limits.{most_constants};
ghost use Rattle.olap_dimsat.specs.Finding.{IsFoundAs};
ghost use Rattle.olap_schema.specs.Schemas.{schema_of};
ghost use Rattle.olap_summ.specs.Answers.{IsNowhere};

use olap_ast::Formula;
use olap_base::{CatId, Memory};
use olap_dimsat::{Wanted, find};
use olap_frozen::Found;
use olap_schema::Schema;
use std::alloc::Global;

/// The frozen dimension that is wanted of those whose root makes the question true. None exactly if it is true at no
/// member of the root in any legal instance.
pub(crate) fn found(
    alloc: Global,
    schema: &Schema,
    root: CatId,
    question: &Formula,
    wanted: Wanted,
) -> Result<Option<Found>, Memory>
    requires root { IsCategory (schema_of schema.now).graph root.0 }
    requires question { IsFormulaAt (schema_of schema.now).graph root.0 (formula_of question.now) }
    requires few { pair_count (all_equalities (schema_of schema.now) (formula_of question.now))
        (all_comparisons (schema_of schema.now) (formula_of question.now)) ≤ most_constants }
    ensures none { IfOk result (λ o. IsNone o ↔ IsNowhere (schema_of schema.now) (formula_of question.now) root.0) }
    ensures some { IfOk result (λ o. IfSome o
        (IsFoundAs wanted (schema_of schema.now) (formula_of question.now) root.0)) }
{
    // Called for its clauses: the schema is valid.
    let _valid = schema.constraints();
    find(alloc, schema, root, question, wanted)
}
