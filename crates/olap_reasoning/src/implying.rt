// The command `implies`: whether all legal instances meet a constraint.
ghost use Rattle.std.specs.Prelude.{◌≡◌, ◌++◌, codes, IfErr, IfOk};
ghost use Rattle.olap_ast.specs.Atoms.{equalities};
ghost use Rattle.olap_ast.specs.Frozen.{thawed};
ghost use Rattle.olap_ast.specs.Trees.{formula_of};
ghost use Rattle.olap_ast.specs.Valid.{IsQuestion};
ghost use Rattle.olap_cex.specs.FoundFor.{IsFoundFor, found_instance};
ghost use Rattle.olap_cex.specs.FrozenText.{frozen_text};
ghost use Rattle.olap_frozen.specs.LeastFound.{frozen_of};
ghost use Rattle.olap_instance.specs.Printing.{text_of_instance};
ghost use Rattle.olap_names.specs.Names.{candidates_of};
ghost use Rattle.olap_schema.specs.Readable.{AreTexts};
ghost use Rattle.olap_schema.specs.Schemas.{schema_of};
ghost use Rattle.olap_reasoning.specs.Under.{implies_under};
ghost use Rattle.olap_order.specs.Judged.{Replies};
ghost use Rattle.olap_order.specs.Order.{Done};
ghost use Rattle.olap_order.specs.Outputs.{line};
ghost use Rattle.olap_order.specs.Refusals.{IsOutOfMemory};
ghost use Rattle.olap_reasoning.specs.Questions.{ByImplied, IsAnswer};

use crate::denying::no_lines;
use olap_ast::Formula;
use olap_base::{CatId, Memory, Text};
use olap_cex::{print_frozen, thaw};
use olap_frozen::Found;
use olap_graph::Graph;
use olap_instance::print_instance;
use olap_order::{Reply, Status, Stop, formula_at, no, root_at, yes};
use olap_schema::Schema;
use std::alloc::Global;

/// The text of the instance of a frozen dimension.
fn instance_text(alloc: Global, graph: &Graph, found: &Found) -> Result<Text, Memory>
    requires { IsFoundFor graph.now found.now }
    ensures { IfOk result (λ text. text ≡ text_of_instance graph.now
        (found_instance graph.now found.now)) }
{
    let instance = thaw(alloc, graph, found)?;
    print_instance(alloc, graph, &instance)
}

/// `no`, the line of a frozen dimension, and its instance.
fn shown(alloc: Global, schema: &Schema, found: &Found) -> Result<Reply, Stop>
    requires { IsFoundFor (schema_of schema.now).graph found.now }
    ensures status { IfOk result (λ r. r.status ≡ Status.No) }
    ensures text { let g = (schema_of schema.now).graph in
        IfOk result (λ r. r.bytes.items ≡ line (codes "no")
        ++ (frozen_text g (candidates_of found.now.candidates) found.now.frozen.root.0
        (frozen_of found.now.frozen) ++ text_of_instance g (found_instance g found.now))) }
    ensures memory { IfErr result IsOutOfMemory }
{
    let line = print_frozen(alloc, schema.graph(), &found.frozen, &found.candidates)?;
    let lines = instance_text(alloc, schema.graph(), found)?;
    let text = no_lines(alloc, &line, &lines)?;
    Ok(no(text))
}

/// Whether all legal instances meet the constraint, with what shows that they don't.
fn answered(alloc: Global, schema: &Schema, root: CatId, formula: &Formula) -> Result<Reply, Stop>
    requires question { IsQuestion (schema_of schema.now) root.0 (formula_of formula.now) }
    requires texts { AreTexts (equalities (formula_of formula.now)) }
    ensures replies { Replies IsAnswer
        (Done (ByImplied (schema_of schema.now) root.0 (formula_of formula.now))) result }
{
    // Called for its clauses: the schema's constants are text.
    let _constraints = schema.constraints();
    match olap_summ::implies(alloc, schema, root, formula)? {
        None => Ok(yes(Vec::from_slice(alloc, b"yes\n")?)),
        Some(found) => shown(alloc, schema, &found),
    }
}

/// Whether all instances that are legal for a schema meet a constraint.
pub(crate) fn implies(
    alloc: Global,
    schema: &Schema,
    root: &str,
    formula: &str,
) -> Result<Reply, Stop>
    ensures replies { Replies IsAnswer
        (implies_under (schema_of schema.now) root.now formula.now) result }
{
    let root = root_at(alloc, 3, schema, root)?;
    let formula = formula_at(alloc, 4, schema, root, formula)?;
    answered(alloc, schema, root, &formula)
}
