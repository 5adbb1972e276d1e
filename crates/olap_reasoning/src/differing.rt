// What shows that a view isn't always that from others.
ghost use Rattle.std.specs.Prelude.{◌≡◌, ◌++◌, All, codes, IfErr, IfOk};
ghost use Rattle.olap_base.specs.Graph.{IsCategory};
ghost use Rattle.olap_cex.specs.CexText.{counterexample_text};
ghost use Rattle.olap_cex.specs.FrozenText.{frozen_text};
ghost use Rattle.olap_frozen.specs.LeastFound.{frozen_of};
ghost use Rattle.olap_names.specs.Names.{candidates_of};
ghost use Rattle.olap_schema.specs.Schemas.{schema_of};
ghost use Rattle.olap_ast.specs.Trees.{numbers_of};
ghost use Rattle.olap_summ.specs.Counterexamples.{IsCounterexampleFound};
ghost use Rattle.olap_order.specs.Outputs.{line};
ghost use Rattle.olap_order.specs.Refusals.{IsOutOfMemory};

use crate::denying::no_lines;
use olap_base::{CatId, Memory, Text};
use olap_cex::{counterexample, print_cex, print_frozen, question_is_true, root_is_member};
use olap_frozen::Found;
use olap_order::{Reply, Status, Stop, no};
use olap_schema::Schema;
use std::alloc::Global;

/// The instance of a counterexample, and its two sums.
fn sums(
    alloc: Global,
    schema: &Schema,
    found: &Found,
    target: CatId,
    sources: &[CatId],
) -> Result<Text, Memory>
    requires target { IsCategory (schema_of schema.now).graph target.0 }
    requires sources { All (IsCategory (schema_of schema.now).graph) (numbers_of sources.now) }
    requires found { IsCounterexampleFound (schema_of schema.now) target.0 (numbers_of sources.now)
        found.now }
    ensures { IfOk result (λ text. text ≡ counterexample_text (schema_of schema.now)
        (candidates_of found.now.candidates) found.now.frozen.root.0 (frozen_of found.now.frozen)
        target.0 (numbers_of sources.now)) }
{
    // Called for their clauses: the schema is valid and its constants are text; the root is a member and reaches
    // the target.
    let _constraints = schema.constraints();
    question_is_true();
    root_is_member();
    let graph = schema.graph();
    let cex = counterexample(alloc, graph, found, target, sources)?;
    let text = print_cex(alloc, graph, &cex)?;
    Ok(text)
}

/// `no`, the line of a counterexample, its instance, and its two sums.
pub(crate) fn shown(
    alloc: Global,
    schema: &Schema,
    found: &Found,
    target: CatId,
    sources: &[CatId],
) -> Result<Reply, Stop>
    requires target { IsCategory (schema_of schema.now).graph target.0 }
    requires sources { All (IsCategory (schema_of schema.now).graph) (numbers_of sources.now) }
    requires found { IsCounterexampleFound (schema_of schema.now) target.0 (numbers_of sources.now)
        found.now }
    ensures status { IfOk result (λ r. r.status ≡ Status.No) }
    ensures text { let s = schema_of schema.now in
        let k = candidates_of found.now.candidates in
        let f = frozen_of found.now.frozen in
        IfOk result (λ r. r.bytes.items ≡ line (codes "no")
        ++ (frozen_text s.graph k found.now.frozen.root.0 f
        ++ counterexample_text s k found.now.frozen.root.0 f target.0 (numbers_of sources.now))) }
    ensures memory { IfErr result IsOutOfMemory }
{
    let line = print_frozen(alloc, schema.graph(), &found.frozen, &found.candidates)?;
    let lines = sums(alloc, schema, found, target, sources)?;
    let text = no_lines(alloc, &line, &lines)?;
    Ok(no(text))
}
