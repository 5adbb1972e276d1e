// The command `audit`: what a schema says or does for nothing.
ghost use Rattle.std.specs.Prelude.{◌≡◌, ◌<◌, ◌++◌, codes, decimal, All, IfOk, OnOk, flat_map, length, map};
ghost use Rattle.olap_ast.specs.Findings.{Finding.Redundant, Finding.Unsatisfiable, Finding.Unused, IsFinding};
ghost use Rattle.olap_base.specs.Graph.{IsCategory};
ghost use Rattle.olap_schema.specs.Schemas.{schema_of};
ghost use Rattle.olap_summ.specs.Audits.{finding_of};
ghost use Rattle.olap_order.specs.Judged.{Replies};
ghost use Rattle.olap_reasoning.specs.Listings.{finding_text};
ghost use Rattle.olap_order.specs.Order.{Done};
ghost use Rattle.olap_order.specs.Outputs.{line};
ghost use Rattle.olap_reasoning.specs.Questions.{ByAudit, IsAnswer};

use olap_base::{CatId, EdgeId, Memory};
use olap_graph::Graph;
use olap_order::{Reply, Stop, yes};
use olap_schema::Schema;
use olap_summ::Finding;
use std::alloc::Global;

/// Appends the line of a category that can't have a member.
pub(crate) fn push_unsatisfiable(out: &mut Vec<u8>, graph: &Graph, c: CatId) -> Result<(), Memory>
    requires { IsCategory graph.now c.0 }
    ensures { OnOk result
        (out.new.items ≡ out.old.items ++ finding_text graph.now (Unsatisfiable c.0)) }
{
    out.extend_from_slice(b"unsatisfiable ")?;
    out.extend_from_slice(graph.name(c).bytes())?;
    out.push(b'\n')?;
    Ok(())
}

/// Appends the line of a constraint that follows from the others.
fn push_redundant(alloc: Global, out: &mut Vec<u8>, graph: &Graph, n: u16) -> Result<(), Memory>
    ensures { OnOk result (out.new.items ≡ out.old.items ++ finding_text graph.now (Redundant n)) }
{
    let line = format!(in alloc; "redundant {n}\n")?;
    out.extend_from_slice(line.as_bytes())?;
    Ok(())
}

/// Appends the line of an edge that no legal instance uses.
fn push_unused(out: &mut Vec<u8>, graph: &Graph, e: EdgeId) -> Result<(), Memory>
    requires { e.0 < length graph.now.edges }
    ensures { OnOk result (out.new.items ≡ out.old.items ++ finding_text graph.now (Unused e.0)) }
{
    let (child, parent) = graph.ends(e);
    out.extend_from_slice(b"unused ")?;
    out.extend_from_slice(graph.name(child).bytes())?;
    out.push(b' ')?;
    out.extend_from_slice(graph.name(parent).bytes())?;
    out.push(b'\n')?;
    Ok(())
}

/// Appends the line of a finding.
fn push_finding(
    alloc: Global,
    out: &mut Vec<u8>,
    schema: &Schema,
    finding: Finding,
) -> Result<(), Memory>
    requires { IsFinding (schema_of schema.now) (finding_of finding) }
    ensures { OnOk result (out.new.items
        ≡ out.old.items ++ finding_text (schema_of schema.now).graph (finding_of finding)) }
{
    let graph = schema.graph();
    match finding {
        Finding::Unsatisfiable(c) => push_unsatisfiable(out, graph, c),
        Finding::Redundant(n) => push_redundant(alloc, out, graph, n),
        Finding::Unused(e) => push_unused(out, graph, e),
    }
}

/// The line of each finding, and how many they are.
fn listed(alloc: Global, schema: &Schema, findings: &[Finding]) -> Result<Vec<u8>, Memory>
    requires { All (λ f. IsFinding (schema_of schema.now) (finding_of f)) findings.now }
    ensures { IfOk result (λ text. text.items
        ≡ flat_map (finding_text (schema_of schema.now).graph) (map finding_of findings.now)
        ++ line (codes "findings " ++ decimal (length findings.now))) }
{
    let mut text = Vec::new(alloc);
    'findings: for finding in findings {
        push_finding(alloc, &mut text, schema, *finding)?;
    }
    let count = format!(in alloc; "findings {}\n", findings.len())?;
    text.extend_from_slice(count.as_bytes())?;
    Ok(text)
}

/// What a schema says or does for nothing.
pub(crate) fn audit(alloc: Global, schema: &Schema) -> Result<Reply, Stop>
    ensures replies { Replies IsAnswer (Done (ByAudit (schema_of schema.now))) result }
{
    let findings = olap_summ::audit(alloc, schema)?;
    let text = listed(alloc, schema, findings.items())?;
    Ok(yes(text))
}
