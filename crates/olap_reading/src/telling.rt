// Whether an instance is legal, and the words in which a violation is told.
ghost use Rattle.std.specs.Prelude.{◌≡◌, ◌++◌, None, codes, IfOk, MatchResult, OnOk};
ghost use Rattle.std.specs.Fmt.{decimal};
ghost use Rattle.olap_check.specs.FirstViolation.{first_violation};
ghost use Rattle.olap_ast.specs.Schema.{IsLegal};
ghost use Rattle.olap_base.specs.Instance.{IsMember};
ghost use Rattle.olap_instance.specs.Made.{IsMadeFor};
ghost use Rattle.olap_schema.specs.Schemas.{schema_of};
ghost use Rattle.olap_reading.specs.Broken.{IsBrokenBy};
ghost use Rattle.olap_order.specs.Outputs.{refusal};
ghost use Rattle.olap_order.specs.Refusals.{IsRefusal};
ghost use Rattle.olap_reading.specs.Telling.{IsTellable, law_text, pair_text, told_text};
ghost use Rattle.olap_reading.specs.Violations.{id_text};

use olap_base::{MemberId, Refusal};
use olap_check::{Illegal, Violation, check};
use olap_grammar::push_quoted;
use olap_graph::Graph;
use olap_instance::Instance;
use olap_legal::Legal;
use olap_order::Stop;
use olap_schema::Schema;
use std::alloc::{AllocError, Global};

/// The instance as a legal one, or its first violation.
pub(crate) fn check_laws(
    alloc: Global,
    schema: &Schema,
    members: Instance,
) -> Result<Legal, Refusal<Illegal>>
    requires { IsMadeFor (schema_of schema.now).graph members }
    ensures same { IfOk result (λ legal. legal ≡ members) }
    ensures ok { IfOk result (λ _. IsLegal (schema_of schema.now) members) }
    ensures judged { MatchResult result
        (λ _. first_violation (schema_of schema.now) members ≡ None)
        (IsBrokenBy (schema_of schema.now) members) }
{
    // Called for its clause: what is counted is an instance.
    let _count = members.members();
    check(alloc, schema, members)
}

/// Appends a member's id as a string.
fn push_id(out: &mut Vec<u8>, instance: &Instance, x: MemberId) -> Result<(), AllocError>
    requires { IsMember instance.now x.0 }
    ensures { OnOk result (out.new.items ≡ out.old.items ++ id_text instance.now x.0) }
{
    push_quoted(out, instance.id(x))
}

/// Appends two members' ids.
fn push_pair(
    out: &mut Vec<u8>,
    instance: &Instance,
    x: MemberId,
    y: MemberId,
) -> Result<(), AllocError>
    requires { IsMember instance.now x.0 × IsMember instance.now y.0 }
    ensures { OnOk result (out.new.items ≡ out.old.items ++ pair_text instance.now x.0 y.0) }
{
    push_id(out, instance, x)?;
    out.extend_from_slice(b" ")?;
    push_id(out, instance, y)
}

/// Appends a number and a member's id.
fn push_counted(
    alloc: Global,
    out: &mut Vec<u8>,
    n: u16,
    instance: &Instance,
    x: MemberId,
) -> Result<(), AllocError>
    requires { IsMember instance.now x.0 }
    ensures { OnOk result (out.new.items
        ≡ out.old.items ++ (decimal n ++ (codes " " ++ id_text instance.now x.0))) }
{
    let number = format!(in alloc; "{n} ")?;
    out.extend_from_slice(number.as_bytes())?;
    push_id(out, instance, x)
}

/// The law that a violation breaks, or that it is a constraint.
fn law(violation: Violation) -> &'static [u8]
    ensures { result.now ≡ law_text violation }
{
    match violation {
        Violation::Connectivity(..) => b"Connectivity ",
        Violation::NoParent(_) => b"NoParent ",
        Violation::Stratification(_) => b"Stratification ",
        Violation::Partitioning(..) => b"Partitioning ",
        Violation::Shortcut(..) => b"Shortcut ",
        Violation::Constraint(..) => b"Constraint ",
    }
}

/// Appends a violation's words.
fn push_violation(
    alloc: Global,
    out: &mut Vec<u8>,
    graph: &Graph,
    instance: &Instance,
    violation: Violation,
) -> Result<(), AllocError>
    requires { IsTellable graph.now instance.now violation }
    ensures { OnOk result (out.new.items
        ≡ out.old.items ++ told_text graph.now instance.now violation) }
{
    out.extend_from_slice(law(violation))?;
    match violation {
        Violation::Connectivity(x, y) | Violation::Shortcut(x, y) => push_pair(out, instance, x, y),
        Violation::NoParent(x) | Violation::Stratification(x) => push_id(out, instance, x),
        Violation::Partitioning(x, c) => {
            push_id(out, instance, x)?;
            out.extend_from_slice(b" ")?;
            out.extend_from_slice(graph.name(c).bytes())
        }
        Violation::Constraint(n, x) => push_counted(alloc, out, n, instance, x),
    }
}

/// The line of that refusal.
fn violation_line(
    alloc: Global,
    label: &str,
    graph: &Graph,
    instance: &Instance,
    violation: Violation,
) -> Result<Vec<u8>, AllocError>
    requires { IsTellable graph.now instance.now violation }
    ensures { IfOk result (λ line. line.items ≡ refusal
        (label.now ++ (codes " " ++ told_text graph.now instance.now violation))) }
{
    let mut line = Vec::from_slice(alloc, b"refused ")?;
    line.extend_from_slice(label.as_bytes())?;
    line.extend_from_slice(b" ")?;
    push_violation(alloc, &mut line, graph, instance, violation)?;
    line.push(b'\n')?;
    Ok(line)
}

/// An instance that isn't legal is refused, under its label.
pub(crate) fn refuse_violation(
    alloc: Global,
    label: &str,
    graph: &Graph,
    instance: &Instance,
    violation: Violation,
) -> Stop
    requires { IsTellable graph.now instance.now violation }
    ensures refused { IsRefusal
        (label.now ++ (codes " " ++ told_text graph.now instance.now violation)) result }
{
    match violation_line(alloc, label, graph, instance, violation) {
        Ok(line) => Stop::Refused(line),
        Err(refused) => Stop::from(refused),
    }
}
