// The check: the laws, and then the constraints.
ghost use Rattle.std.specs.Prelude.{◌≡◌, ◌≤◌, length, map, Contains, IfOk, IfErr};
ghost use Rattle.olap_ast.specs.Schema.{Constraint as TheConstraint, IsLegal, Meets};
ghost use Rattle.olap_ast.specs.Trees.{constraint_of};
ghost use Rattle.olap_base.specs.Graph.{category_count};
ghost use Rattle.olap_base.specs.Instance.{IsLawful};
ghost use Rattle.olap_base.specs.Limits.{most_categories, most_constraints};
ghost use Rattle.olap_base.specs.Refusing.{IsFor};
ghost use Rattle.olap_check.specs.Reports.{IsFirstReport, IsRefused, parts_of};
ghost use Rattle.olap_legal.specs.Rows.{IsBounded};
ghost use Rattle.olap_legal.specs.Tables.{IsTable};
ghost use Rattle.olap_schema.specs.Schemas.{schema_of};
ghost use Rattle.olap_instance.specs.Made.{IsMadeFor};

use crate::laws::{bound, lawful};
use crate::meeting::first_violated;
use crate::{Illegal, Violation};
use olap_ast::Constraint;
use olap_base::{MemberId, Refusal};
use olap_graph::Graph;
use olap_instance::Instance;
use olap_legal::{Legal, Table};
use olap_schema::Schema;
use std::alloc::Global;

/// The instance as a legal one for the schema.
///
/// `Illegal` exactly if it isn't legal, with the first violation: by law, and within a law in file order, as
/// `IsFirstViolation` says. `Memory` if memory ran out, and the instance is dropped. Cost: at most the members and
/// their parents times the number of categories, the members times its square, and of each formula its distinct pairs
/// of categories and names at the members of its root, and its nodes once for 1,024 of them. A cycle, or a member with
/// many parents, costs no more.
pub fn check(alloc: Global, schema: &Schema, instance: Instance) -> Result<Legal, Refusal<Illegal>>
    requires { IsMadeFor (schema_of schema.now).graph instance }
    ensures same { IfOk result (λ legal. legal ≡ instance) }
    ensures ok { IfOk result (λ legal. IsLegal (schema_of schema.now) instance) }
    ensures err { IfErr result (IsRefused (schema_of schema.now) instance) }
{
    check_parts(alloc, schema.graph(), schema.constraints(), instance)
}

/// The table of ancestors of an instance that keeps the laws and meets the constraints, or the first violation of
/// another.
fn judged(
    alloc: Global,
    graph: &Graph,
    constraints: &[Constraint],
    instance: &Instance,
    categories: u16,
) -> Result<Table, Refusal<Violation>>
    requires count { categories ≡ category_count graph.now }
    requires few { categories ≤ most_categories }
    requires bounded { IsBounded instance.now categories }
    requires constraints { length constraints.now ≤ most_constraints }
    ensures table { IfOk result (IsTable instance.now categories (length instance.now)) }
    ensures lawful { IfOk result (λ _. IsLawful graph.now instance.now) }
    ensures meets { IfOk result (λ _. (c : TheConstraint) → Contains (map constraint_of constraints.now) c
        → Meets instance.now c) }
    ensures err { IfErr result (IsFor (IsFirstReport (parts_of graph.now constraints.now) instance.now)) }
{
    let table = lawful(alloc, graph, instance, categories)?;
    match first_violated(alloc, instance, &table, categories, constraints)? {
        Some((k, x)) => Err(Refusal::Kind(Violation::Constraint(k as u16 + 1, MemberId(x)))),
        None => Ok(table),
    }
}

/// `check` for a graph and constraints that stand in no `Schema`.
fn check_parts(
    alloc: Global,
    graph: &Graph,
    constraints: &[Constraint],
    instance: Instance,
) -> Result<Legal, Refusal<Illegal>>
    requires made { IsMadeFor graph.now instance }
    requires few { length constraints.now ≤ most_constraints }
    ensures same { IfOk result (λ legal. legal ≡ instance) }
    ensures ok { IfOk result (λ legal. IsLegal (parts_of graph.now constraints.now) instance) }
    ensures err { IfErr result (IsRefused (parts_of graph.now constraints.now) instance) }
{
    let categories = bound(graph, &instance);
    match judged(alloc, graph, constraints, &instance, categories) {
        Ok(table) => Ok(Legal::new(instance, categories, table)),
        Err(Refusal::Kind(violation)) => Err(Refusal::Kind(Illegal {
            instance,
            violation,
        })),
        Err(Refusal::Memory(memory)) => Err(Refusal::Memory(memory)),
    }
}
