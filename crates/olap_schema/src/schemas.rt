// Schemas: a graph of categories and the constraints.
ghost use Rattle.olap_base.specs.Limits.{most_constraints};
ghost use Rattle.olap_schema.specs.Readable.{AreTexts, IsReadable};
ghost use Rattle.olap_schema.specs.Schemas.{schema_of};
ghost use Rattle.std.specs.Prelude.{◌≡◌, ◌<◌, ◌≤◌, IfOk, flat_map, length, map};
ghost use Rattle.olap_ast.specs.Atoms.{equalities};
ghost use Rattle.olap_ast.specs.Findings.{without};
ghost use Rattle.olap_ast.specs.Trees.{constraint_of};
ghost use Rattle.olap_ast.specs.Valid.{IsValidSchema};

use crate::copying::others;
use olap_ast::Constraint;
use olap_base::{List, Memory};
use olap_graph::Graph;
use std::alloc::Global;
use std::marker::Model;

/// A schema: a graph of categories and the constraints.
#[derive(Drop)]
pub struct Schema {
    graph: Graph,
    constraints: List<Constraint>,
    alloc: Global,
}

impl Model for Schema {
    ghost use Rattle.std.specs.Coded.{codes};
    ghost use Rattle.olap_ast.specs.contracts.formulas.Formula as formula;
    ghost use Rattle.olap_schema.specs.Shown.{Shown};

    ghost Value = { Shown };

    ghost coded = { Prim.hlevel (codes, formula.the_row.coded) };

    ghost use Rattle.olap_ast.specs.Trees.{constraint_of};
    ghost use Rattle.olap_schema.specs.Readable.{IsReadable};
    ghost use Rattle.std.specs.Prelude.{map};

    ghost view = { λ a. record { graph = a.graph; constraints = a.constraints } };

    ghost invariant = { λ a. IsReadable (record { graph = a.graph; constraints = map constraint_of a.constraints }) };
}

impl Schema {
    /// A graph with these constraints, in declaration order.
    pub fn new(alloc: Global, graph: Graph, constraints: List<Constraint>) -> Schema
        requires { IsReadable (record { graph = graph; constraints = map constraint_of constraints }) }
        ensures { schema_of result ≡ record { graph = graph; constraints = map constraint_of constraints } }
    {
        Schema {
            graph,
            constraints,
            alloc,
        }
    }

    /// Its graph.
    pub fn graph(&self) -> &Graph
        ensures { result.now ≡ (schema_of self.now).graph }
    {
        &self.graph
    }

    /// Its constraints, in declaration order: at most `MOST_CONSTRAINTS`. Each schema is valid, and its constants are
    /// UTF-8 without control characters.
    pub fn constraints(&self) -> &[Constraint]
        ensures list { map constraint_of result.now ≡ (schema_of self.now).constraints }
        ensures few { length result.now ≤ most_constraints }
        ensures valid { IsValidSchema (schema_of self.now) }
        ensures texts { AreTexts (flat_map (λ c. equalities c.formula) (schema_of self.now).constraints) }
    {
        self.constraints.items()
    }

    /// The same schema without the constraint at this place. `Memory`: out of memory.
    pub fn without(&self, index: usize) -> Result<Schema, Memory>
        requires { index < length (schema_of self.now).constraints }
        ensures { IfOk result (λ s. schema_of s ≡ without (schema_of self.now) index) }
    {
        let constraints = others(self.alloc, self.constraints.items(), index)?;
        let graph = self.graph.copy()?;
        Ok(Schema {
            graph,
            constraints: List::from_vec(constraints),
            alloc: self.alloc,
        })
    }
}
