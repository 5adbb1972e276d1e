// Categories that can have a member.
ghost use Rattle.std.specs.Prelude.{◌↔◌, IfOk, IfSome, IsNone};
ghost use Rattle.olap_ast.specs.Findings.{IsUnsatisfiable};
ghost use Rattle.olap_ast.specs.Formula as Meaning;
ghost use Rattle.olap_base.specs.Graph.{IsCategory};
ghost use Rattle.olap_frozen.specs.LeastFound.{IsLeastFound};
ghost use Rattle.olap_schema.specs.Schemas.{schema_of};

use crate::asking::found;
use olap_ast::Formula;
use olap_base::{CatId, Memory};
use olap_dimsat::Wanted;
use olap_frozen::Found;
use olap_schema::Schema;
use std::alloc::Global;

/// The least frozen dimension with this root. None exactly if no legal instance has a member in the category.
pub fn satisfiable(alloc: Global, schema: &Schema, c: CatId) -> Result<Option<Found>, Memory>
    requires { IsCategory (schema_of schema.now).graph c.0 }
    ensures none { IfOk result (λ o. IsNone o ↔ IsUnsatisfiable (schema_of schema.now) c.0) }
    ensures some { IfOk result (λ o. IfSome o (IsLeastFound (schema_of schema.now) Meaning.Formula.Truth c.0)) }
{
    // Called for its clauses: the schema is valid.
    let _valid = schema.constraints();
    found(alloc, schema, c, &Formula::True, Wanted::Least)
}
