// Frozen dimensions that are searched for by their patterns.
ghost use Rattle.std.specs.Prelude.{IfOk, IfSome, IsNone};
ghost use Rattle.olap_base.specs.Graph.{IsBottom};
ghost use Rattle.olap_cube_summ.specs.Patterns.{AreAllKnown, IsLeastKnown, IsOther, SomeIsKnown};
ghost use Rattle.olap_cube_summ.specs.Questions.{IsQuestionOf};
ghost use Rattle.olap_schema.specs.Schemas.{schema_of};

use crate::formulas::{inside, outside};
use crate::masks::Patterns;
use crate::questions::Question;
use olap_base::{CatId, Memory};
use olap_dimsat::{Wanted, find};
use olap_frozen::Found;
use olap_schema::Schema;
use std::alloc::Global;

/// A frozen dimension of the root that reaches the target, and by none of the patterns. None only if there is none.
pub(crate) fn other_found(
    alloc: Global,
    schema: &Schema,
    question: &Question,
    root: CatId,
    patterns: &Patterns,
) -> Result<Option<Found>, Memory>
    requires question { IsQuestionOf (schema_of schema.now) question.now }
    requires root { IsBottom (schema_of schema.now).graph root.0 }
    ensures none { IfOk result (λ o. IsNone o
        → AreAllKnown (schema_of schema.now) question.now root.0 patterns.now) }
    ensures some { IfOk result (λ o. IfSome o
        (IsOther (schema_of schema.now) question.now root.0 patterns.now)) }
{
    // Called for its clauses: the schema is valid.
    let _valid = schema.constraints();
    let formula = outside(alloc, question.target, question.sources.items(), patterns)?;
    find(alloc, schema, root, &formula, Wanted::Any)
}

/// The least frozen dimension of the root that reaches the target by one of the patterns.
pub(crate) fn least_found(
    alloc: Global,
    schema: &Schema,
    question: &Question,
    root: CatId,
    patterns: &Patterns,
) -> Result<Found, Memory>
    requires question { IsQuestionOf (schema_of schema.now) question.now }
    requires root { IsBottom (schema_of schema.now).graph root.0 }
    requires some { SomeIsKnown (schema_of schema.now) question.now root.0 patterns.now }
    ensures { IfOk result (IsLeastKnown (schema_of schema.now) question.now root.0 patterns.now) }
{
    // Called for its clauses: the schema is valid.
    let _valid = schema.constraints();
    let formula = inside(alloc, question.target, question.sources.items(), patterns)?;
    let least = find(alloc, schema, root, &formula, Wanted::Least)?;
    let Some(found) = least else { unreachable!() };
    Ok(found)
}
