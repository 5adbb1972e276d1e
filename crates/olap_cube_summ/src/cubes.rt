// The schemas of a cube's dimensions.
ghost use Rattle.std.specs.Prelude.{◌≡◌, ◌++◌, ◌∷◌, ◌<◌, ◌≤◌, [], IfErr, OnErr, OnOk, length, slice_index_or};
ghost use Rattle.olap_cube.specs.Limits.{most_dimensions};
ghost use Rattle.olap_cube_summ.specs.Dimensions.{no_schema, schemas_of};
ghost use Rattle.olap_schema.specs.Schemas.{schema_of};

use olap_schema::Schema;
use std::alloc::{AllocFailed, Global};
use std::marker::Model;

/// The schemas of up to four dimensions, in order.
#[derive(Drop)]
pub struct Cube {
    schemas: Vec<Schema>,
}

impl Model for Cube {
    ghost use Rattle.std.specs.Coded.{codes};
    ghost use Rattle.std.specs.Prelude.{◌≤◌, List as Items, length};
    ghost use Rattle.olap_ast.specs.contracts.formulas.Formula as formula;
    ghost use Rattle.olap_cube.specs.Limits.{most_dimensions};
    ghost use Rattle.olap_schema.specs.Shown.{Shown};

    ghost Value = { Items Shown };

    ghost coded = { Prim.hlevel (codes, formula.the_row.coded) };

    ghost view = { λ a. a.schemas.items };

    ghost invariant = { λ a. length a.schemas.items ≤ most_dimensions };
}

impl Cube {
    /// No dimension.
    pub fn new(alloc: Global) -> Cube
        ensures { schemas_of result ≡ [] }
    {
        Cube {
            schemas: Vec::new(alloc),
        }
    }

    /// Adds the schema of a further dimension. If memory runs out, it is handed back with the refusal, and the others
    /// stay.
    pub fn push(&mut self, schema: Schema) -> Result<(), AllocFailed<Schema>>
        requires { length (schemas_of self.old) < most_dimensions }
        ensures ok { OnOk result (schemas_of self.new ≡ schemas_of self.old ++ schema_of schema ∷ []) }
        ensures err { OnErr result (self.new ≡ self.old) }
        ensures back { IfErr result (λ failed. failed.value ≡ schema) }
    {
        self.schemas.push(schema)
    }

    /// How many dimensions there are: at most four.
    pub fn len(&self) -> usize
        ensures count { result ≡ length (schemas_of self.now) }
        ensures few { length (schemas_of self.now) ≤ most_dimensions }
    {
        self.schemas.len()
    }

    /// The schema of a dimension, from 0.
    pub fn schema(&self, i: usize) -> &Schema
        requires { i < length (schemas_of self.now) }
        ensures { schema_of result.now ≡ slice_index_or (schemas_of self.now) i no_schema }
    {
        &self.schemas[i]
    }
}
