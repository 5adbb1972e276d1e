// What is printed about each dimension.
ghost use Rattle.std.specs.Prelude.{◌≡◌, ◌++◌, IfOk, OnOk, map};
ghost use Rattle.olap_ast.specs.Frozen.{thawed};
ghost use Rattle.olap_instance.specs.Printing.{text_of_instance};
ghost use Rattle.olap_cube_summ.specs.CubeCexText.{dimension_text, dimensions_text};
ghost use Rattle.olap_cube_summ.specs.Telling.{number_line};
ghost use Rattle.olap_cube_summ.specs.Drawn.{AreFound, IsFoundOf};
ghost use Rattle.olap_cube_summ.specs.Dimensions.{schemas_of};
ghost use Rattle.olap_cube_summ.specs.Found.{chosen_of};
ghost use Rattle.olap_schema.specs.Schemas.{schema_of};

use crate::cubes::Cube;
use olap_base::{Memory, Text};
use olap_cex::{print_frozen, thaw};
use olap_frozen::Found;
use olap_instance::print_instance;
use olap_schema::Schema;
use std::alloc::Global;

/// Appends the line of a dimension's number.
fn push_number(alloc: Global, out: &mut Vec<u8>, number: usize) -> Result<(), Memory>
    ensures { OnOk result (out.new.items ≡ out.old.items ++ number_line number) }
{
    let digits = format!(in alloc; "{number}")?;
    out.extend_from_slice(b"dimension ")?;
    out.extend_from_slice(digits.as_bytes())?;
    out.push(b'\n')?;
    Ok(())
}

/// The instance of a frozen dimension.
fn instance_lines(alloc: Global, schema: &Schema, found: &Found) -> Result<Text, Memory>
    requires { IsFoundOf (schema_of schema.now) found.now }
    ensures { let s = schema_of schema.now in
        let p = chosen_of found.now in
        IfOk result (λ text. text ≡ text_of_instance s.graph (thawed s p.candidates p.bottom p.frozen)) }
{
    // Called for its clauses: the constants are text.
    let _constraints = schema.constraints();
    let graph = schema.graph();
    let instance = thaw(alloc, graph, found)?;
    let text = print_instance(alloc, graph, &instance)?;
    Ok(text)
}

/// Appends the line of a dimension's number, the line of its frozen dimension, and its instance.
fn push_dimension(
    alloc: Global,
    out: &mut Vec<u8>,
    number: usize,
    schema: &Schema,
    found: &Found,
) -> Result<(), Memory>
    requires { IsFoundOf (schema_of schema.now) found.now }
    ensures { OnOk result (out.new.items
        ≡ out.old.items ++ dimension_text number (schema_of schema.now) (chosen_of found.now)) }
{
    push_number(alloc, out, number)?;
    let line = print_frozen(alloc, schema.graph(), &found.frozen, &found.candidates)?;
    let lines = instance_lines(alloc, schema, found)?;
    out.extend_from_slice(line.bytes())?;
    out.extend_from_slice(lines.bytes())?;
    Ok(())
}

/// Appends what is printed about each dimension, numbered from 1.
pub(crate) fn push_dimensions(
    alloc: Global,
    out: &mut Vec<u8>,
    cube: &Cube,
    founds: &[Found],
) -> Result<(), Memory>
    requires { AreFound (schemas_of cube.now) founds.now }
    ensures { OnOk result (out.new.items
        ≡ out.old.items ++ dimensions_text 1 (schemas_of cube.now) (map chosen_of founds.now)) }
{
    'dimensions: for i in 0..cube.len() {
        push_dimension(alloc, out, i + 1, cube.schema(i), &founds[i])?;
    }
    Ok(())
}
