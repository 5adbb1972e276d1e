// The steps that read a file of each dimension.
ghost use Rattle.std.specs.Prelude.{◌≡◌, ◌≤◌, [], IfOk, OnOk, codes, length};
ghost use Rattle.std.specs.String.{string_bytes};
ghost use Rattle.olap_cube.specs.CubeSummarizable.{graphs_of};
ghost use Rattle.olap_cube.specs.Limits.{most_dimensions};
ghost use Rattle.olap_cube_views.specs.Dimensions.{AreMadeFor, categories_in, instances_in};
ghost use Rattle.olap_cube_summ.specs.Dimensions.{schemas_of};
ghost use Rattle.olap_instance.specs.Made.{IsMadeFor};
ghost use Rattle.olap_schema.specs.Schemas.{schema_of};
ghost use Rattle.olap_view.specs.Seen.{ids};
ghost use Rattle.olap_order.specs.Steps.{schema_file};
ghost use Rattle.olap_order.specs.Taken.{FileStep};
ghost use Rattle.olap_order.specs.Words.{texts};
ghost use Rattle.olap_reading.specs.Steps.{legal_file};
ghost use Rattle.olap_cubes.specs.Cut.{legal_files_from, schema_files_from};
ghost use Rattle.olap_cubes.specs.Steps.{numbered};

use olap_base::CatId;
use olap_cube_summ::Cube;
use olap_cube_views::TargetColumns;
use olap_legal::Legal;
use olap_order::{Stop, schema_in};
use olap_outside::Library;
use olap_reading::legal_in;
use olap_schema::Schema;
use olap_view::OwnedColumn;
use std::alloc::{AllocError, Global};

/// The label of the file of a dimension.
fn label_of(alloc: Global, label: &str, dimension: usize) -> Result<String, AllocError>
    ensures { IfOk result (λ text. string_bytes text ≡ numbered label.now dimension) }
{
    format!(in alloc; "{label} {dimension}")
}

/// The schema of a dimension.
fn dimension_schema<L: Library>(
    alloc: Global,
    dimension: usize,
    file: &str,
    lib: &mut L,
) -> Result<Schema, Stop>
    ensures step { FileStep L.Library lib.old lib.new
        (schema_file (numbered (codes "schema") dimension) file.now) schema_of result }
{
    let label = label_of(alloc, "schema", dimension)?;
    schema_in(alloc, label.as_str(), file, lib)
}

/// The schemas in files, one of each dimension.
pub(crate) fn schemas_in<L: Library>(
    alloc: Global,
    files: &[String],
    lib: &mut L,
) -> Result<Cube, Stop>
    requires few { length files.now ≤ most_dimensions }
    ensures step { FileStep L.Library lib.old lib.new
        (schema_files_from 1 [] (texts files.now)) schemas_of result }
    ensures each { IfOk result (λ cube. length (schemas_of cube) ≡ length files.now) }
{
    let mut cube = Cube::new(alloc);
    'files: for k in 0..files.len() {
        let schema = dimension_schema(alloc, k + 1, files[k].as_str(), lib)?;
        match cube.push(schema) {
            Ok(()) => {}
            Err(refused) => return Err(Stop::from(refused)),
        }
    }
    Ok(cube)
}

/// The legal instance of a dimension.
fn dimension_legal<L: Library>(
    alloc: Global,
    dimension: usize,
    schema: &Schema,
    file: &str,
    lib: &mut L,
) -> Result<Legal, Stop>
    ensures step { FileStep L.Library lib.old lib.new
        (legal_file (schema_of schema.now) (numbered (codes "instance") dimension) file.now)
        (λ i. i) result }
    ensures made { IfOk result (λ i. IsMadeFor (schema_of schema.now).graph i) }
{
    let label = label_of(alloc, "instance", dimension)?;
    legal_in(alloc, schema, label.as_str(), file, lib)
}

/// The column of a category in the legal instance of a dimension. The instance's table of ancestors is given back.
fn dimension_column<L: Library>(
    alloc: Global,
    dimension: usize,
    schema: &Schema,
    category: CatId,
    file: &str,
    lib: &mut L,
) -> Result<OwnedColumn, Stop>
    ensures step { FileStep L.Library lib.old lib.new
        (legal_file (schema_of schema.now) (numbered (codes "instance") dimension) file.now)
        (λ a. a.instance) result }
    ensures made { IfOk result (λ a. IsMadeFor (schema_of schema.now).graph a.instance) }
    ensures category { IfOk result (λ a. a.category ≡ category.0) }
{
    let legal = dimension_legal(alloc, dimension, schema, file, lib)?;
    let column = OwnedColumn::new(alloc, legal, category)?;
    Ok(column)
}

/// Adds the columns of the target's categories in the legal instances in files, one of each dimension's schema, where
/// no column stands yet.
fn add_columns<L: Library>(
    alloc: Global,
    cube: &Cube,
    target: &[CatId],
    files: &[String],
    columns: &mut TargetColumns,
    lib: &mut L,
) -> Result<(), Stop>
    requires each { length files.now ≡ length (schemas_of cube.now) }
    requires target { length target.now ≡ length (schemas_of cube.now) }
    requires none { columns.old ≡ [] }
    ensures step { FileStep L.Library lib.old lib.new
        (legal_files_from 1 [] (schemas_of cube.now) (texts files.now)) (λ _. instances_in columns.new) result }
    ensures made { OnOk result (AreMadeFor (graphs_of (schemas_of cube.now)) (instances_in columns.new)) }
    ensures categories { OnOk result (categories_in columns.new ≡ ids target.now) }
{
    'files: for k in 0..cube.len() {
        let schema = cube.schema(k);
        let file = files[k].as_str();
        let column = dimension_column(alloc, k + 1, schema, target[k], file, lib)?;
        match columns.push(column) {
            Ok(()) => {}
            Err(refused) => return Err(Stop::from(refused)),
        }
    }
    Ok(())
}

/// The columns of the target's categories in the legal instances in files, one of each dimension's schema. Of no more
/// than one instance there is a table of ancestors at a time.
pub(crate) fn columns_in<L: Library>(
    alloc: Global,
    cube: &Cube,
    target: &[CatId],
    files: &[String],
    lib: &mut L,
) -> Result<TargetColumns, Stop>
    requires each { length files.now ≡ length (schemas_of cube.now) }
    requires target { length target.now ≡ length (schemas_of cube.now) }
    ensures step { FileStep L.Library lib.old lib.new
        (legal_files_from 1 [] (schemas_of cube.now) (texts files.now)) instances_in result }
    ensures made { IfOk result
        (λ columns. AreMadeFor (graphs_of (schemas_of cube.now)) (instances_in columns)) }
    ensures categories { IfOk result (λ columns. categories_in columns ≡ ids target.now) }
{
    let mut columns = TargetColumns::new(alloc);
    add_columns(alloc, cube, target, files, &mut columns, lib)?;
    Ok(columns)
}
