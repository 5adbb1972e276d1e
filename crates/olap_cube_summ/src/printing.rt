// The text of a cube's counterexample.
ghost use Rattle.std.specs.Prelude.{◌≡◌, ◌∷◌, ◌++◌, ℕ, List as Items, [], All, IfOk, OnOk, Some, codes, if◌then◌else◌, map, pos};
ghost use Rattle.std.specs.List.{cons_option};
ghost use Rattle.std.specs.Option.{option_map};
ghost use Rattle.olap_base.specs.Views.{only_sum, row_at};
ghost use Rattle.olap_base.specs.OneFact.{ones};
ghost use Rattle.olap_cex.specs.CexText.{sum_line};
ghost use Rattle.olap_cube.specs.CubeSummarizable.{bottoms_of, graphs_of};
ghost use Rattle.olap_cube.specs.Told.{tuple_of, tuples_in};
ghost use Rattle.olap_cube_summ.specs.CubeCexText.{cube_counterexample_text, dimensions_text, tuple_text};
ghost use Rattle.olap_cube_summ.specs.Telling.{cube_sums_text};
ghost use Rattle.olap_cube_summ.specs.Drawn.{AreFound};
ghost use Rattle.olap_cube_summ.specs.Dimensions.{AreCategoriesOf, schemas_of};
ghost use Rattle.olap_cube_summ.specs.Found.{IsCubeCounterexampleFound, chosen_of};

use crate::cubes::Cube;
use crate::found::CubeFound;
use crate::reaching::{count_ways, drawn_of_each};
use crate::telling::push_dimensions;
use olap_base::{CatId, Memory, Text};
use olap_cex::push_sum;
use olap_cube::Tuple;
use olap_frozen::Found;
use std::alloc::Global;

/// Appends a name, after a comma where it isn't the first.
fn push_name(out: &mut Vec<u8>, is_first: bool, name: &[u8]) -> Result<(), Memory>
    ensures { OnOk result (out.new.items ≡ out.old.items ++ (if is_first then name.now else 44 ∷ name.now)) }
{
    if is_first {
        out.extend_from_slice(name)?;
        return Ok(());
    }
    out.push(b',')?;
    out.extend_from_slice(name)?;
    Ok(())
}

/// The categories' names, with commas between them.
fn names(alloc: Global, cube: &Cube, categories: &[CatId]) -> Result<Vec<u8>, Memory>
    requires { AreCategoriesOf (schemas_of cube.now) (map (λ c. c.0) categories.now) }
    ensures { IfOk result (λ names. names.items
        ≡ tuple_text (graphs_of (schemas_of cube.now)) (map (λ c. c.0) categories.now)) }
{
    let mut names = Vec::new(alloc);
    'dimensions: for i in 0..cube.len() {
        let graph = cube.schema(i).graph();
        push_name(&mut names, i == 0, graph.name(categories[i]).bytes())?;
    }
    Ok(names)
}

/// The categories of the roots.
fn roots(alloc: Global, founds: &[Found]) -> Result<Vec<CatId>, Memory>
    ensures { IfOk result (λ roots. roots.items ≡ map (λ f. f.frozen.root) founds.now) }
{
    let roots = founds.iter().map(|f| f.frozen.root).collect(alloc)?;
    Ok(roots)
}

/// Their names.
fn root_names(alloc: Global, cube: &Cube, founds: &[Found]) -> Result<Vec<u8>, Memory>
    requires { AreFound (schemas_of cube.now) founds.now }
    ensures { IfOk result (λ names. names.items
        ≡ tuple_text (graphs_of (schemas_of cube.now)) (bottoms_of (map chosen_of founds.now))) }
{
    let roots = roots(alloc, founds)?;
    let names = names(alloc, cube, &roots)?;
    Ok(names)
}

/// The SUM of this many ones, if there are any.
fn sum_of(ways: u64) -> Option<u64>
    ensures { (row : Items ℕ) → option_map pos result ≡ only_sum (cons_option (row_at row (ones ways)) []) }
{
    if ways == 0 {
        return None;
    }
    Some(ways)
}

/// Appends the lines of the fact and of its two sums at the target.
fn push_sums(
    alloc: Global,
    out: &mut Vec<u8>,
    roots: &[u8],
    target: &[u8],
    views: Option<u64>,
) -> Result<(), Memory>
    ensures { OnOk result (out.new.items ≡ out.old.items
        ++ (sum_line (codes "fact") roots.now (Some (pos 1)) ++ (sum_line (codes "direct") target.now (Some (pos 1))
        ++ sum_line (codes "views") target.now (option_map pos views)))) }
{
    push_sum(alloc, out, b"fact", roots, Some(1))?;
    push_sum(alloc, out, b"direct", target, Some(1))?;
    push_sum(alloc, out, b"views", target, views)?;
    Ok(())
}

/// The lines of a choice, with that SUM from the sources.
fn lines(
    alloc: Global,
    cube: &Cube,
    founds: &[Found],
    target: &[CatId],
    views: Option<u64>,
) -> Result<Vec<u8>, Memory>
    requires found { AreFound (schemas_of cube.now) founds.now }
    requires target { AreCategoriesOf (schemas_of cube.now) (map (λ c. c.0) target.now) }
    ensures { let schemas = schemas_of cube.now in
        let choice = map chosen_of founds.now in
        IfOk result (λ out. out.items ≡ dimensions_text 1 schemas choice
        ++ cube_sums_text (graphs_of schemas) (bottoms_of choice) (map (λ c. c.0) target.now) (Some (pos 1))
        (option_map pos views)) }
{
    let fact = root_names(alloc, cube, founds)?;
    let goal = names(alloc, cube, target)?;
    let mut out = Vec::new(alloc);
    push_dimensions(alloc, &mut out, cube, founds)?;
    push_sums(alloc, &mut out, &fact, &goal, views)?;
    Ok(out)
}

/// The lines of a cube's counterexample: of each dimension its number, its frozen dimension and its instance; the fact
/// of value 1 at the roots; and its two sums at the target, directly and from the sources.
///
/// Cost: for each dimension categories times edges, and categories times categories times categories. `Memory`: out of
/// memory.
pub fn print_cube(
    alloc: Global,
    cube: &Cube,
    found: &CubeFound,
    target: &Tuple,
    sources: &[Tuple],
) -> Result<Text, Memory>
    requires target { AreCategoriesOf (schemas_of cube.now) (tuple_of target.now) }
    requires sources { All (AreCategoriesOf (schemas_of cube.now)) (tuples_in sources.now) }
    requires found { IsCubeCounterexampleFound (schemas_of cube.now) (tuple_of target.now) (tuples_in sources.now)
        found.now.founds }
    ensures text { IfOk result (λ text. text ≡ cube_counterexample_text (schemas_of cube.now)
        (map chosen_of found.now.founds) (tuple_of target.now) (tuples_in sources.now)) }
{
    let founds = found.founds.items();
    let rooms = drawn_of_each(alloc, cube, founds)?;
    let ways = count_ways(cube, founds, &rooms, target, sources);
    let views = sum_of(ways);
    let to = target.categories.items();
    let out = lines(alloc, cube, founds, to, views)?;
    Ok(Text::from_vec(out))
}
