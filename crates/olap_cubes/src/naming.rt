// The steps that judge words which name a category of each dimension.
ghost use Rattle.std.specs.Prelude.{◌≡◌, ◌≢◌, ◌+◌, ◌<◌, ◌^◌, All, AllPairs, IfOk, IfSome, [], false, length, nat_eq, option_map};
ghost use Rattle.std.specs.Cmp.Lexicographic.{pointwise};
ghost use Rattle.std.specs.List.{list_any};
ghost use Rattle.olap_cube.specs.Told.{tuple_of, tuples_in};
ghost use Rattle.olap_cube_summ.specs.Dimensions.{AreCategoriesOf, schemas_of};
ghost use Rattle.olap_order.specs.Taken.{PlainStep};
ghost use Rattle.olap_ast.specs.Trees.{numbers_of};
ghost use Rattle.olap_order.specs.Words.{texts};
ghost use Rattle.olap_cubes.specs.Cut.{another_tuple, categories_named, different_tuples_from};
ghost use Rattle.olap_cubes.specs.Steps.{tuple_word};

use olap_base::{CatId, List, Memory, Text};
use olap_cube::Tuple;
use olap_cube_summ::Cube;
use olap_grammar::pieces;
use olap_order::{Stop, refuse_at};
use std::alloc::Global;

/// The categories of these names, one of each dimension; none where a name isn't known.
fn named(alloc: Global, cube: &Cube, names: &[Text]) -> Result<Option<Vec<CatId>>, Memory>
    requires one_each { length names.now ≡ length (schemas_of cube.now) }
    ensures named { IfOk result (λ found.
        option_map (λ cs. numbers_of cs.items) found
        ≡ categories_named (schemas_of cube.now) names.now) }
    ensures categories { IfOk result (λ found.
        IfSome found (λ cs. AreCategoriesOf (schemas_of cube.now) (numbers_of cs.items))) }
{
    let mut categories = Vec::new(alloc);
    'names: for k in 0..names.len() {
        match cube.schema(k).graph().category(names[k].bytes()) {
            Some(category) => categories.push(category)?,
            None => return Ok(None),
        }
    }
    Ok(Some(categories))
}

/// The categories, one of each dimension, whose names the word of this number joins by commas.
pub(crate) fn tuple_at(alloc: Global, at: u64, cube: &Cube, word: &str) -> Result<Vec<CatId>, Stop>
    ensures step { PlainStep (tuple_word (schemas_of cube.now) at word.now)
        (λ cs. numbers_of cs.items) result }
    ensures categories { IfOk result
        (λ cs. AreCategoriesOf (schemas_of cube.now) (numbers_of cs.items)) }
{
    let names = pieces(alloc, b',', word.as_bytes())?;
    if names.len() != cube.len() {
        return Err(refuse_at(alloc, "word", at, "BadForm"));
    }
    match named(alloc, cube, &names)? {
        Some(categories) => Ok(categories),
        None => Err(refuse_at(alloc, "word", at, "UnknownCategory")),
    }
}

/// Whether the tuple has these categories.
fn is_same(tuple: &Tuple, categories: &[CatId]) -> bool
    ensures { result ≡ pointwise nat_eq (tuple_of tuple.now) (numbers_of categories.now) }
{
    tuple.categories.items() == categories
}

/// Whether these categories are one of the tuples.
fn is_among(tuples: &[Tuple], categories: &[CatId]) -> bool
    ensures { result
        ≡ list_any (λ d. pointwise nat_eq d (numbers_of categories.now)) (tuples_in tuples.now) }
{
    for tuple in tuples {
        if is_same(tuple, categories) {
            return true;
        }
    }
    false
}

/// The tuple that the word of this number names, if it is none of these.
fn another_at(
    alloc: Global,
    at: u64,
    cube: &Cube,
    earlier: &[Tuple],
    word: &str,
) -> Result<Tuple, Stop>
    ensures step { PlainStep
        (another_tuple (schemas_of cube.now) at (tuples_in earlier.now) word.now) tuple_of result }
    ensures categories { IfOk result (λ t. AreCategoriesOf (schemas_of cube.now) (tuple_of t)) }
    ensures new { IfOk result
        (λ t. list_any (λ d. pointwise nat_eq d (tuple_of t)) (tuples_in earlier.now) ≡ false) }
{
    let categories = tuple_at(alloc, at, cube, word)?;
    if is_among(earlier, &categories) {
        return Err(refuse_at(alloc, "word", at, "DuplicateSource"));
    }
    Ok(Tuple {
        categories: List::from_vec(categories),
    })
}

/// The different tuples that the words from this number on name, left to right.
pub(crate) fn tuples_at(
    alloc: Global,
    at: u64,
    cube: &Cube,
    words: &[String],
) -> Result<Vec<Tuple>, Stop>
    requires few { at + length words.now < 2 ^ 64 }
    ensures step { PlainStep (different_tuples_from (schemas_of cube.now) at [] (texts words.now))
        (λ tuples. tuples_in tuples.items) result }
    ensures each { IfOk result (λ tuples. length (tuples_in tuples.items) ≡ length words.now) }
    ensures categories { IfOk result
        (λ tuples. All (AreCategoriesOf (schemas_of cube.now)) (tuples_in tuples.items)) }
    ensures differ { IfOk result (λ tuples. AllPairs ◌≢◌ (tuples_in tuples.items)) }
{
    let mut tuples = Vec::new(alloc);
    'words: for k in 0..words.len() {
        let tuple = another_at(alloc, at + k as u64, cube, &tuples, words[k].as_str())?;
        tuples.push(tuple)?;
    }
    Ok(tuples)
}
