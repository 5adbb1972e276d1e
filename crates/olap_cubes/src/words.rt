// Which words are a command over several dimensions.
ghost use Rattle.std.specs.Prelude.{◌≡◌, IfSome, length, option_map};
ghost use Rattle.olap_order.specs.Behind.{by_two};
ghost use Rattle.olap_order.specs.Words.{texts};
ghost use Rattle.olap_cubes.specs.Cut.{by_target, cube_by, cube_of, cubeview_by, cubeview_of, cut_named};
ghost use Rattle.olap_cubes.specs.Seen.{AreDimensions, HasFiles, seen};

use crate::counting::count_and_rest;
use olap_base::MOST_VIEWS;

/// A command with its words.
#[derive(Clone, Copy)]
pub(crate) enum Command<'a> {
    /// The direct view of a target.
    CubeView {
        schemas: &'a [String],
        instances: &'a [String],
        facts: &'a str,
        target: &'a str,
    },
    /// Whether a target is summarizable from sources.
    Cube {
        schemas: &'a [String],
        target: &'a str,
        sources: &'a [String],
    },
}

/// The words after the files of each dimension of `cubeview`.
fn after_files<'a>(
    schemas: &'a [String],
    instances: &'a [String],
    words: &'a [String],
) -> Option<Command<'a>>
    requires few { AreDimensions (length schemas.now) }
    requires each { length instances.now ≡ length schemas.now }
    ensures order { option_map seen result
        ≡ by_two (cubeview_of (texts schemas.now) (texts instances.now)) (texts words.now) }
    ensures files { IfSome result HasFiles }
{
    match words {
        [facts, target] => Some(Command::CubeView {
            schemas,
            instances,
            facts: facts.as_str(),
            target: target.as_str(),
        }),
        _ => None,
    }
}

/// The words after `cubeview` and the number of dimensions.
fn cubeview(dimensions: usize, words: &[String]) -> Option<Command<'_>>
    requires few { AreDimensions dimensions }
    ensures order { option_map seen result ≡ cubeview_by dimensions (texts words.now) }
    ensures files { IfSome result HasFiles }
{
    let (schemas, words) = words.split_at_checked(dimensions)?;
    let (instances, words) = words.split_at_checked(dimensions)?;
    after_files(schemas, instances, words)
}

/// The words after the schemas of `cube`.
fn after_schemas<'a>(schemas: &'a [String], words: &'a [String]) -> Option<Command<'a>>
    requires few { AreDimensions (length schemas.now) }
    ensures order { option_map seen result
        ≡ by_target (cube_of (texts schemas.now)) (texts words.now) }
    ensures files { IfSome result HasFiles }
{
    match words {
        [target, sources @ ..] if sources.len() <= MOST_VIEWS => Some(Command::Cube {
            schemas,
            target: target.as_str(),
            sources,
        }),
        _ => None,
    }
}

/// The words after `cube` and the number of dimensions.
fn cube(dimensions: usize, words: &[String]) -> Option<Command<'_>>
    requires few { AreDimensions dimensions }
    ensures order { option_map seen result ≡ cube_by dimensions (texts words.now) }
    ensures files { IfSome result HasFiles }
{
    let (schemas, words) = words.split_at_checked(dimensions)?;
    after_schemas(schemas, words)
}

/// The command of that name with these words after it, if it is one of this family.
pub(crate) fn parse<'a>(name: &str, words: &'a [String]) -> Option<Command<'a>>
    ensures order { option_map seen result ≡ cut_named name.now (texts words.now) }
    ensures files { IfSome result HasFiles }
{
    match name {
        "cube" => {
            let (dimensions, words) = count_and_rest(words)?;
            cube(dimensions, words)
        }
        "cubeview" => {
            let (dimensions, words) = count_and_rest(words)?;
            cubeview(dimensions, words)
        }
        _ => None,
    }
}
