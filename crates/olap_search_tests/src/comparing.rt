// What the search answers is what the plain one answers.
ghost use Rattle.olap_base.specs.Graph.{IsDeclared};
ghost use Rattle.olap_ast.specs.Trees.{formula_of};
ghost use Rattle.olap_ast.specs.Valid.{IsQuestion};
ghost use Rattle.olap_schema.specs.Schemas.{schema_of};

use crate::drawing::{Draws, formula, schema};
use olap_ast::Formula;
use olap_base::{CatId, Memory};
use olap_dimsat::Search;
use olap_frozen::Frozen;
use olap_plain::Search as PlainSearch;
use olap_schema::Schema;
use olap_schema_text::{read_formula, read_schema};
use std::alloc::Global;
use std::test::Fail;

/// What two searches came to.
#[derive(Clone, Copy)]
enum Comparison {
    BothNone,
    BothAlike,
    Different,
}

/// Whether the edges and the names are the same.
fn are_alike(one: &Frozen, other: &Frozen) -> bool {
    one.edges.items() == other.edges.items() && one.names.items() == other.names.items()
}

/// The least frozen dimension, by the search's second answer, and whether the first was the same.
fn searched(
    alloc: Global,
    schema: &Schema,
    root: CatId,
    question: &Formula,
) -> Result<(Option<Frozen>, bool), Memory>
    requires root { IsDeclared (schema_of schema.now).graph root.0 }
    requires question { IsQuestion (schema_of schema.now) root.0 (formula_of question.now) }
{
    let mut search = Search::new(alloc, schema, root, question)?;
    let mut first = search.blank()?;
    let mut again = search.blank()?;
    let is_found = search.first(schema, question, &mut first);
    let is_found_again = search.first(schema, question, &mut again);
    let is_same = is_found == is_found_again && are_alike(&first, &again);
    Ok((if is_found_again { Some(again) } else { None }, is_same))
}

/// The least frozen dimension, by the plain search.
fn searched_plainly(
    alloc: Global,
    schema: &Schema,
    root: CatId,
    question: &Formula,
) -> Result<Option<Frozen>, Memory>
    requires root { IsDeclared (schema_of schema.now).graph root.0 }
    requires question { IsQuestion (schema_of schema.now) root.0 (formula_of question.now) }
{
    let graph = schema.graph();
    let constraints = schema.constraints();
    let mut search = PlainSearch::new(alloc, graph, constraints, root, question)?;
    let mut least = search.blank()?;
    if search.first(graph, constraints, question, &mut least) {
        Ok(Some(least))
    } else {
        Ok(None)
    }
}

impl Comparison {
    /// How what was found compares with what is wanted.
    fn of(found: Option<&Frozen>, wanted: Option<&Frozen>) -> Comparison {
        match (found, wanted) {
            (None, None) => Comparison::BothNone,
            (Some(f), Some(g)) if are_alike(f, g) => Comparison::BothAlike,
            _ => Comparison::Different,
        }
    }
}

/// The search's answer against that of the plain one.
fn compared(
    alloc: Global,
    schema: &Schema,
    root: CatId,
    question: &Formula,
) -> Result<Comparison, Memory>
    requires root { IsDeclared (schema_of schema.now).graph root.0 }
    requires question { IsQuestion (schema_of schema.now) root.0 (formula_of question.now) }
{
    let (found, is_same) = searched(alloc, schema, root, question)?;
    let wanted = searched_plainly(alloc, schema, root, question)?;
    if is_same {
        Ok(Comparison::of(found.as_ref(), wanted.as_ref()))
    } else {
        Ok(Comparison::Different)
    }
}

/// The next schema and question that are drawn, and how they compare. None where the text has a fault: a path without
/// its edges.
fn next(alloc: Global, draws: &mut Draws) -> Result<Option<Comparison>, Fail> {
    let count = draws.below(3).saturating_add(2);
    let text = schema(alloc, draws, count)?;
    let c = draws.category(count);
    let asked = formula(alloc, draws, c, count)?;
    let Ok(schema) = read_schema(alloc, text.as_bytes()) else {
        return Ok(None);
    };
    let name = format!(in alloc; "C{c}")?;
    let Some(root) = schema.graph().category(name.as_bytes()) else {
        return Ok(None);
    };
    if root.0 == 0 {
        return Ok(None);
    }
    let Ok(question) = read_formula(alloc, &schema, root, asked.as_bytes()) else {
        return Ok(None);
    };
    let comparison = compared(alloc, &schema, root, &question).map_err(|_| "memory")?;
    Ok(Some(comparison))
}

#[test]
fn as_the_plain_search(rt: HostRuntime) -> Result<(), Fail> {
    let alloc = rt.alloc();
    let mut draws = Draws::of(7);
    let mut none = 0_u32;
    let mut alike = 0_u32;
    for _ in 0..1000 {
        match next(alloc, &mut draws)? {
            Some(Comparison::BothNone) => none = none.saturating_add(1),
            Some(Comparison::BothAlike) => alike = alike.saturating_add(1),
            Some(Comparison::Different) => return Err("another answer".into()),
            None => {}
        }
    }
    assert!(rt;
        none >= 100 && alike >= 200,
        "{none} without one, {alike} alike"
    );
    Ok(())
}
