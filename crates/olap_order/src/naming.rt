// The steps of an order that judge words.
ghost use Rattle.std.specs.Prelude.{◌≡◌, ◌≢◌, ◌+◌, ◌<◌, ◌^◌, [], All, AllPairs, IfOk, IsTrue, false, length};
ghost use Rattle.std.specs.List.{list_any};
ghost use Rattle.std.specs.Prelude.{◌==◌, ◌↔◌};
ghost use Rattle.olap_ast.specs.Atoms.{equalities};
ghost use Rattle.olap_ast.specs.Trees.{formula_of, numbers_of};
ghost use Rattle.olap_ast.specs.Valid.{IsQuestion};
ghost use Rattle.olap_base.specs.Graph.{IsCategory, IsDeclared};
ghost use Rattle.olap_schema.specs.Readable.{AreTexts};
ghost use Rattle.olap_schema.specs.Schemas.{schema_of};
ghost use Rattle.olap_order.specs.Behind.{another_category, categories_from};
ghost use Rattle.olap_order.specs.Steps.{category_word, formula_word, root_word};
ghost use Rattle.olap_order.specs.Taken.{PlainStep};
ghost use Rattle.olap_order.specs.Words.{texts};

use crate::replies::{Stop, refuse_at};
use olap_ast::Formula;
use olap_base::{CatId, Refusal};
use olap_schema::Schema;
use olap_schema_text::read_formula;
use std::alloc::Global;

/// The category that the word of this number names.
pub fn category_at(alloc: Global, at: u64, schema: &Schema, name: &str) -> Result<CatId, Stop>
    ensures step { PlainStep
        (category_word (schema_of schema.now).graph at name.now) (λ c. c.0) result }
    ensures category { IfOk result (λ c. IsCategory (schema_of schema.now).graph c.0) }
{
    match schema.graph().category(name.as_bytes()) {
        Some(category) => Ok(category),
        None => Err(refuse_at(alloc, "word", at, "UnknownCategory")),
    }
}

/// The root that the word of this number names: a category that isn't `All`.
pub fn root_at(alloc: Global, at: u64, schema: &Schema, name: &str) -> Result<CatId, Stop>
    ensures step { PlainStep
        (root_word (schema_of schema.now).graph at name.now) (λ c. c.0) result }
    ensures declared { IfOk result (λ c. IsDeclared (schema_of schema.now).graph c.0) }
{
    match schema.graph().category(name.as_bytes()) {
        Some(category) if category.0 == 0 => Err(refuse_at(alloc, "word", at, "RootIsAll")),
        Some(category) => Ok(category),
        None => Err(refuse_at(alloc, "word", at, "UnknownCategory")),
    }
}

/// The formula that the word of this number is, at a root.
pub fn formula_at(
    alloc: Global,
    at: u64,
    schema: &Schema,
    root: CatId,
    text: &str,
) -> Result<Formula, Stop>
    requires root { IsDeclared (schema_of schema.now).graph root.0 }
    ensures step { PlainStep
        (formula_word (schema_of schema.now) root.0 at text.now) formula_of result }
    ensures question { IfOk result (λ f. IsQuestion (schema_of schema.now) root.0 (formula_of f)) }
    ensures texts { IfOk result (λ f. AreTexts (equalities (formula_of f))) }
{
    match read_formula(alloc, schema, root, text.as_bytes()) {
        Ok(formula) => Ok(formula),
        Err(Refusal::Kind(kind)) => Err(refuse_at(alloc, "word", at, kind.name())),
        Err(Refusal::Memory(memory)) => Err(Stop::Memory(memory)),
    }
}

/// Whether the category is among these.
fn is_among(categories: &[CatId], category: CatId) -> bool
    ensures { result ≡ list_any (λ d. d == category.0) (numbers_of categories.now) }
{
    categories.contains(&category)
}

/// The category that the word of this number names, after these. If it is one of these, the fault has the name `twice`.
fn another_at(
    alloc: Global,
    at: u64,
    twice: &str,
    schema: &Schema,
    earlier: &[CatId],
    name: &str,
) -> Result<CatId, Stop>
    ensures step { PlainStep
        (another_category twice.now (schema_of schema.now).graph at (numbers_of earlier.now) name.now)
        (λ c. c.0) result }
    ensures category { IfOk result (λ c. IsCategory (schema_of schema.now).graph c.0) }
    ensures new { IfOk result (λ c.
        list_any (λ d. d == c.0) (numbers_of earlier.now) ≡ false) }
{
    match schema.graph().category(name.as_bytes()) {
        Some(category) if is_among(earlier, category) => Err(refuse_at(alloc, "word", at, twice)),
        Some(category) => Ok(category),
        None => Err(refuse_at(alloc, "word", at, "UnknownCategory")),
    }
}

/// The different categories that the words from this number on name, left to right. If one stands twice, the fault has
/// the name `twice`.
pub fn categories_at(
    alloc: Global,
    at: u64,
    twice: &str,
    schema: &Schema,
    names: &[String],
) -> Result<Vec<CatId>, Stop>
    requires few { at + length names.now < 2 ^ 64 }
    ensures step { PlainStep
        (categories_from twice.now (schema_of schema.now).graph at [] (texts names.now))
        (λ categories. numbers_of categories.items) result }
    ensures categories { IfOk result (λ categories.
        All (IsCategory (schema_of schema.now).graph) (numbers_of categories.items)) }
    ensures differ { IfOk result (λ categories. AllPairs ◌≢◌ (numbers_of categories.items)) }
{
    let mut categories = Vec::new(alloc);
    'words: for k in 0..names.len() {
        let name = names[k].as_str();
        let category = another_at(alloc, at + k as u64, twice, schema, &categories, name)?;
        categories.push(category)?;
    }
    Ok(categories)
}
