// A frozen dimension with its names, for who asks once.
ghost use Rattle.std.specs.Prelude.{◌≡◌, ◌≤◌, IfOk, IfSome, IsNone, IsTrue, None, Ok, Some, false};
ghost use Rattle.olap_ast.specs.Atoms.{all_comparisons, all_equalities};
ghost use Rattle.olap_ast.specs.Pairs.{pair_count};
ghost use Rattle.olap_ast.specs.Questions.{NoneFrozen};
ghost use Rattle.olap_ast.specs.Trees.{formula_of};
ghost use Rattle.olap_ast.specs.Valid.{IsFormulaAt};
ghost use Rattle.olap_base.specs.Graph.{IsCategory};
ghost use Rattle.olap_base.specs.Limits.{most_constants};
ghost use Rattle.olap_dimsat.specs.Finding.{HasNone, IsFoundAs};
ghost use Rattle.olap_dimsat.specs.Searches.{IsMadeWith, IsSizedFor, candidates_in, found_in, named_in, root_of};
ghost use Rattle.olap_schema.specs.Schemas.{schema_of};

use crate::Search;
use olap_ast::Formula;
use olap_base::{CatId, Memory};
use olap_frozen::{Found, Frozen};
use olap_names::Candidates;
use olap_schema::Schema;
use std::alloc::Global;

/// Which frozen dimension is wanted.
#[derive(Clone, Copy)]
pub enum Wanted {
    /// The least. It takes one search for each edge and name that may yet be less.
    Least,
    /// Any. It takes one search.
    Any,
}

// What was found, with the names that its indexes stand for.
fn named(
    frozen: Result<Option<Frozen>, Memory>,
    candidates: Candidates,
) -> Result<Option<Found>, Memory>
    ensures none { IfOk result (λ o. IsNone o → frozen ≡ Ok None) }
    ensures some { IfOk result (λ o. IfSome o (λ found. frozen ≡ Ok (Some found.frozen))) }
    ensures candidates { IfOk result (λ o. IfSome o (λ found. found.candidates ≡ candidates)) }
{
    match frozen? {
        Some(frozen) => Ok(Some(Found { frozen, candidates })),
        None => Ok(None),
    }
}

// Asks the search for what is wanted. False if there is none.
fn seek(
    search: &mut Search,
    schema: &Schema,
    question: &Formula,
    wanted: Wanted,
    into: &mut Frozen,
) -> bool
    requires made { IsMadeWith (schema_of schema.now) (formula_of question.now) search.old }
    requires sizes { IsSizedFor search.old into.old }
    ensures some { IsTrue result → IsFoundAs wanted (schema_of schema.now) (formula_of question.now)
        (root_of search.old) (found_in search.old into.new) }
    ensures none { result ≡ false → NoneFrozen (schema_of schema.now) (formula_of question.now)
        (root_of search.old) (candidates_in search.old) }
    ensures candidates { named_in search.new ≡ named_in search.old }
{
    match wanted {
        Wanted::Least => search.first(schema, question, into),
        Wanted::Any => search.any(schema, question, into),
    }
}

// The frozen dimension that the search finds, by the candidates that it keeps.
fn sought(
    search: &mut Search,
    schema: &Schema,
    question: &Formula,
    wanted: Wanted,
) -> Result<Option<Frozen>, Memory>
    requires { IsMadeWith (schema_of schema.now) (formula_of question.now) search.old }
    ensures none { IfOk result (λ o. IsNone o → NoneFrozen (schema_of schema.now) (formula_of question.now)
        (root_of search.old) (candidates_in search.old)) }
    ensures some { IfOk result (λ o. IfSome o (λ f. IsFoundAs wanted (schema_of schema.now)
        (formula_of question.now) (root_of search.old) (found_in search.old f))) }
    ensures candidates { named_in search.new ≡ named_in search.old }
{
    let mut frozen = search.blank()?;
    if !seek(search, schema, question, wanted, &mut frozen) {
        return Ok(None);
    }
    Ok(Some(frozen))
}

/// The frozen dimension that is wanted of those with this root that make the question true, with its names. None
/// exactly if there is none.
///
/// It makes a search for it, which is gone when it returns.
pub fn find(
    alloc: Global,
    schema: &Schema,
    root: CatId,
    question: &Formula,
    wanted: Wanted,
) -> Result<Option<Found>, Memory>
    requires root { IsCategory (schema_of schema.now).graph root.0 }
    requires question { IsFormulaAt (schema_of schema.now).graph root.0 (formula_of question.now) }
    requires few { pair_count (all_equalities (schema_of schema.now) (formula_of question.now))
        (all_comparisons (schema_of schema.now) (formula_of question.now)) ≤ most_constants }
    ensures none { IfOk result (λ o. IsNone o → HasNone (schema_of schema.now) (formula_of question.now) root.0) }
    ensures some { IfOk result (λ o. IfSome o
        (IsFoundAs wanted (schema_of schema.now) (formula_of question.now) root.0)) }
{
    let mut search = Search::new(alloc, schema, root, question)?;
    let frozen = sought(&mut search, schema, question, wanted);
    let candidates = search.into_candidates();
    named(frozen, candidates)
}
