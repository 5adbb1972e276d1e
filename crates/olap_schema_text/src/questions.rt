// Reading a question's formula.
ghost use Rattle.olap_ast.specs.Atoms.{all_comparisons, all_equalities, comparisons, equalities};
ghost use Rattle.olap_ast.specs.Pairs.{pair_count, with_number, with_pair};
ghost use Rattle.olap_ast.specs.Trees.{constraint_of, formula_of};
ghost use Rattle.olap_ast.specs.Valid.{IsQuestion};
ghost use Rattle.olap_base.specs.Graph.{IsDeclared};
ghost use Rattle.olap_base.specs.Limits.{most_constants, most_nodes};
ghost use Rattle.olap_grammar.specs.Brackets.{most_tokens};
ghost use Rattle.olap_grammar.specs.Cutter.{kept_of};
ghost use Rattle.olap_grammar.specs.CuttingMachine.{tokens_of};
ghost use Rattle.olap_grammar.specs.Keeping.{BeginsFound};
ghost use Rattle.olap_grammar.specs.declared.tokens.Token.{Token as Tokens};
ghost use Rattle.olap_grammar.specs.declared.tokens.Version.TheVariants as version;
ghost use Rattle.olap_schema_text.specs.Judging.{has_too_many_constants, question_read};
ghost use Rattle.olap_schema_text.specs.Parts.{question_cut};
ghost use Rattle.olap_schema.specs.Readable.{AreTexts};
ghost use Rattle.olap_schema_text.specs.Reading.{Finds, ReadsFormula, number_pair_of, pair_of};
ghost use Rattle.olap_base.specs.Following.{goes_on};
ghost use Rattle.olap_schema_text.specs.Resolving.{resolved};
ghost use Rattle.olap_grammar.specs.Shown.{form_of};
ghost use Rattle.olap_schema.specs.Schemas.{schema_of};
ghost use Rattle.std.specs.Prelude.{◌≡◌, ◌≤◌, [], List, Option, IfOk, Err, Ok, OnOk, Some, None, codes, flat_map, fold, if◌then◌else◌, map, nat_lt};

use crate::SchemaKind;
use crate::forming::checked_form;
use crate::knowing::Known;
use crate::lines::is_bad;
use crate::measuring::{MOST_TOKENS, long_form_fault};
use crate::pairing::{NumberPair, Pair, add_few_pairs, add_pairs};
use crate::resolving::resolve;
use olap_ast::{Constraint, Formula};
use olap_base::{CatId, Memory, Refusal};
use olap_grammar::{FirstTokens, Form, NoTokens, Token, Version, first_tokens};
use olap_schema::Schema;
use std::alloc::Global;

/// The pairs of all constraints.
fn add_of_constraints(
    alloc: Global,
    pairs: &mut Vec<Pair>,
    numbers: &mut Vec<NumberPair>,
    constraints: &[Constraint],
) -> Result<(), Memory>
    ensures texts { let atoms = flat_map (λ c. equalities c.formula) (map constraint_of constraints.now) in
        OnOk result (map pair_of pairs.new.items ≡ fold with_pair (map pair_of pairs.old.items) atoms) }
    ensures numbers { let atoms = flat_map (λ c. comparisons c.formula) (map constraint_of constraints.now) in
        OnOk result (map number_pair_of numbers.new.items
        ≡ fold with_number (map number_pair_of numbers.old.items) atoms) }
{
    let mut left = constraints;
    'constraints: while let Some((constraint, others)) = left.split_first() {
        add_pairs(alloc, pairs, numbers, &constraint.formula)?;
        left = others;
    }
    Ok(())
}

/// Adds all pairs of a schema and a formula, if they are not too many.
fn add_all_pairs(
    alloc: Global,
    pairs: &mut Vec<Pair>,
    numbers: &mut Vec<NumberPair>,
    schema: &Schema,
    f: &Formula,
) -> Result<(), Refusal<SchemaKind>>
    requires pairs { pairs.old.items ≡ [] }
    requires numbers { numbers.old.items ≡ [] }
    ensures { let s = schema_of schema.now in
        let count = pair_count (all_equalities s (formula_of f.now)) (all_comparisons s (formula_of f.now)) in
        Finds result (if nat_lt most_constants count then Some (codes "TooManyConstants") else None) }
{
    add_of_constraints(alloc, pairs, numbers, schema.constraints())?;
    add_few_pairs(alloc, pairs, numbers, f)
}

/// Whether there are too many pairs of a category and a constant in the schema and the formula.
fn check_pairs(alloc: Global, schema: &Schema, f: &Formula) -> Result<(), Refusal<SchemaKind>>
    ensures { let s = schema_of schema.now in
        Finds result (if has_too_many_constants s.constraints (formula_of f.now)
        then Some (codes "TooManyConstants") else None) }
{
    let mut pairs = Vec::new(alloc);
    let mut numbers = Vec::new(alloc);
    add_all_pairs(alloc, &mut pairs, &mut numbers, schema, f)
}

/// The formula at the root, where the tokens are this formula over words.
fn at_root(
    alloc: Global,
    schema: &Schema,
    root: CatId,
    form: &Form,
) -> Result<Formula, Refusal<SchemaKind>>
    requires { IsDeclared (schema_of schema.now).graph root.0 }
    ensures { let s = schema_of schema.now in ReadsFormula result
        (goes_on (resolved s.graph root.0 (form_of form.now)) (λ f.
        if has_too_many_constants s.constraints f then Err (codes "TooManyConstants") else Ok f)) }
{
    let f = resolve(alloc, &Known::Whole(schema.graph()), root, form)?;
    match check_pairs(alloc, schema, &f) {
        Ok(()) => Ok(f),
        Err(e) => Err(e),
    }
}

/// The formula of the tokens.
fn read_tokens(
    alloc: Global,
    schema: &Schema,
    root: CatId,
    tokens: &[Token],
) -> Result<Formula, Refusal<SchemaKind>>
    requires { IsDeclared (schema_of schema.now).graph root.0 }
    ensures { ReadsFormula result (question_cut (schema_of schema.now) root.0 (Some tokens.now)) }
{
    let name = schema.graph().name(root);
    let form = checked_form(alloc, Version::Two, 0, name.bytes(), tokens)?;
    at_root(alloc, schema, root, &form)
}

/// The formula of the first tokens of a text.
fn read_found(
    alloc: Global,
    schema: &Schema,
    root: CatId,
    found: &FirstTokens,
) -> Result<Formula, Refusal<SchemaKind>>
    requires declared { IsDeclared (schema_of schema.now).graph root.0 }
    requires room { most_tokens most_nodes ≤ found.now.most }
    ensures { (ts : Option (List Tokens)) → BeginsFound version.Two (kept_of found.now) ts
        → ReadsFormula result (question_cut (schema_of schema.now) root.0 ts) }
{
    if found.more {
        return Err(Refusal::Kind(long_form_fault(0, 0, &found.tally)));
    }
    read_tokens(alloc, schema, root, &found.first)
}

/// The formula of a text without a bad byte.
fn read_question(
    alloc: Global,
    schema: &Schema,
    root: CatId,
    text: &[u8],
) -> Result<Formula, Refusal<SchemaKind>>
    requires { IsDeclared (schema_of schema.now).graph root.0 }
    ensures { ReadsFormula result (question_cut (schema_of schema.now) root.0 (tokens_of version.Two text.now)) }
{
    match first_tokens(alloc, Version::Two, text, MOST_TOKENS) {
        Ok(found) => read_found(alloc, schema, root, &found),
        Err(Refusal::Kind(NoTokens)) => Err(Refusal::Kind(SchemaKind::BadForm)),
        Err(Refusal::Memory(m)) => Err(Refusal::Memory(m)),
    }
}

/// The formula that the text is, at a root of the schema's graph. It is read by the second version, whatever the
/// schema's was.
///
/// A fault is the first check that fails. The text is one line: a LF or a CR is a `BadByte`. The limits on nodes and
/// depth are those of one formula; the one on constants counts the schema's too. `Memory` if there is no room.
/// What is given may be handed on: it is a formula of the schema at that root.
#[tactic(auto, unfolding(crate::specs::Judging::question_read))]
pub fn read_formula(
    alloc: Global,
    schema: &Schema,
    root: CatId,
    text: &[u8],
) -> Result<Formula, Refusal<SchemaKind>>
    requires { IsDeclared (schema_of schema.now).graph root.0 }
    ensures read { ReadsFormula result (question_read (schema_of schema.now) root.0 text.now) }
    ensures question { IfOk result (λ f. IsQuestion (schema_of schema.now) root.0 (formula_of f)) }
    ensures texts { IfOk result (λ f. AreTexts (equalities (formula_of f))) }
{
    // Called for its clauses: the schema is valid, and its constants are text.
    let _constraints = schema.constraints();
    if is_bad(text) {
        return Err(Refusal::Kind(SchemaKind::BadByte));
    }
    read_question(alloc, schema, root, text)
}
