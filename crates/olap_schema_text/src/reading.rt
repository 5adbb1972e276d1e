// Reading a schema, line by line.
ghost use Rattle.olap_ast.specs.Trees.{formula_of};
ghost use Rattle.olap_base.specs.Reaching.{is_category_name};
ghost use Rattle.olap_base.specs.Graph.{IsCategory, IsCategoryName};
ghost use Rattle.olap_base.specs.Limits.{most_nodes, most_schema_nodes, most_text_bytes};
ghost use Rattle.olap_base.specs.Refusing.{IsCause};
ghost use Rattle.olap_graph.specs.Building.{category_refusal, edge_refusal, with_kind};
ghost use Rattle.olap_schema_text.specs.Judging.{Above, category_kind as category_kind_of, category_read, constraint_added, constraint_read, edge_added, edge_kind as edge_kind_of, edge_read, line_read, nothing_above, root_read};
ghost use Rattle.olap_schema_text.specs.Parts.{tokens_read, version_at};
ghost use Rattle.olap_schema_text.specs.Kinds.{IsRefusedAs, name_of_kind};
ghost use Rattle.olap_schema_text.specs.Reading.{IsCounted, Reads, above_of};
ghost use Rattle.olap_schema_text.specs.Resolving.{resolved};
ghost use Rattle.olap_base.specs.Following.{goes_on};
ghost use Rattle.olap_grammar.specs.Shown.{form_of};
ghost use Rattle.olap_ast.specs.Formula.{Formula as Meaning};
ghost use Rattle.olap_ast.specs.Schema.{Constraint as Entry};
ghost use Rattle.olap_grammar.specs.Brackets.{most_tokens};
ghost use Rattle.olap_grammar.specs.Cutting.{has_numbers as has_numbers_of};
ghost use Rattle.olap_grammar.specs.Cutter.{kept_of};
ghost use Rattle.olap_grammar.specs.declared.tokens.Token.{Token as Tokens};
ghost use Rattle.olap_grammar.specs.CuttingMachine.{tokens_of};
ghost use Rattle.olap_grammar.specs.Keeping.{BeginsFound};
ghost use Rattle.olap_grammar.specs.Nodes.{nodes_of};
ghost use Rattle.std.specs.Prelude.{◌≡◌, ◌≤◌, ◌+◌, ◌++◌, ◌∷◌, [], ℕ, List, Option, Result, Err, None, Ok, Some, IfErr, IfOk, IsTrue, MatchResult, OnOk, length, true};

use crate::SchemaKind;
use crate::forming::checked_form;
use crate::knowing::Known;
use crate::lines::{is_bad, is_quiet};
use crate::measuring::{MOST_TOKENS, long_form_fault, nodes};
use crate::pairing::{NumberPair, Pair, add_few_pairs};
use crate::resolving::resolve;
use crate::statements::{Statement, statement_in};
use olap_ast::{Constraint, Formula};
use olap_base::{CatId, MOST_CONSTRAINTS, MOST_TEXT_BYTES, Memory, Refusal, Text};
use olap_grammar::{FirstTokens, Form, NoTokens, Token, Version, first_tokens};
use olap_graph::{CategoryFault, EdgeFault, GraphBuilder};
use std::alloc::Global;

/// What the lines so far say, and the distinct constants of its constraints.
#[derive(Drop)]
pub(crate) struct Reading {
    pub(crate) version: Option<Version>,
    pub(crate) builder: GraphBuilder,
    pub(crate) category_lines: Vec<u64>,
    pub(crate) constraints: Vec<Constraint>,
    pub(crate) nodes: u32,
    pub(crate) pairs: Vec<Pair>,
    pub(crate) numbers: Vec<NumberPair>,
}

/// Before the first line.
pub(crate) fn begin(alloc: Global) -> Result<Reading, Memory>
    ensures above { IfOk result (λ reading. above_of reading ≡ nothing_above) }
    ensures counted { IfOk result IsCounted }
{
    Ok(Reading {
        version: None,
        builder: GraphBuilder::new(alloc)?,
        category_lines: Vec::new(alloc),
        constraints: Vec::new(alloc),
        nodes: 0,
        pairs: Vec::new(alloc),
        numbers: Vec::new(alloc),
    })
}

/// Whether the members of a category may be named by numbers.
fn has_numbers(version: Version) -> bool
    ensures { result ≡ has_numbers_of version }
{
    match version {
        Version::One => false,
        Version::Two => true,
    }
}

/// Adds a category, whose members' names are texts or numbers.
fn add_category(
    alloc: Global,
    builder: &mut GraphBuilder,
    name: &[u8],
    number: bool,
) -> Result<CatId, Refusal<CategoryFault>>
    requires name { IsCategoryName name.now }
    requires short { length name.now ≤ most_text_bytes }
    ensures ok { IfOk result (λ c. category_refusal builder.old name.now ≡ None) }
    ensures added { IfOk result (λ _. builder.new ≡ with_kind number builder.old name.now) }
    ensures err { IfErr result (IsCause (category_refusal builder.old name.now)) }
{
    let name = Text::from_bytes(alloc, name)?;
    if number {
        builder.add_number_category(name)
    } else {
        builder.add_category(name)
    }
}

/// The fault of a line whose category is refused.
fn category_kind(fault: CategoryFault) -> SchemaKind
    ensures { name_of_kind result ≡ category_kind_of fault }
{
    match fault {
        CategoryFault::DuplicateCategory => SchemaKind::DuplicateCategory,
        CategoryFault::TooManyCategories => SchemaKind::TooManyCategories,
    }
}

/// A category's line. The first version has no numbers.
fn read_category(
    alloc: Global,
    reading: &mut Reading,
    n: u64,
    version: Version,
    name: &[u8],
    number: bool,
) -> Result<(), Refusal<SchemaKind>>
    requires name { IsTrue (is_category_name name.now) }
    requires counted { IsCounted reading.old }
    ensures read { Reads result (above_of reading.new)
        (category_read (above_of reading.old) n version name.now number) }
    ensures counted { OnOk result (IsCounted reading.new) }
{
    if number && !has_numbers(version) {
        return Err(Refusal::Kind(SchemaKind::BadForm));
    }
    if name.len() > MOST_TEXT_BYTES {
        return Err(Refusal::Kind(SchemaKind::TextTooLong));
    }
    match add_category(alloc, &mut reading.builder, name, number) {
        Ok(_) => {
            reading.category_lines.push(n)?;
            Ok(())
        }
        Err(Refusal::Kind(fault)) => Err(Refusal::Kind(category_kind(fault))),
        Err(Refusal::Memory(m)) => Err(Refusal::Memory(m)),
    }
}

/// The fault of a line whose edge is refused.
fn edge_kind(fault: EdgeFault) -> SchemaKind
    ensures { name_of_kind result ≡ edge_kind_of fault }
{
    match fault {
        EdgeFault::SelfEdge => SchemaKind::SelfEdge,
        EdgeFault::EdgeFromAll => SchemaKind::EdgeFromAll,
        EdgeFault::DuplicateEdge => SchemaKind::DuplicateEdge,
        EdgeFault::TooManyEdges => SchemaKind::TooManyEdges,
    }
}

/// An edge between two categories.
fn add_edge(reading: &mut Reading, c: CatId, d: CatId) -> Result<(), Refusal<SchemaKind>>
    requires child { IsCategory (above_of reading.old).graph c.0 }
    requires parent { IsCategory (above_of reading.old).graph d.0 }
    requires counted { IsCounted reading.old }
    ensures read { Reads result (above_of reading.new)
        (edge_added (above_of reading.old) c.0 d.0 (edge_refusal (above_of reading.old).graph c.0 d.0)) }
    ensures counted { OnOk result (IsCounted reading.new) }
{
    match reading.builder.add_edge(c, d) {
        Ok(_) => Ok(()),
        Err(Refusal::Kind(fault)) => Err(Refusal::Kind(edge_kind(fault))),
        Err(Refusal::Memory(m)) => Err(Refusal::Memory(m)),
    }
}

/// An edge's line.
fn read_edge(reading: &mut Reading, child: &[u8], parent: &[u8]) -> Result<(), Refusal<SchemaKind>>
    requires counted { IsCounted reading.old }
    ensures read { Reads result (above_of reading.new) (edge_read (above_of reading.old) child.now parent.now) }
    ensures counted { OnOk result (IsCounted reading.new) }
{
    if child.len() > MOST_TEXT_BYTES || parent.len() > MOST_TEXT_BYTES {
        return Err(Refusal::Kind(SchemaKind::TextTooLong));
    }
    match reading.builder.category(child) {
        Some(c) => match reading.builder.category(parent) {
            Some(d) => add_edge(reading, c, d),
            None => Err(Refusal::Kind(SchemaKind::UnknownCategory)),
        },
        None => Err(Refusal::Kind(SchemaKind::UnknownCategory)),
    }
}

/// Puts a constraint of this many nodes after the others.
fn push_constraint(reading: &mut Reading, root: CatId, nodes: u32, f: Formula) -> Result<(), Memory>
    requires { (above_of reading.old).nodes + nodes ≤ most_schema_nodes }
    ensures above { let old = above_of reading.old in
        let added : Entry = record { root = root.0; formula = formula_of f } in
        OnOk result (above_of reading.new
        ≡ record old { constraints = old.constraints ++ added ∷ []; nodes = old.nodes + nodes }) }
    ensures pairs { OnOk result (reading.new.pairs.items ≡ reading.old.pairs.items) }
    ensures numbers { OnOk result (reading.new.numbers.items ≡ reading.old.numbers.items) }
{
    reading.constraints.push(Constraint { root, formula: f })?;
    reading.nodes += nodes;
    Ok(())
}

/// Adds a constraint whose formula has no fault but, it may be, too many constants.
fn add_constraint(
    alloc: Global,
    reading: &mut Reading,
    version: Version,
    root: CatId,
    tokens: &[Token],
    f: Formula,
) -> Result<(), Refusal<SchemaKind>>
    requires few { (above_of reading.old).nodes + nodes_of version tokens.now ≤ most_schema_nodes }
    requires counted { IsCounted reading.old }
    ensures read { Reads result (above_of reading.new)
        (constraint_added (above_of reading.old) version root.0 tokens.now (formula_of f)) }
    ensures counted { OnOk result (IsCounted reading.new) }
{
    add_few_pairs(alloc, &mut reading.pairs, &mut reading.numbers, &f)?;
    push_constraint(reading, root, nodes(version, tokens) as u32, f)?;
    Ok(())
}

/// The root of one constraint more.
fn root_of(reading: &Reading, name: &[u8]) -> Result<CatId, Refusal<SchemaKind>>
    ensures read { let above = above_of reading.now in
        (next : ℕ → Result Above (List ℕ)) → MatchResult result
        (λ root. root_read above name.now next ≡ next root.0)
        (λ e. IsRefusedAs e (root_read above name.now next)) }
    ensures category { IfOk result (λ root. IsCategory (above_of reading.now).graph root.0) }
{
    let Some(root) = reading.builder.category(name) else {
        return Err(Refusal::Kind(SchemaKind::UnknownCategory));
    };
    if root == CatId(0) {
        return Err(Refusal::Kind(SchemaKind::RootIsAll));
    }
    if reading.constraints.len() >= MOST_CONSTRAINTS {
        return Err(Refusal::Kind(SchemaKind::TooManyConstraints));
    }
    Ok(root)
}

/// The root and the formula of a constraint, where its tokens are this formula over words.
fn rooted(
    alloc: Global,
    reading: &Reading,
    name: &[u8],
    form: &Form,
) -> Result<(CatId, Formula), Refusal<SchemaKind>>
    ensures { let above = above_of reading.now in
        (next : ℕ → Meaning → Result Above (List ℕ)) →
        let read = root_read above name.now
        (λ root. goes_on (resolved above.graph root (form_of form.now)) (next root)) in
        MatchResult result (λ r. read ≡ next r.0.0 (formula_of r.1)) (λ e. IsRefusedAs e read) }
{
    let root = root_of(reading, name)?;
    let f = resolve(alloc, &Known::Growing(&reading.builder), root, form)?;
    Ok((root, f))
}

/// A constraint's line.
fn read_constraint(
    alloc: Global,
    reading: &mut Reading,
    version: Version,
    name: &[u8],
    tokens: &[Token],
) -> Result<(), Refusal<SchemaKind>>
    requires counted { IsCounted reading.old }
    ensures read { Reads result (above_of reading.new)
        (constraint_read (above_of reading.old) version name.now tokens.now) }
    ensures counted { OnOk result (IsCounted reading.new) }
{
    let form = checked_form(alloc, version, reading.nodes, name, tokens)?;
    let (root, f) = rooted(alloc, reading, name, &form)?;
    add_constraint(alloc, reading, version, root, tokens, f)
}

/// A line that says something, by the version of the text: before it is known, a line must say which it is.
fn read_statement(
    alloc: Global,
    reading: &mut Reading,
    n: u64,
    tokens: &[Token],
) -> Result<(), Refusal<SchemaKind>>
    requires counted { IsCounted reading.old }
    ensures read { Reads result (above_of reading.new)
        (tokens_read (above_of reading.old) n (Some tokens.now)) }
    ensures counted { OnOk result (IsCounted reading.new) }
{
    match (reading.version, statement_in(tokens)) {
        (None, Statement::Version(version)) => {
            reading.version = Some(version);
            Ok(())
        }
        (Some(version), Statement::Category { name, number }) => {
            read_category(alloc, reading, n, version, name, number)
        }
        (Some(_), Statement::Edge(child, parent)) => read_edge(reading, child, parent),
        (Some(version), Statement::Constraint(root, formula)) => {
            read_constraint(alloc, reading, version, root, formula)
        }
        _ => Err(Refusal::Kind(SchemaKind::BadForm)),
    }
}

/// Why a line of which not all tokens are kept is refused.
fn long_line_fault(reading: &Reading, found: &FirstTokens) -> SchemaKind
    requires more { found.now.more ≡ true }
    requires room { most_tokens most_nodes + 3 ≤ found.now.most }
    ensures { (n : ℕ) (ts : Option (List Tokens))
        → BeginsFound (version_at (above_of reading.now)) (kept_of found.now) ts
        → tokens_read (above_of reading.now) n ts ≡ Err (name_of_kind result) }
{
    if reading.version.is_none() {
        return SchemaKind::BadForm;
    }
    match statement_in(&found.first) {
        Statement::Constraint(_, _) => long_form_fault(reading.nodes, 2, &found.tally),
        _ => SchemaKind::BadForm,
    }
}

/// A line that says something, by its first tokens.
fn read_found(
    alloc: Global,
    reading: &mut Reading,
    n: u64,
    found: &FirstTokens,
) -> Result<(), Refusal<SchemaKind>>
    requires room { most_tokens most_nodes + 3 ≤ found.now.most }
    requires counted { IsCounted reading.old }
    ensures read { let old = above_of reading.old in
        (ts : Option (List Tokens)) → BeginsFound (version_at old) (kept_of found.now) ts
        → Reads result (above_of reading.new) (tokens_read old n ts) }
    ensures counted { OnOk result (IsCounted reading.new) }
{
    if found.more {
        return Err(Refusal::Kind(long_line_fault(reading, found)));
    }
    read_statement(alloc, reading, n, &found.first)
}

/// A line that says something. Before the version is known, it is cut by the first.
fn read_saying(
    alloc: Global,
    reading: &mut Reading,
    n: u64,
    line: &[u8],
) -> Result<(), Refusal<SchemaKind>>
    requires counted { IsCounted reading.old }
    ensures read { let old = above_of reading.old in
        Reads result (above_of reading.new) (tokens_read old n (tokens_of (version_at old) line.now)) }
    ensures counted { OnOk result (IsCounted reading.new) }
{
    let version = reading.version.unwrap_or(Version::One);
    match first_tokens(alloc, version, line, MOST_TOKENS) {
        Ok(found) => read_found(alloc, reading, n, &found),
        Err(Refusal::Kind(NoTokens)) => Err(Refusal::Kind(SchemaKind::BadForm)),
        Err(Refusal::Memory(m)) => Err(Refusal::Memory(m)),
    }
}

/// The n-th line, without its CR.
#[tactic(auto, unfolding(crate::specs::Judging::line_read))]
pub(crate) fn read_line(
    alloc: Global,
    reading: &mut Reading,
    n: u64,
    line: &[u8],
) -> Result<(), Refusal<SchemaKind>>
    requires counted { IsCounted reading.old }
    ensures read { Reads result (above_of reading.new) (line_read (above_of reading.old) n line.now) }
    ensures counted { OnOk result (IsCounted reading.new) }
{
    if is_bad(line) {
        return Err(Refusal::Kind(SchemaKind::BadByte));
    }
    if is_quiet(line) {
        return Ok(());
    }
    read_saying(alloc, reading, n, line)
}
