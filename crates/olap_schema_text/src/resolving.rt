// The names of a formula, looked up in a graph from the left.
ghost use Rattle.olap_ast.specs.Formula as meaning;
ghost use Rattle.olap_ast.specs.Formula.{Formula as Meaning};
ghost use Rattle.olap_ast.specs.Listing.{parts_before};
ghost use Rattle.olap_ast.specs.Trees.{formula_of, op_of, terms_of};
ghost use Rattle.olap_base.specs.Bytes.{underscore};
ghost use Rattle.olap_base.specs.Graph.{IsCategory};
ghost use Rattle.olap_base.specs.Refusing.{IsForMemory};
ghost use Rattle.olap_graph.specs.Lookups.{category_named, edge_between};
ghost use Rattle.olap_grammar.specs.Forms as words;
ghost use Rattle.olap_grammar.specs.Shown.{atom_of, form_of, forms_of};
ghost use Rattle.olap_grammar.specs.Words.{pieces_of};
ghost use Rattle.olap_schema_text.specs.Kinds.{IsRefusedAs};
ghost use Rattle.olap_schema_text.specs.Known.{graph_seen};
ghost use Rattle.olap_schema_text.specs.Reading.{ReadsFormula};
ghost use Rattle.olap_schema_text.specs.Resolving.{all_resolved, atom_read, categories_of, ends_read, path_read, is_repeated, join as join_of, lacks_edge as lacks_edge_of, resolved};
ghost use Rattle.olap_schema_text.specs.declared.kinds.SchemaKind.TheVariants as kind;
ghost use Rattle.olap_base.specs.declared.refusals.Refusal.TheVariants as refusal;
ghost use Rattle.std.specs.List.{list_any};
ghost use Rattle.std.specs.Option.{option_map};
ghost use Rattle.std.specs.Prelude.{◌≡◌, ◌==◌, ◌∷◌, ℕ, All, IfErr, IfOk, IfSome, List as Numbers, MatchResult, None, Ok, Result, Some, if◌then◌else◌, is_some, map};

use crate::SchemaKind;
use crate::knowing::Known;
use olap_ast::{Formula, Op, Terms};
use olap_base::{CatId, List, Memory, Refusal, Text};
use olap_grammar::{Atom, Form, Forms, Joint, first_piece};
use olap_numerals::number;
use std::alloc::Global;

/// The category of the name.
fn category(known: &Known, name: &[u8]) -> Result<CatId, Refusal<SchemaKind>>
    ensures named { IfOk result (λ c. category_named (graph_seen known.now) name.now ≡ Some c.0) }
    ensures category { IfOk result (λ c. IsCategory (graph_seen known.now) c.0) }
    ensures none { IfErr result (λ e. (category_named (graph_seen known.now) name.now ≡ None)
        × (e ≡ refusal.Kind kind.UnknownCategory)) }
{
    match known.category(name) {
        Some(c) => Ok(c),
        None => Err(Refusal::Kind(SchemaKind::UnknownCategory)),
    }
}

/// The category of the last of an atom's two names, of which the first must be the root's.
fn last_category(
    known: &Known,
    root: CatId,
    first: &[u8],
    last: &[u8],
) -> Result<CatId, Refusal<SchemaKind>>
    ensures read { (next : ℕ → Result Meaning (Numbers ℕ)) →
        let read = ends_read (graph_seen known.now) root.0 first.now last.now next in
        MatchResult result (λ d. read ≡ next d.0) (λ e. IsRefusedAs e read) }
    ensures category { IfOk result (λ d. IsCategory (graph_seen known.now) d.0) }
{
    let c = category(known, first)?;
    let d = category(known, last)?;
    if c != root {
        return Err(Refusal::Kind(SchemaKind::MixedRoot));
    }
    Ok(d)
}

/// Whether each name between `_` is a category's.
fn are_known(known: &Known, names: &[u8]) -> bool
    ensures { result ≡ is_some (categories_of (graph_seen known.now) (pieces_of underscore names.now)) }
{
    let mut left = Some(names);
    'names: while let Some(text) = left {
        let (name, others) = first_piece(b'_', text);
        if known.category(name).is_none() {
            return false;
        }
        left = others;
    }
    true
}

/// Whether the category is one of these.
fn is_among(c: CatId, categories: &[CatId]) -> bool
    ensures { result ≡ list_any (λ d. d.0 == c.0) categories.now }
{
    categories.iter().any(|d| *d == c)
}

/// Whether the category is the root or one of these.
fn stands_before(root: CatId, categories: &[CatId], c: CatId) -> bool
    ensures { result ≡ list_any (λ d. d == c.0) (root.0 ∷ map (λ c'. c'.0) categories.now) }
{
    root == c || is_among(c, categories)
}

/// The categories of the names, if none stands twice among them and the root. Where one does, the names after it
/// aren't looked up, and no more categories are listed than there are.
fn distinct(
    alloc: Global,
    known: &Known,
    root: CatId,
    names: &[u8],
) -> Result<Option<Vec<CatId>>, Refusal<SchemaKind>>
    ensures read { (cs : Numbers ℕ) → categories_of (graph_seen known.now) (pieces_of underscore names.now) ≡ Some cs
        → MatchResult result (λ found. option_map (λ v. map (λ c. c.0) v.items) found
        ≡ (if is_repeated (root.0 ∷ cs) then None else Some cs)) IsForMemory }
    ensures categories { IfOk result (λ found.
        IfSome found (λ v. All (λ c. IsCategory (graph_seen known.now) c.0) v.items)) }
{
    let mut found = Vec::new(alloc);
    let mut left = Some(names);
    'names: while let Some(text) = left {
        let (name, others) = first_piece(b'_', text);
        let c = category(known, name)?;
        if stands_before(root, &found, c) {
            return Ok(None);
        }
        found.push(c)?;
        left = others;
    }
    Ok(Some(found))
}

/// Whether an edge leads from one to the other.
fn joins(known: &Known, child: CatId, parent: CatId) -> bool
    requires { IsCategory (graph_seen known.now) child.0 }
    ensures { result ≡ is_some (edge_between (graph_seen known.now) child.0 parent.0) }
{
    known.edge(child, parent).is_some()
}

/// Whether two categories that follow each other are no edge, from this one on.
#[tactic(auto, unfolding(crate::specs::Resolving::lacks_edge))]
fn lacks_edge(known: &Known, first: CatId, categories: &[CatId]) -> bool
    requires first { IsCategory (graph_seen known.now) first.0 }
    requires categories { All (λ c. IsCategory (graph_seen known.now) c.0) categories.now }
    ensures { result ≡ lacks_edge_of (graph_seen known.now) first.0 (map (λ c. c.0) categories.now) }
{
    let mut child = first;
    let mut left = categories;
    'categories: while let Some((parent, others)) = left.split_first() {
        if !joins(known, child, *parent) {
            return true;
        }
        child = *parent;
        left = others;
    }
    false
}

/// The path from the root through the categories of these names, which are known.
fn path_through(
    alloc: Global,
    known: &Known,
    root: CatId,
    names: &[u8],
) -> Result<Formula, Refusal<SchemaKind>>
    requires { IsCategory (graph_seen known.now) root.0 }
    ensures { (cs : Numbers ℕ) → categories_of (graph_seen known.now) (pieces_of underscore names.now) ≡ Some cs
        → ReadsFormula result (path_read (graph_seen known.now) root.0 cs) }
{
    let Some(found) = distinct(alloc, known, root, names)? else {
        return Err(Refusal::Kind(SchemaKind::RepeatedCategory));
    };
    if lacks_edge(known, root, &found) {
        return Err(Refusal::Kind(SchemaKind::NotAnEdge));
    }
    Ok(Formula::Path(List::from_vec(found)))
}

/// A path. Its categories are listed only once its names are known, since there may be as many as a line has bytes.
fn path(
    alloc: Global,
    known: &Known,
    root: CatId,
    first: &[u8],
    names: &[u8],
) -> Result<Formula, Refusal<SchemaKind>>
    ensures { ReadsFormula result (atom_read (graph_seen known.now) root.0
        (words.Atom.Path first.now (pieces_of underscore names.now))) }
{
    let c = category(known, first)?;
    if !are_known(known, names) {
        return Err(Refusal::Kind(SchemaKind::UnknownCategory));
    }
    if c != root {
        return Err(Refusal::Kind(SchemaKind::MixedRoot));
    }
    path_through(alloc, known, root, names)
}

/// A category that is reached.
fn reach(
    known: &Known,
    root: CatId,
    first: &[u8],
    last: &[u8],
) -> Result<Formula, Refusal<SchemaKind>>
    ensures { ReadsFormula result (atom_read (graph_seen known.now) root.0 (words.Atom.Reach first.now last.now)) }
{
    Ok(Formula::Reach(last_category(known, root, first, last)?))
}

/// A category that is reached by way of another.
fn via(
    known: &Known,
    root: CatId,
    first: &[u8],
    middle: &[u8],
    last: &[u8],
) -> Result<Formula, Refusal<SchemaKind>>
    ensures { ReadsFormula result (atom_read (graph_seen known.now) root.0
        (words.Atom.Via first.now middle.now last.now)) }
{
    let c = category(known, first)?;
    let d = category(known, middle)?;
    let e = category(known, last)?;
    if c != root {
        return Err(Refusal::Kind(SchemaKind::MixedRoot));
    }
    Ok(Formula::Via(d, e))
}

/// A comparison with a text.
fn equals(
    alloc: Global,
    known: &Known,
    root: CatId,
    first: &[u8],
    last: &[u8],
    text: &[u8],
) -> Result<Formula, Refusal<SchemaKind>>
    ensures { ReadsFormula result (atom_read (graph_seen known.now) root.0
        (words.Atom.Equals first.now last.now text.now)) }
{
    let d = last_category(known, root, first, last)?;
    if known.is_number(d) {
        return Err(Refusal::Kind(SchemaKind::WrongNames));
    }
    Ok(Formula::Equals(d, Text::from_bytes(alloc, text)?))
}

/// A comparison with a number.
fn compare(
    known: &Known,
    root: CatId,
    first: &[u8],
    last: &[u8],
    op: Op,
    digits: &[u8],
) -> Result<Formula, Refusal<SchemaKind>>
    ensures { ReadsFormula result (atom_read (graph_seen known.now) root.0
        (words.Atom.Compare first.now last.now (op_of op) digits.now)) }
{
    let d = last_category(known, root, first, last)?;
    if !known.is_number(d) {
        return Err(Refusal::Kind(SchemaKind::WrongNames));
    }
    match number(digits) {
        Some(n) => Ok(Formula::Compare(d, op, n)),
        None => Err(Refusal::Kind(SchemaKind::BadNumber)),
    }
}

/// An atom.
fn resolve_atom(
    alloc: Global,
    known: &Known,
    root: CatId,
    atom: &Atom,
) -> Result<Formula, Refusal<SchemaKind>>
    requires { IsCategory (graph_seen known.now) root.0 }
    ensures { ReadsFormula result (atom_read (graph_seen known.now) root.0 (atom_of atom.now)) }
{
    match atom {
        Atom::True => Ok(Formula::True),
        Atom::False => Ok(Formula::False),
        Atom::Path(first, names) => path(alloc, known, root, first.bytes(), names.bytes()),
        Atom::Reach(first, last) => reach(known, root, first.bytes(), last.bytes()),
        Atom::Via(first, middle, last) => {
            via(known, root, first.bytes(), middle.bytes(), last.bytes())
        }
        Atom::Equals(first, last, text) => {
            equals(
                alloc,
                known,
                root,
                first.bytes(),
                last.bytes(),
                text.bytes(),
            )
        }
        Atom::Compare(first, last, op, digits) => {
            compare(
                known,
                root,
                first.bytes(),
                last.bytes(),
                *op,
                digits.bytes(),
            )
        }
    }
}

/// Two formulas with a connective between them.
fn join(joint: Joint, f: Box<Formula>, g: Box<Formula>) -> Formula
    ensures { formula_of result ≡ join_of joint (formula_of f.value) (formula_of g.value) }
{
    match joint {
        Joint::Iff => Formula::Iff(f, g),
        Joint::Implies => Formula::Implies(f, g),
        Joint::Xor => Formula::Xor(f, g),
        Joint::Or => Formula::Or(f, g),
        Joint::And => Formula::And(f, g),
    }
}

/// The formula at the root, or the fault of its first atom that has one.
///
/// It calls itself as deep as the formula is.
#[cycle(resolve)]
pub(crate) fn resolve(
    alloc: Global,
    known: &Known,
    root: CatId,
    form: &Form,
) -> Result<Formula, Refusal<SchemaKind>>
    requires { IsCategory (graph_seen known.now) root.0 }
    ensures { ReadsFormula result (resolved (graph_seen known.now) root.0 (form_of form.now)) }
{
    match form {
        Form::Atom(atom) => resolve_atom(alloc, known, root, atom),
        Form::Not(f) => Ok(Formula::Not(resolve_part(alloc, known, root, f)?)),
        Form::Joined(joint, f, g) => {
            let left = resolve_part(alloc, known, root, f)?;
            let right = resolve_part(alloc, known, root, g)?;
            Ok(join(*joint, left, right))
        }
        Form::One(forms) => Ok(Formula::One(resolve_all(alloc, known, root, forms)?)),
    }
}

/// A part of a formula.
#[cycle(resolve)]
fn resolve_part(
    alloc: Global,
    known: &Known,
    root: CatId,
    form: &Form,
) -> Result<Box<Formula>, Refusal<SchemaKind>>
    requires { IsCategory (graph_seen known.now) root.0 }
    ensures { let read = resolved (graph_seen known.now) root.0 (form_of form.now) in
        MatchResult result (λ f. read ≡ Ok (formula_of f.value)) (λ e. IsRefusedAs e read) }
{
    let f = resolve(alloc, known, root, form)?;
    Ok(Box::new(alloc, f)?)
}

/// The parts of a list.
#[cycle(resolve)]
fn resolve_all(
    alloc: Global,
    known: &Known,
    root: CatId,
    forms: &Forms,
) -> Result<Terms, Refusal<SchemaKind>>
    requires { IsCategory (graph_seen known.now) root.0 }
    ensures { let read = all_resolved (graph_seen known.now) root.0 (forms_of forms.now) in
        MatchResult result (λ terms. read ≡ Ok (terms_of terms)) (λ e. IsRefusedAs e read) }
{
    let mut parts = Vec::new(alloc);
    let mut left = forms;
    'parts: while let Forms::More(f, rest) = left {
        parts.push(resolve(alloc, known, root, f)?)?;
        left = rest;
    }
    Ok(listed(alloc, parts)?)
}

/// These parts as a list.
fn listed(alloc: Global, parts: Vec<Formula>) -> Result<Terms, Memory>
    ensures { IfOk result (λ terms. terms_of terms ≡ parts_before (map formula_of parts.items) meaning.Terms.End) }
{
    let mut left = parts;
    let mut terms = Terms::End;
    'parts: while let Some(f) = left.pop() {
        terms = Terms::More(Box::new(alloc, f)?, Box::new(alloc, terms)?);
    }
    Ok(terms)
}
