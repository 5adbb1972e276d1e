// Printing a schema.
ghost use Rattle.olap_ast.specs.Trees.{constraint_of, formula_of, op_of, terms_of};
ghost use Rattle.olap_base.specs.Bytes.{colon, equals_sign, right_parenthesis, space};
ghost use Rattle.olap_base.specs.Graph.{Edge, IsCategory, is_number};
ghost use Rattle.olap_graph.specs.Lookups.{name_of_category};
ghost use Rattle.olap_grammar.specs.Cutting.{joint_bytes, mark_bytes};
ghost use Rattle.olap_ast.specs.Formula.{Formula as Meaning};
ghost use Rattle.olap_grammar.specs.Grammar.{comparing};
ghost use Rattle.olap_schema_text.specs.Resolving.{join};
ghost use Rattle.olap_grammar.specs.declared.tokens.Joint.{Joint as Joints};
ghost use Rattle.olap_grammar.specs.Quoting.{quoted};
ghost use Rattle.olap_numerals.specs.Numerals.{canonical};
ghost use Rattle.olap_schema_text.specs.Printing.{atom_word, category_text, compared_word, constraint_text, edge_text, ended_line, formula_text, joined_text, kind_text, list_text, names_after, rest_text, schema_text, text_of_lines};
ghost use Rattle.olap_schema_text.specs.Judging.{schema_read};
ghost use Rattle.olap_schema_text.specs.PrintingLaws.{PrintedIsRead};
ghost use Rattle.olap_schema.specs.Schemas.{schema_of};
ghost use Rattle.std.specs.Prelude.{◌≡◌, ◌++◌, [], ◌∷◌, IfOk, Ok, OnOk, codes, map, zip};

use itoa::Buffer;
use olap_ast::{Constraint, Formula, Op, Terms};
use olap_base::{CatId, EdgeId, Memory, Text};
use olap_grammar::{Joint, push_quoted};
use olap_graph::Graph;
use olap_schema::Schema;
use std::alloc::{AllocError, Global};

/// The name of a category, or no bytes if the graph doesn't have it.
#[tactic(auto, using(crate::proofs::PrintLemmas::no_name))]
fn name(graph: &Graph, c: CatId) -> &[u8]
    ensures { result.now ≡ name_of_category graph.now c.0 }
{
    if c.0 < graph.categories() {
        graph.name(c).bytes()
    } else {
        &[]
    }
}

/// The names of the categories, with the mark in front of each.
fn push_names(
    out: &mut Vec<u8>,
    graph: &Graph,
    mark: u8,
    categories: &[CatId],
) -> Result<(), AllocError>
    ensures { let names = names_after graph.now mark (map (λ c. c.0) categories.now) in
        OnOk result (out.new.items ≡ out.old.items ++ names) }
{
    let mut left = categories;
    'categories: while let Some((c, others)) = left.split_first() {
        out.push(mark)?;
        out.extend_from_slice(name(graph, *c))?;
        left = others;
    }
    Ok(())
}

/// The root's name and what stands after it.
fn push_atom(
    out: &mut Vec<u8>,
    graph: &Graph,
    root: CatId,
    mark: u8,
    categories: &[CatId],
) -> Result<(), AllocError>
    ensures { let word = atom_word graph.now root.0 mark (map (λ c. c.0) categories.now) in
        OnOk result (out.new.items ≡ out.old.items ++ word) }
{
    out.extend_from_slice(name(graph, root))?;
    push_names(out, graph, mark, categories)
}

/// What is compared with a constant: the root by its name alone, another category after a dot.
fn push_compared(out: &mut Vec<u8>, graph: &Graph, root: CatId, d: CatId) -> Result<(), AllocError>
    ensures { OnOk result (out.new.items ≡ out.old.items ++ compared_word graph.now root.0 d.0) }
{
    if d.0 == root.0 {
        out.extend_from_slice(name(graph, root))
    } else {
        push_atom(out, graph, root, b'.', &[d])
    }
}

/// The mark of a comparison.
fn push_op(out: &mut Vec<u8>, op: Op) -> Result<(), AllocError>
    ensures { OnOk result (out.new.items ≡ out.old.items ++ mark_bytes (comparing (op_of op))) }
{
    match op {
        Op::Equal => out.extend_from_slice(b"="),
        Op::Less => out.extend_from_slice(b"<"),
        Op::AtMost => out.extend_from_slice(b"<="),
    }
}

/// The canonical numeral of a number.
fn push_numeral(out: &mut Vec<u8>, n: i64) -> Result<(), AllocError>
    ensures { OnOk result (out.new.items ≡ out.old.items ++ canonical n) }
{
    let mut buffer = Buffer::new();
    out.extend_from_slice(buffer.format(n).as_bytes())
}

/// The mark of a comparison and the number, with a space before each.
fn push_number(out: &mut Vec<u8>, op: Op, n: i64) -> Result<(), AllocError>
    ensures { let mark = mark_bytes (comparing (op_of op)) in
        OnOk result (out.new.items ≡ out.old.items ++ space ∷ (mark ++ space ∷ canonical n)) }
{
    out.push(b' ')?;
    push_op(out, op)?;
    out.push(b' ')?;
    push_numeral(out, n)
}

/// What is compared, and a text.
fn push_equality(
    out: &mut Vec<u8>,
    graph: &Graph,
    root: CatId,
    d: CatId,
    text: &Text,
) -> Result<(), AllocError>
    ensures { let compared = compared_word graph.now root.0 d.0 in
        OnOk result (out.new.items ≡ out.old.items ++ (compared ++ space ∷ equals_sign ∷ space ∷ quoted text.now)) }
{
    push_compared(out, graph, root, d)?;
    out.extend_from_slice(b" = ")?;
    push_quoted(out, text.bytes())
}

/// What is compared, how, and a number.
fn push_comparison(
    out: &mut Vec<u8>,
    graph: &Graph,
    root: CatId,
    d: CatId,
    op: Op,
    n: i64,
) -> Result<(), AllocError>
    ensures { let mark = mark_bytes (comparing (op_of op)) in
        let compared = compared_word graph.now root.0 d.0 in
        OnOk result (out.new.items ≡ out.old.items ++ (compared ++ space ∷ (mark ++ space ∷ canonical n))) }
{
    push_compared(out, graph, root, d)?;
    push_number(out, op, n)
}

/// The connective, with a space on each side.
fn push_joint(out: &mut Vec<u8>, joint: Joint) -> Result<(), AllocError>
    ensures { OnOk result (out.new.items ≡ out.old.items ++ space ∷ (joint_bytes joint ++ space ∷ [])) }
{
    match joint {
        Joint::Iff => out.extend_from_slice(b" <-> "),
        Joint::Implies => out.extend_from_slice(b" -> "),
        Joint::Xor => out.extend_from_slice(b" ^ "),
        Joint::Or => out.extend_from_slice(b" | "),
        Joint::And => out.extend_from_slice(b" & "),
    }
}

/// The connective of a formula that joins two.
fn joint_of(f: &Formula) -> Joint
    ensures { (j : Joints) (x y : Meaning) → formula_of f.now ≡ join j x y → j ≡ result }
{
    match f {
        Formula::Iff(_, _) => Joint::Iff,
        Formula::Implies(_, _) => Joint::Implies,
        Formula::Xor(_, _) => Joint::Xor,
        Formula::Or(_, _) => Joint::Or,
        _ => Joint::And,
    }
}

/// Appends a formula. It calls itself as deep as the formula is.
#[cycle(push_formula)]
fn push_formula(
    out: &mut Vec<u8>,
    graph: &Graph,
    root: CatId,
    f: &Formula,
) -> Result<(), AllocError>
    ensures { OnOk result (out.new.items ≡ out.old.items ++ formula_text graph.now root.0 (formula_of f.now)) }
{
    match f {
        Formula::True => out.extend_from_slice(b"true"),
        Formula::False => out.extend_from_slice(b"false"),
        Formula::Path(categories) => push_atom(out, graph, root, b'_', categories.items()),
        Formula::Reach(d) => push_atom(out, graph, root, b'.', &[*d]),
        Formula::Via(d, e) => push_atom(out, graph, root, b'.', &[*d, *e]),
        Formula::Equals(d, text) => push_equality(out, graph, root, *d, text),
        Formula::Compare(d, op, n) => push_comparison(out, graph, root, *d, *op, *n),
        Formula::Not(g) => {
            out.extend_from_slice(b"!")?;
            push_formula(out, graph, root, g)
        }
        Formula::And(g, h)
        | Formula::Or(g, h)
        | Formula::Implies(g, h)
        | Formula::Iff(g, h)
        | Formula::Xor(g, h) => push_joined(out, graph, root, joint_of(f), g, h),
        Formula::One(terms) => push_one(out, graph, root, terms),
    }
}

/// Two formulas with a connective between them, in brackets.
#[cycle(push_formula)]
fn push_joined(
    out: &mut Vec<u8>,
    graph: &Graph,
    root: CatId,
    joint: Joint,
    f: &Formula,
    g: &Formula,
) -> Result<(), AllocError>
    ensures { let left = formula_text graph.now root.0 (formula_of f.now) in
        let right = formula_text graph.now root.0 (formula_of g.now) in
        OnOk result (out.new.items ≡ out.old.items ++ joined_text joint left right) }
{
    out.extend_from_slice(b"(")?;
    push_formula(out, graph, root, f)?;
    push_joint(out, joint)?;
    push_formula(out, graph, root, g)?;
    out.extend_from_slice(b")")
}

/// `one` and its parts in brackets.
#[cycle(push_formula)]
fn push_one(out: &mut Vec<u8>, graph: &Graph, root: CatId, terms: &Terms) -> Result<(), AllocError>
    ensures { let list = list_text graph.now root.0 (terms_of terms.now) in
        OnOk result (out.new.items ≡ out.old.items ++ (codes "one(" ++ (list ++ right_parenthesis ∷ []))) }
{
    out.extend_from_slice(b"one(")?;
    push_list(out, graph, root, terms)?;
    out.extend_from_slice(b")")
}

/// The parts of a list.
#[cycle(push_formula)]
fn push_list(out: &mut Vec<u8>, graph: &Graph, root: CatId, terms: &Terms) -> Result<(), AllocError>
    ensures { OnOk result (out.new.items ≡ out.old.items ++ list_text graph.now root.0 (terms_of terms.now)) }
{
    match terms {
        Terms::End => Ok(()),
        Terms::More(f, rest) => {
            push_formula(out, graph, root, f)?;
            push_rest(out, graph, root, rest)
        }
    }
}

/// The parts after the first, a comma in front of each.
#[cycle(push_formula)]
fn push_rest(out: &mut Vec<u8>, graph: &Graph, root: CatId, terms: &Terms) -> Result<(), AllocError>
    ensures { OnOk result (out.new.items ≡ out.old.items ++ rest_text graph.now root.0 (terms_of terms.now)) }
{
    let mut left = terms;
    'parts: while let Terms::More(f, rest) = left {
        out.extend_from_slice(b", ")?;
        push_formula(out, graph, root, f)?;
        left = rest;
    }
    Ok(())
}

/// What stands after the name of a category.
fn push_kind(out: &mut Vec<u8>, number: bool) -> Result<(), AllocError>
    ensures { OnOk result (out.new.items ≡ out.old.items ++ kind_text number) }
{
    if number {
        out.extend_from_slice(b" number")
    } else {
        Ok(())
    }
}

/// A word with the space after it, and a name.
fn push_named(out: &mut Vec<u8>, word: &[u8], name: &[u8]) -> Result<(), AllocError>
    ensures { OnOk result (out.new.items ≡ out.old.items ++ (word.now ++ name.now)) }
{
    out.extend_from_slice(word)?;
    out.extend_from_slice(name)
}

/// The line of a category.
fn push_category(out: &mut Vec<u8>, graph: &Graph, c: CatId) -> Result<(), AllocError>
    requires { IsCategory graph.now c.0 }
    ensures { OnOk result (out.new.items ≡ out.old.items ++ ended_line
        (category_text (name_of_category graph.now c.0, is_number graph.now c.0))) }
{
    push_named(out, b"category ", name(graph, c))?;
    push_kind(out, graph.is_number(c))?;
    out.extend_from_slice(b"\n")
}

/// The lines of the declared categories.
fn push_categories(out: &mut Vec<u8>, graph: &Graph) -> Result<(), AllocError>
    ensures { let lines = map category_text (zip graph.now.names graph.now.numbers) in
        OnOk result (out.new.items ≡ out.old.items ++ text_of_lines lines) }
{
    let count = graph.categories();
    let mut done = 0;
    'categories: while done + 1 < count {
        push_category(out, graph, CatId(done + 1))?;
        done += 1;
    }
    Ok(())
}

/// The line of an edge.
fn push_edge(
    out: &mut Vec<u8>,
    graph: &Graph,
    child: CatId,
    parent: CatId,
) -> Result<(), AllocError>
    ensures { let edge : Edge = record { child = child.0; parent = parent.0 } in
        OnOk result (out.new.items ≡ out.old.items ++ ended_line (edge_text graph.now edge)) }
{
    push_named(out, b"edge ", name(graph, child))?;
    push_named(out, b" ", name(graph, parent))?;
    out.extend_from_slice(b"\n")
}

/// The lines of the edges.
fn push_edges(out: &mut Vec<u8>, graph: &Graph) -> Result<(), AllocError>
    ensures { OnOk result (out.new.items ≡ out.old.items ++ text_of_lines (map (edge_text graph.now) graph.now.edges)) }
{
    let count = graph.edges();
    let mut done = 0;
    'edges: while done < count {
        let (child, parent) = graph.ends(EdgeId(done));
        push_edge(out, graph, child, parent)?;
        done += 1;
    }
    Ok(())
}

/// What stands in front of a constraint's formula.
fn push_root(out: &mut Vec<u8>, graph: &Graph, root: CatId) -> Result<(), AllocError>
    ensures { let head = codes "constraint " ++ (name_of_category graph.now root.0 ++ colon ∷ space ∷ []) in
        OnOk result (out.new.items ≡ out.old.items ++ head) }
{
    out.extend_from_slice(b"constraint ")?;
    out.extend_from_slice(name(graph, root))?;
    out.extend_from_slice(b": ")
}

/// The line of a constraint.
fn push_constraint(
    out: &mut Vec<u8>,
    graph: &Graph,
    constraint: &Constraint,
) -> Result<(), AllocError>
    ensures { let line = constraint_text graph.now (constraint_of constraint.now) in
        OnOk result (out.new.items ≡ out.old.items ++ ended_line line) }
{
    push_root(out, graph, constraint.root)?;
    push_formula(out, graph, constraint.root, &constraint.formula)?;
    out.extend_from_slice(b"\n")
}

/// The lines of the constraints.
#[tactic(auto, unfolding(crate::specs::Printing::text_of_lines))]
fn push_constraints(
    out: &mut Vec<u8>,
    graph: &Graph,
    constraints: &[Constraint],
) -> Result<(), AllocError>
    ensures { let lines = map (constraint_text graph.now) (map constraint_of constraints.now) in
        OnOk result (out.new.items ≡ out.old.items ++ text_of_lines lines) }
{
    let mut left = constraints;
    'constraints: while let Some((constraint, others)) = left.split_first() {
        push_constraint(out, graph, constraint)?;
        left = others;
    }
    Ok(())
}

/// Appends the canonical text of a graph with constraints.
pub(crate) fn push_schema(
    out: &mut Vec<u8>,
    graph: &Graph,
    constraints: &[Constraint],
) -> Result<(), AllocError>
    ensures { let text = schema_text (record { graph = graph.now; constraints = map constraint_of constraints.now }) in
        OnOk result (out.new.items ≡ out.old.items ++ text) }
{
    out.extend_from_slice(b"schema 2\n")?;
    push_categories(out, graph)?;
    push_edges(out, graph)?;
    push_constraints(out, graph, constraints)
}

/// The lines of these constraints in the canonical text of a schema with this graph. `Memory` if there is no room
/// for them. Linear in the lines.
pub fn print_constraints(
    alloc: Global,
    graph: &Graph,
    constraints: &[Constraint],
) -> Result<Text, Memory>
    ensures { let lines = map (constraint_text graph.now) (map constraint_of constraints.now) in
        IfOk result (λ text. text ≡ text_of_lines lines) }
{
    let mut out = Vec::new(alloc);
    push_constraints(&mut out, graph, constraints)?;
    Ok(Text::from_vec(out))
}

/// The canonical text of a schema: a line for the second version, each category, each edge and each constraint, in
/// declaration order, with one space between tokens. `Memory` if there is no room for it. Linear in the text.
///
/// The schema is what its canonical text is read as.
pub fn print_schema(alloc: Global, schema: &Schema) -> Result<Text, Memory>
    ensures text { IfOk result (λ t. t ≡ schema_text (schema_of schema.now)) }
    ensures reads { IfOk result (λ t. schema_read t ≡ Ok (schema_of schema.now)) }
{
    let mut out = Vec::new(alloc);
    push_schema(&mut out, schema.graph(), schema.constraints())?;
    Ok(Text::from_vec(out))
}

/// The canonical text of a valid schema whose constants are text stands for that schema.
pub fn printed_schemas_are_read()
    ensures { PrintedIsRead }
{}
