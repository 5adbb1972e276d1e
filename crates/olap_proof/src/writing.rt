// The lines of a certificate, written.
ghost use Rattle.std.specs.Prelude.{◌≡◌, ◌<◌, ◌++◌, ◌∷◌, [], ◌↔◌, IfOk, IsTrue, OnOk, decimal, false, length, map};
ghost use Rattle.olap_ast.specs.Trees.{constraint_of};
ghost use Rattle.olap_base.specs.Bytes.{line_feed};
ghost use Rattle.olap_base.specs.Graph.{IsCategory};
ghost use Rattle.olap_graph.specs.Lookups.{name_of_category};
ghost use Rattle.olap_names.specs.Names.{with_graph};
ghost use Rattle.olap_proof.specs.Certificates.{bottom_text, head_text};
ghost use Rattle.olap_proof.specs.Lines.{edge_words, line_text, way_words, words};
ghost use Rattle.olap_proof.specs.Closing.{IsAbout};
ghost use Rattle.olap_proof.specs.Reading.{meaning};

use crate::Form;
use crate::lines::Line;
use itoa::Buffer;
use olap_ast::Constraint;
use olap_base::{CatId, EdgeId, MOST_CERTIFICATE_BYTES, Memory};
use olap_graph::Graph;
use std::alloc::AllocError;

/// A word, and a category's name.
fn push_name(out: &mut Vec<u8>, graph: &Graph, word: &[u8], c: CatId) -> Result<(), AllocError>
    requires { IsCategory graph.now c.0 }
    ensures { OnOk result (out.new.items ≡ out.old.items ++ words word.now (name_of_category graph.now c.0)) }
{
    out.extend_from_slice(word)?;
    out.extend_from_slice(b" ")?;
    out.extend_from_slice(graph.name(c).bytes())
}

/// A word, and the names of two categories.
fn push_way(
    out: &mut Vec<u8>,
    graph: &Graph,
    word: &[u8],
    child: CatId,
    parent: CatId,
) -> Result<(), AllocError>
    requires child { IsCategory graph.now child.0 }
    requires parent { IsCategory graph.now parent.0 }
    ensures { OnOk result (out.new.items ≡ out.old.items ++ words word.now (way_words graph.now child.0 parent.0)) }
{
    push_name(out, graph, word, child)?;
    out.extend_from_slice(b" ")?;
    out.extend_from_slice(graph.name(parent).bytes())
}

/// A word, and the names of an edge's ends.
fn push_edge(out: &mut Vec<u8>, graph: &Graph, word: &[u8], edge: EdgeId) -> Result<(), AllocError>
    requires { edge.0 < length graph.now.edges }
    ensures { OnOk result (out.new.items ≡ out.old.items ++ words word.now (edge_words graph.now edge.0)) }
{
    let (child, parent) = graph.ends(edge);
    push_way(out, graph, word, child, parent)
}

/// A word, and a number.
fn push_number(out: &mut Vec<u8>, word: &[u8], n: u64) -> Result<(), AllocError>
    ensures { OnOk result (out.new.items ≡ out.old.items ++ words word.now (decimal n)) }
{
    let mut buffer = Buffer::new();
    out.extend_from_slice(word)?;
    out.extend_from_slice(b" ")?;
    out.extend_from_slice(buffer.format(n).as_bytes())
}

/// The words of a line of a schema with this graph and these constraints.
fn push_words(
    out: &mut Vec<u8>,
    graph: &Graph,
    constraints: &[Constraint],
    line: Line,
) -> Result<(), AllocError>
    requires { IsAbout (with_graph graph.now (map constraint_of constraints.now)) (meaning line) }
    ensures { OnOk result (out.new.items ≡ out.old.items ++ line_text graph.now (meaning line)) }
{
    match line {
        Line::Edge(e) => push_edge(out, graph, b"edge", e),
        Line::Name(c) => push_name(out, graph, b"name", c),
        Line::Reach(c, d) => push_way(out, graph, b"reach", c, d),
        Line::Dead(c) => push_name(out, graph, b"dead", c),
        Line::Cycle => out.extend_from_slice(b"cycle"),
        Line::Shortcut => out.extend_from_slice(b"shortcut"),
        Line::LooseEdge(e) => push_edge(out, graph, b"loose", e),
        Line::LooseCategory(c) => push_name(out, graph, b"loose", c),
        Line::Steps(c, d) => push_way(out, graph, b"steps", c, d),
        Line::Constraint(n) => push_number(out, b"constraint", n as u64 + 1),
        Line::Question => out.extend_from_slice(b"question"),
    }
}

/// Whether what the line names is in a schema with this graph and these constraints.
fn is_about(graph: &Graph, constraints: &[Constraint], line: Line) -> bool
    ensures { IsTrue result ↔ IsAbout (with_graph graph.now (map constraint_of constraints.now)) (meaning line) }
{
    match line {
        Line::Edge(e) | Line::LooseEdge(e) => e.0 < graph.edges(),
        Line::Name(c) | Line::Dead(c) | Line::LooseCategory(c) => c.0 < graph.categories(),
        Line::Reach(c, d) | Line::Steps(c, d) => {
            c.0 < graph.categories() && d.0 < graph.categories()
        }
        Line::Constraint(n) => n < constraints.len(),
        Line::Cycle | Line::Shortcut | Line::Question => true,
    }
}

/// Appends the line, ended by an LF, if what it names is in a schema with this graph and these constraints, else
/// nothing. Whether it is.
pub fn push_known_line(
    out: &mut Vec<u8>,
    graph: &Graph,
    constraints: &[Constraint],
    line: Line,
) -> Result<bool, AllocError>
    ensures about { IfOk result (λ told. IsTrue told
        ↔ IsAbout (with_graph graph.now (map constraint_of constraints.now)) (meaning line)) }
    ensures line { IfOk result (λ told. IsTrue told
        → out.new.items ≡ out.old.items ++ (line_text graph.now (meaning line) ++ line_feed ∷ [])) }
    ensures refused { IfOk result (λ told. told ≡ false → out.new.items ≡ out.old.items) }
{
    if !is_about(graph, constraints, line) {
        return Ok(false);
    }
    push_line(out, graph, constraints, line)?;
    Ok(true)
}

/// A line of a schema with this graph and these constraints, ended by an LF.
pub(crate) fn push_line(
    out: &mut Vec<u8>,
    graph: &Graph,
    constraints: &[Constraint],
    line: Line,
) -> Result<(), AllocError>
    requires { IsAbout (with_graph graph.now (map constraint_of constraints.now)) (meaning line) }
    ensures { OnOk result (out.new.items ≡ out.old.items ++ (line_text graph.now (meaning line) ++ line_feed ∷ [])) }
{
    push_words(out, graph, constraints, line)?;
    out.extend_from_slice(b"\n")
}

/// Appends the line, if the text is no longer than a file may be then. `Memory`: it would be, or there is no memory.
pub(crate) fn push_bounded(
    out: &mut Vec<u8>,
    graph: &Graph,
    constraints: &[Constraint],
    line: Line,
) -> Result<(), Memory>
    requires { IsAbout (with_graph graph.now (map constraint_of constraints.now)) (meaning line) }
    ensures { OnOk result (out.new.items ≡ out.old.items ++ (line_text graph.now (meaning line) ++ line_feed ∷ [])) }
{
    push_line(out, graph, constraints, line)?;
    if out.len() as u64 > MOST_CERTIFICATE_BYTES {
        return Err(Memory::full(out));
    }
    Ok(())
}

/// Appends a certificate's first line, ended by an LF.
pub fn push_head(out: &mut Vec<u8>, form: Form) -> Result<(), AllocError>
    ensures { OnOk result (out.new.items ≡ out.old.items ++ (head_text form ++ line_feed ∷ [])) }
{
    match form {
        Form::Long => out.extend_from_slice(b"certificate 1\n"),
        Form::Short => out.extend_from_slice(b"short certificate 1\n"),
    }
}

/// Appends the line above a bottom category's tree, ended by an LF.
pub fn push_bottom(out: &mut Vec<u8>, graph: &Graph, c: CatId) -> Result<(), AllocError>
    requires { IsCategory graph.now c.0 }
    ensures { OnOk result (out.new.items ≡ out.old.items ++ (bottom_text graph.now c.0 ++ line_feed ∷ [])) }
{
    push_name(out, graph, b"bottom", c)?;
    out.extend_from_slice(b"\n")
}
