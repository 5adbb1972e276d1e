// The line of a frozen dimension.
ghost use Rattle.std.specs.Prelude.{◌≡◌, ◌++◌, IfOk, OnOk, flat_map, length};
ghost use Rattle.olap_ast.specs.Frozen.{chosen};
ghost use Rattle.olap_base.specs.Graph.{IsCategory};
ghost use Rattle.olap_cex.specs.FrozenText.{edge_bits, frozen_text, member_text};
ghost use Rattle.olap_cex.specs.Present.{first_present};
ghost use Rattle.olap_frozen.specs.LeastFound.{frozen_of};
ghost use Rattle.olap_frozen.specs.Leaves.{IsSized};
ghost use Rattle.olap_names.specs.Names.{candidates_of};

use crate::members::{ends_of, is_present, name};
use olap_base::{CatId, Memory, Text};
use olap_frozen::Frozen;
use olap_grammar::push_quoted;
use olap_graph::Graph;
use olap_names::Candidates;
use std::alloc::Global;

/// Appends a digit for each edge, or `-` if there are none.
fn push_bits(out: &mut Vec<u8>, edges: &[bool]) -> Result<(), Memory>
    ensures { OnOk result (out.new.items ≡ out.old.items ++ edge_bits edges.now) }
{
    if edges.is_empty() {
        out.push(b'-')?;
        return Ok(());
    }
    'edges: for present in edges {
        out.push(if *present { b'1' } else { b'0' })?;
    }
    Ok(())
}

/// Appends a category's name and its member's.
fn push_member(
    out: &mut Vec<u8>,
    graph: &Graph,
    frozen: &Frozen,
    candidates: &Candidates,
    c: CatId,
) -> Result<(), Memory>
    requires category { IsCategory graph.now c.0 }
    requires sized { IsSized graph.now candidates.now frozen.now.edges frozen.now.names }
    ensures { OnOk result (out.new.items
        ≡ out.old.items ++ member_text graph.now (candidates_of candidates.now) (frozen_of frozen.now) c.0) }
{
    out.push(b' ')?;
    out.extend_from_slice(graph.name(c).bytes())?;
    out.push(b'=')?;
    push_quoted(out, name(frozen, candidates, c).bytes())?;
    Ok(())
}

/// Appends the names of the present categories and their members.
fn push_members(
    out: &mut Vec<u8>,
    graph: &Graph,
    frozen: &Frozen,
    candidates: &Candidates,
) -> Result<(), Memory>
    requires sized { IsSized graph.now candidates.now frozen.now.edges frozen.now.names }
    ensures { OnOk result (out.new.items ≡ out.old.items ++ flat_map
        (member_text graph.now (candidates_of candidates.now) (frozen_of frozen.now))
        (first_present frozen.now.root.0 (chosen graph.now.edges frozen.now.edges) (length graph.now.names))) }
{
    let ends = ends_of(graph, frozen.edges.items());
    'categories: for c in 1..graph.categories() {
        if is_present(frozen.root, &ends, CatId(c)) {
            push_member(out, graph, frozen, candidates, CatId(c))?;
        }
    }
    Ok(())
}

/// The line of a frozen dimension: its edges, and the present categories with the names of their members.
///
/// Cost: the categories, and the edges. `Memory`: out of memory.
pub fn print_frozen(
    alloc: Global,
    graph: &Graph,
    frozen: &Frozen,
    candidates: &Candidates,
) -> Result<Text, Memory>
    requires sized { IsSized graph.now candidates.now frozen.now.edges frozen.now.names }
    ensures text { IfOk result (λ text. text
        ≡ frozen_text graph.now (candidates_of candidates.now) frozen.now.root.0 (frozen_of frozen.now)) }
{
    let mut line = Vec::from_slice(alloc, b"frozen ")?;
    push_bits(&mut line, frozen.edges.items())?;
    push_members(&mut line, graph, frozen, candidates)?;
    line.push(b'\n')?;
    Ok(Text::from_vec(line))
}
