// A plan as a line.
ghost use Rattle.std.specs.Prelude.{◌≡◌, ◌≤◌, All, IfOk, length};
ghost use Rattle.olap_base.specs.Graph.{IsCategory};
ghost use Rattle.olap_base.specs.Limits.{most_views};
ghost use Rattle.olap_nav.specs.PlanText.{plan_text};
ghost use Rattle.olap_nav.specs.Plans.{sources_in};
ghost use Rattle.olap_ast.specs.Trees.{numbers_of};
ghost use Rattle.olap_view.specs.Seen.{views_of};

use crate::masks::sources;
use olap_base::{CatId, Memory, Text};
use olap_graph::Graph;
use olap_view::Store;
use std::alloc::Global;

/// The line of a plan that takes the views of these categories.
fn print_sources(alloc: Global, graph: &Graph, sources: &[CatId]) -> Result<Vec<u8>, Memory>
    requires { All (IsCategory graph.now) (numbers_of sources.now) }
    ensures { IfOk result (λ text. text.items ≡ plan_text graph.now (numbers_of sources.now)) }
{
    let mut text = Vec::from_slice(alloc, b"plan")?;
    'sources: for source in sources {
        text.push(b' ')?;
        text.extend_from_slice(graph.name(*source).bytes())?;
    }
    text.push(b'\n')?;
    Ok(text)
}

/// The line of a plan: the word `plan`, and the categories of the mask's views, in stored order. `Memory`: out of
/// memory.
pub fn print_plan(alloc: Global, graph: &Graph, store: &Store, mask: u16) -> Result<Text, Memory>
    requires few { length store.now.views ≤ most_views }
    requires categories { All (λ v. IsCategory graph.now v.target) (views_of store.now) }
    ensures { IfOk result (λ text. text ≡ plan_text graph.now (sources_in (views_of store.now) mask)) }
{
    let sources = sources(alloc, store, mask)?;
    Ok(Text::from_vec(print_sources(alloc, graph, &sources)?))
}
