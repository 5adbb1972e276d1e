// A draft of a certificate, by a search about which nothing is promised.
use crate::order::Order;
use crate::searches::Search;
use crate::steps::Words;
use crate::tasks::{Asked, Task};
use crate::trees::GivenUp;
use olap_ast::Formula;
use olap_base::{CatId, Refusal};
use olap_names::Candidates;
use olap_proof::{Form, push_bottom, push_head};
use olap_schema::Schema;
use std::alloc::Global;

/// Appends the tree of a bottom category, after this much work on others.
fn push_below(
    alloc: Global,
    asked: &Asked,
    root: CatId,
    work: &mut Vec<()>,
    out: &mut Vec<u8>,
) -> Result<(), Refusal<GivenUp>> {
    let task = Task::new(alloc, asked, root)?;
    let mut search = Search::new(alloc, &task);
    search.push_tree(asked.constraints, work, out)
}

/// Appends a draft: a tree for each bottom category.
fn push_draft(alloc: Global, asked: &Asked, out: &mut Vec<u8>) -> Result<(), Refusal<GivenUp>> {
    let graph = asked.words.graph;
    let mut work = Vec::new(alloc);
    push_head(out, asked.form)?;
    'categories: for b in 1..graph.categories() {
        let root = CatId(b);
        if graph.is_bottom(root) {
            push_bottom(out, graph, root)?;
            push_below(alloc, asked, root, &mut work, out)?;
        }
    }
    Ok(())
}

/// The text of a draft.
fn draft_of(alloc: Global, asked: &Asked) -> Result<Vec<u8>, Refusal<GivenUp>> {
    let mut out = Vec::new(alloc);
    push_draft(alloc, asked, &mut out)?;
    Ok(out)
}

/// A text that may be a certificate of that form, of why the target is summarizable from the sources: a tree for each
/// bottom category.
///
/// `GivenUp`: for some bottom category no tree was found, or it has more than four million lines; it may be that there
/// is none. `Memory`: out of memory, or the text is longer than a certificate's file may be, or the search has taken
/// more than `MOST_WORK` steps, over all bottom categories, and found no tree.
pub fn draft<'a>(
    alloc: Global,
    schema: &'a Schema,
    form: Form,
    target: CatId,
    sources: &'a [CatId],
) -> Result<Vec<u8>, Refusal<GivenUp>> {
    let graph = schema.graph();
    let constraints = schema.constraints();
    // The question of summarizability has no constants.
    let candidates = Candidates::of(alloc, graph, constraints, &Formula::True)?;
    let order = Order::of(alloc, graph)?;
    let words = Words {
        graph,
        candidates: &candidates,
    };
    let asked = Asked {
        words,
        order: &order,
        constraints,
        form,
        target,
        sources,
    };
    draft_of(alloc, &asked)
}
