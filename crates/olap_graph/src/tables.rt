// What a finished graph keeps beside its lists, so that each look-up is quick.
ghost use Rattle.std.specs.Prelude.{◌≡◌, ◌≤◌, ◌<◌, length, map, IfOk};
ghost use Rattle.olap_base.specs.Limits.{most_categories, most_edges};
ghost use Rattle.olap_graph.specs.Lookups.{edges_from};
ghost use Rattle.olap_graph.specs.Tables.{drawn, AreOut, AreBottoms, LiesWithin};

use crate::listing::Ends;
use crate::reaching::{Categories, rows};
use olap_base::{EdgeId, List, Memory};
use std::alloc::Global;

/// For each category the edges out of it and what it reaches, and which categories are bottom ones.
#[derive(Drop)]
pub(crate) struct Tables {
    pub(crate) out: Vec<List<EdgeId>>,
    pub(crate) reached: Vec<Categories>,
    pub(crate) bottoms: Vec<bool>,
}

/// The edges out of the category.
fn edges_out(alloc: Global, edges: &[Ends], category: u16) -> Result<List<EdgeId>, Memory>
    requires { length edges.now ≤ most_edges }
    ensures { IfOk result (λ out. map (λ e. e.0) out ≡ edges_from (drawn edges.now) category) }
{
    let mut out = Vec::new(alloc);
    for i in 0..edges.len() {
        if edges[i].child.0 == category {
            out.push(EdgeId(i as u16))?;
        }
    }
    Ok(List::from_vec(out))
}

/// For each category the edges out of it.
fn all_out(alloc: Global, edges: &[Ends], count: u16) -> Result<Vec<List<EdgeId>>, Memory>
    requires { length edges.now ≤ most_edges }
    ensures { IfOk result (λ out. AreOut (drawn edges.now) count out.items) }
{
    let mut out = Vec::new(alloc);
    for category in 0..count {
        out.push(edges_out(alloc, edges, category)?)?;
    }
    Ok(out)
}

/// The same lists.
fn copied(alloc: Global, lists: &[List<EdgeId>]) -> Result<Vec<List<EdgeId>>, Memory>
    ensures { IfOk result (λ copy. copy.items ≡ lists.now) }
{
    let mut copy = Vec::new(alloc);
    for list in lists {
        copy.push(List::from_vec(Vec::from_slice(alloc, list.items())?))?;
    }
    Ok(copy)
}

/// Marks for the bottom categories.
fn bottoms(alloc: Global, edges: &[Ends], count: u16) -> Result<Vec<bool>, Memory>
    requires some { 0 < count }
    requires within { LiesWithin (drawn edges.now) count }
    ensures { IfOk result (λ marks. AreBottoms (drawn edges.now) count marks.items) }
{
    let mut marks = vec![in alloc; true; usize::from(count)]?;
    marks[0] = false;
    for e in edges {
        marks[usize::from(e.parent.0)] = false;
    }
    Ok(marks)
}

impl Tables {
    ghost use Rattle.olap_graph.specs.Tables.{AreTables};

    /// The tables of a graph with that many categories and these edges.
    pub(crate) fn of(alloc: Global, edges: &[Ends], count: u16) -> Result<Tables, Memory>
        requires few { count ≤ most_categories }
        requires few_edges { length edges.now ≤ most_edges }
        requires some { 0 < count }
        requires within { LiesWithin (drawn edges.now) count }
        ensures { IfOk result (AreTables (drawn edges.now) count) }
    {
        let bottoms = bottoms(alloc, edges, count)?;
        let reached = rows(alloc, edges, count)?;
        let out = all_out(alloc, edges, count)?;
        Ok(Tables {
            out,
            reached,
            bottoms,
        })
    }

    /// The same tables.
    pub(crate) fn copy(&self, alloc: Global) -> Result<Tables, Memory>
        ensures out { IfOk result (λ copy. copy.out.items ≡ self.now.out.items) }
        ensures reached { IfOk result (λ copy. copy.reached.items ≡ self.now.reached.items) }
        ensures bottoms { IfOk result (λ copy. copy.bottoms.items ≡ self.now.bottoms.items) }
    {
        Ok(Tables {
            bottoms: Vec::from_slice(alloc, &self.bottoms)?,
            reached: Vec::from_slice(alloc, &self.reached)?,
            out: copied(alloc, &self.out)?,
        })
    }
}
