// Category graphs.
ghost use Rattle.std.specs.Prelude.{◌≡◌, ◌↔◌, ◌≤◌, ◌<◌, ℕ, length, map, All, IfOk, IfErr, IfSome, IfNone, IsSome, IsTrue};
ghost use Rattle.std.specs.Option.{option_map};
ghost use Rattle.olap_base.specs.Graph.{IsCategory, IsDeclared, IsBottom, IsHierarchy, HasEdge, CategoryReaches, category_count, is_number as is_number_of};
ghost use Rattle.olap_base.specs.Limits.{most_categories, most_edges};
ghost use Rattle.olap_base.specs.Refusing.{IsFor};
ghost use Rattle.olap_graph.specs.Lookups.{category_named, name_of_category, edge_between, edge_at, edges_from};
ghost use Rattle.olap_graph.specs.Building.{IsWithinLimits, IsUnfinished, IsWithoutWay};
ghost use Rattle.olap_graph.specs.Listing.{graph_of, IsHeaded};
ghost use Rattle.olap_graph.specs.Tables.{IsFirstWithout, HaveAll};

use crate::NoWayToAll;
use crate::listing::{Ends, copied, leading, named};
use crate::reaching::Categories;
use crate::tables::Tables;
use olap_base::{CatId, EdgeId, Memory, Refusal, Text};
use std::alloc::Global;
use std::marker::Model;

/// A category graph: each category reaches `All` by a walk of edges.
#[derive(Drop)]
pub struct Graph {
    names: Vec<Text>,
    numbers: Vec<bool>,
    edges: Vec<Ends>,
    tables: Tables,
    alloc: Global,
}

impl Model for Graph {
    ghost use Rattle.olap_base.specs.Graph.{Graph as Schema};

    ghost Value = { Schema };

    ghost use Rattle.olap_graph.specs.Inside.{finished, IsFinished};

    ghost view = { finished };

    ghost invariant = { IsFinished };
}

/// The first category but `All` whose set hasn't `All`.
fn first_without_all(rows: &[Categories]) -> Option<CatId>
    requires few { length rows.now ≤ most_categories }
    ensures some { IfSome result (IsFirstWithout rows.now) }
    ensures none { IfNone result (HaveAll rows.now) }
{
    for c in 1..rows.len() {
        if !rows[c].has(0) {
            return Some(CatId(c as u16));
        }
    }
    None
}

impl Graph {
    /// The graph of these names, `All` first, and these edges.
    pub(crate) fn of(
        alloc: Global,
        names: Vec<Text>,
        numbers: Vec<bool>,
        edges: Vec<Ends>,
    ) -> Result<Graph, Refusal<NoWayToAll>>
        requires headed { IsHeaded names.items }
        requires limits { IsWithinLimits (graph_of names.items numbers.items edges.items) }
        requires unfinished { IsUnfinished (graph_of names.items numbers.items edges.items) }
        ensures ok { IfOk result (λ graph. graph ≡ graph_of names.items numbers.items edges.items) }
        ensures way { IfOk result (λ graph. (c : ℕ) → IsCategory graph c → CategoryReaches graph c 0) }
        ensures err { IfErr result (IsFor (IsWithoutWay (graph_of names.items numbers.items edges.items))) }
    {
        let tables = Tables::of(alloc, &edges, names.len() as u16)?;
        if let Some(category) = first_without_all(&tables.reached) {
            return Err(Refusal::Kind(NoWayToAll(category)));
        }
        Ok(Graph {
            names,
            numbers,
            edges,
            tables,
            alloc,
        })
    }

    /// How many categories there are, `All` included.
    pub fn categories(&self) -> u16
        ensures count { result ≡ category_count self.now }
        ensures few { category_count self.now ≤ most_categories }
        ensures limits { IsWithinLimits self.now }
        ensures hierarchy { IsHierarchy self.now }
    {
        self.names.len() as u16
    }

    /// How many edges there are.
    pub fn edges(&self) -> u16
        ensures count { result ≡ length self.now.edges }
        ensures few { length self.now.edges ≤ most_edges }
    {
        self.edges.len() as u16
    }

    /// `All`.
    pub fn all(&self) -> CatId
        ensures { result.0 ≡ 0 }
    {
        CatId(0)
    }

    /// The category of that name.
    pub fn category(&self, name: &[u8]) -> Option<CatId>
        ensures place { option_map (λ c. c.0) result ≡ category_named self.now name.now }
        ensures category { IfSome result (λ c. IsCategory self.now c.0) }
    {
        named(&self.names, name)
    }

    /// The name of a category.
    pub fn name(&self, c: CatId) -> &Text
        requires { IsCategory self.now c.0 }
        ensures { result.now ≡ name_of_category self.now c.0 }
    {
        &self.names[usize::from(c.0)]
    }

    /// Whether the members' names are numbers.
    pub fn is_number(&self, c: CatId) -> bool
        requires { IsCategory self.now c.0 }
        ensures { result ≡ is_number_of self.now c.0 }
    {
        c.0 != 0 && self.numbers[usize::from(c.0) - 1]
    }

    /// Whether the category is a bottom one. One look at a table.
    pub fn is_bottom(&self, c: CatId) -> bool
        requires { IsCategory self.now c.0 }
        ensures { IsTrue result ↔ IsBottom self.now c.0 }
    {
        self.tables.bottoms[usize::from(c.0)]
    }

    /// Whether c is d, or a walk of edges leads from c to d. One look at a table.
    pub fn reaches(&self, c: CatId, d: CatId) -> bool
        requires child { IsCategory self.now c.0 }
        requires parent { IsCategory self.now d.0 }
        ensures { IsTrue result ↔ CategoryReaches self.now c.0 d.0 }
    {
        self.tables.reached[usize::from(c.0)].has(d.0)
    }

    /// The edge from one category to another. Cost: the edges out of the child.
    pub fn edge(&self, child: CatId, parent: CatId) -> Option<EdgeId>
        requires { IsCategory self.now child.0 }
        ensures place { option_map (λ e. e.0) result ≡ edge_between self.now child.0 parent.0 }
        ensures has { IsSome result ↔ HasEdge self.now child.0 parent.0 }
    {
        leading(
            &self.edges,
            self.tables.out[usize::from(child.0)].items(),
            parent,
        )
    }

    /// The child and the parent of an edge.
    pub fn ends(&self, e: EdgeId) -> (CatId, CatId)
        requires { e.0 < length self.now.edges }
        ensures edge { edge_at self.now e.0 ≡ record { child = result.0.0; parent = result.1.0 } }
        ensures child { IsCategory self.now result.0.0 }
        ensures parent { IsCategory self.now result.1.0 }
    {
        let ends = self.edges[usize::from(e.0)];
        (ends.child, ends.parent)
    }

    /// The edges out of a category, in declaration order. One look at a table.
    pub fn parents(&self, c: CatId) -> &[EdgeId]
        requires { IsCategory self.now c.0 }
        ensures list { map (λ e. e.0) result.now ≡ edges_from self.now c.0 }
        ensures edges { All (λ e. e.0 < length self.now.edges) result.now }
    {
        self.tables.out[usize::from(c.0)].items()
    }

    /// An equal graph. Cost: what it takes in memory.
    pub fn copy(&self) -> Result<Graph, Memory>
        ensures { IfOk result (λ graph. graph ≡ self.now) }
    {
        let numbers = Vec::from_slice(self.alloc, &self.numbers)?;
        let edges = Vec::from_slice(self.alloc, &self.edges)?;
        let names = copied(self.alloc, &self.names)?;
        Ok(Graph {
            names,
            numbers,
            edges,
            tables: self.tables.copy(self.alloc)?,
            alloc: self.alloc,
        })
    }
}
