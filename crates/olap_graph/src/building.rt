// Graphs in the making.
ghost use Rattle.std.specs.Prelude.{◌≡◌, ◌↔◌, ◌≤◌, ℕ, None, length, IfOk, IfErr, IfSome, OnErr, IsSome};
ghost use Rattle.std.specs.Option.{option_map};
ghost use Rattle.olap_base.specs.Graph.{IsCategory, IsCategoryName, HasEdge, CategoryReaches, category_count, is_number as is_number_of};
ghost use Rattle.olap_base.specs.Limits.{most_text_bytes};
ghost use Rattle.olap_base.specs.Refusing.{IsCause, IsFor};
ghost use Rattle.olap_graph.specs.Lookups.{category_named, edge_between};
ghost use Rattle.olap_graph.specs.Building.{all_alone, with_category, with_kind, with_number_category, with_edge, category_refusal, edge_refusal, IsWithoutWay};

use crate::listing::{Ends, joining, named};
use crate::{CategoryFault, EdgeFault, Graph, NoWayToAll};
use olap_base::{CatId, EdgeId, MOST_CATEGORIES, MOST_EDGES, Memory, Refusal, Text};
use std::alloc::Global;
use std::marker::Model;

/// A graph that takes categories and edges.
#[derive(Drop)]
pub struct GraphBuilder {
    names: Vec<Text>,
    numbers: Vec<bool>,
    edges: Vec<Ends>,
    alloc: Global,
}

impl Model for GraphBuilder {
    ghost use Rattle.olap_base.specs.Graph.{Graph};

    ghost Value = { Graph };

    ghost use Rattle.olap_graph.specs.Inside.{built, IsBuilt};

    ghost view = { built };

    ghost invariant = { IsBuilt };
}

impl GraphBuilder {
    /// `All` alone.
    pub fn new(alloc: Global) -> Result<GraphBuilder, Memory>
        ensures { IfOk result (λ builder. builder ≡ all_alone) }
    {
        let all = Text::from_bytes(alloc, b"All")?;
        let mut names = Vec::new(alloc);
        names.push(all)?;
        Ok(GraphBuilder {
            names,
            numbers: Vec::new(alloc),
            edges: Vec::new(alloc),
            alloc,
        })
    }

    // Adds a category of that kind.
    fn add_kind(&mut self, name: Text, number: bool) -> Result<CatId, Refusal<CategoryFault>>
        requires name { IsCategoryName name }
        requires short { length name ≤ most_text_bytes }
        ensures ok { IfOk result (λ c. category_refusal self.old name ≡ None) }
        ensures number { IfOk result (λ c. c.0 ≡ category_count self.old) }
        ensures added { IfOk result (λ _. self.new ≡ with_kind number self.old name) }
        ensures err { IfErr result (IsCause (category_refusal self.old name)) }
        ensures same { OnErr result (self.new ≡ self.old) }
    {
        if self.category(name.bytes()).is_some() {
            return Err(Refusal::Kind(CategoryFault::DuplicateCategory));
        }
        if self.names.len() >= MOST_CATEGORIES {
            return Err(Refusal::Kind(CategoryFault::TooManyCategories));
        }
        let category = CatId(self.names.len() as u16);
        self.numbers.reserve(1)?;
        self.names.push(name)?;
        self.numbers.push(number)?;
        Ok(category)
    }

    /// Adds a category, and says which it is.
    pub fn add_category(&mut self, name: Text) -> Result<CatId, Refusal<CategoryFault>>
        requires name { IsCategoryName name }
        requires short { length name ≤ most_text_bytes }
        ensures ok { IfOk result (λ c. category_refusal self.old name ≡ None) }
        ensures number { IfOk result (λ c. c.0 ≡ category_count self.old) }
        ensures added { IfOk result (λ _. self.new ≡ with_category self.old name) }
        ensures err { IfErr result (IsCause (category_refusal self.old name)) }
        ensures same { OnErr result (self.new ≡ self.old) }
    {
        self.add_kind(name, false)
    }

    /// Adds a category whose members' names are numbers, and says which it is.
    pub fn add_number_category(&mut self, name: Text) -> Result<CatId, Refusal<CategoryFault>>
        requires name { IsCategoryName name }
        requires short { length name ≤ most_text_bytes }
        ensures ok { IfOk result (λ c. category_refusal self.old name ≡ None) }
        ensures number { IfOk result (λ c. c.0 ≡ category_count self.old) }
        ensures added { IfOk result (λ _. self.new ≡ with_number_category self.old name) }
        ensures err { IfErr result (IsCause (category_refusal self.old name)) }
        ensures same { OnErr result (self.new ≡ self.old) }
    {
        self.add_kind(name, true)
    }

    /// Adds an edge, and says which it is.
    pub fn add_edge(&mut self, child: CatId, parent: CatId) -> Result<EdgeId, Refusal<EdgeFault>>
        requires child { IsCategory self.old child.0 }
        requires parent { IsCategory self.old parent.0 }
        ensures ok { IfOk result (λ e. edge_refusal self.old child.0 parent.0 ≡ None) }
        ensures number { IfOk result (λ e. e.0 ≡ length self.old.edges) }
        ensures added { IfOk result (λ _. self.new ≡ with_edge self.old child.0 parent.0) }
        ensures err { IfErr result (IsCause (edge_refusal self.old child.0 parent.0)) }
        ensures same { OnErr result (self.new ≡ self.old) }
    {
        if child == parent {
            return Err(Refusal::Kind(EdgeFault::SelfEdge));
        }
        if child == CatId(0) {
            return Err(Refusal::Kind(EdgeFault::EdgeFromAll));
        }
        if self.edge(child, parent).is_some() {
            return Err(Refusal::Kind(EdgeFault::DuplicateEdge));
        }
        if self.edges.len() >= MOST_EDGES {
            return Err(Refusal::Kind(EdgeFault::TooManyEdges));
        }
        let edge = EdgeId(self.edges.len() as u16);
        self.edges.push(Ends { child, parent })?;
        Ok(edge)
    }

    /// The category of that name.
    pub fn category(&self, name: &[u8]) -> Option<CatId>
        ensures place { option_map (λ c. c.0) result ≡ category_named self.now name.now }
        ensures category { IfSome result (λ c. IsCategory self.now c.0) }
    {
        named(&self.names, name)
    }

    /// The edge from one category to another.
    pub fn edge(&self, child: CatId, parent: CatId) -> Option<EdgeId>
        ensures place { option_map (λ e. e.0) result ≡ edge_between self.now child.0 parent.0 }
        ensures has { IsSome result ↔ HasEdge self.now child.0 parent.0 }
    {
        joining(&self.edges, child, parent)
    }

    /// Whether the members' names are numbers.
    pub fn is_number(&self, c: CatId) -> bool
        requires { IsCategory self.now c.0 }
        ensures { result ≡ is_number_of self.now c.0 }
    {
        c.0 != 0 && self.numbers[usize::from(c.0) - 1]
    }

    /// The graph with these categories and edges. Cost: categories times categories and edges.
    pub fn finish(self) -> Result<Graph, Refusal<NoWayToAll>>
        ensures ok { IfOk result (λ graph. graph ≡ self) }
        ensures way { IfOk result (λ graph. (c : ℕ) → IsCategory graph c → CategoryReaches graph c 0) }
        ensures err { IfErr result (IsFor (IsWithoutWay self)) }
    {
        Graph::of(self.alloc, self.names, self.numbers, self.edges)
    }
}
