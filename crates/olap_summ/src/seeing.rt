// Sights: what some legal instance was seen to have.
ghost use Rattle.std.specs.Prelude.{◌≡◌, ◌<◌, IfOk, IsTrue, false, length, slice_index_or, true};
ghost use Rattle.olap_base.specs.Graph.{IsCategory};
ghost use Rattle.olap_schema.specs.Schemas.{schema_of};
ghost use Rattle.olap_summ.specs.Sights.{IsSeen, IsWitness, Keeps};

use olap_base::{CatId, EdgeId, Memory};
use olap_frozen::Found;
use olap_schema::Schema;
use std::alloc::Global;

/// The categories that were seen with a member, and the edges that were seen in use, each in some legal instance. It
/// spares a question about what an earlier answer showed.
#[derive(Drop)]
pub(crate) struct Seen {
    pub(crate) categories: Vec<bool>,
    pub(crate) edges: Vec<bool>,
}

impl Seen {
    /// Nothing was seen.
    pub(crate) fn nothing(alloc: Global, schema: &Schema) -> Result<Seen, Memory>
        ensures { IfOk result (IsSeen (schema_of schema.now)) }
    {
        let graph = schema.graph();
        Ok(Seen {
            categories: vec![in alloc; false; usize::from(graph.categories())]?,
            edges: vec![in alloc; false; usize::from(graph.edges())]?,
        })
    }

    /// Whether the category was not seen with a member. `All` always has one.
    pub(crate) fn lacks(&self, c: CatId) -> bool
        requires { c.0 < length self.now.categories.items }
        ensures { IsTrue result → (0 < c.0) × (slice_index_or self.now.categories.items c.0 false ≡ false) }
    {
        c.0 > 0 && !self.categories[usize::from(c.0)]
    }

    // Marks the root.
    fn mark_root(&mut self, schema: &Schema, found: &Found)
        requires root { IsCategory (schema_of schema.now).graph found.now.frozen.root.0 }
        requires witness { IsWitness (schema_of schema.now) found.now }
        requires seen { IsSeen (schema_of schema.now) self.old }
        ensures seen { IsSeen (schema_of schema.now) self.new }
        ensures root { slice_index_or self.new.categories.items found.now.frozen.root.0 false ≡ true }
        ensures kept { Keeps self.old self.new }
    {
        self.categories[usize::from(found.frozen.root.0)] = true;
    }

    // Marks a chosen edge, and the categories at its ends.
    fn mark_edge(&mut self, schema: &Schema, found: &Found, e: EdgeId)
        requires root { IsCategory (schema_of schema.now).graph found.now.frozen.root.0 }
        requires witness { IsWitness (schema_of schema.now) found.now }
        requires edge { e.0 < length (schema_of schema.now).graph.edges }
        requires chosen { slice_index_or found.now.frozen.edges e.0 false ≡ true }
        requires seen { IsSeen (schema_of schema.now) self.old }
        ensures seen { IsSeen (schema_of schema.now) self.new }
        ensures kept { Keeps self.old self.new }
    {
        // Called for its clauses: the schema is valid.
        let _valid = schema.constraints();
        let (child, parent) = schema.graph().ends(e);
        self.edges[usize::from(e.0)] = true;
        self.categories[usize::from(child.0)] = true;
        self.categories[usize::from(parent.0)] = true;
    }

    /// Marks what a frozen dimension has: it stands for a legal instance.
    pub(crate) fn note(&mut self, schema: &Schema, found: &Found)
        requires root { IsCategory (schema_of schema.now).graph found.now.frozen.root.0 }
        requires witness { IsWitness (schema_of schema.now) found.now }
        requires seen { IsSeen (schema_of schema.now) self.old }
        ensures seen { IsSeen (schema_of schema.now) self.new }
        ensures root { slice_index_or self.new.categories.items found.now.frozen.root.0 false ≡ true }
        ensures kept { Keeps self.old self.new }
    {
        self.mark_root(schema, found);
        let chosen = found.frozen.edges.items();
        'edges: for e in 0..schema.graph().edges() {
            if chosen[usize::from(e)] {
                self.mark_edge(schema, found, EdgeId(e));
            }
        }
    }
}
