// The place in a tree at which the reading stands.
ghost use Rattle.std.specs.Prelude.{◌≡◌, ◌-◌, ◌<◌, ◌↔◌, ℕ, Contains, IfOk, IfSome, IsTrue, None, OnErr, OnOk, length, map, take};
ghost use Rattle.std.specs.Option.{option_map};
ghost use Rattle.olap_base.specs.Graph.{IsCategory};
ghost use Rattle.olap_base.specs.Limits.{most_categories};
ghost use Rattle.olap_bits.specs.Sets.{members};
ghost use Rattle.olap_proof.specs.Certificates.{start, with_edge, with_name, with_way};
ghost use Rattle.olap_proof.specs.KeptParts.{naming_kept};
ghost use Rattle.olap_proof.specs.KeptWays.{leading_way};
ghost use Rattle.olap_proof.specs.Places.{index_of, leading_graph, possible_graph, way_of};
ghost use Rattle.olap_proof.specs.Seen.{AreOfGraph};
ghost use Rattle.olap_proof.specs.Walking.{IsIn, IsWalk};
ghost use Rattle.olap_trail.specs.Decisions.{AreDecisions, HoldsCycle, HoldsShortcut, present_with, status_of};
ghost use Rattle.olap_trail.specs.Trails.{decisions_of};

use crate::tables::{fill_leading, fill_possible, row_if};
use crate::ways::{Way, Ways};
use olap_base::{CatId, EdgeId, Memory};
use olap_graph::{Categories, Graph, WORDS};
use olap_trail::{Decision, Mark, Trail};
use std::alloc::Global;
use std::marker::Model;

/// The category's name is the one at this index.
#[derive(Clone, Copy)]
pub(crate) struct Naming {
    pub(crate) category: CatId,
    pub(crate) index: u16,
}

/// A root, with what was decided of edges, of names and of ways, each in the order in which it was decided.
#[derive(Drop)]
pub(crate) struct Place {
    trail: Trail<{ WORDS }>,
    namings: Vec<Naming>,
    ways: Ways,
    /// For each category what it reaches by edges that weren't decided absent, if the tables are fresh.
    possible: Vec<Categories>,
    /// And by what is known to be there.
    leading: Vec<Categories>,
    /// Whether the tables are those of what is decided.
    fresh: bool,
}

impl Model for Place {
    ghost use Rattle.olap_proof.specs.Places.{Place as Decisions};

    ghost Value = { Decisions };

    ghost use Rattle.olap_proof.specs.Kept.{place_kept};

    ghost view = { place_kept };

    ghost use Rattle.olap_proof.specs.Tabled.{IsTabled};

    ghost invariant = { IsTabled };
}

/// The index that was decided for the category's name, first of these.
fn index_in(namings: &[Naming], c: CatId) -> Option<u16>
    ensures { result ≡ index_of (map naming_kept namings.now) c.0 }
{
    let mut left = namings;
    'namings: while let Some((naming, others)) = left.split_first() {
        if naming.category.0 == c.0 {
            return Some(naming.index);
        }
        left = others;
    }
    None
}

impl Place {
    /// Nothing is decided. It takes the memory for a decision on each edge, and for the tables.
    pub(crate) fn new(alloc: Global, graph: &Graph, root: CatId) -> Result<Place, Memory>
        requires { IsCategory graph.now root.0 }
        ensures { IfOk result (λ p. p ≡ start graph.now root.0) }
    {
        let count = usize::from(graph.categories());
        Ok(Place {
            ways: Ways::new(alloc)?,
            trail: Trail::new(alloc, graph, root)?,
            namings: Vec::new(alloc),
            possible: vec![in alloc; Categories::empty(); count]?,
            leading: vec![in alloc; Categories::empty(); count]?,
            fresh: false,
        })
    }

    /// Makes the tables, if they aren't those of what is decided. Cost: the square of the categories.
    pub(crate) fn tabulate(&mut self, graph: &Graph)
        requires graph { self.old.decided.graph ≡ graph.now }
        requires ways { AreOfGraph graph.now self.old.ways }
        ensures { self.new ≡ self.old }
    {
        if self.fresh {
            return;
        }
        fill_possible(graph, &self.trail, &mut self.possible);
        fill_leading(graph, &self.trail, &self.ways, &mut self.leading);
        self.fresh = true;
    }

    /// What the category reaches by edges that weren't decided absent, if the tables say so. One look at a table.
    pub(crate) fn possible_row(&self, c: CatId) -> Option<Categories>
        ensures { IfSome result (λ s. IsWalk (possible_graph self.now.decided) c.0 (members s)) }
    {
        row_if(self.fresh, &self.possible, c)
    }

    /// What the category reaches by what is known to be there, if the tables say so. One look at a table.
    pub(crate) fn leading_row(&self, c: CatId) -> Option<Categories>
        ensures { IfSome result (λ s. IsWalk (leading_graph self.now) c.0 (members s)) }
    {
        row_if(self.fresh, &self.leading, c)
    }

    /// What was decided of the edge. One look at a table.
    pub(crate) fn status(&self, edge: EdgeId) -> Option<bool>
        requires { edge.0 < length self.now.decided.graph.edges }
        ensures { result ≡ status_of self.now.decided edge.0 }
    {
        self.trail.status(edge)
    }

    /// The decisions on edges.
    pub(crate) fn decisions(&self) -> &[Decision]
        ensures list { decisions_of result.now ≡ self.now.decided.decisions }
        ensures decisions { AreDecisions self.now.decided }
    {
        self.trail.decisions()
    }

    /// The categories to which a way was decided to be there. One look at a table.
    pub(crate) fn ways_from(&self, child: CatId) -> Categories
        ensures { (d : ℕ) → IsIn (members result) d ↔ Contains self.now.ways (leading_way child.0 d) }
    {
        self.ways.from(child)
    }

    /// The index that was decided for the category's name. Cost: how many names are decided.
    pub(crate) fn index(&self, c: CatId) -> Option<u16>
        ensures { result ≡ index_of self.now.namings c.0 }
    {
        index_in(&self.namings, c)
    }

    /// What was decided of the way. Two looks at tables.
    pub(crate) fn way(&self, child: CatId, parent: CatId) -> Option<bool>
        ensures { result ≡ way_of self.now.ways child.0 parent.0 }
    {
        self.ways.status(child, parent)
    }

    /// Whether the present edges together with this one hold a cycle. Two looks at tables.
    pub(crate) fn closes_cycle(&self, edge: EdgeId) -> bool
        requires { edge.0 < length self.now.decided.graph.edges }
        ensures { IsTrue result ↔ HoldsCycle (present_with self.now.decided edge.0) }
    {
        self.trail.closes_cycle(edge)
    }

    /// Whether the present edges together with this one hold a shortcut. Cost: the present edges.
    pub(crate) fn makes_shortcut(&self, edge: EdgeId) -> bool
        requires { edge.0 < length self.now.decided.graph.edges }
        ensures { IsTrue result ↔ HoldsShortcut (present_with self.now.decided edge.0) }
    {
        self.trail.makes_shortcut(edge)
    }

    /// Decides an edge that is undecided.
    pub(crate) fn decide(&mut self, edge: EdgeId, present: bool)
        requires edge { edge.0 < length self.old.decided.graph.edges }
        requires open { status_of self.old.decided edge.0 ≡ None }
        ensures { self.new ≡ with_edge self.old edge.0 present }
    {
        self.fresh = false;
        self.trail.decide(edge, present);
    }

    /// Decides a name. `Memory`: out of memory, and nothing is decided.
    pub(crate) fn name(&mut self, category: CatId, index: u16) -> Result<(), Memory>
        ensures ok { OnOk result (self.new ≡ with_name self.old category.0 index) }
        ensures same { OnErr result (self.new ≡ self.old) }
    {
        self.namings.push(Naming { category, index })?;
        Ok(())
    }

    /// Decides a way that is undecided. `Memory`: out of memory, and nothing is decided.
    pub(crate) fn lead(&mut self, child: CatId, parent: CatId, there: bool) -> Result<(), Memory>
        requires child { child.0 < most_categories }
        requires parent { parent.0 < most_categories }
        requires open { way_of self.old.ways child.0 parent.0 ≡ None }
        ensures ok { OnOk result (self.new ≡ with_way self.old child.0 parent.0 there) }
        ensures same { OnErr result (self.new ≡ self.old) }
    {
        self.fresh = false;
        self.ways.push(Way {
            child,
            parent,
            there,
        })
    }

    /// Takes the last decision on an edge back, if there is one.
    pub(crate) fn undecide(&mut self)
        ensures { self.new ≡ record self.old {
          decided = record self.old.decided {
            decisions = take (length self.old.decided.decisions - 1) self.old.decided.decisions;
          };
        } }
    {
        self.fresh = false;
        let mark = self.trail.mark();
        if mark.0 > 0 {
            self.trail.undo(Mark(mark.0 - 1));
        }
    }

    /// Takes the last decision on a name back, if there is one.
    pub(crate) fn unname(&mut self)
        ensures { self.new ≡ record self.old { namings = take (length self.old.namings - 1) self.old.namings } }
    {
        let _last = self.namings.pop();
    }

    /// Takes the last decision on a way back, if there is one.
    pub(crate) fn unlead(&mut self)
        ensures { self.new ≡ record self.old { ways = take (length self.old.ways - 1) self.old.ways } }
    {
        self.fresh = false;
        self.ways.pop();
    }
}
