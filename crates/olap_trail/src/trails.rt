// Trails of decisions.
ghost use Rattle.std.specs.Prelude.{◌≡◌, ◌↔◌, ◌≤◌, ◌<◌, ◌-◌, ◌*◌, ◌++◌, ◌∷◌, [], ℕ, None, true, length, take, IfOk, IsTrue};
ghost use Rattle.std.specs.FinSet as set;
ghost use Rattle.olap_base.specs.Graph.{IsCategory, CategoryReaches, category_count};
ghost use Rattle.olap_bits.specs.CatSet.{IsOfWidth};
ghost use Rattle.olap_bits.specs.Sets.{members};
ghost use Rattle.olap_graph.specs.Lookups.{edge_at};
ghost use Rattle.olap_trail.specs.Drawing.{edge_of};
ghost use Rattle.olap_trail.specs.Decisions.{AreDecisions, IsPresent, HoldsCycle, HoldsShortcut, present_graph, present_with, status_of};
ghost use Rattle.olap_trail.specs.Trails.{decisions_of};

use crate::decisions::{Decision, Mark};
use crate::drawing::{Drawn, Ends};
use olap_base::{CatId, EdgeId, Memory};
use olap_bits::CatSet;
use olap_graph::Graph;
use std::alloc::Global;
use std::marker::Model;

/// Decisions on the edges of a graph, in the order in which they were made.
#[derive(Drop)]
pub struct Trail<const W: usize> {
    graph: Graph,
    root: CatId,
    decisions: Vec<Decision>,
    /// What was decided of each edge.
    statuses: Vec<Option<bool>>,
    /// The edges that were decided present.
    drawn: Drawn<W>,
}

impl<const W: usize> Model for Trail<W> {
    ghost use Rattle.olap_trail.specs.Decisions.{Decided};

    ghost Value = { Decided };

    ghost use Rattle.olap_trail.specs.Inside.{IsTrail, decided};

    ghost view = { decided };

    ghost invariant = { IsTrail };
}

impl<const W: usize> Trail<W> {
    /// A trail without decisions. It takes the memory for a decision on each edge: no other call takes any.
    pub fn new(alloc: Global, graph: &Graph, root: CatId) -> Result<Trail<W>, Memory>
        requires width { IsOfWidth W }
        requires wide { category_count graph.now ≤ 64 * W }
        requires root { IsCategory graph.now root.0 }
        ensures ok { IfOk result (λ t. t ≡ record { graph = graph.now; root = root.0; decisions = [] }) }
    {
        let count = graph.edges();
        let edges = usize::from(count);
        Ok(Trail {
            graph: graph.copy()?,
            root,
            decisions: Vec::with_capacity(alloc, edges)?,
            statuses: vec![in alloc; None; edges]?,
            drawn: Drawn::new(alloc, graph.categories(), count)?,
        })
    }

    /// How many decisions were made.
    pub fn mark(&self) -> Mark
        ensures count { result.0 ≡ length self.now.decisions }
        ensures decisions { AreDecisions self.now }
    {
        Mark(self.decisions.len() as u16)
    }

    /// The decisions, in the order in which they were made.
    pub fn decisions(&self) -> &[Decision]
        ensures list { decisions_of result.now ≡ self.now.decisions }
        ensures decisions { AreDecisions self.now }
    {
        &self.decisions
    }

    /// What was decided of the edge. One look at a table.
    pub fn status(&self, edge: EdgeId) -> Option<bool>
        requires { edge.0 < length self.now.graph.edges }
        ensures { result ≡ status_of self.now edge.0 }
    {
        self.statuses[usize::from(edge.0)]
    }

    /// The ends of the edge.
    fn ends(&self, edge: EdgeId) -> Ends
        requires { edge.0 < length self.now.graph.edges }
        ensures edge { edge_at self.now.graph edge.0 ≡ edge_of result }
        ensures child { IsCategory self.now.graph result.child.0 }
        ensures parent { IsCategory self.now.graph result.parent.0 }
    {
        let (child, parent) = self.graph.ends(edge);
        Ends { child, parent }
    }

    /// Decides an edge that is undecided. Cost: the categories, where the edge is present.
    pub fn decide(&mut self, edge: EdgeId, present: bool)
        requires edge { edge.0 < length self.old.graph.edges }
        requires open { status_of self.old edge.0 ≡ None }
        ensures { self.new ≡ record self.old {
          decisions = self.old.decisions
              ++ (record { edge = edge.0; present = present }) ∷ [];
        } }
    {
        let ends = self.ends(edge);
        self.statuses[usize::from(edge.0)] = Some(present);
        self.decisions.push(Decision { edge, present }).unwrap();
        if present {
            self.drawn.push(ends);
        }
    }

    /// Takes the last decision back, if there is one.
    fn take_back(&mut self)
        ensures { self.new ≡ record self.old { decisions = take (length self.old.decisions - 1) self.old.decisions } }
    {
        if let Some(last) = self.decisions.pop() {
            self.statuses[usize::from(last.edge.0)] = None;
            if last.present {
                self.drawn.pop();
            }
        }
    }

    /// Takes back the decisions that were made since the mark. Cost: how many they are.
    pub fn undo(&mut self, mark: Mark)
        requires { mark.0 ≤ length self.old.decisions }
        ensures { self.new ≡ record self.old { decisions = take mark.0 self.old.decisions } }
    {
        'decisions: while self.decisions.len() > usize::from(mark.0) {
            self.take_back();
        }
    }

    /// The root, and the categories that it reaches by present edges.
    pub fn present(&self) -> CatSet<W>
        ensures { (c : ℕ) → (set.contains (members result) c ≡ true) ↔ IsPresent self.now c }
    {
        self.drawn.above(self.root)
    }

    /// Whether c is d, or a walk of present edges leads from c to d. One look at a table.
    pub fn reaches(&self, c: CatId, d: CatId) -> bool
        requires child { IsCategory self.now.graph c.0 }
        requires parent { IsCategory self.now.graph d.0 }
        ensures { IsTrue result ↔ CategoryReaches (present_graph self.now) c.0 d.0 }
    {
        self.drawn.reaches(c, d)
    }

    /// Whether the present edges together with this one hold a cycle. Two looks at tables.
    pub fn closes_cycle(&self, edge: EdgeId) -> bool
        requires { edge.0 < length self.now.graph.edges }
        ensures { IsTrue result ↔ HoldsCycle (present_with self.now edge.0) }
    {
        self.drawn.closes_cycle(self.ends(edge))
    }

    /// Whether the present edges together with this one hold a shortcut. Cost: the present edges.
    pub fn makes_shortcut(&self, edge: EdgeId) -> bool
        requires { edge.0 < length self.now.graph.edges }
        ensures { IsTrue result ↔ HoldsShortcut (present_with self.now edge.0) }
    {
        self.drawn.makes_shortcut(self.ends(edge))
    }
}
