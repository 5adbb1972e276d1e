// The shape that chosen edges and name indexes stand for, and the truth of constraints and question on it.
ghost use Rattle.std.specs.Prelude.{◌≡◌, ◌<◌, ◌↔◌, IsTrue, map};
ghost use Rattle.olap_ast.specs.Frozen.{chosen, is_present, name_in};
ghost use Rattle.olap_ast.specs.Trees.{constraint_of, formula_of};
ghost use Rattle.olap_frozen.specs.Chosen.{IsMet};
ghost use Rattle.olap_frozen.specs.Leaves.{IsLeaf, leaf_instance, leaf_present, leaf_place, chosen_of};
ghost use Rattle.olap_base.specs.Graph.{IsCategory, IsHierarchy};
ghost use Rattle.olap_eval.specs.Shapes.{IsShape};
ghost use Rattle.olap_names.specs.Names.{candidates_of, with_graph};

use olap_ast::{Constraint, Formula, Op};
use olap_base::{CatId, Text};
use olap_eval::{Shape, holds};
use olap_graph::{Categories, Graph, row_has};
use olap_names::Candidates;

/// A sound choice of edges with its names.
#[derive(Clone, Copy)]
pub(crate) struct Leaf<'a> {
    /// The graph whose edges are chosen.
    pub graph: &'a Graph,
    /// The names that the indexes stand for.
    pub candidates: &'a Candidates,
    /// The category of the least member.
    pub root: CatId,
    /// For each edge whether it is chosen.
    pub edges: &'a [bool],
    /// For each category the index of its name.
    pub names: &'a [u16],
    /// What each category reaches by chosen edges.
    pub rows: &'a [Categories],
    ghost leaf: { IsLeaf graph.now candidates.now root.0 edges.now names.now rows.now },
    ghost is_shape: { IsShape (leaf_instance graph.now candidates.now root.0 edges.now names.now)
        (leaf_present graph.now root.0 edges.now) (leaf_place graph.now root.0 edges.now) },
}

impl<'a> Leaf<'a> {
    /// Whether the category is present.
    pub(crate) fn has(&self, c: CatId) -> bool
        ensures present { result ≡ leaf_present self.now.graph.now self.now.root.0 self.now.edges.now c.0 }
        ensures inside { IsTrue result → IsCategory self.now.graph.now c.0 }
        ensures hierarchy { IsHierarchy self.now.graph.now }
    {
        c.0 < self.graph.categories() && row_has(self.rows, self.root.0, c.0)
    }
}

impl<'a> Shape for Leaf<'a> {
    ghost use Rattle.olap_frozen.specs.Leaves.{leaf_instance, leaf_present, leaf_place};

    ghost instance = { λ s. leaf_instance s.graph.now s.candidates.now s.root.0 s.edges.now s.names.now };

    ghost present = { λ s. leaf_present s.graph.now s.root.0 s.edges.now };

    ghost place = { λ s. leaf_place s.graph.now s.root.0 s.edges.now };

    fn has_edge(&self, c: CatId, d: CatId) -> bool {
        if !self.has(c) {
            return false;
        }
        match self.graph.edge(c, d) {
            Some(e) => self.edges[usize::from(e.0)],
            None => false,
        }
    }

    fn reaches(&self, c: CatId, d: CatId) -> bool {
        if !self.has(c) {
            return false;
        }
        row_has(self.rows, c.0, d.0)
    }

    fn name_is(&self, c: CatId, k: &Text) -> bool {
        if !self.has(c) {
            return false;
        }
        let index = self.names[usize::from(c.0)];
        self.candidates.name(c, index).bytes() == k.bytes()
    }

    fn number_is(&self, c: CatId, op: Op, n: i64) -> bool {
        if !self.has(c) {
            return false;
        }
        let index = self.names[usize::from(c.0)];
        op.passes(self.candidates.name(c, index).bytes(), n)
    }

    ghost shape = { λ s. s.is_shape };
}

/// Whether each constraint is met at the member of its root, if that is present, and the question at the root's.
pub(crate) fn meets(leaf: &Leaf<'_>, constraints: &[Constraint], question: &Formula) -> bool
    ensures { let s = with_graph leaf.now.graph.now (map constraint_of constraints.now) in
        IsTrue result ↔ IsMet s (formula_of question.now) leaf.now.root.0
        (chosen leaf.now.graph.now.edges leaf.now.edges.now)
        (name_in (candidates_of leaf.now.candidates.now) (chosen_of leaf.now.edges.now leaf.now.names.now)) }
{
    'constraints: for constraint in constraints {
        let root = constraint.root;
        if leaf.has(root) && !holds(&constraint.formula, root, leaf) {
            return false;
        }
    }
    holds(question, leaf.root, leaf)
}
