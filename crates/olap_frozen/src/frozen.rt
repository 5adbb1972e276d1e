// Frozen dimensions as values, and the test of one.
ghost use Rattle.std.specs.Prelude.{◌≡◌, ◌<◌, ◌↔◌, IfOk, IsTrue, length, map};
ghost use Rattle.olap_ast.specs.Frozen.{AreCandidates, IsFrozen, chosen};
ghost use Rattle.olap_ast.specs.Trees.{constraint_of, formula_of};
ghost use Rattle.olap_base.specs.Graph.{IsCategory, IsHierarchy, category_count};
ghost use Rattle.olap_frozen.specs.Chosen.{IsSound};
ghost use Rattle.olap_frozen.specs.Leaves.{AreAbsentZero, IsSized, chosen_of};
ghost use Rattle.olap_names.specs.Names.{candidates_of, with_graph};
ghost use Rattle.olap_frozen.specs.Rows.{AreRows};

use crate::closing::close;
use crate::leaves::{Leaf, meets};
use crate::sound::is_sound;
use olap_ast::{Constraint, Formula};
use olap_base::{CatId, List, Memory};
use olap_graph::{Categories, Graph, row_has};
use olap_names::{Candidates, Question};
use std::alloc::Global;

/// A choice of edges and names: for each edge whether it is present, and for each category the index of its name, 0
/// for `All` and for absent ones.
#[derive(Drop)]
pub struct Frozen {
    /// The category of the least member.
    pub root: CatId,
    /// For each edge whether it is present.
    pub edges: List<bool>,
    /// For each category the index of its name.
    pub names: List<u16>,
}

/// Room for the test: a row of bits for each category.
#[derive(Drop)]
pub struct Room {
    /// What each category reaches.
    pub rows: Vec<Categories>,
}

impl Room {
    /// Room for this graph.
    pub fn new(alloc: Global, graph: &Graph) -> Result<Room, Memory>
        ensures { IfOk result (λ room. length room.rows.items ≡ category_count graph.now) }
    {
        let mut rows = Vec::new(alloc);
        'categories: for _ in 0..graph.categories() {
            rows.push(Categories::empty())?;
        }
        Ok(Room { rows })
    }
}

// Whether each absent category has the index 0.
fn are_absent_zero(
    graph: &Graph,
    root: CatId,
    edges: &[bool],
    names: &[u16],
    rows: &[Categories],
) -> bool
    requires root { IsCategory graph.now root.0 }
    requires size { length rows.now ≡ category_count graph.now }
    requires edges { length edges.now ≡ length graph.now.edges }
    requires names { length names.now ≡ category_count graph.now }
    requires rows { AreRows graph.now (chosen graph.now.edges edges.now) rows.now }
    requires sound { IsSound root.0 (chosen graph.now.edges edges.now) }
    ensures { IsTrue result ↔ AreAbsentZero graph.now root.0 edges.now names.now }
{
    'categories: for c in 0..graph.categories() {
        if !row_has(rows, root.0, c) && names[usize::from(c)] != 0 {
            return false;
        }
    }
    true
}

/// Whether a sound choice of edges, with these names, stands for a frozen dimension.
pub fn named(question: &Question, edges: &[bool], names: &[u16], rows: &[Categories]) -> bool
    requires root { IsCategory question.now.graph.now question.now.root.0 }
    requires size { length rows.now ≡ category_count question.now.graph.now }
    requires sized { IsSized question.now.graph.now question.now.candidates.now edges.now names.now }
    requires candidates { AreCandidates
        (with_graph question.now.graph.now (map constraint_of question.now.constraints.now))
        (formula_of question.now.formula.now) (candidates_of question.now.candidates.now) }
    requires rows { AreRows question.now.graph.now (chosen question.now.graph.now.edges edges.now) rows.now }
    requires sound { IsSound question.now.root.0 (chosen question.now.graph.now.edges edges.now) }
    requires absent { AreAbsentZero question.now.graph.now question.now.root.0 edges.now names.now }
    requires hierarchy { IsHierarchy question.now.graph.now }
    ensures { IsTrue result ↔ IsFrozen
        (with_graph question.now.graph.now (map constraint_of question.now.constraints.now))
        (formula_of question.now.formula.now) question.now.root.0 (candidates_of question.now.candidates.now)
        (chosen_of edges.now names.now) }
{
    let leaf = Leaf {
        graph: question.graph,
        candidates: question.candidates,
        root: question.root,
        edges,
        names,
        rows,
    };
    meets(&leaf, question.constraints, question.formula)
}

// Whether the edges, names and root stand for a frozen dimension.
fn stands(question: &Question, edges: &[bool], names: &[u16], rows: &mut [Categories]) -> bool
    requires root { IsCategory question.now.graph.now question.now.root.0 }
    requires rows { length rows.old ≡ category_count question.now.graph.now }
    requires sized { IsSized question.now.graph.now question.now.candidates.now edges.now names.now }
    requires candidates { AreCandidates
        (with_graph question.now.graph.now (map constraint_of question.now.constraints.now))
        (formula_of question.now.formula.now) (candidates_of question.now.candidates.now) }
    ensures { IsTrue result ↔ IsFrozen
        (with_graph question.now.graph.now (map constraint_of question.now.constraints.now))
        (formula_of question.now.formula.now) question.now.root.0 (candidates_of question.now.candidates.now)
        (chosen_of edges.now names.now) }
{
    close(question.graph, edges, rows);
    if !is_sound(question.graph, question.root, edges, rows) {
        return false;
    }
    if !are_absent_zero(question.graph, question.root, edges, names, rows) {
        return false;
    }
    named(question, edges, names, rows)
}

/// Whether the choice stands for a frozen dimension of the schema for the question, with that root.
///
/// Takes no memory. Cost: categories times categories and chosen edges times edges of single looks, and the formulas.
pub fn is_frozen(
    graph: &Graph,
    constraints: &[Constraint],
    question: &Formula,
    candidates: &Candidates,
    frozen: &Frozen,
    room: &mut Room,
) -> bool
    requires root { IsCategory graph.now frozen.now.root.0 }
    requires room { length room.old.rows.items ≡ category_count graph.now }
    requires sized { IsSized graph.now candidates.now frozen.now.edges frozen.now.names }
    requires candidates { AreCandidates (with_graph graph.now (map constraint_of constraints.now))
        (formula_of question.now) (candidates_of candidates.now) }
    ensures frozen { IsTrue result ↔ IsFrozen (with_graph graph.now (map constraint_of constraints.now))
        (formula_of question.now) frozen.now.root.0 (candidates_of candidates.now)
        (chosen_of frozen.now.edges frozen.now.names) }
    ensures room { length room.new.rows.items ≡ category_count graph.now }
{
    let question = Question {
        graph,
        constraints,
        formula: question,
        root: frozen.root,
        candidates,
    };
    stands(
        &question,
        frozen.edges.items(),
        frozen.names.items(),
        &mut room.rows,
    )
}
