// The least frozen dimension by trying: all choices of edges and names, in code order.
ghost use Rattle.std.specs.Prelude.{◌≡◌, ◌<◌, ◌≤◌, ℕ, IfOk, IfSome, IsTrue, false, length, map, slice_index, slice_index_or, true};
ghost use Rattle.olap_ast.specs.Formula.{Formula as TheFormula};
ghost use Rattle.olap_ast.specs.Frozen.{AreCandidates, Frozen as TheFrozen, IsFrozen, IsLeastFrozen};
ghost use Rattle.olap_ast.specs.Trees.{constraint_of, formula_of};
ghost use Rattle.olap_base.specs.Graph.{IsCategory, category_count};
ghost use Rattle.olap_frozen.specs.LeastFound.{HasNothing};
ghost use Rattle.olap_frozen.specs.Leaves.{IsZeroAtAll, chosen_of};
ghost use Rattle.olap_plain.specs.Searching.{AreFirstNames, NoneWith, code_of};
ghost use Rattle.olap_plain.specs.Searches.{IsMadeWith};
ghost use Rattle.olap_names.specs.Names.{CanBeNamed, candidates_of, with_graph};
ghost use Rattle.olap_names.specs.Walks.{IsLast, IsLastOpen, IsNext, IsStep};

use olap_ast::{Constraint, Formula};
use olap_base::{CatId, List, Memory};
use olap_frozen::{Frozen, Room, close, is_sound, named};
use olap_graph::{Categories, Graph};
use olap_names::{Candidates, NameWalk, Question};
use std::alloc::Global;

// With these edges, the first names that give a frozen dimension: the walk stands there.
pub(crate) fn first_names(
    question: &Question,
    edges: &[bool],
    rows: &mut [Categories],
    walk: &mut NameWalk,
) -> bool
    requires root { IsCategory question.now.graph.now question.now.root.0 }
    requires rows { length rows.old ≡ category_count question.now.graph.now }
    requires edges { length edges.now ≡ length question.now.graph.now.edges }
    requires texts { length question.now.candidates.now.texts ≡ category_count question.now.graph.now }
    requires walk { length walk.old.indexes ≡ category_count question.now.graph.now }
    requires candidates { AreCandidates
        (with_graph question.now.graph.now (map constraint_of question.now.constraints.now))
        (formula_of question.now.formula.now) (candidates_of question.now.candidates.now) }
    ensures some { IsTrue result → AreFirstNames
        (with_graph question.now.graph.now (map constraint_of question.now.constraints.now))
        (formula_of question.now.formula.now) question.now.root.0 (candidates_of question.now.candidates.now)
        edges.now walk.new.indexes }
    ensures zero { IsTrue result → IsZeroAtAll walk.new.indexes }
    ensures none { result ≡ false → NoneWith
        (with_graph question.now.graph.now (map constraint_of question.now.constraints.now))
        (formula_of question.now.formula.now) question.now.root.0 (candidates_of question.now.candidates.now)
        edges.now }
    ensures walk { length walk.new.indexes ≡ category_count question.now.graph.now }
{
    close(question.graph, edges, rows);
    if !is_sound(question.graph, question.root, edges, rows) {
        return false;
    }
    walk.start(&rows[usize::from(question.root.0)]);
    'names: loop {
        let names = walk.indexes();
        if named(question, edges, names, rows) {
            return true;
        }
        if !walk.next(question.candidates) {
            return false;
        }
    }
}

// The last edge that isn't chosen.
fn last_absent(edges: &[bool]) -> Option<usize>
    ensures { IsLastOpen (λ c. 1) (code_of edges.now) (length edges.now) result }
{
    let mut last = None;
    'edges: for e in 0..edges.len() {
        if !edges[e] {
            last = Some(e);
        }
    }
    last
}

// The edges from this place on become absent.
fn clear(edges: &mut [bool], from: usize)
    ensures kept { (e : ℕ) → e < from → slice_index_or edges.new e false ≡ slice_index_or edges.old e false }
    ensures cleared { (e : ℕ) → from ≤ e → slice_index_or edges.new e false ≡ false }
{
    'places: for e in from..edges.len() {
        edges[e] = false;
    }
}

// The next choice of edges in code order. False if there is none; then it stays.
fn next_edges(edges: &mut [bool]) -> bool
    ensures next { IsTrue result → IsNext (λ c. 1) (length edges.old) (code_of edges.old) (code_of edges.new) }
    ensures last { result ≡ false → IsLast (λ c. 1) (length edges.old) (code_of edges.old) }
{
    match last_absent(edges) {
        Some(e) => {
            edges[e] = true;
            clear(edges, e + 1);
            true
        }
        None => false,
    }
}

// Puts the bits into the list.
fn put_edges(into: &mut List<bool>, edges: &[bool])
    requires { length into.old ≡ length edges.now }
    ensures { into.new ≡ edges.now }
{
    'edges: for e in 0..edges.len() {
        into.set(e, edges[e]);
    }
}

// Puts the indexes into the list.
fn put_names(into: &mut List<u16>, names: &[u16])
    requires { length into.old ≡ length names.now }
    ensures { into.new ≡ names.now }
{
    'names: for c in 0..names.len() {
        into.set(c, names[c]);
    }
}

// The least frozen dimension, over this room.
fn least(
    question: &Question,
    edges: &mut [bool],
    rows: &mut [Categories],
    walk: &mut NameWalk,
) -> bool
    requires root { IsCategory question.now.graph.now question.now.root.0 }
    requires rows { length rows.old ≡ category_count question.now.graph.now }
    requires edges { length edges.old ≡ length question.now.graph.now.edges }
    requires texts { length question.now.candidates.now.texts ≡ category_count question.now.graph.now }
    requires walk { length walk.old.indexes ≡ category_count question.now.graph.now }
    requires candidates { AreCandidates
        (with_graph question.now.graph.now (map constraint_of question.now.constraints.now))
        (formula_of question.now.formula.now) (candidates_of question.now.candidates.now) }
    ensures some { IsTrue result → IsLeastFrozen
        (with_graph question.now.graph.now (map constraint_of question.now.constraints.now))
        (formula_of question.now.formula.now) question.now.root.0 (candidates_of question.now.candidates.now)
        (chosen_of edges.new walk.new.indexes) }
    ensures zero { IsTrue result → IsZeroAtAll walk.new.indexes }
    ensures none { result ≡ false → (f : TheFrozen)
        → IsFrozen (with_graph question.now.graph.now (map constraint_of question.now.constraints.now))
        (formula_of question.now.formula.now) question.now.root.0 (candidates_of question.now.candidates.now)
        f → ⊥ }
    ensures walk { length walk.new.indexes ≡ category_count question.now.graph.now }
{
    clear(edges, 0);
    'edges: loop {
        if first_names(question, edges, rows, walk) {
            return true;
        }
        if !next_edges(edges) {
            return false;
        }
    }
}

/// Room for a search, made for a graph, constraints, a root and a question.
#[derive(Drop)]
pub struct Search {
    root: CatId,
    candidates: Candidates,
    edges: Vec<bool>,
    walk: NameWalk,
    room: Room,
    alloc: Global,
}

impl Search {
    /// A search for this root and question.
    pub fn new(
        alloc: Global,
        graph: &Graph,
        constraints: &[Constraint],
        root: CatId,
        question: &Formula,
    ) -> Result<Search, Memory>
        requires root { IsCategory graph.now root.0 }
        requires named { CanBeNamed graph.now (map constraint_of constraints.now) (formula_of question.now) }
        ensures { IfOk result (λ search. IsMadeWith graph.now (map constraint_of constraints.now)
            (formula_of question.now) root.0 search) }
    {
        let candidates = Candidates::of(alloc, graph, constraints, question)?;
        let edges = vec![in alloc; false; usize::from(graph.edges())]?;
        let walk = NameWalk::new(alloc, &candidates)?;
        let room = Room::new(alloc, graph)?;
        Ok(Search {
            root,
            candidates,
            edges,
            walk,
            room,
            alloc,
        })
    }

    /// A value of the right sizes with nothing present.
    pub fn blank(&self) -> Result<Frozen, Memory>
        ensures edges { IfOk result (λ f. length f.edges ≡ length self.now.edges.items) }
        ensures names { IfOk result (λ f. length f.names ≡ length self.now.walk.indexes) }
        ensures nothing { IfOk result HasNothing }
    {
        Ok(Frozen {
            root: self.root,
            edges: List::from_vec(vec![in self.alloc; false; self.edges.len()]?),
            names: List::from_vec(vec![in self.alloc; 0; self.walk.indexes().len()]?),
        })
    }

    /// The least frozen dimension whose root makes the question true. False if there is none; then `into` stays.
    ///
    /// It can't return out of memory. Cost: in the worst case each choice of edges and names.
    pub fn first(
        &mut self,
        graph: &Graph,
        constraints: &[Constraint],
        question: &Formula,
        into: &mut Frozen,
    ) -> bool
        requires made { IsMadeWith graph.now (map constraint_of constraints.now) (formula_of question.now)
            self.old.root.0 self.old }
        requires edges { length into.old.edges ≡ length self.old.edges.items }
        requires names { length into.old.names ≡ length self.old.walk.indexes }
        ensures some { IsTrue result → IsLeastFrozen (with_graph graph.now (map constraint_of constraints.now))
            (formula_of question.now) self.old.root.0 (candidates_of self.old.candidates)
            (chosen_of into.new.edges into.new.names) }
        ensures zero { IsTrue result → IsZeroAtAll into.new.names }
        ensures none { result ≡ false → (f : TheFrozen)
            → IsFrozen (with_graph graph.now (map constraint_of constraints.now))
            (formula_of question.now) self.old.root.0 (candidates_of self.old.candidates) f → ⊥ }
        ensures stays { result ≡ false → into.new ≡ into.old }
        ensures candidates { self.new.candidates ≡ self.old.candidates }
        ensures made { IsMadeWith graph.now (map constraint_of constraints.now) (formula_of question.now)
            self.old.root.0 self.new }
    {
        let question = Question {
            graph,
            constraints,
            formula: question,
            root: self.root,
            candidates: &self.candidates,
        };
        let found = least(
            &question,
            &mut self.edges,
            &mut self.room.rows,
            &mut self.walk,
        );
        if found {
            into.root = self.root;
            put_edges(&mut into.edges, &self.edges);
            put_names(&mut into.names, self.walk.indexes());
        }
        found
    }

    /// The candidates of the constraints and the question that it was made with.
    pub fn into_candidates(self) -> Candidates
        ensures { result ≡ self.candidates }
    {
        self.candidates
    }
}
