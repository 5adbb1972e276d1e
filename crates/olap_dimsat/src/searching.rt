// The search as a value: room for one task.
ghost use Rattle.std.specs.Prelude.{◌≡◌, ◌<◌, ◌≤◌, All, IfErr, IfOk, IsTrue, false, length, map, slice_set};
ghost use Rattle.olap_ast.specs.Atoms.{all_comparisons, all_equalities};
ghost use Rattle.olap_ast.specs.Pairs.{pair_count};
ghost use Rattle.olap_ast.specs.Questions.{NoneFrozen};
ghost use Rattle.olap_ast.specs.Trees.{formula_of};
ghost use Rattle.olap_ast.specs.Valid.{IsFormulaAt};
ghost use Rattle.olap_base.specs.Graph.{IsCategory};
ghost use Rattle.olap_base.specs.Limits.{most_constants};
ghost use Rattle.olap_base.specs.Refusing.{IsFor};
ghost use Rattle.olap_dimsat.specs.Listed.{AreAllFrozen, AreMoreThan};
ghost use Rattle.olap_dimsat.specs.OneFound.{IsOneFound};
ghost use Rattle.olap_dimsat.specs.Shapes.{AreMoreShapes, AreShapes};
ghost use Rattle.olap_dimsat.specs.Searches.{IsMadeWith, IsSizedFor, candidates_in, found_in, named_in, root_of};
ghost use Rattle.olap_frozen.specs.LeastFound.{HasNothing, IsLeastFound, frozen_of};
ghost use Rattle.olap_frozen.specs.Leaves.{IsSized, IsZeroAtAll};
ghost use Rattle.olap_schema.specs.Schemas.{schema_of};

use crate::aiming::look;
use crate::asker::{Asker, Leaf, blank, nothing};
use crate::existing::exists;
use crate::listing::list;
use crate::posing::pose;
use crate::settling::{least, places};
use olap_ast::Formula;
use olap_base::{CatId, List, Memory, Refusal};
use olap_clauses::Engine;
use olap_encoding::Layout;
use olap_frozen::Frozen;
use olap_names::Candidates;
use olap_schema::Schema;
use std::alloc::Global;
use std::mem::swap;

/// Room for a search, made for a schema, a root and a question.
#[derive(Drop)]
pub struct Search {
    root: CatId,
    candidates: Candidates,
    layout: Layout,
    engine: Engine,
    leaf: Leaf,
    best: Frozen,
    alloc: Global,
}

/// Why there is no list of frozen dimensions: there are more than it may have.
#[derive(Clone, Copy, PartialEq, Eq, Debug)]
pub struct TooMany;

// Hands out what was found, with 0 as the index of `All`, and keeps what was brought in its place, at this root.
fn hand_out(root: CatId, found: &mut Frozen, into: &mut Frozen)
    requires { 0 < length found.old.names }
    ensures into_root { into.new.root ≡ found.old.root }
    ensures into_edges { into.new.edges ≡ found.old.edges }
    ensures into_names { into.new.names ≡ slice_set found.old.names 0 0 }
    ensures left_root { found.new.root ≡ root }
    ensures left_edges { found.new.edges ≡ into.old.edges }
    ensures left_names { found.new.names ≡ into.old.names }
{
    into.root = root;
    swap(into, found);
    into.names.set(0, 0);
}

impl Search {
    /// A search for this root and question. It takes all memory that the search will use.
    pub fn new(
        alloc: Global,
        schema: &Schema,
        root: CatId,
        question: &Formula,
    ) -> Result<Search, Memory>
        requires root { IsCategory (schema_of schema.now).graph root.0 }
        requires question { IsFormulaAt (schema_of schema.now).graph root.0 (formula_of question.now) }
        requires few { pair_count (all_equalities (schema_of schema.now) (formula_of question.now))
            (all_comparisons (schema_of schema.now) (formula_of question.now)) ≤ most_constants }
        ensures made { IfOk result (IsMadeWith (schema_of schema.now) (formula_of question.now)) }
        ensures root { IfOk result (λ search. root_of search ≡ root.0) }
    {
        let graph = schema.graph();
        let constraints = schema.constraints();
        let best = blank(alloc, graph, root)?;
        let leaf = Leaf::new(alloc, graph, root)?;
        let posed = pose(alloc, graph, constraints, root, question)?;
        Ok(Search {
            root,
            candidates: posed.candidates,
            layout: posed.layout,
            engine: posed.engine,
            leaf,
            best,
            alloc,
        })
    }

    /// A value of the right sizes with nothing present.
    pub fn blank(&self) -> Result<Frozen, Memory>
        ensures sizes { IfOk result (IsSizedFor self.now) }
        ensures nothing { IfOk result HasNothing }
        ensures root { IfOk result (λ f. f.root.0 ≡ root_of self.now) }
    {
        let edges = self.best.edges.items().len();
        let names = self.best.names.items().len();
        nothing(self.alloc, self.root, edges, names)
    }

    /// The least frozen dimension whose root makes the question true. False if there is none; then `into` stays.
    ///
    /// It can't return out of memory.
    pub fn first(&mut self, schema: &Schema, question: &Formula, into: &mut Frozen) -> bool
        requires made { IsMadeWith (schema_of schema.now) (formula_of question.now) self.old }
        requires sizes { IsSizedFor self.old into.old }
        ensures some { IsTrue result → IsLeastFound (schema_of schema.now) (formula_of question.now)
            (root_of self.old) (found_in self.old into.new) }
        ensures none { result ≡ false → NoneFrozen (schema_of schema.now) (formula_of question.now)
            (root_of self.old) (candidates_in self.old) }
        ensures stays { result ≡ false → into.new ≡ into.old }
        ensures candidates { named_in self.new ≡ named_in self.old }
        ensures root { root_of self.new ≡ root_of self.old }
        ensures made { IsMadeWith (schema_of schema.now) (formula_of question.now) self.new }
    {
        let asker = Asker::of(schema, question, self.root, &self.candidates, &self.layout);
        let found = least(&mut self.engine, &asker, &mut self.leaf, &mut self.best);
        self.engine.undo(0);
        if !found {
            return false;
        }
        hand_out(self.root, &mut self.best, into);
        true
    }

    /// Any frozen dimension whose root makes the question true. False if there is none; then `into` stays.
    ///
    /// It can't return out of memory. It is one search, whereas `first` makes one more for each edge and each name that
    /// may yet be less. Which one it finds may differ from call to call.
    pub fn any(&mut self, schema: &Schema, question: &Formula, into: &mut Frozen) -> bool
        requires made { IsMadeWith (schema_of schema.now) (formula_of question.now) self.old }
        requires sizes { IsSizedFor self.old into.old }
        ensures some { IsTrue result → IsOneFound (schema_of schema.now) (formula_of question.now)
            (root_of self.old) (found_in self.old into.new) }
        ensures none { result ≡ false → NoneFrozen (schema_of schema.now) (formula_of question.now)
            (root_of self.old) (candidates_in self.old) }
        ensures stays { result ≡ false → into.new ≡ into.old }
        ensures candidates { named_in self.new ≡ named_in self.old }
        ensures root { root_of self.new ≡ root_of self.old }
        ensures made { IsMadeWith (schema_of schema.now) (formula_of question.now) self.new }
    {
        let asker = Asker::of(schema, question, self.root, &self.candidates, &self.layout);
        let found = exists(&mut self.engine, &asker, &mut self.leaf);
        self.engine.undo(0);
        if !found {
            return false;
        }
        hand_out(self.root, &mut self.leaf.frozen, into);
        true
    }

    /// Some frozen dimension whose root makes the question true, looked for where the target is likely reached by way
    /// of exactly the sources whose bits are in the mask. What it finds may be of another kind. It gives up soon:
    /// false means nothing, and then `into` stays.
    ///
    /// It can't return out of memory.
    pub fn look(
        &mut self,
        schema: &Schema,
        question: &Formula,
        target: CatId,
        sources: &[CatId],
        mask: u16,
        into: &mut Frozen,
    ) -> bool
        requires made { IsMadeWith (schema_of schema.now) (formula_of question.now) self.old }
        requires target { IsCategory (schema_of schema.now).graph target.0 }
        requires sizes { IsSizedFor self.old into.old }
        ensures some { IsTrue result → IsOneFound (schema_of schema.now) (formula_of question.now)
            (root_of self.old) (found_in self.old into.new) }
        ensures stays { result ≡ false → into.new ≡ into.old }
        ensures candidates { named_in self.new ≡ named_in self.old }
        ensures root { root_of self.new ≡ root_of self.old }
        ensures made { IsMadeWith (schema_of schema.now) (formula_of question.now) self.new }
    {
        let asker = Asker::of(schema, question, self.root, &self.candidates, &self.layout);
        let found = look(
            &mut self.engine,
            &asker,
            &mut self.leaf,
            target,
            sources,
            mask,
        );
        self.engine.undo(0);
        if !found {
            return false;
        }
        hand_out(self.root, &mut self.leaf.frozen, into);
        true
    }

    /// All frozen dimensions whose root makes the question true, by their codes, if they are at most `limit`.
    ///
    /// `TooMany`: exactly if there are more. It takes memory for the list, and for a branch at each edge and
    /// category.
    pub fn all(
        &mut self,
        schema: &Schema,
        question: &Formula,
        limit: usize,
    ) -> Result<List<Frozen>, Refusal<TooMany>>
        requires made { IsMadeWith (schema_of schema.now) (formula_of question.now) self.old }
        ensures all { IfOk result (λ list. AreAllFrozen (schema_of schema.now) (formula_of question.now)
            (root_of self.old) (candidates_in self.old) (map frozen_of list)) }
        ensures few { IfOk result (λ list. length list ≤ limit) }
        ensures roots { IfOk result (λ list. All (λ f. f.root.0 ≡ root_of self.old) list) }
        ensures sized { IfOk result (λ list. All
            (λ f. IsSized (schema_of schema.now).graph (named_in self.old) f.edges f.names) list) }
        ensures zero { IfOk result (λ list. All (λ f. IsZeroAtAll f.names) list) }
        ensures too_many { IfErr result (IsFor (λ _. AreMoreThan limit (schema_of schema.now)
            (formula_of question.now) (root_of self.old) (candidates_in self.old))) }
        ensures candidates { named_in self.new ≡ named_in self.old }
        ensures root { root_of self.new ≡ root_of self.old }
        ensures made { IsMadeWith (schema_of schema.now) (formula_of question.now) self.new }
    {
        let asker = Asker::of(schema, question, self.root, &self.candidates, &self.layout);
        let apart = places(&asker);
        let listed = list(
            self.alloc,
            &mut self.engine,
            &asker,
            &mut self.leaf,
            &mut self.best,
            apart,
            limit,
        );
        self.engine.undo(0);
        listed
    }

    /// For each set of edges that a frozen dimension has whose root makes the question true, the least one with these
    /// edges, by their codes, if they are at most `limit`.
    ///
    /// `TooMany`: exactly if there are more. It takes memory as `all` does. What it goes through are sets of edges,
    /// however many names each can have.
    pub fn shapes(
        &mut self,
        schema: &Schema,
        question: &Formula,
        limit: usize,
    ) -> Result<List<Frozen>, Refusal<TooMany>>
        requires made { IsMadeWith (schema_of schema.now) (formula_of question.now) self.old }
        ensures all { IfOk result (λ list. AreShapes (schema_of schema.now) (formula_of question.now)
            (root_of self.old) (candidates_in self.old) (map frozen_of list)) }
        ensures few { IfOk result (λ list. length list ≤ limit) }
        ensures roots { IfOk result (λ list. All (λ f. f.root.0 ≡ root_of self.old) list) }
        ensures sized { IfOk result (λ list. All
            (λ f. IsSized (schema_of schema.now).graph (named_in self.old) f.edges f.names) list) }
        ensures zero { IfOk result (λ list. All (λ f. IsZeroAtAll f.names) list) }
        ensures too_many { IfErr result (IsFor (λ _. AreMoreShapes limit (schema_of schema.now)
            (formula_of question.now) (root_of self.old) (candidates_in self.old))) }
        ensures candidates { named_in self.new ≡ named_in self.old }
        ensures root { root_of self.new ≡ root_of self.old }
        ensures made { IsMadeWith (schema_of schema.now) (formula_of question.now) self.new }
    {
        let asker = Asker::of(schema, question, self.root, &self.candidates, &self.layout);
        let edges = asker.question.graph.edges();
        let listed = list(
            self.alloc,
            &mut self.engine,
            &asker,
            &mut self.leaf,
            &mut self.best,
            edges,
            limit,
        );
        self.engine.undo(0);
        listed
    }

    /// The candidates of the schema and the question that it was made with.
    pub fn candidates(&self) -> &Candidates
        ensures { result.now ≡ named_in self.now }
    {
        &self.candidates
    }

    /// The same, of a search that is over.
    pub fn into_candidates(self) -> Candidates
        ensures { result ≡ named_in self }
    {
        self.candidates
    }
}
