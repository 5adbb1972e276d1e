// The decision of summarizability, in memory that is taken before.
ghost use Rattle.std.specs.Prelude.{◌≡◌, ◌<◌, ◌↔◌, ℕ, Contains, IfOk, IsTrue, false, length, slice_index_or};
ghost use Rattle.olap_ast.specs.Summarizable.{IsSummarizable};
ghost use Rattle.olap_dimsat.specs.Searches.{named_in};
ghost use Rattle.olap_frozen.specs.LeastFound.{HasNothing};
ghost use Rattle.olap_schema.specs.Schemas.{schema_of};
ghost use Rattle.olap_summ.specs.Counterexamples.{IsCounterexampleFound};
ghost use Rattle.olap_summ.specs.Decisions.{AreQuestionsFor, HasSizesOf, IsDecisionOf, candidates_at, found_at, roots_in, sources_of, target_of};

use crate::Questions;
use olap_ast::candidates_exist;
use olap_base::{CatId, List, Memory};
use olap_dimsat::Search;
use olap_frozen::Frozen;
use olap_names::Candidates;
use olap_schema::Schema;
use std::alloc::Global;

/// The search of a bottom category.
#[derive(Drop)]
pub(crate) struct Asked {
    root: CatId,
    search: Search,
}

/// Room for a decision of summarizability, made for a schema and its questions.
#[derive(Drop)]
pub struct Decision {
    searches: Vec<Asked>,
    edges: u16,
    categories: u16,
    alloc: Global,
}

impl Decision {
    /// A decision of these questions on this schema. It takes all memory that the decision will use, and borrows
    /// nothing.
    ///
    /// It makes one search for each bottom category, in declaration order, and all of them stand at once; there are at
    /// most 255. Each reserves from 4 to 15 MB to learn in, by the clauses of the schema, and takes what these take.
    pub fn new(alloc: Global, schema: &Schema, questions: &Questions) -> Result<Decision, Memory>
        requires { AreQuestionsFor (schema_of schema.now) questions.now }
        ensures { IfOk result (IsDecisionOf (schema_of schema.now) questions.now) }
    {
        // Called for its clauses: the schema is valid.
        let _valid = schema.constraints();
        let graph = schema.graph();
        let mut searches = Vec::new(alloc);
        'categories: for b in 0..graph.categories() {
            let root = CatId(b);
            if graph.is_bottom(root) {
                let search = Search::new(alloc, schema, root, &questions.formula)?;
                searches.push(Asked { root, search })?;
            }
        }
        Ok(Decision {
            searches,
            edges: graph.edges(),
            categories: graph.categories(),
            alloc,
        })
    }

    /// A value of the schema's sizes with nothing present.
    pub fn blank(&self) -> Result<Frozen, Memory>
        ensures sizes { IfOk result (HasSizesOf self.now) }
        ensures nothing { IfOk result HasNothing }
    {
        Ok(Frozen {
            root: CatId(0),
            edges: List::from_vec(vec![in self.alloc; false; usize::from(self.edges)]?),
            names: List::from_vec(vec![in self.alloc; 0; usize::from(self.categories)]?),
        })
    }

    /// Whether the target is not summarizable from the sources. False exactly if it is; then `into` stays. Where it
    /// isn't, `into` becomes the counterexample: the least frozen dimension of the first bottom category that has one
    /// whose root reaches the target, and not by exactly one source.
    ///
    /// It can't return out of memory. As it is still a decision of these questions, it returns the same at each call.
    pub fn decide(&mut self, schema: &Schema, questions: &Questions, into: &mut Frozen) -> bool
        requires made { IsDecisionOf (schema_of schema.now) questions.now self.old }
        requires sizes { HasSizesOf self.old into.old }
        ensures no { (result ≡ false)
            ↔ IsSummarizable (schema_of schema.now) (target_of questions.now) (sources_of questions.now) }
        ensures stays { result ≡ false → into.new ≡ into.old }
        ensures yes { IsTrue result → IsCounterexampleFound (schema_of schema.now) (target_of questions.now)
            (sources_of questions.now) (found_at self.new into.new) }
        ensures sizes { HasSizesOf self.new into.new }
        ensures made { IsDecisionOf (schema_of schema.now) questions.now self.new }
        ensures candidates { (r : ℕ) → candidates_at self.new r ≡ candidates_at self.old r }
    {
        // Called for its clauses: the schema is valid.
        let _valid = schema.constraints();
        candidates_exist();
        'searches: for asked in self.searches.iter_mut() {
            if asked.search.first(schema, &questions.formula, into) {
                return true;
            }
        }
        false
    }

    // The place of the search of this root.
    fn place_of(&self, root: CatId) -> usize
        requires { Contains (roots_in self.now) root.0 }
        ensures within { result < length self.now.searches.items }
        ensures names { (d : Asked) →
            named_in (slice_index_or self.now.searches.items result d).search ≡ candidates_at self.now root.0 }
    {
        let mut place = 0;
        'searches: while self.searches[place].root.0 != root.0 {
            place += 1;
        }
        place
    }

    // Gives up the search of this root, and returns its candidates.
    fn take_candidates(&mut self, root: CatId) -> Candidates
        requires { Contains (roots_in self.old) root.0 }
        ensures { result ≡ candidates_at self.old root.0 }
    {
        let place = self.place_of(root);
        let asked = self.searches.remove(place);
        asked.search.into_candidates()
    }

    /// The candidates of the question at a bottom category.
    pub fn into_candidates(mut self, root: CatId) -> Candidates
        requires { Contains (roots_in self) root.0 }
        ensures { result ≡ candidates_at self root.0 }
    {
        self.take_candidates(root)
    }
}
