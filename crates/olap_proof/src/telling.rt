// The knowledge at a place: of edges, of reaching, of names and of comparisons.
ghost use Rattle.std.specs.Prelude.{◌≡◌, IsTrue};
ghost use Rattle.olap_ast.specs.Trees.{op_of};
ghost use Rattle.olap_base.specs.Graph.{IsCategory};
ghost use Rattle.olap_base.specs.Reaching.{category_reaches};
ghost use Rattle.olap_bits.specs.Sets.{members};
ghost use Rattle.olap_proof.specs.Places.{is_known, is_top, leading_graph, leads, possible_graph, truth_of_reach};
ghost use Rattle.olap_proof.specs.Walking.{IsWalk};
ghost use Rattle.olap_proof.specs.Within.{AreKnown, IsWithin, truth_of, when_there};

use crate::Form;
use crate::places::Place;
use crate::walking::{known_from, possible_from};
use olap_ast::{Op, Truth3};
use olap_base::{CatId, Text};
use olap_eval::Partial;
use olap_graph::{Categories, Graph};
use olap_names::Candidates;

/// A place, with the categories that are known to have a member.
#[derive(Clone, Copy)]
pub(crate) struct Known<'a> {
    pub(crate) form: Form,
    pub(crate) graph: &'a Graph,
    pub(crate) candidates: &'a Candidates,
    pub(crate) place: &'a Place,
    pub(crate) root: CatId,
    pub(crate) known: Categories,
    ghost root_is: { place.now.decided.root ≡ root.0 },
    ghost within: { IsWithin graph.now candidates.now place.now },
    ghost all_known: { AreKnown place.now (members known) },
}

/// What a decision says.
fn truth_of(status: Option<bool>) -> Truth3
    ensures { result ≡ truth_of status }
{
    match status {
        Some(true) => Truth3::Yes,
        Some(false) => Truth3::No,
        None => Truth3::Unknown,
    }
}

/// Whether each member is known to reach one of the category.
fn is_top(form: Form, c: CatId) -> bool
    ensures { result ≡ is_top form c.0 }
{
    match form {
        Form::Long => false,
        Form::Short => c.0 == 0,
    }
}

impl<'a> Known<'a> {
    /// Whether the category is known to have a member.
    pub(crate) fn has(&self, c: CatId) -> bool
        ensures known { result ≡ is_known self.now.place.now c.0 }
        ensures category { IsTrue result → IsCategory self.now.graph.now c.0 }
    {
        // Called for its clause: the graph is a hierarchy.
        let _graph = self.graph.categories();
        self.known.has(c.0)
    }

    /// Whether edges and ways that are known to be there lead from the one category to the other.
    fn steps_lead(&self, c: CatId, d: CatId) -> bool
        requires { IsCategory self.now.graph.now c.0 }
        ensures { result ≡ category_reaches (leading_graph self.now.place.now) c.0 d.0 }
    {
        match self.place.leading_row(c) {
            Some(reached) => reached.has(d.0),
            None => known_from(self.graph, self.place, c).has(d.0),
        }
    }

    /// Whether the one category is known to have a member that reaches one of the other.
    pub(crate) fn leads(&self, c: CatId, d: CatId) -> bool
        ensures { result ≡ leads self.now.form self.now.place.now c.0 d.0 }
    {
        self.has(c) && (is_top(self.form, d) || self.steps_lead(c, d))
    }

    /// Whether edges that weren't decided absent lead from the one category to the other.
    fn may_lead(&self, c: CatId, d: CatId) -> bool
        requires { IsCategory self.now.graph.now c.0 }
        ensures { result ≡ category_reaches (possible_graph self.now.place.now.decided) c.0 d.0 }
    {
        match self.place.possible_row(c) {
            Some(reached) => reached.has(d.0),
            None => possible_from(self.graph, self.place, c).has(d.0),
        }
    }

    /// What the root reaches by edges that weren't decided absent.
    pub(crate) fn from_root(&self) -> Categories
        ensures { IsWalk (possible_graph self.now.place.now.decided) self.now.place.now.decided.root (members result) }
    {
        // Called for its clause: the graph is a hierarchy.
        let _graph = self.graph.categories();
        possible_from(self.graph, self.place, self.root)
    }

    /// The same of any numbers.
    pub(crate) fn may_reach(&self, c: CatId, d: CatId) -> bool
        ensures { result ≡ category_reaches (possible_graph self.now.place.now.decided) c.0 d.0 }
    {
        if c.0 < self.graph.categories() {
            return self.may_lead(c, d);
        }
        c.0 == d.0
    }

    /// Whether the one category has a member that reaches one of the other.
    pub(crate) fn truth_of_reach(&self, c: CatId, d: CatId) -> Truth3
        ensures { result ≡ truth_of_reach self.now.form self.now.place.now c.0 d.0 }
    {
        match self.place.way(c, d) {
            Some(there) => truth_of(Some(there)),
            None => {
                if self.leads(c, d) {
                    return Truth3::Yes;
                }
                if self.may_reach(c, d) {
                    return Truth3::Unknown;
                }
                Truth3::No
            }
        }
    }

    /// Whether the category has a member with this name, if its name was decided, and is or isn't this one.
    fn when_there(&self, c: CatId, same: bool) -> Truth3
        ensures { result ≡ when_there self.now.place.now c.0 same }
    {
        if !same {
            return Truth3::No;
        }
        if self.has(c) {
            return Truth3::Yes;
        }
        Truth3::Unknown
    }
}

impl<'a> Partial for Known<'a> {
    ghost use Rattle.olap_names.specs.Names.{candidates_of};
    ghost use Rattle.olap_proof.specs.Places.{knowledge};

    ghost known = { λ s. knowledge s.form (candidates_of s.candidates.now) s.place.now };

    fn edge(&self, c: CatId, d: CatId) -> Truth3 {
        if c.0 >= self.graph.categories() {
            return Truth3::No;
        }
        match self.graph.edge(c, d) {
            Some(e) => truth_of(self.place.status(e)),
            None => Truth3::No,
        }
    }

    fn reaches(&self, c: CatId, d: CatId) -> Truth3 {
        self.truth_of_reach(c, d)
    }

    fn name(&self, c: CatId, k: &Text) -> Truth3 {
        if c.0 == 0 {
            return self.when_there(c, k.bytes() == b"all".as_slice());
        }
        match self.place.index(c) {
            Some(index) => {
                let name = self.candidates.name(c, index);
                self.when_there(c, name.bytes() == k.bytes())
            }
            None => Truth3::Unknown,
        }
    }

    fn number(&self, c: CatId, op: Op, n: i64) -> Truth3 {
        if c.0 == 0 {
            return self.when_there(c, op.passes(b"all".as_slice(), n));
        }
        match self.place.index(c) {
            Some(index) => {
                let name = self.candidates.name(c, index);
                self.when_there(c, op.passes(name.bytes(), n))
            }
            None => Truth3::Unknown,
        }
    }
}
