// A place in a tree that is written: decisions are taken there, and taken back.
ghost use Rattle.std.specs.Prelude.{◌≡◌, ◌<◌, ℕ, Bool, IfOk, IfSome, IsNone, None, OnOk, length};
ghost use Rattle.olap_base.specs.Graph.{IsCategory};
ghost use Rattle.olap_proof.specs.Asking.{IsAsked, IsClosing, IsOpenTo, names_in, schema_in};
ghost use Rattle.olap_proof.specs.Certificates.{start, with_edge, with_name};
ghost use Rattle.olap_proof.specs.Lines.{Line as AnyLine};
ghost use Rattle.olap_proof.specs.Closing.{IsAbout};
ghost use Rattle.olap_proof.specs.Places.{Place as Decisions, index_of, is_known};
ghost use Rattle.olap_proof.specs.Trees.{IsPlaceOf};
ghost use Rattle.olap_trail.specs.Decisions.{status_of};

use crate::Form;
use crate::asking::Asked;
use crate::closing::closing_line;
use crate::knowing::known_at;
use crate::lines::Line;
use crate::places::Place;
use crate::telling::Known;
use olap_base::{CatId, EdgeId, Memory};
use olap_graph::Graph;
use std::alloc::Global;
use std::marker::Model;

/// A place with its root.
#[derive(Drop)]
pub(crate) struct Case {
    root: CatId,
    place: Place,
}

impl Model for Case {
    ghost use Rattle.olap_proof.specs.Places.{Place as Decisions};

    ghost Value = { Decisions };

    ghost use Rattle.olap_proof.specs.Rooted.{IsRooted, place_in};

    ghost view = { place_in };

    ghost invariant = { IsRooted };
}

impl Case {
    /// The place at which nothing is decided. `Memory`: out of memory.
    pub(crate) fn start(alloc: Global, graph: &Graph, root: CatId) -> Result<Case, Memory>
        requires { IsCategory graph.now root.0 }
        ensures { IfOk result (λ case. case ≡ start graph.now root.0) }
    {
        let place = Place::new(alloc, graph, root)?;
        Ok(Case { root, place })
    }

    /// What is decided of the edge.
    pub(crate) fn status(&self, edge: EdgeId) -> Option<bool>
        requires { edge.0 < length self.now.decided.graph.edges }
        ensures { result ≡ status_of self.now.decided edge.0 }
    {
        self.place.status(edge)
    }

    /// The index that is decided for the category's name.
    pub(crate) fn index(&self, c: CatId) -> Option<u16>
        ensures { result ≡ index_of self.now.namings c.0 }
    {
        self.place.index(c)
    }

    /// Whether the category is known to have a member.
    pub(crate) fn is_known(&self, asked: &Asked<'_>, c: CatId) -> bool
        requires asked { IsAsked asked.now }
        requires place { IsPlaceOf asked.now.graph.now (names_in asked.now) self.now }
        ensures { result ≡ is_known self.now c.0 }
    {
        known_at(asked.graph, &self.place, self.root).has(c.0)
    }

    /// A line of the form that closes the place, if one does.
    pub(crate) fn closing_line(&self, asked: &Asked<'_>, form: Form) -> Option<Line>
        requires asked { IsAsked asked.now }
        requires place { IsPlaceOf asked.now.graph.now (names_in asked.now) self.now }
        ensures some { IfSome result (IsClosing form asked.now self.now) }
        ensures none { IsNone result → (l : AnyLine) → IsAbout (schema_in asked.now) l
            → IsOpenTo form asked.now self.now l }
    {
        let known = Known {
            form,
            graph: asked.graph,
            candidates: asked.candidates,
            place: &self.place,
            root: self.root,
            known: known_at(asked.graph, &self.place, self.root),
        };
        closing_line(&known, asked.constraints, asked.question)
    }

    /// One decision more, on an edge.
    pub(crate) fn decide(&mut self, edge: EdgeId, present: bool)
        requires edge { edge.0 < length self.old.decided.graph.edges }
        requires open { status_of self.old.decided edge.0 ≡ None }
        ensures { self.new ≡ with_edge self.old edge.0 present }
    {
        self.place.decide(edge, present);
    }

    /// Without the last decision on an edge.
    pub(crate) fn undecide(&mut self)
        ensures { (p : Decisions) (e : ℕ) (b : Bool) → self.old ≡ with_edge p e b → self.new ≡ p }
    {
        self.place.undecide();
    }

    /// One decision more, on a name. `Memory`: out of memory.
    pub(crate) fn name(&mut self, c: CatId, index: u16) -> Result<(), Memory>
        ensures { OnOk result (self.new ≡ with_name self.old c.0 index) }
    {
        self.place.name(c, index)
    }

    /// Without the last decision on a name.
    pub(crate) fn unname(&mut self)
        ensures { (p : Decisions) (c i : ℕ) → self.old ≡ with_name p c i → self.new ≡ p }
    {
        self.place.unname();
    }
}
