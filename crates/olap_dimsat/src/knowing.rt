// The partial shape that a trail tells of the frozen dimensions that agree with it.
ghost use Rattle.std.specs.Prelude.{◌≡◌, ◌<◌, IfSome, length};
ghost use Rattle.olap_base.specs.Graph.{IsCategory, category_count};
ghost use Rattle.olap_base.specs.Naming.{place_of};
ghost use Rattle.olap_dimsat.specs.Asking.{task_of};
ghost use Rattle.olap_dimsat.specs.Knowing.{presence, told, told_of_name, truth_of, way};
ghost use Rattle.olap_dimsat.specs.Tasks.{IsLaid, constant_count};

use crate::asker::{Asker, Decisions};
use olap_ast::{Op, Truth3};
use olap_base::{CatId, Text};
use olap_clauses::{Trail, Value};
use olap_eval::Partial;

/// What is known of edges, of reaching and of names.
#[derive(Clone, Copy)]
pub(crate) struct Known<'a> {
    pub(crate) asker: &'a Asker<'a>,
    pub(crate) trail: &'a Trail,
    pub(crate) decided: &'a Decisions,
    ghost laid: { IsLaid (task_of asker.now) },
    ghost texts: { length asker.now.question.candidates.now.texts ≡ category_count asker.now.question.graph.now },
    ghost categories: { category_count decided.now.graph ≡ category_count asker.now.question.graph.now },
}

// A literal that stands is true.
fn truth(value: Value) -> Truth3
    ensures { result ≡ truth_of value }
{
    match value {
        Value::Yes => Truth3::Yes,
        Value::No => Truth3::No,
        Value::Unknown => Truth3::Unknown,
    }
}

// The place of a text among others.
fn place(texts: &[Text], text: &Text) -> Option<usize>
    ensures { result ≡ place_of text.now texts.now }
{
    'texts: for (i, other) in texts.iter().enumerate() {
        if text.bytes() == other.bytes() {
            return Some(i);
        }
    }
    None
}

impl<'a> Known<'a> {
    /// Whether the category has a member.
    pub(crate) fn presence(&self, c: CatId) -> Truth3
        ensures { result ≡ presence (task_of self.now.asker.now) self.now.trail.now c.0 }
    {
        let asker = self.asker;
        if c.0 >= asker.question.graph.categories() {
            return Truth3::No;
        }
        truth(self.trail.value(asker.layout.present(c)))
    }

    // Whether a walk of present edges leads from one category to another.
    fn way(&self, c: CatId, d: CatId) -> Truth3
        requires child { IsCategory self.now.asker.now.question.graph.now c.0 }
        requires parent { IsCategory self.now.asker.now.question.graph.now d.0 }
        ensures { result ≡ way (task_of self.now.asker.now) self.now.decided.now c.0 d.0 }
    {
        if self.decided.reaches(c, d) {
            return Truth3::Yes;
        }
        let asker = self.asker;
        if asker.question.graph.reaches(c, d) {
            Truth3::Unknown
        } else {
            Truth3::No
        }
    }

    // Whether the category's name is the one at this place beside the first.
    fn named(&self, c: CatId, j: Option<usize>) -> Truth3
        requires category { IsCategory self.now.asker.now.question.graph.now c.0 }
        requires place { IfSome j (λ j. j < constant_count (task_of self.now.asker.now) c.0) }
        ensures { result ≡ told_of_name (task_of self.now.asker.now) self.now.trail.now c.0 j }
    {
        match j {
            Some(j) => truth(self.trail.value(self.asker.layout.name(c, j))),
            None => Truth3::Unknown,
        }
    }
}

impl<'a> Partial for Known<'a> {
    ghost use Rattle.olap_dimsat.specs.Asking.{task_of};
    ghost use Rattle.olap_dimsat.specs.Knowing.{knowledge};

    ghost known = { λ s. knowledge (task_of s.asker.now) s.trail.now s.decided.now };

    fn edge(&self, c: CatId, d: CatId) -> Truth3 {
        let asker = self.asker;
        if c.0 >= asker.question.graph.categories() {
            return Truth3::No;
        }
        match asker.question.graph.edge(c, d) {
            Some(e) => truth(self.trail.value(asker.layout.on(e))),
            None => Truth3::No,
        }
    }

    fn reaches(&self, c: CatId, d: CatId) -> Truth3 {
        let asker = self.asker;
        let categories = asker.question.graph.categories();
        if c.0 >= categories || d.0 >= categories {
            return Truth3::No;
        }
        let both = self.presence(c).and(self.presence(d));
        both.and(self.way(c, d))
    }

    fn name(&self, c: CatId, k: &Text) -> Truth3 {
        let asker = self.asker;
        if c.0 == 0 || c.0 >= asker.question.graph.categories() {
            return Truth3::Unknown;
        }
        self.named(c, place(asker.question.candidates.others(c), k))
    }

    fn number(&self, _c: CatId, _op: Op, _n: i64) -> Truth3 {
        Truth3::Unknown
    }
}
