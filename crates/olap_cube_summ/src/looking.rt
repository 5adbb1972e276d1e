// The patterns that are soon found.
ghost use Rattle.std.specs.Prelude.{◌<◌, ◌≤◌, IfOk, IfSome, length};
ghost use Rattle.olap_base.specs.Graph.{IsBottom};
ghost use Rattle.olap_base.specs.Limits.{most_views};
ghost use Rattle.olap_cube_summ.specs.Looking.{IsLookout};
ghost use Rattle.olap_cube_summ.specs.Patterns.{AreFound, IsSmallPatternOf};
ghost use Rattle.olap_cube_summ.specs.Questions.{IsQuestionOf};
ghost use Rattle.olap_dimsat.specs.Searches.{root_of};
ghost use Rattle.olap_schema.specs.Schemas.{schema_of};

use crate::masks::{PATTERNS, Patterns, all};
use crate::questions::Question;
use crate::ways::pattern;
use olap_ast::Formula;
use olap_base::{CatId, Memory};
use olap_dimsat::Search;
use olap_frozen::Room;
use olap_schema::Schema;
use std::alloc::Global;

// A search for the frozen dimensions of a root that reach the target of a question, and room to test their ways.
#[derive(Drop)]
struct Lookout {
    search: Search,
    room: Room,
}

// The patterns' bits of the first sources.
fn beginnings(patterns: &Patterns, first: u16) -> Patterns {
    let mut beginnings = Patterns::empty();
    'patterns: for p in 0..PATTERNS {
        if patterns.has(p) {
            beginnings = beginnings.with(p & first);
        }
    }
    beginnings
}

// The first bits up to the source's that none of the patterns has, though one has them with the source's turned.
fn turned(patterns: &Patterns, source: usize) -> Patterns
    requires { source < most_views }
{
    let first = all(source + 1);
    let beginnings = beginnings(patterns, first);
    let mut turned = Patterns::empty();
    'patterns: for p in 0..PATTERNS {
        let other = (p ^ (1 << source)) & first;
        if beginnings.has(p) && other < PATTERNS {
            turned = turned.with(other);
        }
    }
    turned.minus(beginnings)
}

impl Lookout {
    // Room to look for the frozen dimensions of this root.
    fn new(
        alloc: Global,
        schema: &Schema,
        question: &Question,
        root: CatId,
    ) -> Result<Lookout, Memory>
        requires question { IsQuestionOf (schema_of schema.now) question.now }
        requires root { IsBottom (schema_of schema.now).graph root.0 }
        ensures { IfOk result (IsLookout (schema_of schema.now) question.now root.0) }
    {
        // Called for its clauses: the schema is valid.
        let _valid = schema.constraints();
        let room = Room::new(alloc, schema.graph())?;
        let search = Search::new(alloc, schema, root, &Formula::Reach(question.target))?;
        Ok(Lookout { search, room })
    }

    // The pattern of a frozen dimension, looked for where the target is reached by way of exactly those of the first
    // sources whose bits are in the mask. There may be one of this kind, though none is found or one of another.
    fn pattern(
        &mut self,
        schema: &Schema,
        question: &Question,
        first: usize,
        mask: u16,
    ) -> Result<Option<u16>, Memory>
        requires question { IsQuestionOf (schema_of schema.now) question.now }
        requires root { IsBottom (schema_of schema.now).graph (root_of self.old.search) }
        requires lookout { IsLookout (schema_of schema.now) question.now (root_of self.old.search) self.old }
        requires first { first ≤ length question.now.sources }
        ensures pattern { IfOk result (λ o. IfSome o
            (IsSmallPatternOf (schema_of schema.now) question.now (root_of self.old.search))) }
        ensures lookout { IfOk result (λ _. IsLookout (schema_of schema.now) question.now
            (root_of self.old.search) self.new) }
    {
        let mut frozen = self.search.blank()?;
        let reach = Formula::Reach(question.target);
        let sources = &question.sources.items()[..first];
        if !self.search.look(schema, &reach, question.target, sources, mask, &mut frozen) {
            return Ok(None);
        }
        let candidates = self.search.candidates();
        let pattern = pattern(schema, question, candidates, &frozen, &mut self.room);
        Ok(Some(pattern))
    }

    // The patterns, and one that is found so, if one is.
    fn joined(
        &mut self,
        schema: &Schema,
        question: &Question,
        patterns: Patterns,
        first: usize,
        mask: u16,
    ) -> Result<Patterns, Memory>
        requires question { IsQuestionOf (schema_of schema.now) question.now }
        requires root { IsBottom (schema_of schema.now).graph (root_of self.old.search) }
        requires lookout { IsLookout (schema_of schema.now) question.now (root_of self.old.search) self.old }
        requires first { first ≤ length question.now.sources }
        requires found { AreFound (schema_of schema.now) question.now (root_of self.old.search) patterns }
        ensures found { IfOk result (AreFound (schema_of schema.now) question.now (root_of self.old.search)) }
        ensures lookout { IfOk result (λ _. IsLookout (schema_of schema.now) question.now
            (root_of self.old.search) self.new) }
    {
        match self.pattern(schema, question, first, mask)? {
            Some(new) => Ok(patterns.with(new)),
            None => Ok(patterns),
        }
    }

    // The patterns, with those that are found where all is as in one of them up to this source, and this is otherwise.
    fn widened(
        &mut self,
        schema: &Schema,
        question: &Question,
        patterns: Patterns,
        source: usize,
    ) -> Result<Patterns, Memory>
        requires question { IsQuestionOf (schema_of schema.now) question.now }
        requires root { IsBottom (schema_of schema.now).graph (root_of self.old.search) }
        requires lookout { IsLookout (schema_of schema.now) question.now (root_of self.old.search) self.old }
        requires source { source < length question.now.sources }
        requires found { AreFound (schema_of schema.now) question.now (root_of self.old.search) patterns }
        ensures found { IfOk result (AreFound (schema_of schema.now) question.now (root_of self.old.search)) }
        ensures lookout { IfOk result (λ _. IsLookout (schema_of schema.now) question.now
            (root_of self.old.search) self.new) }
    {
        let turned = turned(&patterns, source);
        let mut found = patterns;
        'masks: for mask in 0..PATTERNS {
            if turned.has(mask) {
                found = self.joined(schema, question, found, source + 1, mask)?;
            }
        }
        Ok(found)
    }

    // Patterns, of which each is that of a frozen dimension. Mostly they are all, but nothing says so.
    fn patterns(&mut self, schema: &Schema, question: &Question) -> Result<Patterns, Memory>
        requires question { IsQuestionOf (schema_of schema.now) question.now }
        requires root { IsBottom (schema_of schema.now).graph (root_of self.old.search) }
        requires lookout { IsLookout (schema_of schema.now) question.now (root_of self.old.search) self.old }
        ensures { IfOk result (AreFound (schema_of schema.now) question.now (root_of self.old.search)) }
    {
        let mut patterns = self.joined(schema, question, Patterns::empty(), 0, 0)?;
        'sources: for source in 0..question.sources.items().len() {
            patterns = self.widened(schema, question, patterns, source)?;
        }
        Ok(patterns)
    }
}

/// Patterns of frozen dimensions with this root that are soon found, by one search that is given which sources are to
/// be ways to the target.
pub(crate) fn soon_found(
    alloc: Global,
    schema: &Schema,
    question: &Question,
    root: CatId,
) -> Result<Patterns, Memory>
    requires question { IsQuestionOf (schema_of schema.now) question.now }
    requires root { IsBottom (schema_of schema.now).graph root.0 }
    ensures { IfOk result (AreFound (schema_of schema.now) question.now root.0) }
{
    let mut lookout = Lookout::new(alloc, schema, question, root)?;
    lookout.patterns(schema, question)
}
