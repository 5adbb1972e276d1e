// The lines of a certificate's trees, read from their bytes.
ghost use Rattle.std.specs.Prelude.{◌≡◌, ◌≢◌, ◌↔◌, ◌<◌, ◌^◌, ◌++◌, ◌∷◌, ℕ, suc, Contains, IfSome, IsNone, IsTrue, None, Some, decimal, length, map};
ghost use Rattle.olap_ast.specs.Trees.{constraint_of};
ghost use Rattle.olap_base.specs.Graph.{IsCategory};
ghost use Rattle.olap_graph.specs.Lookups.{name_of_category};
ghost use Rattle.olap_names.specs.Names.{with_graph};
ghost use Rattle.olap_proof.specs.Lines.{edge_words, way_words};
ghost use Rattle.olap_ast.specs.Schema.{Schema};
ghost use Rattle.olap_proof.specs.Reading.{IsLineOf, IsReading, word_at, word_text};
ghost use Rattle.olap_proof.specs.declared.lines.Word.{Word as AnyWord};
ghost use Rattle.olap_proof.specs.declared.lines.Word.TheVariants as declared;

use itoa::Buffer;
use olap_ast::Constraint;
use olap_base::{CatId, EdgeId};
use olap_graph::Graph;
use std::str;

/// A line of a tree: the first three kinds split a place into cases, the others close it.
#[derive(Clone, Copy)]
pub enum Line {
    /// `edge C D`.
    Edge(EdgeId),
    /// `name C`.
    Name(CatId),
    /// `reach C D`.
    Reach(CatId, CatId),
    /// `dead C`.
    Dead(CatId),
    /// `cycle`.
    Cycle,
    /// `shortcut`.
    Shortcut,
    /// `loose C D`.
    LooseEdge(EdgeId),
    /// `loose C`.
    LooseCategory(CatId),
    /// `steps C D`.
    Steps(CatId, CatId),
    /// `constraint N`, by its place: N is one more.
    Constraint(usize),
    /// `question`.
    Question,
}

/// The word that a line begins with.
#[derive(Clone, Copy)]
pub(crate) enum Word {
    Edge,
    Name,
    Reach,
    Dead,
    Cycle,
    Shortcut,
    Loose,
    Steps,
    Constraint,
    Question,
}

/// All of them.
const WORDS: [Word; 10] = [
    Word::Edge,
    Word::Name,
    Word::Reach,
    Word::Dead,
    Word::Cycle,
    Word::Shortcut,
    Word::Loose,
    Word::Steps,
    Word::Constraint,
    Word::Question,
];

impl Word {
    /// As it is spelled.
    fn text(self) -> &'static str
        ensures { result.now ≡ word_text self }
    {
        match self {
            Word::Edge => "edge",
            Word::Name => "name",
            Word::Reach => "reach",
            Word::Dead => "dead",
            Word::Cycle => "cycle",
            Word::Shortcut => "shortcut",
            Word::Loose => "loose",
            Word::Steps => "steps",
            Word::Constraint => "constraint",
            Word::Question => "question",
        }
    }
}

/// What stands before the first such byte, and what stands after it, if there is one.
pub(crate) fn cut(bytes: &[u8], mark: u8) -> (&[u8], Option<&[u8]>)
    ensures some { IfSome result.1 (λ rest. bytes.now ≡ result.0.now ++ mark ∷ rest.now) }
    ensures none { IsNone result.1 → result.0.now ≡ bytes.now }
    ensures first { Contains result.0.now mark → ⊥ }
{
    'bytes: for i in 0..bytes.len() {
        if bytes[i] == mark {
            return (&bytes[..i], Some(&bytes[i + 1..]));
        }
    }
    (bytes, None)
}

/// The first of the words whose bytes these are.
fn word_in(words: &[Word], bytes: &[u8]) -> Option<Word>
    ensures some { IfSome result (λ w. word_text w ≡ bytes.now) }
    ensures none { IsNone result → (k : ℕ) → k < length words.now → word_text (word_at words.now k) ≢ bytes.now }
{
    'words: for i in 0..words.len() {
        if words[i].text().as_bytes() == bytes {
            return Some(words[i]);
        }
    }
    None
}

/// The word that these bytes are.
fn word_of(bytes: &[u8]) -> Option<Word>
    ensures some { IfSome result (λ w. word_text w ≡ bytes.now) }
    ensures none { IsNone result → (w : AnyWord) → word_text w ≢ bytes.now }
{
    word_in(&WORDS, bytes)
}

/// The category of that name.
fn category(graph: &Graph, bytes: &[u8]) -> Option<CatId>
    ensures some { IfSome result (λ c. IsCategory graph.now c.0 × (name_of_category graph.now c.0 ≡ bytes.now)) }
    ensures none { IsNone result → (c : ℕ) → IsCategory graph.now c → name_of_category graph.now c ≢ bytes.now }
{
    graph.category(bytes)
}

/// Two categories, by their names.
fn pair(graph: &Graph, bytes: &[u8]) -> Option<(CatId, CatId)>
    ensures some { IfSome result (λ p. IsCategory graph.now p.0.0 × IsCategory graph.now p.1.0
        × (way_words graph.now p.0.0 p.1.0 ≡ bytes.now)) }
    ensures none { IsNone result → (a b : ℕ) → IsCategory graph.now a → IsCategory graph.now b
        → way_words graph.now a b ≢ bytes.now }
{
    // Called for its clause: the graph is a hierarchy.
    let _graph = graph.categories();
    let (first, rest) = cut(bytes, b' ');
    match rest {
        Some(rest) => {
            let child = category(graph, first)?;
            let parent = category(graph, rest)?;
            Some((child, parent))
        }
        None => None,
    }
}

/// An edge, by the names of its ends.
fn edge(graph: &Graph, bytes: &[u8]) -> Option<EdgeId>
    ensures some { IfSome result (λ e. (e.0 < length graph.now.edges) × (edge_words graph.now e.0 ≡ bytes.now)) }
    ensures none { IsNone result → (e : ℕ) → e < length graph.now.edges → edge_words graph.now e ≢ bytes.now }
{
    // Called for its clause: the graph is a hierarchy.
    let _graph = graph.categories();
    let (child, parent) = pair(graph, bytes)?;
    graph.edge(child, parent)
}

/// Whether the number is spelled so, in decimal without leading zeros.
fn is_spelled(n: u64, bytes: &[u8]) -> bool
    ensures { IsTrue result ↔ (decimal n ≡ bytes.now) }
{
    let mut buffer = Buffer::new();
    buffer.format(n).as_bytes() == bytes
}

/// The number that the text spells, without leading zeros.
fn number_in(text: &str) -> Option<u64>
    ensures some { IfSome result (λ n. (n < 2 ^ 64) × (decimal n ≡ text.now)) }
    ensures none { IsNone result → (n : ℕ) → n < 2 ^ 64 → decimal n ≢ text.now }
{
    match text.parse::<u64>() {
        Ok(n) => {
            if is_spelled(n, text.as_bytes()) {
                Some(n)
            } else {
                None
            }
        }
        Err(_) => None,
    }
}

/// The number that the bytes spell, without leading zeros.
fn number(bytes: &[u8]) -> Option<u64>
    ensures some { IfSome result (λ n. (n < 2 ^ 64) × (decimal n ≡ bytes.now)) }
    ensures none { IsNone result → (n : ℕ) → n < 2 ^ 64 → decimal n ≢ bytes.now }
{
    match str::from_utf8(bytes) {
        Ok(text) => number_in(text),
        Err(_) => None,
    }
}

/// The place of a constraint, by its number, of this many.
fn place(count: usize, bytes: &[u8]) -> Option<usize>
    ensures some { IfSome result (λ n. (n < count) × (decimal (suc n) ≡ bytes.now)) }
    ensures none { IsNone result → (n : ℕ) → n < count → decimal (suc n) ≢ bytes.now }
{
    match number(bytes) {
        Some(n) => {
            if 0 < n && n <= count as u64 {
                Some(n as usize - 1)
            } else {
                None
            }
        }
        None => None,
    }
}

/// The line of a word that stands alone.
fn alone(word: Word) -> Option<Line>
    ensures { (s : Schema) → IsReading s word None result }
{
    match word {
        Word::Cycle => Some(Line::Cycle),
        Word::Shortcut => Some(Line::Shortcut),
        Word::Question => Some(Line::Question),
        Word::Edge | Word::Name | Word::Reach | Word::Dead => None,
        Word::Loose | Word::Steps | Word::Constraint => None,
    }
}

/// The line that says where an edge or a category is loose.
fn loose(graph: &Graph, constraints: &[Constraint], rest: &[u8]) -> Option<Line>
    ensures { IsReading (with_graph graph.now (map constraint_of constraints.now)) declared.Loose (Some rest.now)
        result }
{
    match (category(graph, rest), edge(graph, rest)) {
        (Some(c), _) => Some(Line::LooseCategory(c)),
        (None, Some(e)) => Some(Line::LooseEdge(e)),
        (None, None) => None,
    }
}

/// The line of a word with others after it.
fn line_with_rest(
    graph: &Graph,
    constraints: &[Constraint],
    word: Word,
    rest: &[u8],
) -> Option<Line>
    ensures { IsReading (with_graph graph.now (map constraint_of constraints.now)) word (Some rest.now) result }
{
    match word {
        Word::Edge => Some(Line::Edge(edge(graph, rest)?)),
        Word::Name => Some(Line::Name(category(graph, rest)?)),
        Word::Reach => {
            let (child, parent) = pair(graph, rest)?;
            Some(Line::Reach(child, parent))
        }
        Word::Dead => Some(Line::Dead(category(graph, rest)?)),
        Word::Loose => loose(graph, constraints, rest),
        Word::Steps => {
            let (child, parent) = pair(graph, rest)?;
            Some(Line::Steps(child, parent))
        }
        Word::Constraint => Some(Line::Constraint(place(constraints.len(), rest)?)),
        Word::Cycle | Word::Shortcut | Word::Question => None,
    }
}

/// The line that these bytes are, of a schema with this graph and these constraints.
pub(crate) fn line_of(graph: &Graph, constraints: &[Constraint], bytes: &[u8]) -> Option<Line>
    ensures { IsLineOf (with_graph graph.now (map constraint_of constraints.now)) bytes.now result }
{
    let (first, rest) = cut(bytes, b' ');
    match (word_of(first), rest) {
        (Some(word), Some(rest)) => line_with_rest(graph, constraints, word, rest),
        (Some(word), None) => alone(word),
        (None, _) => None,
    }
}
