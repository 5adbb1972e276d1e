// The asker: what is asked, with all that an answer rests on.
ghost use Rattle.std.specs.Prelude.{◌≡◌, [], IfOk, length};
ghost use Rattle.olap_ast.specs.Trees.{formula_of};
ghost use Rattle.olap_base.specs.Graph.{IsCategory, category_count};
ghost use Rattle.olap_dimsat.specs.Asking.{task_at, task_of};
ghost use Rattle.olap_frozen.specs.LeastFound.{HasNothing};
ghost use Rattle.olap_schema.specs.Schemas.{schema_of};

use olap_ast::Formula;
use olap_base::{CatId, List, Memory};
use olap_encoding::Layout;
use olap_frozen::{Frozen, Room};
use olap_graph::{Graph, WORDS};
use olap_names::{Candidates, Question};
use olap_schema::Schema;
use olap_trail::Trail;
use std::alloc::Global;

/// Decisions on edges.
pub(crate) type Decisions = Trail<{ WORDS }>;

/// A question, and where the variables are.
#[derive(Clone, Copy)]
pub struct Asker<'a> {
    pub(crate) question: Question<'a>,
    pub(crate) layout: &'a Layout,
}

impl<'a> Asker<'a> {
    /// The question at a root of this schema.
    pub(crate) fn of(
        schema: &'a Schema,
        formula: &'a Formula,
        root: CatId,
        candidates: &'a Candidates,
        layout: &'a Layout,
    ) -> Asker<'a>
        ensures { task_of result
            ≡ task_at (schema_of schema.now) (formula_of formula.now) root.0 candidates.now layout.now }
    {
        let question = Question {
            graph: schema.graph(),
            constraints: schema.constraints(),
            formula,
            root,
            candidates,
        };
        Asker { question, layout }
    }
}

/// What a trail decides of edges, what is read off it, and room to test that.
#[derive(Drop)]
pub struct Leaf {
    pub(crate) decided: Decisions,
    pub(crate) frozen: Frozen,
    pub(crate) room: Room,
    /// Whether nothing was undone in this search so far. A hint.
    pub(crate) straight_down: bool,
    /// How many edges were decided when one first came present beside another from its child, if one did. A hint.
    pub(crate) second: Option<u16>,
    /// How many literals stood when the judge was last asked. A hint.
    pub(crate) stood: usize,
}

/// A value with this root, this many edges and names, and nothing present.
pub(crate) fn nothing(
    alloc: Global,
    root: CatId,
    edges: usize,
    names: usize,
) -> Result<Frozen, Memory>
    ensures root { IfOk result (λ f. f.root ≡ root) }
    ensures edges { IfOk result (λ f. length f.edges ≡ edges) }
    ensures names { IfOk result (λ f. length f.names ≡ names) }
    ensures nothing { IfOk result HasNothing }
{
    Ok(Frozen {
        root,
        edges: List::from_vec(vec![in alloc; false; edges]?),
        names: List::from_vec(vec![in alloc; 0; names]?),
    })
}

/// A value with nothing present.
pub(crate) fn blank(alloc: Global, graph: &Graph, root: CatId) -> Result<Frozen, Memory>
    ensures root { IfOk result (λ f. f.root ≡ root) }
    ensures edges { IfOk result (λ f. length f.edges ≡ length graph.now.edges) }
    ensures names { IfOk result (λ f. length f.names ≡ category_count graph.now) }
{
    nothing(
        alloc,
        root,
        usize::from(graph.edges()),
        usize::from(graph.categories()),
    )
}

impl Leaf {
    /// Room for a trail on this graph from this root, with nothing decided.
    pub(crate) fn new(alloc: Global, graph: &Graph, root: CatId) -> Result<Leaf, Memory>
        requires { IsCategory graph.now root.0 }
        ensures decided { IfOk result (λ leaf. leaf.decided
            ≡ record { graph = graph.now; root = root.0; decisions = [] }) }
        ensures root { IfOk result (λ leaf. leaf.frozen.root ≡ root) }
        ensures edges { IfOk result (λ leaf. length leaf.frozen.edges ≡ length graph.now.edges) }
        ensures names { IfOk result (λ leaf. length leaf.frozen.names ≡ category_count graph.now) }
        ensures room { IfOk result (λ leaf. length leaf.room.rows.items ≡ category_count graph.now) }
    {
        // Called for its clauses: there are few categories.
        let _few = graph.categories();
        let frozen = blank(alloc, graph, root)?;
        let room = Room::new(alloc, graph)?;
        let decided = Decisions::new(alloc, graph, root)?;
        Ok(Leaf {
            decided,
            frozen,
            room,
            straight_down: true,
            second: None,
            stood: 0,
        })
    }
}
