// Edges on cycles, to categories that were declared earlier and to later ones: each cycle has edges of both sorts.
ghost use Rattle.std.specs.Prelude.{◌<◌, length};
ghost use Rattle.olap_names.specs.Questions.{IsQuestion, question_of};

use olap_base::{CatId, EdgeId};
use olap_names::Question;

/// Where an edge leads: to a category that was declared before the child, or after it.
#[derive(Clone, Copy)]
pub enum Direction {
    /// To one that was declared before the child.
    Earlier,
    /// To one that was declared after it.
    Later,
}

impl Direction {
    // Whether an edge from the child to the parent leads there. No edge is a loop.
    fn has(self, child: CatId, parent: CatId) -> bool {
        match self {
            Direction::Earlier => parent.0 < child.0,
            Direction::Later => child.0 < parent.0,
        }
    }
}

/// Whether an edge leads in this direction, on a cycle that the root reaches.
pub fn is_on_cycle(q: &Question, id: EdgeId, direction: Direction) -> bool
    requires question { IsQuestion (question_of q.now) }
    requires edge { id.0 < length q.now.graph.now.edges }
{
    let (c, d) = q.graph.ends(id);
    direction.has(c, d) && q.graph.reaches(q.root, c) && q.graph.reaches(d, c)
}

// How many edges lead in this direction on cycles that the root reaches.
fn edges_on_cycles(q: &Question, direction: Direction) -> u16
    requires question { IsQuestion (question_of q.now) }
{
    let mut count = 0;
    'edges: for k in 0..q.graph.edges() {
        if is_on_cycle(q, EdgeId(k), direction) {
            count += 1;
        }
    }
    count
}

/// The direction of the fewer edges on cycles.
pub fn rarer(q: &Question) -> Direction
    requires question { IsQuestion (question_of q.now) }
{
    if edges_on_cycles(q, Direction::Later) < edges_on_cycles(q, Direction::Earlier) {
        return Direction::Later;
    }
    Direction::Earlier
}
