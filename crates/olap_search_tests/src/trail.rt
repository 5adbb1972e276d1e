// Decisions on a small graph, and what they say. Values by hand.
ghost use Rattle.std.specs.Prelude.{◌≡◌};

use crate::reading::read;
use olap_base::{CatId, EdgeId};
use olap_graph::Graph;
use olap_trail::{Mark, Trail};
use std::alloc::Global;
use std::process::Abort;

// A under B and C, which lie under one another and under D, and D under `All`. The categories are 1 A, 2 B, 3 C, 4 D,
// the edges 0 A-B, 1 A-C, 2 B-D, 3 C-D, 4 B-C, 5 C-B, 6 A-D, 7 D-All.
const DIAMOND: &[u8] = b"schema 1\n\
category A\ncategory B\ncategory C\ncategory D\n\
edge A B\nedge A C\nedge B D\nedge C D\nedge B C\nedge C B\nedge A D\nedge D All\n";

// How many decisions stay, an edge and whether it is then decided present; an edge, and the answers on it.
type Step = (u16, u16, bool, u16, Answers);

// Whether the edge closes a cycle and makes a shortcut, how many categories are present, and whether B reaches D.
type Answers = (bool, bool, u16, bool);

const STEPS: [Step; 10] = [
    (0, 0, true, 1, (false, false, 2, false)),
    // A diamond, edge by edge.
    (1, 1, true, 2, (false, false, 3, false)),
    (2, 2, true, 3, (false, false, 4, true)),
    (3, 3, true, 6, (false, true, 4, true)),
    (4, 7, true, 4, (false, true, 5, true)),
    // An absent edge changes nothing.
    (5, 4, false, 5, (false, true, 5, true)),
    // A-B alone stays; then a cycle is closed.
    (1, 4, true, 5, (true, true, 3, false)),
    (2, 5, true, 6, (true, true, 3, false)),
    // A-B and B-C stay: the cycle is gone.
    (2, 3, true, 1, (false, true, 4, true)),
    // Nothing stays: what isn't reached from A isn't present.
    (0, 2, true, 3, (false, false, 1, true)),
];

// Undoes to the mark, and decides the edge.
fn decide(rt: &impl Abort, graph: &Graph, trail: &mut Trail<1>, mark: u16, edge: u16, present: bool)
    requires { trail.old.graph ≡ graph.now }
    ensures { trail.new.graph ≡ graph.now }
{
    assert!(rt; mark <= trail.mark().0 && edge < graph.edges());
    trail.undo(Mark(mark));
    assert!(rt; trail.mark().0 == mark && trail.status(EdgeId(edge)).is_none());
    trail.decide(EdgeId(edge), present);
    assert!(rt; trail.mark().0 == mark + 1 && trail.status(EdgeId(edge)) == Some(present));
}

fn answers(rt: &impl Abort, graph: &Graph, trail: &Trail<1>, edge: u16) -> Answers
    requires { trail.now.graph ≡ graph.now }
{
    assert!(rt; edge < graph.edges() && graph.categories() == 5);
    let edge = EdgeId(edge);
    (
        trail.closes_cycle(edge),
        trail.makes_shortcut(edge),
        trail.present().len(),
        trail.reaches(CatId(2), CatId(4)),
    )
}

// Each step has its answers.
fn take_steps(rt: &impl Abort, graph: &Graph, trail: &mut Trail<1>)
    requires { trail.old.graph ≡ graph.now }
{
    'steps: for (mark, edge, present, asked, told) in &STEPS {
        decide(rt, graph, trail, *mark, *edge, *present);
        assert!(rt; answers(rt, graph, trail, *asked) == *told);
    }
}

// Takes the steps from no decision on.
fn decide_all(rt: &impl Abort, alloc: Global, graph: &Graph) {
    assert!(rt; graph.categories() == 5);
    let mut trail = Trail::<1>::new(alloc, graph, CatId(1)).expect(rt, "memory");
    take_steps(rt, graph, &mut trail);
}

#[test]
fn what_decisions_say(rt: HostRuntime) {
    let schema = read(&rt, rt.alloc(), DIAMOND);
    decide_all(&rt, rt.alloc(), schema.graph());
}
