// Trees of lines, and why there may be none.
use olap_ast::Constraint;
use olap_base::{MOST_CERTIFICATE_BYTES, Memory, Refusal};
use olap_graph::Graph;
use olap_proof::{Line, push_known_line};
use std::alloc::{AllocError, Global};

/// How many lines of a tree are written.
const MOST_LINES: u32 = 1 << 22;

/// A tree wasn't found, or it has too many lines.
#[derive(Clone, Copy)]
pub struct GivenUp;

/// A line, and where the trees of its cases are listed.
#[derive(Clone, Copy)]
struct Node {
    line: Line,
    first: usize,
    end: usize,
}

/// Trees, by the places of their nodes. The trees of a node's cases were added before it.
#[derive(Drop)]
pub(crate) struct Trees {
    nodes: Vec<Node>,
    /// The trees of each node's cases, one node after another.
    cases: Vec<usize>,
    /// The trees that are to be written yet, the next one last.
    left: Vec<usize>,
}

impl Trees {
    /// None yet.
    pub(crate) fn new(alloc: Global) -> Trees {
        Trees {
            nodes: Vec::new(alloc),
            cases: Vec::new(alloc),
            left: Vec::new(alloc),
        }
    }

    /// One tree more, of a line and the trees of its cases.
    pub(crate) fn add(&mut self, line: Line, cases: &[usize]) -> Result<usize, Refusal<GivenUp>> {
        let place = self.nodes.len();
        let first = self.cases.len();
        self.cases.extend_from_slice(cases)?;
        let end = self.cases.len();
        self.nodes.extend_from_slice(&[Node { line, first, end }])?;
        Ok(place)
    }

    /// The trees of a node's cases are to be written next, in their order.
    fn leave(&mut self, node: Node) -> Result<(), AllocError> {
        'cases: for place in (node.first..node.end).rev() {
            if place < self.cases.len() {
                self.left.push(self.cases[place])?;
            }
        }
        Ok(())
    }

    /// Appends the lines of a tree. `Memory`: out of memory, or the text is longer than a certificate's file may be.
    pub(crate) fn push_lines(
        &mut self,
        graph: &Graph,
        constraints: &[Constraint],
        tree: usize,
        out: &mut Vec<u8>,
    ) -> Result<(), Refusal<GivenUp>> {
        let mut next = tree;
        'lines: for _ in 0..MOST_LINES {
            if next >= self.nodes.len() {
                break;
            }
            let node = self.nodes[next];
            if !push_known_line(out, graph, constraints, node.line)? {
                break;
            }
            if out.len() as u64 > MOST_CERTIFICATE_BYTES {
                return Err(Refusal::Memory(Memory::full(out)));
            }
            self.leave(node)?;
            match self.left.pop() {
                Some(place) => next = place,
                None => return Ok(()),
            }
        }
        Err(Refusal::Kind(GivenUp))
    }
}
