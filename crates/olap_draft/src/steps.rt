// Formulas as steps over a stack of values.
use olap_ast::{Formula, OneCount, Op, Terms, Truth3};
use olap_base::{CatId, EdgeId, Text};
use olap_graph::Graph;
use olap_names::Candidates;
use std::alloc::{AllocError, Global};

/// An atom's value is put on the stack, or a connective takes values off it and puts one there.
#[derive(Clone, Copy)]
pub(crate) enum Step {
    Known(Truth3),
    Edge(EdgeId),
    Reach(CatId, CatId),
    /// The category's name is the one at this index.
    Name(CatId, usize),
    /// The category's name stands before this index: so the lesser numbers do.
    Below(CatId, usize),
    Not,
    And,
    Or,
    Implies,
    Iff,
    Xor,
    /// Exactly one of this many.
    One(usize),
}

/// Values, the last on top.
#[derive(Drop)]
pub(crate) struct Stack {
    values: Vec<Truth3>,
}

impl Stack {
    /// An empty stack.
    pub(crate) fn new(alloc: Global) -> Stack {
        Stack {
            values: Vec::new(alloc),
        }
    }

    /// Takes room for this many values.
    pub(crate) fn reserve(&mut self, count: usize) -> Result<(), AllocError> {
        self.values.reserve(count)
    }

    /// Without values.
    pub(crate) fn clear(&mut self) {
        self.values.clear();
    }

    /// One value more.
    pub(crate) fn push(&mut self, value: Truth3) {
        // There is room for it, so it isn't refused.
        let _pushed = self.values.push(value);
    }

    /// The last value, which is taken off.
    pub(crate) fn pop(&mut self) -> Truth3 {
        match self.values.pop() {
            Some(value) => value,
            None => Truth3::Unknown,
        }
    }

    /// What a connective makes of the values on top, which are taken off.
    pub(crate) fn connect(&mut self, step: Step) -> Truth3 {
        match step {
            Step::Not => self.pop().not(),
            Step::One(count) => {
                let mut counted = OneCount::new();
                'parts: for _ in 0..count {
                    counted.add(self.pop());
                }
                counted.result()
            }
            _ => {
                let right = self.pop();
                let left = self.pop();
                both(step, left, right)
            }
        }
    }
}

/// What a connective of two parts makes of their values.
fn both(step: Step, left: Truth3, right: Truth3) -> Truth3 {
    match step {
        Step::And => left.and(right),
        Step::Or => left.or(right),
        Step::Implies => left.implies(right),
        Step::Iff => left.iff(right),
        Step::Xor => left.xor(right),
        _ => Truth3::Unknown,
    }
}

/// What formulas are made steps of: the graph, and the names of each category.
#[derive(Clone, Copy)]
pub(crate) struct Words<'a> {
    pub(crate) graph: &'a Graph,
    pub(crate) candidates: &'a Candidates,
}

impl<'a> Words<'a> {
    /// The names of a category beside the first, in their order.
    pub(crate) fn others(&self, c: CatId) -> &'a [Text] {
        if c.0 < self.candidates.categories() {
            self.candidates.others(c)
        } else {
            &[]
        }
    }

    /// The test of a category's name.
    fn name(&self, c: CatId, text: &Text) -> Step {
        if c.0 == 0 && text.bytes() == b"all".as_slice() {
            return Step::Name(c, 0);
        }
        let others = self.others(c);
        'others: for i in 0..others.len() {
            if others[i].bytes() == text.bytes() {
                return Step::Name(c, i + 1);
            }
        }
        Step::Known(Truth3::No)
    }

    /// The test of a category's number. Its names ascend.
    fn number(&self, c: CatId, op: Op, n: i64) -> Step {
        let others = self.others(c);
        let mut count = 0usize;
        if c.0 < self.candidates.categories() && op.passes(self.candidates.first(c).bytes(), n) {
            if op == Op::Equal {
                return Step::Name(c, 0);
            }
            count = 1;
        }
        'others: for i in 0..others.len() {
            if op.passes(others[i].bytes(), n) {
                if op == Op::Equal {
                    return Step::Name(c, i + 1);
                }
                count = i + 2;
            }
        }
        Step::Below(c, count)
    }

    /// The test of an edge between two categories.
    fn edge(&self, child: CatId, parent: CatId) -> Step {
        if child.0 >= self.graph.categories() {
            return Step::Known(Truth3::No);
        }
        match self.graph.edge(child, parent) {
            Some(edge) => Step::Edge(edge),
            None => Step::Known(Truth3::No),
        }
    }

    /// Steps of a chain of parents.
    fn push_path(
        &self,
        categories: &[CatId],
        root: CatId,
        steps: &mut Vec<Step>,
    ) -> Result<(), AllocError> {
        let mut at = root;
        put(steps, Step::Known(Truth3::Yes))?;
        'path: for c in categories {
            steps.extend_from_slice(&[self.edge(at, *c), Step::And])?;
            at = *c;
        }
        Ok(())
    }

    /// Steps of two atoms, both of which are asked.
    fn push_two(&self, first: Step, second: Step, steps: &mut Vec<Step>) -> Result<(), AllocError> {
        steps.extend_from_slice(&[first, second, Step::And])
    }

    /// Steps of a formula at a member of the root. It calls itself as deep as the formula is.
    #[cycle(pushing)]
    pub(crate) fn push(
        &self,
        f: &Formula,
        root: CatId,
        steps: &mut Vec<Step>,
    ) -> Result<(), AllocError> {
        match f {
            Formula::Not(g) => {
                self.push(g, root, steps)?;
                put(steps, Step::Not)
            }
            Formula::And(g, h) => self.push_both(g, h, root, Step::And, steps),
            Formula::Or(g, h) => self.push_both(g, h, root, Step::Or, steps),
            Formula::Implies(g, h) => self.push_both(g, h, root, Step::Implies, steps),
            Formula::Iff(g, h) => self.push_both(g, h, root, Step::Iff, steps),
            Formula::Xor(g, h) => self.push_both(g, h, root, Step::Xor, steps),
            Formula::One(terms) => {
                let count = self.push_terms(terms, root, steps)?;
                put(steps, Step::One(count))
            }
            _ => self.push_atom(f, root, steps),
        }
    }

    /// Steps of a formula without parts at a member of the root.
    fn push_atom(&self, f: &Formula, root: CatId, steps: &mut Vec<Step>) -> Result<(), AllocError> {
        match f {
            Formula::True => put(steps, Step::Known(Truth3::Yes)),
            Formula::Path(categories) => self.push_path(categories.items(), root, steps),
            Formula::Reach(d) => put(steps, Step::Reach(root, *d)),
            Formula::Via(d, e) => {
                self.push_two(Step::Reach(root, *d), Step::Reach(*d, *e), steps)
            }
            Formula::Equals(d, text) => {
                self.push_two(Step::Reach(root, *d), self.name(*d, text), steps)
            }
            Formula::Compare(d, op, n) => {
                self.push_two(Step::Reach(root, *d), self.number(*d, *op, *n), steps)
            }
            _ => put(steps, Step::Known(Truth3::No)),
        }
    }

    /// Steps of two parts, and of their connective.
    #[cycle(pushing)]
    fn push_both(
        &self,
        f: &Formula,
        g: &Formula,
        root: CatId,
        step: Step,
        steps: &mut Vec<Step>,
    ) -> Result<(), AllocError> {
        self.push(f, root, steps)?;
        self.push(g, root, steps)?;
        put(steps, step)
    }

    /// Steps of the parts of a list. How many parts it has.
    #[cycle(pushing)]
    fn push_terms(
        &self,
        terms: &Terms,
        root: CatId,
        steps: &mut Vec<Step>,
    ) -> Result<usize, AllocError> {
        let mut count = 0usize;
        let mut left = terms;
        'parts: while let Terms::More(f, rest) = left {
            self.push(f, root, steps)?;
            count = count.wrapping_add(1);
            left = rest;
        }
        Ok(count)
    }
}

/// One step more.
fn put(steps: &mut Vec<Step>, step: Step) -> Result<(), AllocError> {
    steps.extend_from_slice(&[step])
}
