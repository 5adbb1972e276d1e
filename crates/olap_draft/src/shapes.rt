// Shapes of which some edges, names and ways are decided, in tables.
use crate::decided::{Decided, Decision};
use crate::rows::{Drawing, Rows, meet, reaches, with};
use crate::steps::{Stack, Step};
use crate::tasks::{Task, Variable};
use olap_ast::Truth3;
use olap_base::{CatId, EdgeId};
use olap_graph::{Categories, Graph};
use olap_proof::{Form, Line};
use std::alloc::{AllocError, Global};

/// How many steps a search may take, over all bottom categories. A step is a look at a line, an edge or a part of a
/// formula.
pub(crate) const MOST_WORK: usize = 1 << 26;

/// What a decision has changed: the categories about which more is known, and whether an edge is present.
#[derive(Clone, Copy)]
pub(crate) struct Touched {
    categories: Categories,
    draws: bool,
}

/// What is decided, and what is then known.
#[derive(Drop)]
pub(crate) struct Shape {
    root: CatId,
    pub(crate) decided: Decided,
    rows: Rows,
    /// Whether what is known must be read off anew.
    is_stale: bool,
    stack: Stack,
    /// The steps that were taken, one item each: so a list of them may be full, as another may.
    pub(crate) work: Vec<()>,
}

impl Shape {
    /// Nothing is decided, and there is no variable.
    pub(crate) fn new(alloc: Global, root: CatId) -> Shape {
        Shape {
            root,
            decided: Decided::new(alloc),
            rows: Rows::new(alloc),
            is_stale: true,
            stack: Stack::new(alloc),
            work: Vec::new(alloc),
        }
    }

    /// Takes room for all decisions of the task, and for the values of its formulas.
    pub(crate) fn reserve(&mut self, task: &Task<'_>) -> Result<(), AllocError> {
        let categories = usize::from(task.graph.categories());
        self.stack.reserve(task.most_steps())?;
        self.rows.resize(categories)?;
        self.decided.reserve(task)
    }

    /// Counts this many more steps.
    pub(crate) fn spend(&mut self, steps: usize) {
        let count = self.work.len().wrapping_add(steps);
        // Items without a size take no room, so they aren't refused.
        let _resized = self.work.resize(count, ());
    }

    /// Whether the work is more than it may be.
    pub(crate) fn is_spent(&self) -> bool {
        self.work.len() > MOST_WORK
    }

    /// The variable of the decision at a place.
    fn variable(&self, task: &Task<'_>, place: usize) -> Variable {
        task.variable(self.decided.decision(place).variable)
    }

    // ---- what is known

    /// Reads what is known off the decisions, if they have changed: all of it, or what a line asks.
    pub(crate) fn freshen(&mut self, task: &Task<'_>, line: Option<Line>) {
        if !self.is_stale {
            return;
        }
        let drawing = Drawing {
            task,
            decided: &self.decided,
        };
        let (asks_drawn, asks_led, asks_open) = match line {
            Some(Line::Dead(_)) => (false, false, false),
            Some(Line::Cycle | Line::Shortcut) => (true, false, false),
            Some(Line::LooseEdge(_)) => (false, false, true),
            Some(_) => (false, true, true),
            None => (true, true, true),
        };
        self.is_stale = line.is_some();
        self.rows.read_known(&drawing, self.root);
        if asks_drawn {
            self.rows.read_drawn(&drawing);
        }
        if asks_led {
            self.rows.read_led(&drawing);
        }
        if asks_open {
            self.rows.read_open(&drawing);
        }
        self.spend(task.size());
        if task.form == Form::Short {
            self.read_ways(task);
        }
    }

    /// Adds the ways that were decided to what is known.
    fn read_ways(&mut self, task: &Task<'_>) {
        'decisions: for i in 0..self.decided.count() {
            if let Variable::Way(c, d) = self.variable(task, i) {
                if self.decided.way(c, d) == Some(true) {
                    self.spend(task.size() / 4);
                    self.rows.lead(task, c, d);
                }
            }
        }
    }

    /// Whether the category is known to have a member.
    pub(crate) fn has(&self, c: CatId) -> bool {
        self.rows.known.has(c.0)
    }

    /// Whether the one category's member is known to lead to the other.
    fn leads(&self, form: Form, c: CatId, d: CatId) -> bool {
        self.has(c) && (form == Form::Short && d.0 == 0 || reaches(&self.rows.led, c, d))
    }

    /// Whether the one category has a member that reaches one of the other.
    pub(crate) fn reached(&self, form: Form, c: CatId, d: CatId) -> Truth3 {
        match self.decided.way(c, d) {
            Some(true) => Truth3::Yes,
            Some(false) => Truth3::No,
            None => {
                if self.leads(form, c, d) {
                    Truth3::Yes
                } else if reaches(&self.rows.open, c, d) {
                    Truth3::Unknown
                } else {
                    Truth3::No
                }
            }
        }
    }

    /// Whether the category's name is one from this index on, before that one.
    fn named(&self, c: CatId, from: usize, to: usize) -> Truth3 {
        match self.decided.name(c) {
            None => Truth3::Unknown,
            Some(decided) => {
                if decided < from || decided >= to {
                    Truth3::No
                } else if self.has(c) {
                    Truth3::Yes
                } else {
                    Truth3::Unknown
                }
            }
        }
    }

    /// The value of a formula's steps.
    pub(crate) fn value(&mut self, form: Form, steps: &[Step]) -> Truth3 {
        self.stack.clear();
        self.spend(steps.len() / 2);
        'steps: for i in 0..steps.len() {
            let value = match steps[i] {
                Step::Known(value) => value,
                Step::Edge(e) => match self.decided.edge(e) {
                    Some(true) => Truth3::Yes,
                    Some(false) => Truth3::No,
                    None => Truth3::Unknown,
                },
                Step::Reach(c, d) => self.reached(form, c, d),
                Step::Name(c, index) => self.named(c, index, index.wrapping_add(1)),
                Step::Below(c, count) => self.named(c, 0, count),
                step => self.stack.connect(step),
            };
            self.stack.push(value);
        }
        self.stack.pop()
    }

    // ---- decisions

    /// Makes one more decision. Returns the categories about which more is then known.
    pub(crate) fn decide(&mut self, task: &Task<'_>, decision: Decision) -> Touched {
        self.decided.push(task, decision);
        self.rows.keep();
        let mut draws = false;
        let c = match task.variable(decision.variable) {
            Variable::Edge(e) => {
                let (child, parent) = task.ends(e);
                self.spend(task.size() / 2);
                if decision.value == 1 {
                    draws = true;
                    self.rows.add_edge(task, child, parent);
                } else {
                    let drawing = Drawing {
                        task,
                        decided: &self.decided,
                    };
                    self.rows.drop_edge(&drawing, child);
                }
                child
            }
            Variable::Name(c) => c,
            Variable::Way(c, d) => {
                if decision.value == 1 {
                    self.spend(task.size() / 4);
                    self.rows.add_way(task, c, d);
                }
                c
            }
        };
        Touched {
            categories: with(self.rows.touched(), c),
            draws,
        }
    }

    /// Whether some decision from one place of the trail up to another is on an edge or a way.
    fn draws_between(&self, task: &Task<'_>, from: usize, to: usize) -> bool {
        'decisions: for i in from..to {
            if !matches!(self.variable(task, i), Variable::Name(_)) {
                return true;
            }
        }
        false
    }

    /// Gives the decisions from one place of the trail up to another their values, or takes these away.
    pub(crate) fn set_between(&mut self, task: &Task<'_>, from: usize, to: usize, given: bool) {
        self.decided.set_between(task, from, to, given);
        self.is_stale |= self.draws_between(task, from, to);
    }

    /// Takes the decisions from a place of the trail on back.
    pub(crate) fn back_to(&mut self, task: &Task<'_>, length: usize) {
        let count = self.decided.count();
        self.is_stale |= self.draws_between(task, length, count);
        self.decided.truncate(task, length);
        self.freshen(task, None);
    }

    /// Whether some line closes after the decision, which is then taken back.
    pub(crate) fn closes_after(&mut self, task: &Task<'_>, decision: Decision) -> bool {
        let length = self.decided.count();
        let touched = self.decide(task, decision);
        let is_closed = self.closes_near(task, &touched);
        self.decided.truncate(task, length);
        self.rows.restore();
        is_closed
    }

    // ---- lines that close

    /// Whether each edge out of the category was decided absent, or doesn't lead to the other, if one is given.
    fn has_no_step(&self, task: &Task<'_>, c: CatId, to: Option<CatId>) -> bool {
        if c.0 >= task.graph.categories() {
            return false;
        }
        let edges = task.graph.parents(c);
        'edges: for i in 0..edges.len() {
            if self.decided.edge(edges[i]) != Some(false) {
                match to {
                    None => return false,
                    Some(d) => {
                        let (_, parent) = task.graph.ends(edges[i]);
                        if self.reached(task.form, parent, d) != Truth3::No {
                            return false;
                        }
                    }
                }
            }
        }
        true
    }

    /// Whether present edges lead round an edge.
    fn is_bypassed(&self, graph: &Graph, e: EdgeId) -> bool {
        if e.0 >= graph.edges() {
            return false;
        }
        let (child, parent) = graph.ends(e);
        let others = graph.parents(child);
        'others: for i in 0..others.len() {
            if others[i].0 != e.0 && self.decided.edge(others[i]) == Some(true) {
                let (_, through) = graph.ends(others[i]);
                if reaches(&self.rows.drawn, through, parent) {
                    return true;
                }
            }
        }
        false
    }

    /// Whether `steps C D` closes.
    pub(crate) fn clashes(&self, task: &Task<'_>, c: CatId, d: CatId, there: bool) -> bool {
        if there {
            c.0 != d.0 && self.has_no_step(task, c, Some(d))
        } else {
            self.leads(task.form, c, d)
        }
    }

    /// Whether the edge is present, and the root can't reach its child.
    fn is_loose(&self, graph: &Graph, e: EdgeId) -> bool {
        if e.0 >= graph.edges() || self.decided.edge(e) != Some(true) {
            return false;
        }
        let (child, _) = graph.ends(e);
        child.0 != self.root.0 && !reaches(&self.rows.open, self.root, child)
    }

    /// Whether the line closes.
    pub(crate) fn closes(&mut self, task: &Task<'_>, line: Line) -> bool {
        let graph = task.graph;
        self.spend(1);
        match line {
            Line::Constraint(n) => {
                self.has(task.constraint_root(n))
                    && self.value(task.form, task.constraint(n)) == Truth3::No
            }
            Line::Question => self.value(task.form, task.question()) == Truth3::No,
            Line::Dead(c) => c.0 != 0 && self.has(c) && self.has_no_step(task, c, None),
            Line::Cycle | Line::Shortcut => {
                self.spend(task.edges.len() / 4);
                self.some_edge(task, line)
            }
            Line::LooseEdge(e) => self.is_loose(graph, e),
            Line::LooseCategory(c) => {
                c.0 != self.root.0
                    && self.has(c)
                    && self.reached(task.form, self.root, c) == Truth3::No
            }
            Line::Steps(c, d) => match self.decided.way(c, d) {
                Some(there) => self.clashes(task, c, d, there),
                None => false,
            },
            _ => false,
        }
    }

    /// Whether some present edge is on a cycle, or bypassed, as the line says.
    fn some_edge(&self, task: &Task<'_>, line: Line) -> bool {
        let graph = task.graph;
        'edges: for i in 0..task.edges.len() {
            let edge = task.edges[i];
            if self.decided.edge(edge) == Some(true) {
                let (child, parent) = task.ends(edge);
                let found = match line {
                    Line::Cycle => reaches(&self.rows.drawn, parent, child),
                    _ => self.is_bypassed(graph, edge),
                };
                if found {
                    return true;
                }
            }
        }
        false
    }

    /// The line that is tried at a place, if there is one: laws, then ways that were decided, then constraints.
    fn tried(&self, task: &Task<'_>, place: usize) -> Option<Line> {
        let laws = task.laws.len();
        let count = self.decided.count();
        if place < laws {
            return Some(task.laws[place]);
        }
        if place - laws >= count {
            return Some(Line::Constraint(place - laws - count));
        }
        match self.variable(task, place - laws) {
            Variable::Way(c, d) => Some(Line::Steps(c, d)),
            _ => None,
        }
    }

    /// The place of the first line from one on that closes, and the line.
    pub(crate) fn closing(&mut self, task: &Task<'_>, from: usize) -> Option<(usize, Line)> {
        let ways = task.laws.len().wrapping_add(self.decided.count());
        'lines: for place in from..ways.wrapping_add(task.constraints()) {
            if let Some(line) = self.tried(task, place) {
                if self.closes(task, line) {
                    return Some((place, line));
                }
            }
        }
        None
    }

    /// Whether the line says something of these categories.
    fn is_near(&self, task: &Task<'_>, line: Line, touched: &Touched) -> bool {
        let categories = &touched.categories;
        match line {
            Line::Question => meet(categories, &task.question_scope()),
            Line::Constraint(n) => meet(categories, &task.constraint_scope(n)),
            Line::Cycle | Line::Shortcut => touched.draws,
            Line::LooseEdge(e) => categories.has(task.ends(e).0.0) || categories.has(self.root.0),
            Line::LooseCategory(c) => categories.has(c.0) || categories.has(self.root.0),
            Line::Dead(c) => categories.has(c.0),
            Line::Steps(c, _) => categories.has(c.0) || meet(categories, &task.parents(c)),
            _ => false,
        }
    }

    /// Whether some line closes that says something of these categories.
    pub(crate) fn closes_near(&mut self, task: &Task<'_>, touched: &Touched) -> bool {
        let ways = task.laws.len().wrapping_add(self.decided.count());
        self.spend(ways / 8);
        'lines: for place in 0..ways.wrapping_add(task.constraints()) {
            if let Some(line) = self.tried(task, place) {
                if self.is_near(task, line, touched) && self.closes(task, line) {
                    return true;
                }
            }
        }
        false
    }

    /// Whether some line closes.
    pub(crate) fn is_closed(&mut self, task: &Task<'_>) -> bool {
        self.closing(task, 0).is_some()
    }
}
