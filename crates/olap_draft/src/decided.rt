// What was decided of edges, names and ways.
use crate::tasks::{Task, Variable, way_place};
use olap_base::{CatId, EdgeId, MOST_CATEGORIES};
use std::alloc::{AllocError, Global};

/// A decision: a variable, by its place among the task's, and its value.
#[derive(Clone, Copy)]
pub(crate) struct Decision {
    pub(crate) variable: usize,
    pub(crate) value: usize,
}

impl Decision {
    /// The other value of a variable that has two.
    pub(crate) fn other(self) -> Decision {
        Decision {
            variable: self.variable,
            value: if self.value == 0 { 1 } else { 0 },
        }
    }
}

/// The decisions, in their order, and what they say.
#[derive(Drop)]
pub(crate) struct Decided {
    trail: Vec<Decision>,
    edges: Vec<Option<bool>>,
    names: Vec<Option<usize>>,
    ways: Vec<Option<bool>>,
}

impl Decided {
    /// Nothing is decided, and there is no variable.
    pub(crate) fn new(alloc: Global) -> Decided {
        Decided {
            trail: Vec::new(alloc),
            edges: Vec::new(alloc),
            names: Vec::new(alloc),
            ways: Vec::new(alloc),
        }
    }

    /// Takes room for a decision on each variable of the task.
    pub(crate) fn reserve(&mut self, task: &Task<'_>) -> Result<(), AllocError> {
        let categories = usize::from(task.graph.categories());
        self.trail.reserve(task.choices.len())?;
        self.edges.resize(usize::from(task.graph.edges()), None)?;
        self.names.resize(categories, None)?;
        self.ways.resize(categories * MOST_CATEGORIES, None)
    }

    /// How many decisions there are.
    pub(crate) fn count(&self) -> usize {
        self.trail.len()
    }

    /// The decision at a place.
    pub(crate) fn decision(&self, place: usize) -> Decision {
        if place < self.trail.len() {
            self.trail[place]
        } else {
            Decision {
                variable: 0,
                value: 0,
            }
        }
    }

    /// What was decided of the edge.
    pub(crate) fn edge(&self, e: EdgeId) -> Option<bool> {
        let place = usize::from(e.0);
        if place < self.edges.len() {
            self.edges[place]
        } else {
            None
        }
    }

    /// The index that was decided for the category's name. `All` has one.
    pub(crate) fn name(&self, c: CatId) -> Option<usize> {
        if c.0 == 0 {
            return Some(0);
        }
        let place = usize::from(c.0);
        if place < self.names.len() {
            self.names[place]
        } else {
            None
        }
    }

    /// What was decided of the way.
    pub(crate) fn way(&self, c: CatId, d: CatId) -> Option<bool> {
        let place = way_place(c, d);
        if place < self.ways.len() {
            self.ways[place]
        } else {
            None
        }
    }

    /// Whether the variable has a value.
    pub(crate) fn has(&self, variable: Variable) -> bool {
        match variable {
            Variable::Edge(e) => self.edge(e).is_some(),
            Variable::Name(c) => self.name(c).is_some(),
            Variable::Way(c, d) => self.way(c, d).is_some(),
        }
    }

    /// Gives the variable a value, or takes it away.
    fn set(&mut self, variable: Variable, value: Option<usize>) {
        let truth = match value {
            Some(value) => Some(value == 1),
            None => None,
        };
        match variable {
            Variable::Edge(e) => {
                if usize::from(e.0) < self.edges.len() {
                    self.edges[usize::from(e.0)] = truth;
                }
            }
            Variable::Name(c) => {
                if usize::from(c.0) < self.names.len() {
                    self.names[usize::from(c.0)] = value;
                }
            }
            Variable::Way(c, d) => {
                let place = way_place(c, d);
                if place < self.ways.len() {
                    self.ways[place] = truth;
                }
            }
        }
    }

    /// The values of the decisions from one place up to another, given or taken away.
    pub(crate) fn set_between(&mut self, task: &Task<'_>, from: usize, to: usize, given: bool) {
        'decisions: for i in from..to {
            if i < self.trail.len() {
                let decision = self.trail[i];
                let value = if given { Some(decision.value) } else { None };
                self.set(task.variable(decision.variable), value);
            }
        }
    }

    /// One decision more.
    pub(crate) fn push(&mut self, task: &Task<'_>, decision: Decision) {
        // There is room for it, so it isn't refused.
        let _pushed = self.trail.push(decision);
        self.set(task.variable(decision.variable), Some(decision.value));
    }

    /// Takes the decisions from a place on back.
    pub(crate) fn truncate(&mut self, task: &Task<'_>, length: usize) {
        let count = self.trail.len();
        self.set_between(task, length, count, false);
        self.trail.truncate(length);
    }
}
