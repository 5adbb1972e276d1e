// Tasks of a draft: a root of a schema, formulas as steps, and what may be decided.
use crate::order::Order;
use crate::rows::with;
use crate::steps::{Step, Words};
use olap_ast::Constraint;
use olap_base::{CatId, EdgeId, MOST_CATEGORIES};
use olap_graph::{Categories, Graph};
use olap_proof::{Form, Line};
use std::alloc::{AllocError, Global};

/// What may be decided.
#[derive(Clone, Copy)]
pub(crate) enum Variable {
    Edge(EdgeId),
    Name(CatId),
    Way(CatId, CatId),
}

/// A variable, with how many values it has. Whether some formula asks it, if it is a way.
#[derive(Clone, Copy)]
pub(crate) struct Choice {
    pub(crate) variable: Variable,
    pub(crate) values: usize,
    pub(crate) is_asked: bool,
}

/// The place of a way in a table.
pub(crate) fn way_place(c: CatId, d: CatId) -> usize {
    usize::from(c.0) * MOST_CATEGORIES + usize::from(d.0)
}

/// What a draft is asked for: a certificate of this form that the target is summarizable from the sources.
#[derive(Clone, Copy)]
pub(crate) struct Asked<'a> {
    pub(crate) words: Words<'a>,
    pub(crate) order: &'a Order,
    pub(crate) constraints: &'a [Constraint],
    pub(crate) form: Form,
    pub(crate) target: CatId,
    pub(crate) sources: &'a [CatId],
}

/// A formula that holds at each member of its root, where its steps stand, and the categories about which it says
/// something.
#[derive(Clone, Copy)]
struct Posed {
    root: CatId,
    first: usize,
    end: usize,
    scope: Categories,
}

/// A root, formulas, and the variables that matter below it.
#[derive(Drop)]
pub(crate) struct Task<'a> {
    pub(crate) graph: &'a Graph,
    pub(crate) order: &'a Order,
    pub(crate) form: Form,
    pub(crate) root: CatId,
    /// The steps of the constraints, one after another, and those of the question.
    steps: Vec<Step>,
    constraints: Vec<Posed>,
    question: Posed,
    /// The lines that are tried first, in their order.
    pub(crate) laws: Vec<Line>,
    pub(crate) choices: Vec<Choice>,
    /// The categories that the root reaches, parents first, the same as a set, and the edges out of them.
    pub(crate) below: Vec<CatId>,
    pub(crate) all: Categories,
    pub(crate) edges: Vec<EdgeId>,
    /// The parents of each category.
    parents: Vec<Categories>,
}

/// Whether the root reaches the category by edges of the graph, and the category is one of it.
fn is_below(graph: &Graph, c: CatId, d: CatId) -> bool {
    if c.0 < graph.categories() && d.0 < graph.categories() {
        graph.reaches(c, d)
    } else {
        false
    }
}

/// Adds the steps of the question whether a member of the target is reached, and not by exactly one source.
fn push_question(
    root: CatId,
    target: CatId,
    sources: &[CatId],
    steps: &mut Vec<Step>,
) -> Result<(), AllocError> {
    steps.extend_from_slice(&[Step::Reach(root, target)])?;
    'sources: for source in sources {
        let by_source = [
            Step::Reach(root, *source),
            Step::Reach(*source, target),
            Step::And,
        ];
        steps.extend_from_slice(&by_source)?;
    }
    let not_by_one = [Step::One(sources.len()), Step::Not, Step::And];
    steps.extend_from_slice(&not_by_one)
}

/// The steps from one place up to another.
fn between(steps: &[Step], first: usize, end: usize) -> &[Step] {
    if first <= end && end <= steps.len() {
        &steps[first..end]
    } else {
        &[]
    }
}

impl<'a> Task<'a> {
    /// The task of a bottom category.
    pub(crate) fn new(
        alloc: Global,
        asked: &Asked<'a>,
        root: CatId,
    ) -> Result<Task<'a>, AllocError> {
        let mut task = Task {
            graph: asked.words.graph,
            order: asked.order,
            form: asked.form,
            root,
            steps: Vec::new(alloc),
            constraints: Vec::new(alloc),
            question: Posed {
                root,
                first: 0,
                end: 0,
                scope: Categories::empty(),
            },
            laws: Vec::new(alloc),
            choices: Vec::new(alloc),
            below: Vec::new(alloc),
            all: Categories::empty(),
            edges: Vec::new(alloc),
            parents: Vec::new(alloc),
        };
        task.pose(alloc, asked)?;
        Ok(task)
    }

    /// Adds the formulas, and then the lines that are tried first and what may be decided.
    fn pose(&mut self, alloc: Global, asked: &Asked<'a>) -> Result<(), AllocError> {
        self.push_below()?;
        'constraints: for constraint in asked.constraints {
            self.push_constraint(&asked.words, constraint)?;
        }
        self.question.first = self.steps.len();
        push_question(self.root, asked.target, asked.sources, &mut self.steps)?;
        self.question.end = self.steps.len();
        self.question.scope = self.scope_of(self.root, self.question());
        self.push_parents()?;
        self.push_laws()?;
        self.push_ways(alloc)?;
        self.push_edges()?;
        self.push_names(&asked.words)
    }

    /// Adds a constraint.
    fn push_constraint(
        &mut self,
        words: &Words<'a>,
        constraint: &Constraint,
    ) -> Result<(), AllocError> {
        let root = constraint.root;
        let first = self.steps.len();
        words.push(&constraint.formula, root, &mut self.steps)?;
        let end = self.steps.len();
        let scope = self.scope_of(root, between(&self.steps, first, end));
        self.constraints.push(Posed {
            root,
            first,
            end,
            scope,
        })?;
        Ok(())
    }

    /// The root, and the categories about which a formula's steps say something.
    fn scope_of(&self, root: CatId, steps: &[Step]) -> Categories {
        let mut scope = with(Categories::empty(), root);
        'steps: for i in 0..steps.len() {
            match steps[i] {
                Step::Edge(e) => scope = with(scope, self.ends(e).0),
                Step::Reach(c, _) | Step::Name(c, _) | Step::Below(c, _) => scope = with(scope, c),
                _ => {}
            }
        }
        scope
    }

    /// Adds the categories that the root reaches, and the edges out of them.
    fn push_below(&mut self) -> Result<(), AllocError> {
        let (graph, order) = (self.graph, self.order);
        'categories: for i in 0..order.categories.len() {
            if is_below(graph, self.root, order.categories[i]) {
                self.below.extend_from_slice(&[order.categories[i]])?;
                self.all = with(self.all, order.categories[i]);
            }
        }
        'edges: for e in 0..graph.edges() {
            let (child, _) = graph.ends(EdgeId(e));
            if is_below(graph, self.root, child) {
                self.edges.extend_from_slice(&[EdgeId(e)])?;
            }
        }
        Ok(())
    }

    /// Adds the parents of each category.
    fn push_parents(&mut self) -> Result<(), AllocError> {
        let graph = self.graph;
        'categories: for c in 0..graph.categories() {
            let mut parents = Categories::empty();
            let edges = graph.parents(CatId(c));
            'edges: for i in 0..edges.len() {
                let (_, parent) = graph.ends(edges[i]);
                parents = with(parents, parent);
            }
            self.parents.extend_from_slice(&[parents])?;
        }
        Ok(())
    }

    /// Adds the lines that are tried first.
    fn push_laws(&mut self) -> Result<(), AllocError> {
        let graph = self.graph;
        let alone = [Line::Question, Line::Cycle, Line::Shortcut];
        self.laws.extend_from_slice(&alone)?;
        let is_short = self.form == Form::Short;
        'categories: for c in 0..graph.categories() {
            if !is_below(graph, self.root, CatId(c)) {
                continue;
            }
            self.laws.extend_from_slice(&[Line::Dead(CatId(c))])?;
            if is_short {
                self.laws
                    .extend_from_slice(&[Line::LooseCategory(CatId(c))])?;
            }
        }
        let edges = if is_short { 0 } else { self.edges.len() };
        'edges: for i in 0..edges {
            let line = Line::LooseEdge(self.edges[i]);
            self.laws.extend_from_slice(&[line])?;
        }
        Ok(())
    }

    /// Adds a variable.
    fn add(&mut self, variable: Variable, values: usize, is_asked: bool) -> Result<(), AllocError> {
        self.choices.extend_from_slice(&[Choice {
            variable,
            values,
            is_asked,
        }])
    }

    /// The edges that the root may reach.
    fn push_edges(&mut self) -> Result<(), AllocError> {
        'edges: for i in 0..self.edges.len() {
            if i < self.edges.len() {
                let edge = self.edges[i];
                self.add(Variable::Edge(edge), 2, true)?;
            }
        }
        Ok(())
    }

    /// The categories that have more than one name.
    fn push_names(&mut self, words: &Words<'a>) -> Result<(), AllocError> {
        let graph = self.graph;
        'categories: for c in 1..graph.categories() {
            let count = words.others(CatId(c)).len();
            if count > 0 && is_below(graph, self.root, CatId(c)) {
                self.add(Variable::Name(CatId(c)), count.wrapping_add(1), true)?;
            }
        }
        Ok(())
    }

    /// The ways that formulas ask, and those that these rest on, in the short form.
    fn push_ways(&mut self, alloc: Global) -> Result<(), AllocError> {
        if self.form == Form::Long {
            return Ok(());
        }
        let count = usize::from(self.graph.categories());
        let mut seen = vec![in alloc; false; count * MOST_CATEGORIES]?;
        let mut todo = Vec::new(alloc);
        self.push_ways_from(&mut seen, &mut todo)
    }

    /// The ways that formulas ask, and those that these rest on, but for what was seen.
    fn push_ways_from(
        &mut self,
        seen: &mut [bool],
        todo: &mut Vec<(CatId, CatId)>,
    ) -> Result<(), AllocError> {
        self.push_all_asked(todo)?;
        let asked = todo.len();
        'ways: for i in 0..MOST_CATEGORIES * MOST_CATEGORIES * MOST_CATEGORIES {
            if i >= todo.len() {
                return Ok(());
            }
            let (c, d) = todo[i];
            let place = way_place(c, d);
            if place < seen.len() && !seen[place] && self.may_lead(c, d) {
                seen[place] = true;
                self.add(Variable::Way(c, d), 2, i < asked)?;
                push_steps(self.graph, c, d, todo)?;
            }
        }
        Ok(())
    }

    /// The ways that formulas ask.
    fn push_all_asked(&self, todo: &mut Vec<(CatId, CatId)>) -> Result<(), AllocError> {
        'constraints: for n in 0..self.constraints.len() {
            let root = self.constraints[n].root;
            todo.push((root, root))?;
            push_asked(self.constraint(n), todo)?;
        }
        push_asked(self.question(), todo)
    }

    /// Whether the root may reach the one category, and that the other.
    fn may_lead(&self, c: CatId, d: CatId) -> bool {
        d.0 != 0 && is_below(self.graph, c, d) && is_below(self.graph, self.root, c)
    }

    /// The child and the parent of an edge.
    pub(crate) fn ends(&self, e: EdgeId) -> (CatId, CatId) {
        if e.0 < self.graph.edges() {
            self.graph.ends(e)
        } else {
            (CatId(0), CatId(0))
        }
    }

    /// The parents of a category.
    pub(crate) fn parents(&self, c: CatId) -> Categories {
        let place = usize::from(c.0);
        if place < self.parents.len() {
            self.parents[place]
        } else {
            Categories::empty()
        }
    }

    /// How many categories and edges there are.
    pub(crate) fn size(&self) -> usize {
        self.below.len().wrapping_add(self.edges.len())
    }

    /// The variable at a place.
    pub(crate) fn variable(&self, place: usize) -> Variable {
        if place < self.choices.len() {
            self.choices[place].variable
        } else {
            Variable::Name(CatId(0))
        }
    }

    /// The way at a place, if no formula asks it.
    pub(crate) fn unasked_way(&self, place: usize) -> Option<(CatId, CatId)> {
        if place < self.choices.len() && !self.choices[place].is_asked {
            if let Variable::Way(c, d) = self.choices[place].variable {
                return Some((c, d));
            }
        }
        None
    }

    /// The line that splits by the variable at a place.
    pub(crate) fn line(&self, place: usize) -> Line {
        match self.variable(place) {
            Variable::Edge(e) => Line::Edge(e),
            Variable::Name(c) => Line::Name(c),
            Variable::Way(c, d) => Line::Reach(c, d),
        }
    }

    /// How many values the variable at a place has.
    pub(crate) fn values(&self, place: usize) -> usize {
        if place < self.choices.len() {
            self.choices[place].values
        } else {
            0
        }
    }

    /// How many constraints there are.
    pub(crate) fn constraints(&self) -> usize {
        self.constraints.len()
    }

    /// The root of a constraint.
    pub(crate) fn constraint_root(&self, n: usize) -> CatId {
        if n < self.constraints.len() {
            self.constraints[n].root
        } else {
            CatId(0)
        }
    }

    /// The steps of a constraint.
    pub(crate) fn constraint(&self, n: usize) -> &[Step] {
        if n < self.constraints.len() {
            let posed = self.constraints[n];
            between(&self.steps, posed.first, posed.end)
        } else {
            &[]
        }
    }

    /// The categories about which a constraint says something.
    pub(crate) fn constraint_scope(&self, n: usize) -> Categories {
        if n < self.constraints.len() {
            self.constraints[n].scope
        } else {
            Categories::empty()
        }
    }

    /// The categories about which the question says something.
    pub(crate) fn question_scope(&self) -> Categories {
        self.question.scope
    }

    /// The steps of the question.
    pub(crate) fn question(&self) -> &[Step] {
        between(&self.steps, self.question.first, self.question.end)
    }

    /// No formula has more steps.
    pub(crate) fn most_steps(&self) -> usize {
        self.steps.len()
    }
}

/// The ways that steps ask.
fn push_asked(steps: &[Step], todo: &mut Vec<(CatId, CatId)>) -> Result<(), AllocError> {
    'steps: for i in 0..steps.len() {
        if let Step::Reach(c, d) = steps[i] {
            todo.push((c, d))?;
        }
    }
    Ok(())
}

/// The ways that the first step of one leaves, and whether its ends have members.
fn push_steps(
    graph: &Graph,
    c: CatId,
    d: CatId,
    todo: &mut Vec<(CatId, CatId)>,
) -> Result<(), AllocError> {
    if c.0 < graph.categories() {
        let edges = graph.parents(c);
        'edges: for i in 0..edges.len() {
            let (_, parent) = graph.ends(edges[i]);
            todo.push((parent, d))?;
        }
    }
    todo.extend_from_slice(&[(c, c), (d, d)])
}
