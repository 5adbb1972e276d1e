// The search for a short tree: what closes at once is decided first, and a split that no reason below it needs is
// left out. Nothing is promised of what it finds.
use crate::activities::Activities;
use crate::decided::Decision;
use crate::rows::with;
use crate::shapes::{MOST_WORK, Shape};
use crate::steps::Step;
use crate::tasks::{Task, Variable};
use crate::trees::{GivenUp, Trees};
use olap_ast::{Constraint, Truth3};
use olap_base::{Memory, Refusal};
use olap_graph::Categories;
use olap_proof::Line;
use std::alloc::{AllocError, Global};
use std::mem::swap;

/// How many lines that close are looked at for a leaf.
const MOST_LEAVES: u32 = 4;

/// How often some decisions may be left out for a reason.
const MOST_PARTS: usize = 1 << 16;

/// A search below one root. A reason is the variables whose decisions a tree needs.
#[derive(Drop)]
pub(crate) struct Search<'a> {
    task: &'a Task<'a>,
    shape: Shape,
    trees: Trees,
    activities: Activities,
    /// The reason of the tree that was found last.
    reason: Vec<usize>,
    /// The reason of a line that may be a leaf.
    needed: Vec<usize>,
    /// The reason of a tree to which a leaf is added.
    above: Vec<usize>,
    alloc: Global,
}

/// Whether the reason has the variable.
fn has(reason: &[usize], variable: usize) -> bool {
    'variables: for i in 0..reason.len() {
        if reason[i] == variable {
            return true;
        }
    }
    false
}

/// Adds the variables of one reason to another, but for one.
fn join(reason: &mut Vec<usize>, more: &[usize], except: usize) -> Result<(), AllocError> {
    'variables: for variable in more {
        if *variable != except && !has(reason, *variable) {
            reason.push(*variable)?;
        }
    }
    Ok(())
}

/// The cases of a split that were found yet, and the reason of all of them together.
#[derive(Drop)]
struct Cases {
    trees: Vec<usize>,
    reason: Vec<usize>,
}

/// The categories whose names the steps ask.
fn named_in(steps: &[Step]) -> Categories {
    let mut named = Categories::empty();
    'steps: for i in 0..steps.len() {
        if let Step::Name(c, _) | Step::Below(c, _) = steps[i] {
            named = with(named, c);
        }
    }
    named
}

impl<'a> Search<'a> {
    /// A search, without room yet.
    pub(crate) fn new(alloc: Global, task: &'a Task<'a>) -> Search<'a> {
        Search {
            task,
            shape: Shape::new(alloc, task.root),
            trees: Trees::new(alloc),
            activities: Activities::new(alloc),
            reason: Vec::new(alloc),
            needed: Vec::new(alloc),
            above: Vec::new(alloc),
            alloc,
        }
    }

    /// Appends the lines of the tree that it finds below the root, after this much work on others. `Memory` also if it
    /// finds none, and the work is more than it may be.
    pub(crate) fn push_tree(
        &mut self,
        constraints: &[Constraint],
        work: &mut Vec<()>,
        out: &mut Vec<u8>,
    ) -> Result<(), Refusal<GivenUp>> {
        swap(&mut self.shape.work, work);
        let pushed = self.push_found(constraints, out);
        swap(&mut self.shape.work, work);
        match pushed {
            Err(Refusal::Kind(_)) if work.len() > MOST_WORK => {
                Err(Refusal::Memory(Memory::full(work)))
            }
            pushed => pushed,
        }
    }

    /// Takes room, and appends the lines of the tree that it finds.
    fn push_found(
        &mut self,
        constraints: &[Constraint],
        out: &mut Vec<u8>,
    ) -> Result<(), Refusal<GivenUp>> {
        let task = self.task;
        self.activities.resize(task.choices.len())?;
        self.shape.reserve(task)?;
        self.shape.freshen(task, None);
        let tree = self.refute(task.choices.len())?;
        self.trees.push_lines(task.graph, constraints, tree, out)
    }

    // ---- leaves

    /// Finds the variables whose decisions the line needs, while there is work left: the latest are left out first,
    /// several at a time.
    fn find_needed(&mut self, line: Line) -> Result<(), AllocError> {
        let task = self.task;
        let count = self.shape.decided.count();
        let mut end = count;
        let mut size = count / 2;
        self.needed.clear();
        'parts: for _ in 0..MOST_PARTS {
            if end == 0 || self.shape.is_spent() {
                break;
            }
            size = size.clamp(1, end);
            let from = end - size;
            self.shape.set_between(task, from, end, false);
            self.shape.freshen(task, Some(line));
            if self.shape.closes(task, line) {
                end = from;
                size = size.wrapping_add(size);
            } else {
                self.shape.set_between(task, from, end, true);
                if size == 1 {
                    end = from;
                    self.needed.push(self.shape.decided.decision(end).variable)?;
                    size = 4;
                } else {
                    size /= 2;
                }
            }
        }
        self.shape.set_between(task, 0, count, true);
        self.shape.freshen(task, None);
        Ok(())
    }

    /// The tree of one line that closes: of a few the one that needs the fewest decisions.
    fn leaf(&mut self) -> Result<usize, Refusal<GivenUp>> {
        let mut best = None;
        let mut from = 0;
        'leaves: for _ in 0..MOST_LEAVES {
            let (place, line) = match self.shape.closing(self.task, from) {
                Some(closing) => closing,
                None => break,
            };
            self.find_needed(line)?;
            if self.shape.is_spent() {
                return Err(Refusal::Kind(GivenUp));
            }
            if best.is_none() || self.needed.len() < self.reason.len() {
                swap(&mut self.reason, &mut self.needed);
                best = Some(line);
            }
            from = place.wrapping_add(1);
        }
        match best {
            Some(line) => self.trees.add(line, &[]),
            None => Err(Refusal::Kind(GivenUp)),
        }
    }

    // ---- what closes at once

    /// Whether some line closes once the variable has the value. It is tried, unless the work is more than it may be.
    fn closes_at_once(&mut self, variable: usize, value: usize) -> bool {
        if let Some((c, d)) = self.task.unasked_way(variable) {
            return self.shape.clashes(self.task, c, d, value == 1);
        }
        if self.shape.is_spent() {
            return false;
        }
        self.shape
            .closes_after(self.task, Decision { variable, value })
    }

    /// The decision on a variable that closes at once, if it has two values and isn't decided.
    fn failing(&mut self, variable: usize) -> Option<Decision> {
        let task = self.task;
        if task.values(variable) != 2 || self.shape.decided.has(task.variable(variable)) {
            return None;
        }
        'values: for value in 0..2usize {
            if self.closes_at_once(variable, value) {
                return Some(Decision { variable, value });
            }
        }
        None
    }

    /// Decides what can't be decided otherwise, in one round over the variables. Whether it decided anything.
    fn force_once(&mut self) -> bool {
        let task = self.task;
        let mut more = false;
        let mut is_after_way = false;
        self.shape.spend(task.choices.len());
        'choices: for place in 0..task.choices.len() {
            let is_way = matches!(task.variable(place), Variable::Way(_, _));
            if is_after_way && !is_way {
                return true;
            }
            if let Some(decision) = self.failing(place) {
                let touched = self.shape.decide(task, decision.other());
                more = true;
                is_after_way = is_way;
                if self.shape.closes_near(task, &touched) {
                    return true;
                }
            }
        }
        more
    }

    /// Decides what can't be decided otherwise, until some line closes or nothing more is forced. Whether one closes.
    fn force(&mut self) -> bool {
        'rounds: for _ in 0..self.task.choices.len() {
            if self.shape.is_closed(self.task) {
                return true;
            }
            if self.shape.is_spent() || !self.force_once() {
                return false;
            }
        }
        self.shape.is_closed(self.task)
    }

    // ---- splits

    /// The categories whose names constraints ask that are open.
    fn wanted_names(&mut self) -> Categories {
        let task = self.task;
        let mut wanted = Categories::empty();
        'constraints: for n in 0..task.constraints() {
            if self.shape.has(task.constraint_root(n)) {
                let steps = task.constraint(n);
                if self.shape.value(task.form, steps) == Truth3::Unknown {
                    wanted = wanted.union(named_in(steps));
                }
            }
        }
        wanted
    }

    /// Whether a variable may be split by, and whether it then stands above what is known.
    fn rank(&self, variable: Variable, wanted: &Categories) -> Option<bool> {
        let task = self.task;
        if self.shape.decided.has(variable) {
            return None;
        }
        match variable {
            Variable::Edge(e) => {
                if e.0 >= task.graph.edges() {
                    return None;
                }
                let (child, _) = task.graph.ends(e);
                Some(self.shape.has(child))
            }
            Variable::Name(c) => {
                if wanted.has(c.0) {
                    Some(self.shape.has(c))
                } else {
                    None
                }
            }
            Variable::Way(c, d) => {
                if self.shape.reached(task.form, c, d) == Truth3::Unknown {
                    Some(false)
                } else {
                    None
                }
            }
        }
    }

    /// The variable to split by: the most active, of these one above what is known, of these the first.
    fn pick(&mut self) -> Option<usize> {
        let wanted = self.wanted_names();
        self.shape.spend(self.task.choices.len());
        let mut best = None;
        let mut most = 0;
        let mut is_above = false;
        'choices: for place in 0..self.task.choices.len() {
            if let Some(above) = self.rank(self.task.variable(place), &wanted) {
                let activity = self.activities.of(place);
                let is_better = activity > most || activity == most && above && !is_above;
                if best.is_none() || is_better {
                    best = Some(place);
                    most = activity;
                    is_above = above;
                }
            }
        }
        best
    }

    /// A tree that splits by a variable, or that of a case which doesn't need it.
    #[cycle(refuting)]
    fn split(&mut self, depth: usize) -> Result<usize, Refusal<GivenUp>> {
        if depth == 0 || self.shape.is_spent() {
            return Err(Refusal::Kind(GivenUp));
        }
        match self.pick() {
            Some(variable) => {
                let mut cases = Cases {
                    trees: Vec::new(self.alloc),
                    reason: Vec::new(self.alloc),
                };
                self.refute_cases(variable, depth - 1, &mut cases)
            }
            None => Err(Refusal::Kind(GivenUp)),
        }
    }

    /// A tree that splits by this variable, with a tree for each value, or the first of these that doesn't need it.
    #[cycle(refuting)]
    fn refute_cases(
        &mut self,
        variable: usize,
        depth: usize,
        cases: &mut Cases,
    ) -> Result<usize, Refusal<GivenUp>> {
        let task = self.task;
        let length = self.shape.decided.count();
        'values: for value in 0..task.values(variable) {
            let _touched = self.shape.decide(task, Decision { variable, value });
            let tree = self.refute(depth)?;
            self.shape.back_to(task, length);
            if !has(&self.reason, variable) {
                return Ok(tree);
            }
            join(&mut cases.reason, &self.reason, variable)?;
            cases.trees.extend_from_slice(&[tree])?;
        }
        swap(&mut self.reason, &mut cases.reason);
        self.trees.add(task.line(variable), &cases.trees)
    }

    /// A tree for what is decided. It calls itself at most as deep as there are variables.
    #[cycle(refuting)]
    fn refute(&mut self, depth: usize) -> Result<usize, Refusal<GivenUp>> {
        let start = self.shape.decided.count();
        let tree = if self.force() {
            self.leaf()?
        } else {
            self.split(depth)?
        };
        self.activities.raise(&self.reason);
        self.unforce(start, tree)
    }

    /// The tree with a split for each decision that was forced and that it needs, the last first. They are taken back.
    fn unforce(&mut self, start: usize, tree: usize) -> Result<usize, Refusal<GivenUp>> {
        let mut tree = tree;
        'forced: for place in (start..self.shape.decided.count()).rev() {
            let forced = self.shape.decided.decision(place);
            if has(&self.reason, forced.variable) {
                self.shape.back_to(self.task, place);
                tree = self.split_off(forced.other(), tree)?;
            }
        }
        self.shape.back_to(self.task, start);
        Ok(tree)
    }

    /// The tree that splits by the variable of a decision: a leaf closes after that decision, and this tree otherwise.
    fn split_off(&mut self, decision: Decision, tree: usize) -> Result<usize, Refusal<GivenUp>> {
        let variable = decision.variable;
        swap(&mut self.reason, &mut self.above);
        let _touched = self.shape.decide(self.task, decision);
        let leaf = self.leaf()?;
        self.activities.raise(&self.reason);
        self.needed.clear();
        join(&mut self.needed, &self.above, variable)?;
        join(&mut self.needed, &self.reason, variable)?;
        swap(&mut self.reason, &mut self.needed);
        let cases = if decision.value == 0 {
            [leaf, tree]
        } else {
            [tree, leaf]
        };
        self.trees.add(self.task.line(variable), &cases)
    }
}
