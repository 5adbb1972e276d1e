// The categories that each reaches, as a set for each.
use crate::decided::Decided;
use crate::tasks::Task;
use olap_base::{CatId, MOST_CATEGORIES};
use olap_graph::{Categories, WORDS};
use std::alloc::{AllocError, Global};

/// What present edges draw, what those and ways lead to, and what edges that weren't decided absent leave open, from
/// each category; and the categories that are known to have a member.
#[derive(Drop)]
pub(crate) struct Rows {
    pub(crate) known: Categories,
    pub(crate) drawn: Vec<Categories>,
    pub(crate) led: Vec<Categories>,
    pub(crate) open: Vec<Categories>,
    /// What was known, and the sets that changed, as they were.
    kept_known: Categories,
    kept: Vec<Kept>,
}

/// One of the three lists of sets.
#[derive(Clone, Copy)]
enum List {
    Drawn,
    Led,
    Open,
}

/// A set as it was before a decision.
#[derive(Clone, Copy)]
struct Kept {
    list: List,
    category: CatId,
    set: Categories,
}

/// The set with one category more.
pub(crate) fn with(set: Categories, c: CatId) -> Categories {
    if usize::from(c.0) < 64 * WORDS {
        set.with(c.0)
    } else {
        set
    }
}

/// Whether the sets have a category in common.
pub(crate) fn meet(set: &Categories, other: &Categories) -> bool {
    set.meet(*other).first().is_some()
}

/// The set of one category.
fn row(rows: &[Categories], c: CatId) -> Categories {
    let place = usize::from(c.0);
    if place < rows.len() {
        rows[place]
    } else {
        Categories::empty()
    }
}

/// Whether the one category reaches the other.
pub(crate) fn reaches(rows: &[Categories], c: CatId, d: CatId) -> bool {
    row(rows, c).has(d.0)
}

/// The set of one category is this one.
fn put(rows: &mut [Categories], c: CatId, set: Categories) {
    let place = usize::from(c.0);
    if place < rows.len() {
        rows[place] = set;
    }
}

/// The categories below the root that reach this one.
fn reaching(rows: &[Categories], task: &Task<'_>, d: CatId) -> Categories {
    let mut found = Categories::empty();
    'categories: for i in 0..task.below.len() {
        let c = task.below[i];
        if reaches(rows, c, d) {
            found = with(found, c);
        }
    }
    found
}

/// What reaches the child reaches all that the parent reaches.
fn join(rows: &mut [Categories], task: &Task<'_>, child: CatId, parent: CatId) {
    let through = row(rows, parent);
    'categories: for i in 0..task.below.len() {
        let c = task.below[i];
        let set = row(rows, c);
        if set.has(child.0) {
            put(rows, c, set.union(through));
        }
    }
}

/// What is reached from the root of a task whose edges were decided in part.
#[derive(Clone, Copy)]
pub(crate) struct Drawing<'a, 'b> {
    pub(crate) task: &'a Task<'b>,
    pub(crate) decided: &'a Decided,
}

impl Drawing<'_, '_> {
    /// A category, and what its parents reach: by a present edge, or also by one that isn't decided.
    fn reached(&self, rows: &[Categories], c: CatId, is_open: bool) -> Categories {
        let mut reached = with(Categories::empty(), c);
        let graph = self.task.graph;
        if c.0 < graph.categories() {
            let edges = graph.parents(c);
            'edges: for i in 0..edges.len() {
                let taken = match self.decided.edge(edges[i]) {
                    Some(is_present) => is_present,
                    None => is_open,
                };
                if taken {
                    let (_, parent) = graph.ends(edges[i]);
                    reached = reached.union(row(rows, parent));
                }
            }
        }
        reached
    }

    /// Adds to the sets of these categories all that each reaches by one edge more, in one pass over the order or
    /// against it. Whether any set has grown.
    fn pass(&self, rows: &mut [Categories], of: &Categories, is_open: bool, is_back: bool) -> bool {
        let mut has_grown = false;
        let count = self.task.below.len();
        'categories: for i in 0..count {
            let c = self.task.below[if is_back { count - 1 - i } else { i }];
            if of.has(c.0) {
                let reached = self.reached(rows, c, is_open);
                has_grown |= !reached.is_subset(&row(rows, c));
                put(rows, c, reached);
            }
        }
        has_grown
    }

    /// The sets of these categories, from those of all others: by present edges, or also by undecided ones.
    fn close(&self, rows: &mut [Categories], of: &Categories, is_open: bool) {
        'categories: for i in 0..self.task.below.len() {
            let c = self.task.below[i];
            if of.has(c.0) {
                put(rows, c, with(Categories::empty(), c));
            }
        }
        let mut is_back = false;
        'passes: for _ in 0..MOST_CATEGORIES {
            if !self.pass(rows, of, is_open, is_back) || !self.task.order.has_cycle {
                return;
            }
            is_back = !is_back;
        }
    }
}

impl Rows {
    /// Those of no categories.
    pub(crate) fn new(alloc: Global) -> Rows {
        Rows {
            known: Categories::empty(),
            drawn: Vec::new(alloc),
            led: Vec::new(alloc),
            open: Vec::new(alloc),
            kept_known: Categories::empty(),
            kept: Vec::new(alloc),
        }
    }

    /// Sets for this many categories, and room to keep what changes in one step.
    pub(crate) fn resize(&mut self, count: usize) -> Result<(), AllocError> {
        self.drawn.resize(count, Categories::empty())?;
        self.led.resize(count, Categories::empty())?;
        self.open.resize(count, Categories::empty())?;
        self.kept.reserve(count.wrapping_mul(3))
    }

    /// The root, and the ends of present edges, are known to have a member.
    pub(crate) fn read_known(&mut self, drawing: &Drawing<'_, '_>, root: CatId) {
        let task = drawing.task;
        self.known = with(Categories::empty(), root);
        'edges: for i in 0..task.edges.len() {
            if drawing.decided.edge(task.edges[i]) == Some(true) {
                let (child, parent) = task.ends(task.edges[i]);
                self.known = with(with(self.known, child), parent);
            }
        }
    }

    /// What present edges draw.
    pub(crate) fn read_drawn(&mut self, drawing: &Drawing<'_, '_>) {
        drawing.close(&mut self.drawn, &drawing.task.all, false);
    }

    /// What present edges lead to.
    pub(crate) fn read_led(&mut self, drawing: &Drawing<'_, '_>) {
        drawing.close(&mut self.led, &drawing.task.all, false);
    }

    /// What edges that weren't decided absent leave open.
    pub(crate) fn read_open(&mut self, drawing: &Drawing<'_, '_>) {
        drawing.close(&mut self.open, &drawing.task.all, true);
    }

    /// One way more.
    pub(crate) fn lead(&mut self, task: &Task<'_>, child: CatId, parent: CatId) {
        self.known = with(with(self.known, child), parent);
        join(&mut self.led, task, child, parent);
    }

    // ---- one decision more

    /// From here on what changes is kept.
    pub(crate) fn keep(&mut self) {
        self.kept_known = self.known;
        self.kept.clear();
    }

    /// Keeps the sets of these categories.
    fn keep_all(&mut self, task: &Task<'_>, list: List, of: &Categories) {
        'categories: for i in 0..task.below.len() {
            let c = task.below[i];
            if of.has(c.0) {
                let set = self.set(list, c);
                // There is room for it, so it isn't refused.
                let kept = Kept {
                    list,
                    category: c,
                    set,
                };
                let _pushed = self.kept.push(kept);
            }
        }
    }

    /// The set of a category in a list.
    fn set(&self, list: List, c: CatId) -> Categories {
        match list {
            List::Drawn => row(&self.drawn, c),
            List::Led => row(&self.led, c),
            List::Open => row(&self.open, c),
        }
    }

    /// What was kept stands again.
    pub(crate) fn restore(&mut self) {
        self.known = self.kept_known;
        'kept: for i in 0..self.kept.len() {
            if i >= self.kept.len() {
                return;
            }
            let kept = self.kept[i];
            match kept.list {
                List::Drawn => put(&mut self.drawn, kept.category, kept.set),
                List::Led => put(&mut self.led, kept.category, kept.set),
                List::Open => put(&mut self.open, kept.category, kept.set),
            }
        }
    }

    /// The categories about which something has changed since.
    pub(crate) fn touched(&self) -> Categories {
        let mut touched = self.known.minus(self.kept_known);
        'kept: for i in 0..self.kept.len() {
            let kept = self.kept[i];
            let now = self.set(kept.list, kept.category);
            if !now.is_subset(&kept.set) || !kept.set.is_subset(&now) {
                touched = with(touched, kept.category);
            }
        }
        touched
    }

    /// One present edge more.
    pub(crate) fn add_edge(&mut self, task: &Task<'_>, child: CatId, parent: CatId) {
        let of = reaching(&self.drawn, task, child);
        self.keep_all(task, List::Drawn, &of);
        join(&mut self.drawn, task, child, parent);
        self.add_way(task, child, parent);
    }

    /// One way more, which is to be kept.
    pub(crate) fn add_way(&mut self, task: &Task<'_>, child: CatId, parent: CatId) {
        let of = reaching(&self.led, task, child);
        self.keep_all(task, List::Led, &of);
        self.lead(task, child, parent);
    }

    /// One absent edge more.
    pub(crate) fn drop_edge(&mut self, drawing: &Drawing<'_, '_>, child: CatId) {
        let task = drawing.task;
        let reached = drawing.reached(&self.open, child, true);
        if !task.order.has_cycle && row(&self.open, child).is_subset(&reached) {
            return;
        }
        let of = reaching(&self.open, task, child);
        self.keep_all(task, List::Open, &of);
        drawing.close(&mut self.open, &of, true);
    }
}
