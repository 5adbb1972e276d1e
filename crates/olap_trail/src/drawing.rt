// Edges that are drawn one after another, and what each category then leads to.
ghost use Rattle.std.specs.Prelude.{◌≡◌, ◌↔◌, ◌⊎◌, ◌+◌, ◌-◌, ◌*◌, ◌<◌, ◌≤◌, ◌++◌, ◌∷◌, [], ℕ, length, take, true, Contains, IfOk, IsTrue, vec_capacity};
ghost use Rattle.olap_base.specs.Steps.{Climb};
ghost use Rattle.olap_bits.specs.CatSet.{IsOfWidth};
ghost use Rattle.olap_bits.specs.Sets.{members};
ghost use Rattle.olap_graph.specs.Rows.{row};
ghost use Rattle.olap_trail.specs.Drawing.{Joins, IsAbove, IsBypassed, IsCyclic, IsGrown, IsIn, HoldsBypass, edge_of};

use olap_base::{CatId, Memory};
use olap_bits::CatSet;
use std::alloc::Global;
use std::marker::Model;

/// The ends of an edge.
#[derive(Clone, Copy)]
pub(crate) struct Ends {
    pub(crate) child: CatId,
    pub(crate) parent: CatId,
}

/// The edges that were drawn, and for each n what each category leads to by the first n of them: so an edge is taken
/// back by a smaller number.
#[derive(Drop)]
pub(crate) struct Drawn<const W: usize> {
    edges: Vec<Ends>,
    /// For each number of edges a set for each category: where walks of one edge or more lead. There is memory for all
    /// numbers from the start; the sets of a number are written when as many edges are first drawn.
    rows: Vec<CatSet<W>>,
    /// Where the sets for all edges begin.
    place: usize,
    /// Where one edge leads from each category.
    parents: Vec<CatSet<W>>,
    /// For each number of edges whether they hold a cycle.
    cycles: Vec<bool>,
}

impl<const W: usize> Model for Drawn<W> {
    ghost use Rattle.olap_trail.specs.Drawing.{Drawing};

    ghost Value = { Drawing };

    ghost use Rattle.olap_trail.specs.Drawn.{IsDrawn, drawing};

    ghost view = { drawing };

    ghost invariant = { IsDrawn };
}

/// The set of x, after c began to lead where the third set says.
fn grown<const W: usize>(row: &CatSet<W>, x: u16, c: u16, through: &CatSet<W>) -> CatSet<W>
    ensures { IsGrown (members row.now) x c (members through.now) (members result) }
{
    if x == c || row.has(c) {
        row.union(*through)
    } else {
        *row
    }
}

/// Whether some number is in both sets.
fn meets<const W: usize>(left: &CatSet<W>, right: &CatSet<W>) -> bool
    ensures { IsTrue result ↔ ((d : ℕ) × IsIn (members left.now) d × IsIn (members right.now) d) }
{
    left.meet(*right).first().is_some()
}

/// Adds empty sets until there are this many. There is room for them.
fn fill<const W: usize>(rows: &mut Vec<CatSet<W>>, count: usize)
    requires width { IsOfWidth W }
    requires room { count ≤ vec_capacity rows.old }
    ensures enough { count ≤ length rows.new.items }
    ensures same { (i : ℕ) → row rows.new.items i ≡ row rows.old.items i }
    ensures capacity { vec_capacity rows.old ≤ vec_capacity rows.new }
{
    'sets: while rows.len() < count {
        rows.push(CatSet::empty()).unwrap();
    }
}

/// Appends copies of the sets of this many categories, each grown.
fn draw<const W: usize>(
    rows: &mut [CatSet<W>],
    place: usize,
    count: usize,
    c: u16,
    through: &CatSet<W>,
)
    requires count { count ≤ 65535 }
    requires room { place + count + count ≤ length rows.old }
    ensures count { length rows.new ≡ length rows.old }
    ensures kept { (i : ℕ) → i < place + count → row rows.new i ≡ row rows.old i }
    ensures grown { (x : ℕ) → x < count
        → IsGrown (row rows.old (place + x)) x c (members through.now) (row rows.new (place + count + x)) }
{
    let next = place + count;
    'categories: for x in 0..count {
        rows[next + x] = grown(&rows[place + x], x as u16, c, through);
    }
}

impl<const W: usize> Drawn<W> {
    /// No edges, among this many categories, and room for this many edges.
    pub(crate) fn new(alloc: Global, count: u16, room: u16) -> Result<Drawn<W>, Memory>
        requires width { IsOfWidth W }
        requires wide { count ≤ 64 * W }
        ensures { IfOk result (λ d. d ≡ record { count = count; room = room + 1; edges = [] }) }
    {
        let stages = usize::from(room) + 1;
        let count = usize::from(count);
        let nothing = CatSet::empty();
        let mut rows = Vec::with_capacity(alloc, stages * count)?;
        fill(&mut rows, count);
        Ok(Drawn {
            edges: Vec::with_capacity(alloc, usize::from(room))?,
            rows,
            place: 0,
            parents: vec![in alloc; nothing; count]?,
            cycles: vec![in alloc; false; stages]?,
        })
    }

    /// The category, and what it leads to.
    pub(crate) fn above(&self, c: CatId) -> CatSet<W>
        requires { c.0 < self.now.count }
        ensures { IsAbove self.now.edges c.0 (members result) }
    {
        self.rows[self.place + usize::from(c.0)].with(c.0)
    }

    /// Whether c is d or leads to d.
    pub(crate) fn reaches(&self, c: CatId, d: CatId) -> bool
        requires { c.0 < self.now.count }
        ensures { IsTrue result ↔ ((c.0 ≡ d.0) ⊎ Climb (Joins self.now.edges) c.0 d.0) }
    {
        c.0 == d.0 || self.rows[self.place + usize::from(c.0)].has(d.0)
    }

    /// Whether the edges together with this one hold a cycle.
    pub(crate) fn closes_cycle(&self, ends: Ends) -> bool
        requires { ends.parent.0 < self.now.count }
        ensures { IsTrue result ↔ IsCyclic (self.now.edges ++ edge_of ends ∷ []) }
    {
        self.cycles[self.edges.len()] || self.reaches(ends.parent, ends.child)
    }

    /// Whether with a new edge a walk leads from the first edge's parent to another parent of its child.
    fn is_bypassed(&self, new: Ends, through: &CatSet<W>, first: Ends) -> bool
        requires child { first.child.0 < self.now.count }
        requires parent { first.parent.0 < self.now.count }
        requires new { new.parent.0 < self.now.count }
        requires through { IsAbove self.now.edges new.parent.0 (members through.now) }
        ensures { IsTrue result
            ↔ IsBypassed (self.now.edges ++ edge_of new ∷ []) first.child.0 first.parent.0 }
    {
        let place = self.place + usize::from(first.parent.0);
        let beyond = grown(&self.rows[place], first.parent.0, new.child.0, through);
        let parents = self.parents[usize::from(first.child.0)];
        if first.child.0 == new.child.0 {
            meets(&beyond, &parents.with(new.parent.0))
        } else {
            meets(&beyond, &parents)
        }
    }

    /// Whether the edges together with this one hold a shortcut. Cost: the edges.
    pub(crate) fn makes_shortcut(&self, new: Ends) -> bool
        requires width { IsOfWidth W }
        requires child { new.child.0 < self.now.count }
        requires parent { new.parent.0 < self.now.count }
        ensures { IsTrue result ↔ HoldsBypass (self.now.edges ++ edge_of new ∷ []) }
    {
        let through = self.above(new.parent);
        'edges: for first in &self.edges {
            if self.is_bypassed(new, &through, *first) {
                return true;
            }
        }
        self.is_bypassed(new, &through, new)
    }

    /// Draws another edge.
    pub(crate) fn push(&mut self, ends: Ends)
        requires width { IsOfWidth W }
        requires child { ends.child.0 < self.old.count }
        requires parent { ends.parent.0 < self.old.count }
        requires room { length self.old.edges + 1 < self.old.room }
        requires new { Contains self.old.edges (edge_of ends) → ⊥ }
        ensures { self.new ≡ record self.old { edges = self.old.edges ++ edge_of ends ∷ [] } }
    {
        let closes = self.closes_cycle(ends);
        let through = self.above(ends.parent);
        let count = self.parents.len();
        fill(&mut self.rows, self.place + count + count);
        draw(&mut self.rows, self.place, count, ends.child.0, &through);
        self.place += count;
        let child = usize::from(ends.child.0);
        self.parents[child] = self.parents[child].with(ends.parent.0);
        self.edges.push(ends).unwrap();
        self.cycles[self.edges.len()] = closes;
    }

    /// Takes the last edge back, if there is one.
    pub(crate) fn pop(&mut self)
        ensures { self.new ≡ record self.old { edges = take (length self.old.edges - 1) self.old.edges } }
    {
        if let Some(ends) = self.edges.pop() {
            self.place -= self.parents.len();
            let child = usize::from(ends.child.0);
            self.parents[child] = self.parents[child].without(ends.parent.0);
        }
    }
}
