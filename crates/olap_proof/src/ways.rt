// Decisions on ways, and tables that say what was decided.
ghost use Rattle.std.specs.Prelude.{◌≡◌, ◌-◌, ◌<◌, ◌↔◌, ◌++◌, ◌∷◌, [], ℕ, Contains, IfOk, None, OnErr, OnOk, length, take};
ghost use Rattle.std.specs.FinSet as set;
ghost use Rattle.olap_base.specs.Limits.{most_categories};
ghost use Rattle.olap_bits.specs.Sets.{members};
ghost use Rattle.olap_graph.specs.Rows.{row};
ghost use Rattle.olap_proof.specs.KeptWays.{IsPut, IsTakenOut, leading_way, status_of_marks, way_kept};
ghost use Rattle.olap_proof.specs.Places.{way_of};
ghost use Rattle.olap_proof.specs.Walking.{IsIn};

use olap_base::{CatId, MOST_CATEGORIES, Memory};
use olap_graph::Categories;
use std::alloc::Global;
use std::marker::Model;

/// Whether the child category has a member that reaches one of the parent category.
#[derive(Clone, Copy)]
pub(crate) struct Way {
    pub(crate) child: CatId,
    pub(crate) parent: CatId,
    pub(crate) there: bool,
}

/// Decisions on ways, in the order in which they were made, each on a way that was undecided.
#[derive(Drop)]
pub(crate) struct Ways {
    list: Vec<Way>,
    /// For each category those to which a way was decided to be there.
    there: Vec<Categories>,
    /// And those to which one was decided not to be.
    absent: Vec<Categories>,
}

impl Model for Ways {
    ghost use Rattle.std.specs.Prelude.{List};
    ghost use Rattle.olap_proof.specs.Places.{Way as OneWay};

    ghost Value = { List OneWay };

    ghost use Rattle.olap_proof.specs.KeptTables.{AreKept, ways_kept};

    ghost view = { ways_kept };

    ghost invariant = { AreKept };
}

/// The set of a category, of these sets.
fn row_of(rows: &[Categories], c: CatId) -> Categories
    ensures { members result ≡ row rows.now c.0 }
{
    let place = usize::from(c.0);
    if place < rows.len() {
        return rows[place];
    }
    Categories::empty()
}

/// What two marks say.
fn status_of_marks(there: bool, absent: bool) -> Option<bool>
    ensures { result ≡ status_of_marks there absent }
{
    if there {
        Some(true)
    } else if absent {
        Some(false)
    } else {
        None
    }
}

/// Puts a category into the set of another one.
fn put(rows: &mut [Categories], c: CatId, d: CatId)
    requires c { c.0 < length rows.old }
    requires d { d.0 < most_categories }
    ensures count { length rows.new ≡ length rows.old }
    ensures put { IsPut rows.old c.0 d.0 rows.new }
{
    let place = usize::from(c.0);
    rows[place] = rows[place].with(d.0);
}

/// Takes a category out of the set of another one.
fn take_out(rows: &mut [Categories], c: CatId, d: CatId)
    requires c { c.0 < length rows.old }
    requires d { d.0 < most_categories }
    ensures count { length rows.new ≡ length rows.old }
    ensures out { IsTakenOut rows.old c.0 d.0 rows.new }
{
    let place = usize::from(c.0);
    rows[place] = rows[place].without(d.0);
}

impl Ways {
    /// No way is decided.
    pub(crate) fn new(alloc: Global) -> Result<Ways, Memory>
        ensures { IfOk result (λ ways. ways ≡ []) }
    {
        let nothing = Categories::empty();
        Ok(Ways {
            list: Vec::new(alloc),
            there: vec![in alloc; nothing; MOST_CATEGORIES]?,
            absent: vec![in alloc; nothing; MOST_CATEGORIES]?,
        })
    }

    /// What was decided of the way. Two looks at tables.
    pub(crate) fn status(&self, child: CatId, parent: CatId) -> Option<bool>
        ensures { result ≡ way_of self.now child.0 parent.0 }
    {
        let there = row_of(&self.there, child).has(parent.0);
        let absent = row_of(&self.absent, child).has(parent.0);
        status_of_marks(there, absent)
    }

    /// The categories to which a way was decided to be there. One look at a table.
    pub(crate) fn from(&self, child: CatId) -> Categories
        ensures { (d : ℕ) → IsIn (members result) d ↔ Contains self.now (leading_way child.0 d) }
    {
        row_of(&self.there, child)
    }

    /// Decides a way that is undecided. `Memory`: out of memory, and nothing is decided.
    pub(crate) fn push(&mut self, way: Way) -> Result<(), Memory>
        requires child { way.child.0 < most_categories }
        requires parent { way.parent.0 < most_categories }
        requires open { way_of self.old way.child.0 way.parent.0 ≡ None }
        ensures ok { OnOk result (self.new ≡ self.old ++ way_kept way ∷ []) }
        ensures same { OnErr result (self.new ≡ self.old) }
    {
        self.list.push(way)?;
        if way.there {
            put(&mut self.there, way.child, way.parent);
        } else {
            put(&mut self.absent, way.child, way.parent);
        }
        Ok(())
    }

    /// Takes the last decision back, if there is one.
    pub(crate) fn pop(&mut self)
        ensures { self.new ≡ take (length self.old - 1) self.old }
    {
        if let Some(way) = self.list.pop() {
            take_out(&mut self.there, way.child, way.parent);
            take_out(&mut self.absent, way.child, way.parent);
        }
    }
}
