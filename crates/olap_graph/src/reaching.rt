// Which categories each one reaches: a set for each, closed upwards.
ghost use Rattle.std.specs.Prelude.{◌≡◌, ◌≤◌, ◌<◌, ◌↔◌, ℕ, length, IfOk};
ghost use Rattle.std.specs.FinSet as set;
ghost use Rattle.olap_base.specs.Limits.{most_categories};
ghost use Rattle.olap_graph.specs.Rows.{AreDrawn, AreOwn, AreReached, Has, IsClosure, Passes, row};
ghost use Rattle.olap_graph.specs.Tables.{drawn, LiesWithin};

use crate::listing::Ends;
use olap_base::{MOST_CATEGORIES, Memory};
use olap_bits::CatSet;
use std::alloc::Global;

/// Words of a set of categories, each of 64 bits: as many as the most categories of a schema need.
pub const WORDS: usize = (MOST_CATEGORIES + 63) / 64;

/// A set of categories. Its width follows from the limit.
pub type Categories = CatSet<{ WORDS }>;

/// Whether the set of c has d.
pub fn row_has(rows: &[Categories], c: u16, d: u16) -> bool
    requires { c < length rows.now }
    ensures { result ≡ set.contains (row rows.now c) d }
{
    rows[usize::from(c)].has(d)
}

/// Each set becomes that of its category alone.
pub fn isolate(rows: &mut [Categories])
    requires few { length rows.old ≤ most_categories }
    ensures count { length rows.new ≡ length rows.old }
    ensures own { AreOwn rows.new }
{
    'categories: for c in 0..rows.len() {
        rows[c] = Categories::empty().with(c as u16);
    }
}

/// Each set gets the parents of its category.
fn draw(edges: &[Ends], rows: &mut [Categories])
    requires own { AreOwn rows.old }
    requires few { length rows.old ≤ most_categories }
    requires within { LiesWithin (drawn edges.now) (length rows.old) }
    ensures count { length rows.new ≡ length rows.old }
    ensures drawn { AreDrawn (drawn edges.now) (length edges.now) rows.new }
{
    'edges: for ends in edges {
        let child = usize::from(ends.child.0);
        rows[child] = rows[child].with(ends.parent.0);
    }
}

/// Each set that has k gets what k's set has.
fn pass(rows: &mut [Categories], k: u16)
    requires inside { k < length rows.old }
    ensures count { length rows.new ≡ length rows.old }
    ensures passed { (c d : ℕ) → c < length rows.old → Has rows.new c d ↔ Passes rows.old k c d }
{
    let through = rows[usize::from(k)];
    'categories: for c in 0..rows.len() {
        if rows[c].has(k) {
            rows[c] = rows[c].union(through);
        }
    }
}

/// Each set gets all to which steps lead from its category, where a step leads from a category to those in its set.
///
/// Cost: categories times categories, of one look and one union each.
pub fn close(rows: &mut [Categories])
    requires few { length rows.old ≤ most_categories }
    requires own { (c : ℕ) → c < length rows.old → Has rows.old c c }
    ensures { IsClosure rows.old rows.new }
{
    'through: for k in 0..rows.len() {
        pass(rows, k as u16);
    }
}

/// Each set becomes that of what its category reaches.
fn reach(edges: &[Ends], rows: &mut [Categories])
    requires few { length rows.old ≤ most_categories }
    requires within { LiesWithin (drawn edges.now) (length rows.old) }
    ensures { AreReached (drawn edges.now) (length rows.old) rows.new }
{
    isolate(rows);
    draw(edges, rows);
    close(rows);
}

/// For each category the set of those that it reaches. Cost: the square of the categories, and the edges.
pub(crate) fn rows(alloc: Global, edges: &[Ends], count: u16) -> Result<Vec<Categories>, Memory>
    requires few { count ≤ most_categories }
    requires within { LiesWithin (drawn edges.now) count }
    ensures { IfOk result (λ rows. AreReached (drawn edges.now) count rows.items) }
{
    let mut rows = vec![in alloc; Categories::empty(); usize::from(count)]?;
    reach(edges, &mut rows);
    Ok(rows)
}
