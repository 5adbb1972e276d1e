// The direct view by its definition: for each member of the category, the facts whose member reaches it.
ghost use Rattle.std.specs.Prelude.{◌≡◌, ◌<◌, ◌^◌, ◌↔◌, IsTrue, length, IfOk, IfSome};
ghost use Rattle.olap_base.specs.Deciding.{Through};
ghost use Rattle.olap_base.specs.Instance.{IsBelow, Reaches};
ghost use Rattle.olap_base.specs.Views.{direct_rows, members as points, row_at, total_of_facts};
ghost use Rattle.olap_plain.specs.Plain.{instance_of, facts_of, row_of, rows_of, as_row, IsBounded, extended};

use std::alloc::{AllocError, Global};

/// A member: its category is 0 for `All`, and its parents are places in the list of members.
#[derive(Drop)]
pub struct PlainMember {
    /// Its id.
    pub id: Vec<u8>,
    /// Its category.
    pub category: u16,
    /// Its name.
    pub name: Vec<u8>,
    /// Its parents.
    pub parents: Vec<u32>,
}

/// A value at a member, which is a place in the list of members.
#[derive(Clone, Copy)]
pub struct PlainFact {
    /// The member.
    pub member: u32,
    /// The value.
    pub value: i64,
}

/// A row of a view: how many facts there are below a member, and their sum, least and greatest.
#[derive(Clone, Copy)]
pub struct PlainRow {
    /// The member.
    pub member: u32,
    /// How many facts there are below it.
    pub count: u64,
    /// The sum of their values.
    pub sum: i128,
    /// The least value.
    pub least: i64,
    /// The greatest value.
    pub greatest: i64,
}

/// Whether y is a parent of x.
pub fn is_below(members: &[PlainMember], x: u32, y: u32) -> bool
    ensures { IsTrue result ↔ IsBelow (instance_of members.now) x y }
{
    match members.get(x as usize) {
        Some(m) => m.parents.contains(&y),
        None => false,
    }
}

/// Whether a chain leads from x to y whose inner members are below k.
fn through(members: &[PlainMember], k: u32, x: u32, y: u32) -> bool
    ensures { IsTrue result ↔ Through (IsBelow (instance_of members.now)) k x y }
{
    if k == 0 {
        x == y || is_below(members, x, y)
    } else {
        through(members, k - 1, x, y)
            || (through(members, k - 1, x, k - 1) && through(members, k - 1, k - 1, y))
    }
}

/// Whether x reaches y. It tries the inner members of a chain one by one, and takes a time that grows by a factor
/// for each member: for a few members alone.
pub fn reaches(members: &[PlainMember], x: u32, y: u32) -> bool
    requires { length members.now < 2 ^ 32 }
    ensures { IsTrue result ↔ Reaches (instance_of members.now) x y }
{
    through(members, members.len() as u32, x, y)
}

/// The row of y, if some fact's member reaches it.
pub fn row_at(members: &[PlainMember], facts: &[PlainFact], y: u32) -> Option<PlainRow>
    requires members { length members.now < 2 ^ 32 }
    requires facts { length facts.now < 2 ^ 32 }
    ensures { as_row result ≡ row_at y (total_of_facts (points (instance_of members.now)) (facts_of facts.now) y) }
{
    let mut row = None;
    for f in facts {
        if reaches(members, f.member, y) {
            row = Some(with_value(y, row, f.value));
        }
    }
    row
}

/// The row with one more value.
fn with_value(y: u32, row: Option<PlainRow>, value: i64) -> PlainRow
    requires { IfSome row (λ r. r.count < 2 ^ 32 × IsBounded r.sum r.count) }
    ensures bounded { IsBounded result.sum result.count }
    ensures row { row_of result ≡ extended y (as_row row) value }
{
    match row {
        None => PlainRow {
            member: y,
            count: 1,
            sum: i128::from(value),
            least: value,
            greatest: value,
        },
        Some(r) => PlainRow {
            member: y,
            count: r.count + 1,
            sum: r.sum + i128::from(value),
            least: r.least.min(value),
            greatest: r.greatest.max(value),
        },
    }
}

/// The rows of the direct view of c, in file order. For a few members alone: see `reaches`.
pub fn direct(
    alloc: Global,
    members: &[PlainMember],
    facts: &[PlainFact],
    c: u16,
) -> Result<Vec<PlainRow>, AllocError>
    requires members { length members.now < 2 ^ 32 }
    requires facts { length facts.now < 2 ^ 32 }
    ensures { IfOk result
        (λ rows. rows_of rows.items ≡ direct_rows (points (instance_of members.now)) c (facts_of facts.now)) }
{
    let mut rows = Vec::new(alloc);
    for y in 0..members.len() {
        if members[y].category == c {
            if let Some(r) = row_at(members, facts, y as u32) {
                rows.push(r)?;
            }
        }
    }
    Ok(rows)
}
