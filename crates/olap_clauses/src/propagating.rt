// What the clauses force: a clause is looked at when a literal that it watches becomes false.
ghost use Rattle.std.specs.Prelude.{◌<◌, IfSome};
ghost use Rattle.olap_pool.specs.Pools.{clause_count};
ghost use Rattle.olap_clauses.specs.Admits.{IsBroken, Extends};

use crate::standing::{Stand, stands};
use crate::trails::{Reason, Trail};
use crate::watching::{Cursor, Watches};
use olap_pool::{Lit, Pool};

/// A literal of the clause that isn't known false and that its other node doesn't watch, with its place: the first
/// after this place, or else from the start up to it. Truths are by code.
fn free_after(truths: &[bool], clause: &[Lit], at: usize, other: Lit) -> Option<(usize, Lit)> {
    let last = clause.len().saturating_sub(1);
    let mut place = at;
    'lits: for _ in 0..clause.len() {
        place = if place < last { place + 1 } else { 0 };
        let lit = clause[place];
        let negation = lit.negated().code();
        let is_false = negation < truths.len() && truths[negation];
        if !is_false && lit != other {
            return Some((place, lit));
        }
    }
    None
}

/// Lets the node watch a free literal of its clause, and returns whether there is one.
fn moved(
    trail: &Trail,
    clause: &[Lit],
    watches: &mut Watches,
    at: &mut Cursor,
    other: Lit,
) -> bool {
    match free_after(trail.truths(), clause, watches.place(at), other) {
        Some((place, lit)) => {
            watches.turn(at, lit, place);
            true
        }
        None => false,
    }
}

/// Looks at one clause that watches a literal that is false now and another one that isn't true, and goes on to the
/// next of its list. Returns the clause's number if it is false.
fn visit(
    trail: &mut Trail,
    pool: &Pool,
    watches: &mut Watches,
    id: usize,
    other: Lit,
    at: &mut Cursor,
) -> Option<usize>
    ensures extends { Extends pool.now trail.old trail.new }
    ensures broken { IfSome result (IsBroken pool.now trail.new) }
{
    if id >= pool.len() {
        watches.pass(at);
        return None;
    }
    let clause = pool.clause(id);
    if moved(trail, clause, watches, at, other) {
        return None;
    }
    watches.pass(at);
    match stands(trail, clause) {
        Stand::Broken => Some(id),
        Stand::Forces(forced) => {
            trail.push(forced, Reason::Clause(id));
            None
        }
        Stand::Open => None,
    }
}

/// Looks at each clause that watches this literal, up to one that is false.
fn walk(trail: &mut Trail, pool: &Pool, watches: &mut Watches, lit: Lit) -> Option<usize>
    ensures extends { Extends pool.now trail.old trail.new }
    ensures broken { IfSome result (IsBroken pool.now trail.new) }
{
    let mut at = watches.first(lit);
    'nodes: for _ in 0..2 * pool.len() {
        let Some((id, other)) = watches.pass_true(trail.truths(), &mut at) else {
            return None;
        };
        let found = visit(trail, pool, watches, id, other, &mut at);
        if found.is_some() {
            return found;
        }
    }
    None
}

/// Forces what clauses of one open literal force. A clause that is false, if one is.
pub(crate) fn propagate(
    trail: &mut Trail,
    pool: &Pool,
    watches: &mut Watches,
    done: &mut usize,
) -> Option<usize>
    ensures extends { Extends pool.now trail.old trail.new }
    ensures broken { IfSome result (IsBroken pool.now trail.new) }
{
    'steps: while *done < trail.len() {
        let lit = trail.step(*done).lit;
        *done += 1;
        let found = walk(trail, pool, watches, lit.negated());
        if found.is_some() {
            return found;
        }
    }
    None
}

/// Looks at a clause of at most one literal. Its number, if it is false.
fn force_short(trail: &mut Trail, pool: &Pool, id: usize) -> Option<usize>
    requires { id < clause_count pool.now }
    ensures extends { Extends pool.now trail.old trail.new }
    ensures broken { IfSome result (IsBroken pool.now trail.new) }
{
    match stands(trail, pool.clause(id)) {
        Stand::Broken => Some(id),
        Stand::Forces(forced) => {
            trail.push(forced, Reason::Clause(id));
            None
        }
        Stand::Open => None,
    }
}

/// Forces what clauses of at most one literal force, unless that stands already. A clause that is false, if one is.
pub(crate) fn force_each_short(
    trail: &mut Trail,
    pool: &Pool,
    watches: &Watches,
    stand: bool,
) -> Option<usize>
    ensures extends { Extends pool.now trail.old trail.new }
    ensures broken { IfSome result (IsBroken pool.now trail.new) }
{
    if stand {
        return None;
    }
    let mut at = watches.first_short();
    'nodes: for _ in 0..pool.len() {
        let Some(id) = watches.clause(&at) else {
            return None;
        };
        if id >= pool.len() {
            return None;
        }
        let found = force_short(trail, pool, id);
        if found.is_some() {
            return found;
        }
        watches.pass(&mut at);
    }
    None
}
