// Equations modulo 2 that stand in few clauses, and few clauses that are too many.
use olap_parities::{Counting, Parities};
use olap_pool::{Lit, Pool};
use std::alloc::Global;
use std::process::Abort;

// The literal of a number: variables count from 1, and a negation is a negative number.
fn lit(number: i8) -> Lit {
    let variable = u32::from(number.unsigned_abs());
    Lit {
        variable,
        positive: number > 0,
    }
}

// A pool of clauses of three literals at most, in which 0 stands for none.
fn pool_of(rt: &impl Abort, alloc: Global, clauses: &[[i8; 3]]) -> Pool {
    let mut pool = Pool::new(alloc);
    for [first, second, third] in clauses {
        let added = match (*second, *third) {
            (0, _) => pool.add(&[lit(*first)]),
            (second, 0) => pool.add(&[lit(*first), lit(second)]),
            (second, third) => pool.add(&[lit(*first), lit(second), lit(third)]),
        };
        added.expect(rt, "memory");
    }
    pool
}

// Whether the clauses may be true, and how many clauses were derived.
fn derived(rt: &impl Abort, alloc: Global, clauses: &[[i8; 3]]) -> (bool, usize) {
    let pool = pool_of(rt, alloc, clauses);
    let mut into = Pool::new(alloc);
    into.reserve(100, 100).expect(rt, "memory");
    let mut parities = Parities::new(alloc, 10, &pool).expect(rt, "memory");
    let is_open = parities.derive(&pool, &mut into);
    (is_open, into.len())
}

// Three variables, each two of which differ.
const RING: [[i8; 3]; 6] = [
    [1, 2, 0],
    [-1, -2, 0],
    [2, 3, 0],
    [-2, -3, 0],
    [1, 3, 0],
    [-1, -3, 0],
];

// The six edges between four places, of which one has an odd number of edges and the others an even one.
const PLACES: [[i8; 3]; 16] = [
    [1, 2, 3],
    [1, -2, -3],
    [-1, 2, -3],
    [-1, -2, 3],
    [-1, 4, 5],
    [1, -4, 5],
    [1, 4, -5],
    [-1, -4, -5],
    [-2, 4, 6],
    [2, -4, 6],
    [2, 4, -6],
    [-2, -4, -6],
    [-3, 5, 6],
    [3, -5, 6],
    [3, 5, -6],
    [-3, -5, -6],
];

// The third is the first or the second, the fourth is that both are, and isn't so; the first and the third differ.
const RUNG: [[i8; 3]; 7] = [
    [-4, 0, 0],
    [-1, -2, 4],
    [-3, 1, 2],
    [3, -1, 0],
    [3, -2, 0],
    [3, 1, 0],
    [-3, -1, 0],
];

#[test]
fn wrong_sums_are_found(rt: HostRuntime) {
    assert!(rt; !derived(&rt, rt.alloc(), &RING).0);
    assert!(rt; !derived(&rt, rt.alloc(), &PLACES).0);
}

#[test]
fn what_is_known_counts(rt: HostRuntime) {
    let (is_open, count) = derived(&rt, rt.alloc(), &RUNG);
    assert!(rt; is_open);
    assert!(rt; count > 0);
}

#[test]
fn right_sums_stay(rt: HostRuntime) {
    assert!(rt; derived(&rt, rt.alloc(), &RING[..4]).0);
    assert!(rt; derived(&rt, rt.alloc(), &PLACES[..12]).0);
}

// Four pigeons, each in one of three holes, and no two in one.
const PIGEONS: [[i8; 3]; 22] = [
    [-1, -4, 0],
    [-1, -7, 0],
    [-1, -10, 0],
    [-4, -7, 0],
    [-4, -10, 0],
    [-7, -10, 0],
    [-2, -5, 0],
    [-2, -8, 0],
    [-2, -11, 0],
    [-5, -8, 0],
    [-5, -11, 0],
    [-8, -11, 0],
    [-3, -6, 0],
    [-3, -9, 0],
    [-3, -12, 0],
    [-6, -9, 0],
    [-6, -12, 0],
    [-9, -12, 0],
    [1, 2, 3],
    [4, 5, 6],
    [7, 8, 9],
    [10, 11, 12],
];

// Whether the clauses are found to be too many.
fn is_overfull(rt: &impl Abort, alloc: Global, clauses: &[[i8; 3]]) -> bool {
    let pool = pool_of(rt, alloc, clauses);
    let mut counting = Counting::new(alloc, 13).expect(rt, "memory");
    counting.is_overfull(&pool)
}

#[test]
fn pigeons_are_counted(rt: HostRuntime) {
    assert!(rt; is_overfull(&rt, rt.alloc(), &PIGEONS));
    assert!(rt; !is_overfull(&rt, rt.alloc(), &PIGEONS[..21]));
}
