// Two stores in one city: the views of the city and of the stores, worked out by hand.
use olap_plain::{PlainFact, PlainMember, PlainRow, direct};
use std::alloc::Global;
use std::process::Abort;

// The stores 0 and 1 in the city 2, which is below `all`, 3. Of each member the category and its parents.
const MEMBERS: [(u16, &[u32]); 4] = [(1, &[2]), (1, &[2]), (2, &[3]), (0, &[])];

const FACTS: [PlainFact; 3] = [
    PlainFact {
        member: 0,
        value: 5,
    },
    PlainFact {
        member: 1,
        value: -7,
    },
    PlainFact {
        member: 0,
        value: 2,
    },
];

// A member without an id and a name.
fn member(rt: &impl Abort, alloc: Global, category: u16, parents: &[u32]) -> PlainMember {
    PlainMember {
        id: Vec::new(alloc),
        category,
        name: Vec::new(alloc),
        parents: Vec::from_slice(alloc, parents).expect(rt, "memory"),
    }
}

fn members(rt: &impl Abort, alloc: Global) -> Vec<PlainMember> {
    let mut all = Vec::new(alloc);
    for (category, parents) in &MEMBERS {
        all.push(member(rt, alloc, *category, parents))
            .expect(rt, "memory");
    }
    all
}

// A row's member, how many facts there are below it, and their sum, least and greatest.
fn told(row: &PlainRow) -> (u32, u64, i128, i64, i64) {
    (row.member, row.count, row.sum, row.least, row.greatest)
}

// How many rows the view of a category has, and the first.
fn first_of(
    rt: &impl Abort,
    alloc: Global,
    category: u16,
) -> (usize, Option<(u32, u64, i128, i64, i64)>) {
    let members = members(rt, alloc);
    assert!(rt; members.len() == 4);
    let rows = direct(alloc, &members, &FACTS, category).expect(rt, "memory");
    (rows.len(), rows.first().map(told))
}

#[test]
fn two_stores_in_one_city(rt: HostRuntime) {
    assert!(rt; first_of(&rt, rt.alloc(), 2) == (1, Some((2, 3, 0, -7, 5))));
    assert!(rt; first_of(&rt, rt.alloc(), 1) == (2, Some((0, 2, 7, 2, 5))));
}
