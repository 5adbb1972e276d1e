// The constants and the numbers of a formula.
use crate::reading::read;
use olap_ast::{Formula, constants, numbers};
use olap_base::{CatId, Text};
use std::alloc::Global;
use std::process::Abort;

// A constraint with constants of the category 2 and one more, and numbers of the category 4 and one more.
const SCHEMA: &[u8] = b"schema 2\n\
category Store\ncategory City\ncategory State\ncategory Size number\ncategory Rank number\n\
edge Store City\nedge City State\nedge State All\nedge Store Size\nedge Store Rank\nedge Size All\nedge Rank All\n\
constraint Store: one(Store.City = \"b\", Store.City = \"a\" & Store.State = \"z\", Store.City = \"b\") & \
(Store.Size < 9 -> Store.Size = -9 | Store.Rank <= 8)\n";

fn are(texts: &[Text], wanted: &[&[u8]]) -> bool {
    for (text, bytes) in texts.iter().zip(wanted) {
        if text.bytes() != *bytes {
            return false;
        }
    }
    texts.len() == wanted.len()
}

fn has_constants(rt: &impl Abort, alloc: Global, f: &Formula, wanted: &[&[u8]]) -> bool {
    let found = constants(alloc, f, CatId(2)).expect(rt, "memory");
    are(found.items(), wanted)
}

fn has_numbers(rt: &impl Abort, alloc: Global, f: &Formula, wanted: &[i64]) -> bool {
    let found = numbers(alloc, f, CatId(4)).expect(rt, "memory");
    found.items() == wanted
}

// They are distinct and in order.
#[test]
fn constants_and_numbers_are_listed(rt: HostRuntime) {
    let schema = read(&rt, rt.alloc(), SCHEMA);
    let constraint = schema.constraints().first().expect(&rt, "a constraint");
    assert!(rt; has_constants(&rt, rt.alloc(), &constraint.formula, &[b"a", b"b"]));
    assert!(rt; has_numbers(&rt, rt.alloc(), &constraint.formula, &[-9, 9]));
}
