// All frozen dimensions of a store that lies in one place or in more, and of one that can't be.
ghost use Rattle.olap_ast.specs.Formula as Meaning;
ghost use Rattle.olap_base.specs.Graph.{IsCategory};
ghost use Rattle.olap_schema.specs.Schemas.{schema_of};
ghost use Rattle.olap_dimsat.specs.Searches.{IsMadeWith};

use crate::reading::read;
use olap_ast::Formula;
use olap_base::{CatId, Refusal};
use olap_dimsat::{Search, TooMany};
use olap_frozen::Frozen;
use olap_schema::Schema;
use std::alloc::Global;
use std::process::Abort;

const PLACES: &[u8] = b"schema 1
category Store
category Mall
category Street
category Fair
edge Store Mall
edge Mall All
edge Store Street
edge Street All
edge Store Fair
edge Fair All
";

// By their codes, the last edge first: the fair, the street, both, the mall, ..
const CHOICES: [&[u8]; 7] = [
    b"000011", b"001100", b"001111", b"110000", b"110011", b"111100", b"111111",
];

const IMPOSSIBLE: &[u8] = b"schema 1
category Store
edge Store All
constraint Store: false
";

// A search for members of the category.
fn search_at(rt: &impl Abort, alloc: Global, schema: &Schema, c: CatId) -> Search
    requires { IsCategory (schema_of schema.now).graph c.0 }
    ensures { IsMadeWith (schema_of schema.now) Meaning.Formula.Truth result }
{
    let _valid = schema.constraints();
    Search::new(alloc, schema, c, &Formula::True).expect(rt, "memory")
}

// A search for the stores of a schema.
fn search_in(rt: &impl Abort, alloc: Global, schema: &Schema) -> Search
    ensures { IsMadeWith (schema_of schema.now) Meaning.Formula.Truth result }
{
    let store = schema.graph().category(b"Store").expect(rt, "a store");
    search_at(rt, alloc, schema, store)
}

fn are_fresh(names: &[u16]) -> bool {
    for name in names {
        if *name != 0 {
            return false;
        }
    }
    true
}

// Whether exactly these edges are present, and each name is the fresh one.
fn is_choice(frozen: &Frozen, code: &[u8]) -> bool {
    let edges = frozen.edges.items();
    for (edge, digit) in edges.iter().zip(code) {
        if *edge != (*digit == b'1') {
            return false;
        }
    }
    edges.len() == code.len() && are_fresh(frozen.names.items())
}

// Whether each is the choice of its place, and there are no more.
fn are_choices(all: &[Frozen], codes: &[&[u8]]) -> bool {
    for (frozen, code) in all.iter().zip(codes) {
        if !is_choice(frozen, code) {
            return false;
        }
    }
    all.len() == codes.len()
}

fn is_among(frozen: &Frozen, codes: &[&[u8]]) -> bool {
    for code in codes {
        if is_choice(frozen, code) {
            return true;
        }
    }
    false
}

// Whether all are these choices, where there aren't too many.
fn all_are(
    search: &mut Search,
    schema: &Schema,
    limit: usize,
    codes: &[&[u8]],
) -> Result<bool, Refusal<TooMany>>
    requires { IsMadeWith (schema_of schema.now) Meaning.Formula.Truth search.old }
    ensures { IsMadeWith (schema_of schema.now) Meaning.Formula.Truth search.new }
{
    let all = search.all(schema, &Formula::True, limit)?;
    Ok(are_choices(all.items(), codes))
}

// Whether what is found, if anything, is one of these choices.
fn any_is(rt: &impl Abort, search: &mut Search, schema: &Schema, codes: &[&[u8]]) -> Option<bool>
    requires { IsMadeWith (schema_of schema.now) Meaning.Formula.Truth search.old }
    ensures { IsMadeWith (schema_of schema.now) Meaning.Formula.Truth search.new }
{
    let mut one = search.blank().expect(rt, "memory");
    let found = search.any(schema, &Formula::True, &mut one);
    found.then_some(is_among(&one, codes))
}

// Whether the least, if there is one, is this choice.
fn least_is(rt: &impl Abort, search: &mut Search, schema: &Schema, code: &[u8]) -> Option<bool>
    requires { IsMadeWith (schema_of schema.now) Meaning.Formula.Truth search.old }
{
    let mut least = search.blank().expect(rt, "memory");
    let found = search.first(schema, &Formula::True, &mut least);
    found.then_some(is_choice(&least, code))
}

// All stores that a schema may have, and then the least: whether they are these choices.
fn all_and_least(
    rt: &impl Abort,
    alloc: Global,
    text: &[u8],
    limit: usize,
    codes: &[&[u8]],
) -> (Result<bool, Refusal<TooMany>>, Option<bool>) {
    let schema = read(rt, alloc, text);
    let mut search = search_in(rt, alloc, &schema);
    let all = all_are(&mut search, &schema, limit, codes);
    (all, least_is(rt, &mut search, &schema, CHOICES[0]))
}

// Any store that a schema may have, and then the least: whether they are choices of the stores in three places.
fn any_and_least(rt: &impl Abort, alloc: Global, text: &[u8]) -> (Option<bool>, Option<bool>) {
    let schema = read(rt, alloc, text);
    let mut search = search_in(rt, alloc, &schema);
    let any = any_is(rt, &mut search, &schema, &CHOICES);
    (any, least_is(rt, &mut search, &schema, CHOICES[0]))
}

// Of each text the most that are listed, whether these are all, and whether there is a least one.
type Case = (
    &'static [u8],
    usize,
    &'static [&'static [u8]],
    Result<bool, Refusal<TooMany>>,
    Option<bool>,
);

const CASES: [Case; 4] = [
    (PLACES, 7, &CHOICES, Ok(true), Some(true)),
    (PLACES, 6, &[], Err(Refusal::Kind(TooMany)), Some(true)),
    (PLACES, 0, &[], Err(Refusal::Kind(TooMany)), Some(true)),
    (IMPOSSIBLE, 0, &[], Ok(true), None),
];

#[test]
fn all_stores_up_to_a_limit(rt: HostRuntime) {
    for (text, limit, codes, all, least) in &CASES {
        let told = all_and_least(&rt, rt.alloc(), text, *limit, codes);
        assert!(rt; told == (*all, *least));
    }
}

#[test]
fn any_store_is_one_of_all(rt: HostRuntime) {
    assert!(rt; any_and_least(&rt, rt.alloc(), PLACES) == (Some(true), Some(true)));
    assert!(rt; any_and_least(&rt, rt.alloc(), IMPOSSIBLE) == (None, None));
}
