// Each file is opened and read once, in the order of the words, and nothing else is opened. And a file without an end.
use crate::libraries::{Content, Once};
use crate::running::{Row, SOUND, check_over};
use crate::samples::{CHAIN, CHAIN_PRINTED, CITY_VIEW, TWO_STORES, ZERO_SUM};
use olap_run::Status;
use std::alloc::Global;
use std::process::Abort;
use std::test::Fail;

type File<'a> = (&'a str, Content<'a>);

/// The view of the city, stored.
const CITY_STORED: &str = "category,member,count,sum,least,greatest\nCity,,,,,\nCity,c1,3,0,-5,5\n";

/// A certificate of cities from stores.
const CERTIFICATE: &str = "certificate 1\nbottom Store\nedge Store City\ndead Store\nquestion\n";

/// The same in the short form.
const SHORT: &str = "short certificate 1\nbottom Store\nedge Store City\ndead Store\nquestion\n";

/// A store in a city, of which no view is a source.
const LOST: &str = "no\n\
frozen 11 Store=\"nk\" City=\"nk\"\n\
id,category,name,parents\n\
Store,Store,nk,City\n\
City,City,nk,all\n\
fact Store 1\n\
direct City 1\n\
views City none\n";

const SCHEMA: File = ("S", Content::Text(CHAIN));

const INSTANCE: File = ("I", Content::Text(TWO_STORES));

const FACTS: File = ("F", Content::Text(ZERO_SUM));

const STORE: File = ("V", Content::Text(CITY_STORED));

const ENDLESS: File = ("X", Content::Endless);

/// Rows, each with the files that it opens. More of a file without an end than the limit and one piece isn't read.
const ROWS: &[(&[File], Row)] = &[
    (
        &[SCHEMA],
        Row {
            name: "format",
            words: &["format", "S"],
            status: Status::Yes,
            output: CHAIN_PRINTED,
        },
    ),
    (
        &[SCHEMA],
        Row {
            name: "satisfiable",
            words: &["satisfiable", "S", "Store"],
            status: Status::Yes,
            output: "yes\nfrozen 11 Store=\"nk\" City=\"nk\"\n",
        },
    ),
    (
        &[SCHEMA],
        Row {
            name: "implies",
            words: &["implies", "S", "Store", "Store.City"],
            status: Status::Yes,
            output: "yes\n",
        },
    ),
    (
        &[SCHEMA],
        Row {
            name: "summarizable",
            words: &["summarizable", "S", "City", "Store"],
            status: Status::Yes,
            output: "yes\n",
        },
    ),
    (
        &[SCHEMA],
        Row {
            name: "frozen",
            words: &["frozen", "S", "Store"],
            status: Status::Yes,
            output: "frozen 11 Store=\"nk\" City=\"nk\"\ncount 1\n",
        },
    ),
    (
        &[SCHEMA],
        Row {
            name: "audit",
            words: &["audit", "S"],
            status: Status::Yes,
            output: "findings 0\n",
        },
    ),
    (
        &[SCHEMA],
        Row {
            name: "prove",
            words: &["prove", "S", "City"],
            status: Status::No,
            output: LOST,
        },
    ),
    (
        &[SCHEMA],
        Row {
            name: "prove-short",
            words: &["prove-short", "S", "City"],
            status: Status::No,
            output: LOST,
        },
    ),
    (
        &[SCHEMA, ("P", Content::Text(CERTIFICATE))],
        Row {
            name: "verify",
            words: &["verify", "S", "P", "City", "Store"],
            status: Status::Yes,
            output: "accepted\n",
        },
    ),
    (
        &[SCHEMA, ("P", Content::Text(SHORT))],
        Row {
            name: "verify-short",
            words: &["verify-short", "S", "P", "City", "Store"],
            status: Status::Yes,
            output: "accepted\n",
        },
    ),
    (
        &[SCHEMA, INSTANCE],
        Row {
            name: "check",
            words: &["check", "S", "I"],
            status: Status::Yes,
            output: "legal 3\n",
        },
    ),
    (
        &[SCHEMA, INSTANCE, FACTS],
        Row {
            name: "rollup",
            words: &["rollup", "S", "I", "F", "City"],
            status: Status::Yes,
            output: CITY_VIEW,
        },
    ),
    (
        &[SCHEMA, INSTANCE, FACTS],
        Row {
            name: "store",
            words: &["store", "S", "I", "F", "City"],
            status: Status::Yes,
            output: CITY_STORED,
        },
    ),
    (
        &[SCHEMA, INSTANCE, STORE],
        Row {
            name: "answer",
            words: &["answer", "S", "I", "V", "City"],
            status: Status::Yes,
            output: "plan City\nmember,count,sum,least,greatest\nc1,3,0,-5,5\n",
        },
    ),
    (
        &[
            SCHEMA,
            INSTANCE,
            STORE,
            ("N", Content::Text("member,value\na,0\n")),
        ],
        Row {
            name: "append",
            words: &["append", "S", "I", "V", "N"],
            status: Status::Yes,
            output: "category,member,count,sum,least,greatest\nCity,,,,,\nCity,c1,4,0,-5,5\n",
        },
    ),
    (
        &[
            SCHEMA,
            INSTANCE,
            STORE,
            ("N", Content::Text("member,value\na,0\n")),
        ],
        Row {
            name: "retract",
            words: &["retract", "S", "I", "V", "N"],
            status: Status::Yes,
            output: "category,member,count,sum,least,greatest\nCity,,,,,\nCity,c1,2,0,-5,5\n",
        },
    ),
    (
        &[SCHEMA, ("T", Content::Text(CHAIN))],
        Row {
            name: "cube",
            words: &["cube", "2", "S", "T", "City,City", "Store,Store"],
            status: Status::Yes,
            output: "yes\n",
        },
    ),
    (
        &[
            SCHEMA,
            ("T", Content::Text(CHAIN)),
            INSTANCE,
            ("J", Content::Text(TWO_STORES)),
            ("F", Content::Text("m1,m2,value\na,b,5\nb,a,-5\n")),
        ],
        Row {
            name: "cubeview",
            words: &["cubeview", "2", "S", "T", "I", "J", "F", "City,City"],
            status: Status::Yes,
            output: "m1,m2,count,sum,least,greatest\nc1,c1,2,0,-5,5\n",
        },
    ),
    (
        &[],
        Row {
            name: "generate",
            words: &["generate", "5", "3"],
            status: Status::Yes,
            output: "members 15\nfacts 3\nstored 5\nplan State Province\nrows 2\ncount 2\nsum -879\n",
        },
    ),
    (
        &[ENDLESS],
        Row {
            name: "format of a file without an end",
            words: &["format", "X"],
            status: Status::Refused,
            output: "refused schema TooLong\n",
        },
    ),
];

/// The row opens these files, in their order, and asks for nothing else.
fn check_opening(rt: &impl Abort, alloc: Global, row: &Row, files: &[File]) -> Result<(), Fail> {
    let mut library = Once::new(files);
    check_over(rt, alloc, SOUND, row, &mut library)?;
    assert!(rt; library.is_used_up(), "{}", row.name);
    Ok(())
}

#[test]
fn each_file_is_opened_once(rt: HostRuntime) -> Result<(), Fail> {
    for (files, row) in ROWS {
        check_opening(&rt, rt.alloc(), row, files)?;
    }
    Ok(())
}
