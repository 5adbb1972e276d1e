// Rows of each family of commands, over files that are read and output that is written in small pieces.
use crate::running::{Files, Row, SOUND, check};
use crate::samples::{CHAIN, LOCATION, PLACES, SALES, STORED};
use olap_run::Status;
use std::test::Fail;

const HELD: Files = &[
    ("S", LOCATION),
    ("I", PLACES),
    ("F", SALES),
    ("V", STORED),
    ("C", CHAIN),
    ("N", "member,value\ns5,3\n"),
    ("B", "schema 1\nconstraint\n"),
    (
        "X",
        "id,category,name,parents\nx,Store,X,usa\nusa,Country,USA,all\n",
    ),
];

/// A fact that no state and no province sees.
const LOST: &str = "no\n\
frozen 100100001 Store=\"nk\" City=\"Washington\" Country=\"USA\"\n\
id,category,name,parents\n\
Store,Store,nk,City\n\
City,City,Washington,Country\n\
Country,Country,USA,all\n\
fact Store 1\n\
direct Country 1\n\
views Country none\n";

/// The stored views without one sale in Toronto.
const TORONTO_FELL: &str = "category,member,count,sum,least,greatest\n\
State,,,,,\n\
State,yu,1,7,7,7\n\
Province,,,,,\n\
Province,on,2,0,-5,5\n\
City,,,,,\n\
City,w,1,10,10,10\n\
City,to,2,0,-5,5\n\
City,mx,1,7,7,7\n";

const ROWS: &[Row] = &[
    Row {
        name: "countries from facts",
        words: &["rollup", "S", "I", "F", "Country"],
        status: Status::Yes,
        output: "member,count,sum,least,greatest\nusa,1,10,10,10\nca,3,3,-5,5\nme,1,7,7,7\n",
    },
    Row {
        name: "a schema whose constraint has no root",
        words: &["format", "B"],
        status: Status::Refused,
        output: "refused schema line 2 BadForm\n",
    },
    Row {
        name: "a store right below a country",
        words: &["check", "S", "X"],
        status: Status::Refused,
        output: "refused instance Connectivity \"x\" \"usa\"\n",
    },
    Row {
        name: "three views",
        words: &["store", "S", "I", "F", "State", "Province", "City"],
        status: Status::Yes,
        output: STORED,
    },
    Row {
        name: "regions from states and provinces",
        words: &["answer", "S", "I", "V", "Region"],
        status: Status::Yes,
        output: "plan State Province\nmember,count,sum,least,greatest\neast,3,3,-5,5\nsouth,1,7,7,7\n",
    },
    Row {
        name: "a withdrawn value is no extreme",
        words: &["retract", "S", "I", "V", "N"],
        status: Status::Yes,
        output: TORONTO_FELL,
    },
    Row {
        name: "a store that no state and no province sees",
        words: &["summarizable", "S", "Country", "State", "Province"],
        status: Status::No,
        output: LOST,
    },
    Row {
        name: "two constraints that others imply",
        words: &["audit", "S"],
        status: Status::Yes,
        output: "redundant 2\nredundant 6\nfindings 2\n",
    },
    Row {
        name: "a text that is no certificate",
        words: &["verify", "C", "V", "City", "Store"],
        status: Status::No,
        output: "rejected line 1\n",
    },
    Row {
        name: "pairs of cities from pairs of stores",
        words: &["cube", "2", "C", "C", "City,City", "Store,Store"],
        status: Status::Yes,
        output: "yes\n",
    },
    Row {
        name: "an input of three stores",
        words: &["generate", "5", "3"],
        status: Status::Yes,
        output: "members 15\nfacts 3\nstored 5\nplan State Province\nrows 2\ncount 2\nsum -879\n",
    },
];

#[test]
fn rows_of_each_family(rt: HostRuntime) -> Result<(), Fail> {
    for row in ROWS {
        check(&rt, rt.alloc(), SOUND, row, HELD)?;
    }
    Ok(())
}
