// The top call over files of which none is missing, and a sink that takes all.
use crate::running::{Files, status_surely};
use crate::samples::{CHAIN, TWO_STORES};
use olap_run::Status;
use std::test::Fail;

const HELD: Files = &[
    ("S", CHAIN),
    ("I", TWO_STORES),
    (
        "E",
        "schema 1\ncategory A\nedge A All\nconstraint A: false\n",
    ),
];

const ROWS: &[(&[&str], Status)] = &[
    (&["check", "S", "I"], Status::Yes),
    (&["satisfiable", "E", "A"], Status::No),
    (&["satisfiable", "S", "Town"], Status::Refused),
    // A name that isn't held has no bytes, and these are no schema.
    (&["format", "X"], Status::Refused),
    (&["format"], Status::Usage),
];

#[test]
fn answers_without_a_fault(rt: HostRuntime) -> Result<(), Fail> {
    for (words, wanted) in ROWS {
        let status = status_surely(rt.alloc(), words, HELD)?;
        assert!(rt; status == *wanted);
    }
    Ok(())
}
