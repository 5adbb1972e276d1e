// Whichever call of the library or of the sink fails, nothing wrong is written.
use crate::running::{Files, Outside, READ_CHUNK, Row, SOUND, WRITE_CHUNK, check};
use crate::samples::{LOCATION, PLACES, SALES, STORED};
use olap_run::Status;
use std::alloc::Global;
use std::process::Abort;
use std::test::Fail;

const HELD: Files = &[("S", LOCATION), ("I", PLACES), ("F", SALES), ("V", STORED)];

/// Command lines, each with the files that it reads.
const LINES: &[(Row, &[&str])] = &[
    (
        Row {
            name: "an answer",
            words: &["answer", "S", "I", "V", "Region"],
            status: Status::Yes,
            output: "plan State Province\nmember,count,sum,least,greatest\neast,3,3,-5,5\nsouth,1,7,7,7\n",
        },
        &[LOCATION, PLACES, STORED],
    ),
    (
        Row {
            name: "a roll-up",
            words: &["rollup", "S", "I", "F", "Country"],
            status: Status::Yes,
            output: "member,count,sum,least,greatest\nusa,1,10,10,10\nca,3,3,-5,5\nme,1,7,7,7\n",
        },
        &[LOCATION, PLACES, SALES],
    ),
];

/// How many calls of the library a run makes: each file is opened, and read piece by piece until nothing comes.
fn calls_for(texts: &[&str]) -> u64 {
    let mut calls = 0u64;
    for text in texts {
        let pieces = text.len().div_ceil(READ_CHUNK) as u64;
        calls = calls.saturating_add(pieces).saturating_add(2);
    }
    calls
}

/// Each call of the library for these files fails in turn: nothing is written. One call more never comes.
fn over_failing_reads(
    rt: &impl Abort,
    alloc: Global,
    row: &Row,
    texts: &[&str],
) -> Result<(), Fail> {
    let calls = calls_for(texts);
    let failed = Row {
        status: Status::ReadFault,
        output: "",
        ..*row
    };
    for call in 1..=calls.saturating_add(1) {
        let outside = Outside {
            failing_read: call,
            ..SOUND
        };
        let wanted = if call <= calls { failed } else { *row };
        check(rt, alloc, outside, &wanted, HELD)?;
    }
    Ok(())
}

/// Each call of the sink fails in turn: the pieces before it are written. One call more never comes.
fn over_failing_writes(rt: &impl Abort, alloc: Global, row: &Row) -> Result<(), Fail> {
    let calls = row.output.len().div_ceil(WRITE_CHUNK);
    for call in 1..=calls.saturating_add(1) {
        let outside = Outside {
            failing_write: call as u64,
            ..SOUND
        };
        let before = row
            .output
            .get(..call.saturating_sub(1).saturating_mul(WRITE_CHUNK));
        let wanted = match before {
            Some(output) if call <= calls => Row {
                status: Status::WriteFault,
                output,
                ..*row
            },
            _ => *row,
        };
        check(rt, alloc, outside, &wanted, HELD)?;
    }
    Ok(())
}

#[test]
fn each_call_may_fail(rt: HostRuntime) -> Result<(), Fail> {
    for (row, texts) in LINES {
        over_failing_reads(&rt, rt.alloc(), row, texts)?;
        over_failing_writes(&rt, rt.alloc(), row)?;
    }
    Ok(())
}
