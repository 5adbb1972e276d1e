// Words that are no command, files that can't be read, and output that can't be written.
use crate::running::{Files, Outside, Row, SOUND, check};
use crate::samples::{CHAIN, CITY_VIEW, TWO_STORES, ZERO_SUM};
use olap_run::Status;
use std::test::Fail;

const HELD: Files = &[("S", CHAIN), ("I", TWO_STORES), ("F", ZERO_SUM)];

const FIRST_READ_FAILS: Outside = Outside {
    room: 400,
    failing_read: 1,
    failing_write: 0,
};

const THIRD_READ_FAILS: Outside = Outside {
    room: 400,
    failing_read: 3,
    failing_write: 0,
};

const EIGHTH_READ_FAILS: Outside = Outside {
    room: 400,
    failing_read: 8,
    failing_write: 0,
};

const EIGHTEENTH_READ_FAILS: Outside = Outside {
    room: 400,
    failing_read: 18,
    failing_write: 0,
};

const FIRST_WRITE_FAILS: Outside = Outside {
    room: 400,
    failing_read: 0,
    failing_write: 1,
};

const LITTLE_ROOM: Outside = Outside {
    room: 10,
    failing_read: 0,
    failing_write: 0,
};

/// Rows, each with the outside that it runs in. Where the words are no command no file is opened, so the first call,
/// which would fail, isn't made.
const FAILING: &[(Outside, Row)] = &[
    (
        FIRST_READ_FAILS,
        Row {
            name: "no word",
            words: &[],
            status: Status::Usage,
            output: "usage\n",
        },
    ),
    (
        FIRST_READ_FAILS,
        Row {
            name: "a command that is cut off",
            words: &["rollup", "A"],
            status: Status::Usage,
            output: "usage\n",
        },
    ),
    (
        FIRST_READ_FAILS,
        Row {
            name: "a word too many",
            words: &["check", "A", "B", "C"],
            status: Status::Usage,
            output: "usage\n",
        },
    ),
    (
        FIRST_READ_FAILS,
        Row {
            name: "a name of no command",
            words: &["nosuch"],
            status: Status::Usage,
            output: "usage\n",
        },
    ),
    (
        FIRST_READ_FAILS,
        Row {
            name: "more words than there may be",
            words: &["rollup"; 65],
            status: Status::Usage,
            output: "usage\n",
        },
    ),
    (
        SOUND,
        Row {
            name: "a name that isn't held",
            words: &["rollup", "X", "X", "X", "A"],
            status: Status::ReadFault,
            output: "",
        },
    ),
    (
        FIRST_READ_FAILS,
        Row {
            name: "call 1 of the library fails",
            words: &["rollup", "S", "I", "F", "City"],
            status: Status::ReadFault,
            output: "",
        },
    ),
    (
        THIRD_READ_FAILS,
        Row {
            name: "call 3 of the library fails",
            words: &["rollup", "S", "I", "F", "City"],
            status: Status::ReadFault,
            output: "",
        },
    ),
    (
        EIGHTH_READ_FAILS,
        Row {
            name: "call 8 of the library fails",
            words: &["rollup", "S", "I", "F", "City"],
            status: Status::ReadFault,
            output: "",
        },
    ),
    (
        EIGHTEENTH_READ_FAILS,
        Row {
            name: "call 18 of the library fails",
            words: &["rollup", "S", "I", "F", "City"],
            status: Status::ReadFault,
            output: "",
        },
    ),
    (
        THIRD_READ_FAILS,
        Row {
            name: "call 3 of the library fails for a question",
            words: &["satisfiable", "S", "Store"],
            status: Status::ReadFault,
            output: "",
        },
    ),
    (
        FIRST_WRITE_FAILS,
        Row {
            name: "the first call of the sink fails",
            words: &["rollup", "S", "I", "F", "City"],
            status: Status::WriteFault,
            output: "",
        },
    ),
    (
        LITTLE_ROOM,
        Row {
            name: "a sink with too little room",
            words: &["rollup", "S", "I", "F", "City"],
            status: Status::WriteFault,
            output: "member,cou",
        },
    ),
    (
        SOUND,
        Row {
            name: "a sink with enough room",
            words: &["rollup", "S", "I", "F", "City"],
            status: Status::Yes,
            output: CITY_VIEW,
        },
    ),
];

#[test]
fn faults_of_words_and_of_the_outside(rt: HostRuntime) -> Result<(), Fail> {
    for (outside, row) in FAILING {
        check(&rt, rt.alloc(), *outside, row, HELD)?;
    }
    Ok(())
}
