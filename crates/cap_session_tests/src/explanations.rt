//! Lines that are explained, by the calls over devices and by a session.

use crate::answers::{Call, is_answered};
use crate::sessions::{Case, Change, Step, holds};
use cap_machine::Profile;
use cap_session::{ExplainOutcome, Outcome};
use std::alloc::Global;
use std::test::Fail;

const CLEAN: ExplainOutcome = ExplainOutcome::Ended(Outcome::Clean);

const FINDINGS: ExplainOutcome = ExplainOutcome::Ended(Outcome::Findings);

/// A trace, and how many lines it has.
type Trace = (&'static [u8], usize);

/// A server that limits a connection in a child.
const SERVER: Trace = (
    b"200 @start(0,3)\n\
200 accept(3) RET 4\n\
# The child has what its parent has.\n\
200 fork() RET 201\n\
201 cap_rights_limit(4,CAP_READ|CAP_WRITE) RET 0\n\
201 write(4) RET 5\n\
201 shutdown(4) RET 0\n",
    6,
);

/// Two descriptors and a mode.
const RENAME: Trace = (
    b"100 open(\"a\",O_RDONLY) RET 5\n\
100 dup(5) RET 6\n\
100 cap_enter() RET 0\n\
100 renameat(6,\"a\",7,\"b\") RET -1 errno 93\n\
100 open(\"b\",O_RDONLY) RET 8\n",
    5,
);

/// A descriptor that an exec closes.
const EXEC: Trace = (
    b"100 open(\"a\",O_RDONLY|O_CLOEXEC) RET 5\n100 execve(\"/bin/x\") RET 0\n100 read(5) RET 1",
    3,
);

/// A start, a profile, a trace, a position, the outcome, and what is written.
type Row = (
    &'static [u8],
    Profile,
    Trace,
    usize,
    ExplainOutcome,
    &'static str,
);

/// A descriptor that lacks a right.
const LIMITED: Trace = (
    b"100 @start(0)\n100 open(\"a\",O_RDWR) RET 5\n100 cap_rights_limit(5,CAP_WRITE) RET 0\n100 read(5) RET -1 errno 93",
    4,
);

/// A call that capability mode refuses.
const ENTERED: Trace = (
    b"100 @start(0)\n100 cap_enter() RET 0\n100 open(\"a\",O_RDONLY) RET -1 errno 94",
    3,
);

/// A descriptor that lacks no right.
const REFUSED: Trace = (b"100 @start(0,3)\n100 read(0) RET -1 errno 93", 2);

static ROWS: [Row; 15] = [
    (
        b"",
        Profile::One,
        SERVER,
        6,
        FINDINGS,
        "6 201 shutdown(4) RET 0\n\
missing 4 CAP_SHUTDOWN\n\
4 4 201 cap_rights_limit(4,CAP_READ|CAP_WRITE) RET 0\n\
4 3 200 fork() RET 201\n\
4 2 200 accept(3) RET 4\n",
    ),
    (
        b"",
        Profile::One,
        SERVER,
        5,
        CLEAN,
        "5 201 write(4) RET 5\n\
4 4 201 cap_rights_limit(4,CAP_READ|CAP_WRITE) RET 0\n\
4 3 200 fork() RET 201\n\
4 2 200 accept(3) RET 4\n",
    ),
    (b"", Profile::One, SERVER, 1, CLEAN, "1 200 @start(0,3)\n"),
    (
        b"",
        Profile::One,
        SERVER,
        0,
        ExplainOutcome::OutOfRange,
        "refused E7\n",
    ),
    (
        b"",
        Profile::One,
        SERVER,
        7,
        ExplainOutcome::OutOfRange,
        "refused E7\n",
    ),
    (
        b"",
        Profile::Two,
        (b"", 0),
        1,
        ExplainOutcome::OutOfRange,
        "refused E7\n",
    ),
    (
        b"100 out CAP_READ|CAP_LOOKUP 7=closed",
        Profile::One,
        RENAME,
        4,
        CLEAN,
        "4 100 renameat(6,\"a\",7,\"b\") RET -1 errno 93\n\
unexplained\n\
6 2 100 dup(5) RET 6\n\
6 1 100 open(\"a\",O_RDONLY) RET 5\n\
7 start closed\n\
mode 3 100 cap_enter() RET 0\n",
    ),
    (
        b"",
        Profile::One,
        RENAME,
        5,
        FINDINGS,
        "5 100 open(\"b\",O_RDONLY) RET 8\n\
forbidden\n\
mode 3 100 cap_enter() RET 0\n",
    ),
    (
        b"100 in unknown",
        Profile::One,
        RENAME,
        1,
        FINDINGS,
        "1 100 open(\"a\",O_RDONLY) RET 5\nforbidden\nmode start in\n",
    ),
    (
        b"",
        Profile::One,
        EXEC,
        3,
        CLEAN,
        "3 100 read(5) RET 1\n5 2 100 execve(\"/bin/x\") RET 0\n",
    ),
    (
        b"",
        Profile::Two,
        EXEC,
        3,
        FINDINGS,
        "3 100 read(5) RET 1\n\
closed 5\n\
5 2 100 execve(\"/bin/x\") RET 0\n\
5 1 100 open(\"a\",O_RDONLY|O_CLOEXEC) RET 5\n",
    ),
    // What was lacking comes after the findings and before the chains.
    (
        b"",
        Profile::One,
        LIMITED,
        4,
        CLEAN,
        "4 100 read(5) RET -1 errno 93\n\
lacks 5 CAP_READ\n\
5 3 100 cap_rights_limit(5,CAP_WRITE) RET 0\n\
5 2 100 open(\"a\",O_RDWR) RET 5\n",
    ),
    (
        b"",
        Profile::Two,
        ENTERED,
        3,
        CLEAN,
        "3 100 open(\"a\",O_RDONLY) RET -1 errno 94\n\
inside\n\
mode 2 100 cap_enter() RET 0\n",
    ),
    (
        b"",
        Profile::One,
        REFUSED,
        2,
        FINDINGS,
        "2 100 read(0) RET -1 errno 93\n\
refusal\n\
unexplained\n\
0 1 100 @start(0,3)\n",
    ),
    // Of two descriptors the second lacks a right.
    (
        b"100 out CAP_LOOKUP",
        Profile::Two,
        RENAME,
        4,
        CLEAN,
        "4 100 renameat(6,\"a\",7,\"b\") RET -1 errno 93\n\
lacks 7 CAP_RENAMEAT_TARGET\n\
6 2 100 dup(5) RET 6\n\
6 1 100 open(\"a\",O_RDONLY) RET 5\n\
7 start CAP_LOOKUP\n\
mode 3 100 cap_enter() RET 0\n",
    ),
];

#[test]
fn a_line_is_explained_in_pieces_of_any_size(rt: HostRuntime) -> Result<(), Fail> {
    for (start, profile, (trace, _), at, outcome, text) in &ROWS {
        let call = Call::Explain(*profile, *at);
        is_answered(rt.alloc(), &(call, trace, start, *outcome, text))?;
    }
    Ok(())
}

/// Fails a test where a session does not explain the line so.
fn session_explains(alloc: Global, row: &Row) -> Result<(), Fail> {
    let (start, profile, (trace, count), at, outcome, text) = row;
    let steps = [
        Step::Change(Change::Load(trace), Ok(*count)),
        Step::Explain(*at, *outcome, text),
    ];
    holds(
        alloc,
        &Case {
            name: text,
            limit: 10,
            profile: Some(*profile),
            start,
            steps: &steps,
        },
    )
}

#[test]
fn a_session_explains_a_line(rt: HostRuntime) -> Result<(), Fail> {
    for row in &ROWS {
        session_explains(rt.alloc(), row)?;
    }
    Ok(())
}
