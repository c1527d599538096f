//! Denials, by the call over devices and by a session.

use crate::answers::{Call, is_answered};
use crate::sessions::{Case, Change, Query, Step, holds};
use cap_machine::Profile::{self, One, Two};
use cap_session::ExplainOutcome::Ended;
use cap_session::Outcome;
use std::alloc::Global;
use std::test::Fail;

/// A trace, and how many lines it has.
type Trace = (&'static [u8], usize);

/// A start, a profile, a trace, and its denials.
type Row = (&'static [u8], Profile, Trace, &'static str);

/// A descriptor that lacks the right to read, and one that lacks none.
const READ: Trace = (
    b"100 @start(0)\n\
100 open(\"a\",O_RDWR) RET 5\n\
# The limit.\n\
100 cap_rights_limit(5,CAP_WRITE) RET 0\n\
100 read(5) RET -1 errno 93\n\
100 ioctl(0) RET -1 errno 93\n",
    5,
);

/// A call by path, in a process that entered capability mode and in its child.
const ENTERED: Trace = (
    b"100 @start(0)\n\
100 open(\"a\",O_RDONLY) RET -1 errno 94\n\
100 cap_enter() RET 0\n\
100 open(\"a\",O_RDONLY) RET -1 errno 94\n\
100 fork() RET 101\n\
101 unlink(\"a\") RET -1 errno 94\n\
101 read(0) RET -1 errno 94",
    7,
);

/// Lines that other errnos refuse, and one that lacks a right and succeeds.
const OTHERS: Trace = (
    b"100 @start(0)\n\
100 cap_rights_limit(0,CAP_READ) RET 0\n\
100 write(0) RET 5\n\
100 write(0) RET -1 errno 9\n\
100 open(\"a\",O_RDONLY) RET -1 errno 2\n",
    5,
);

/// A limit that asks for more than is held.
const EXPANDED: Trace = (
    b"100 @start(3)\n\
100 cap_rights_limit(3,CAP_READ|CAP_SEEK) RET 0\n\
100 cap_rights_limit(3,CAP_READ|CAP_WRITE) RET -1 errno 93\n",
    3,
);

/// Two directories that lack a right each.
const RENAME: Trace = (
    b"100 @start(3,4)\n\
100 cap_rights_limit(3,CAP_LOOKUP) RET 0\n\
100 cap_rights_limit(4,CAP_LOOKUP) RET 0\n\
100 renameat(4,\"a\",3,\"b\") RET -1 errno 93\n",
    4,
);

/// A limited descriptor that an exec keeps.
const EXEC: Trace = (
    b"100 @start(0)\n\
100 open(\"a\",O_RDWR) RET 3\n\
100 cap_rights_limit(3,CAP_READ) RET 0\n\
100 execve(\"b\") RET 0\n\
100 write(3) RET -1 errno 93",
    5,
);

/// What isn't known but by a start.
const STARTED: Trace = (
    b"100 write(3) RET -1 errno 93\n\
100 open(\"a\",O_RDONLY) RET -1 errno 94\n\
100 read(9) RET -1 errno 93\n",
    3,
);

const ALL_UNEXPLAINED: &str =
    "1 100 write unexplained\n2 100 open unexplained\n3 100 read unexplained\ndenials 3\n";

static ROWS: [Row; 11] = [
    (b"", One, (b"", 0), "denials 0\n"),
    (
        b"",
        One,
        READ,
        "4 100 read lacks 5 CAP_READ\n5 100 ioctl unexplained\ndenials 2\n",
    ),
    (
        b"",
        Two,
        ENTERED,
        "2 100 open unexplained\n4 100 open inside\n6 101 unlink inside\n7 101 read unexplained\ndenials 4\n",
    ),
    (b"", One, OTHERS, "denials 0\n"),
    (
        b"",
        One,
        EXPANDED,
        "3 100 cap_rights_limit lacks 3 CAP_WRITE\ndenials 1\n",
    ),
    (
        b"",
        Two,
        RENAME,
        "4 100 renameat lacks 4 CAP_RENAMEAT_SOURCE\n4 100 renameat lacks 3 CAP_RENAMEAT_TARGET\ndenials 2\n",
    ),
    (b"", One, EXEC, "5 100 write unexplained\ndenials 1\n"),
    (b"", Two, EXEC, "5 100 write lacks 3 CAP_WRITE\ndenials 1\n"),
    (b"", One, STARTED, ALL_UNEXPLAINED),
    (
        b"100 in closed 3=CAP_READ",
        One,
        STARTED,
        "1 100 write lacks 3 CAP_WRITE\n2 100 open inside\n3 100 read unexplained\ndenials 3\n",
    ),
    // The start names another process.
    (
        b"# x\n99 in closed 3=CAP_READ\n",
        Two,
        STARTED,
        ALL_UNEXPLAINED,
    ),
];

/// How a call ends that writes these denials.
fn outcome_of(text: &str) -> Outcome {
    if text == "denials 0\n" {
        Outcome::Clean
    } else {
        Outcome::Findings
    }
}

#[test]
fn denials_are_written_in_pieces_of_any_size(rt: HostRuntime) -> Result<(), Fail> {
    for (start, profile, (trace, _), text) in &ROWS {
        let call = Call::Denials(*profile);
        is_answered(
            rt.alloc(),
            &(call, trace, start, Ended(outcome_of(text)), text),
        )?;
    }
    Ok(())
}

/// A profile, a trace and a start with a refused line, the outcome, and what is written.
type Refusal = (Profile, &'static [u8], &'static [u8], Outcome, &'static str);

static REFUSALS: [Refusal; 3] = [
    (
        One,
        b"100 read(3) RET -1 errno 93\n# note\n100 read(x) RET 1\n",
        b"",
        Outcome::Refused { code: 4, line: 3 },
        "refused E4 line 3\n",
    ),
    (
        Two,
        b"x",
        b"100 out closed\n100 out closed\n",
        Outcome::StartRefused { code: 3, line: 2 },
        "refused E3 start line 2\n",
    ),
    (
        One,
        b"100 read(3)",
        b"100 in closed 3=CAP_READ",
        Outcome::Refused { code: 2, line: 1 },
        "refused E2 line 1\n",
    ),
];

#[test]
fn a_refused_line_has_no_denials(rt: HostRuntime) -> Result<(), Fail> {
    for (profile, trace, start, outcome, text) in &REFUSALS {
        let call = Call::Denials(*profile);
        is_answered(rt.alloc(), &(call, trace, start, Ended(*outcome), text))?;
    }
    Ok(())
}

/// Fails a test where a session doesn't have the denials of a row, and none before it has lines.
fn session_has(alloc: Global, row: &Row) -> Result<(), Fail> {
    let (start, profile, (trace, count), text) = row;
    holds(
        alloc,
        &Case {
            name: text,
            limit: 10,
            profile: Some(*profile),
            start,
            steps: &[
                Step::Ask(Query::Denials, Ok("denials 0\n")),
                Step::Change(Change::Load(trace), Ok(*count)),
                Step::Ask(Query::Denials, Ok(text)),
            ],
        },
    )
}

#[test]
fn a_session_has_its_denials(rt: HostRuntime) -> Result<(), Fail> {
    for row in &ROWS {
        session_has(rt.alloc(), row)?;
    }
    Ok(())
}
