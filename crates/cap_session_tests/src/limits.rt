//! Limits, by the call over devices and by a session: after the lines that made descriptors, and before a line.

use crate::answers::{Call, is_answered};
use crate::sessions::{Case, Change, Query, Step, holds};
use cap_machine::Profile::{self, One, Two};
use cap_session::ExplainOutcome::{self, Ended, OutOfRange};
use cap_session::{
    Outcome, Refused, entering_before_is_forbidden, limits_script_is_accepted,
    limits_script_is_enough, limits_script_is_least, read_texts_are_spelled,
};
use std::alloc::Global;
use std::test::Fail;

/// A trace, and how many lines it has.
type Trace = (&'static [u8], usize);

/// A start, a profile, a trace, the position of a line if one is asked for, and the script, or why there is none.
type Row = (
    &'static [u8],
    Profile,
    Trace,
    Option<usize>,
    Result<&'static str, Refused>,
);

/// A process that opens two files, and a child that reads one and writes the other.
const TALLY: Trace = (
    b"2101 @start(0,1,2)\n\
2101 openat(AT_FDCWD,\"access.log\",O_RDONLY) RET 3\n\
2101 openat(AT_FDCWD,\"tally.out\",O_WRONLY|O_CREAT|O_TRUNC) RET 4\n\
2101 fork() RET 2102\n\
2102 openat(AT_FDCWD,\"/etc/localtime\",O_RDONLY) RET 5\n\
2102 read(5) RET 2852\n\
2102 close(5) RET 0\n\
2102 fstat(3) RET 0\n\
2102 lseek(3) RET 32768\n\
2102 read(3) RET 32768\n\
2102 write(4) RET 9\n\
2102 fsync(4) RET 0\n\
2102 @exit()\n\
2101 @exit()\n",
    14,
);

/// A process that reads what it began with.
const READ: Trace = (b"100 @start(0)\n100 read(0) RET 1\n", 2);

/// A descriptor that an exec closes, and one that stays open.
const EXEC: Trace = (
    b"100 open(\"a\",O_RDONLY|O_CLOEXEC) RET 5\n\
100 open(\"b\",O_RDONLY) RET 6\n\
100 execve(\"/bin/x\") RET 0\n\
100 read(5) RET 1\n\
100 read(6) RET 1",
    5,
);

/// Descriptors that the process had before the trace.
const OLDER: Trace = (
    b"100 open(\"a\",O_RDWR) RET 4\n\
100 write(9) RET 1\n\
100 read(4) RET 1\n\
100 fstat(7) RET 0\n",
    4,
);

/// A process that enters capability mode, and is then in its own way.
const ENTERED: Trace = (
    b"100 @start(0)\n\
100 read(0) RET 1\n\
100 cap_enter() RET 0\n\
100 write(0) RET 1\n\
100 unlink(\"a\") RET 0\n",
    5,
);

/// A process that uses a copy, and two descriptors that a start may know.
const STARTED: Trace = (
    b"100 dup(3) RET 4\n\
# The copy is read.\n\
100 read(4) RET 1\n\
100 write(7) RET 1\n\
100 read(5) RET 1",
    4,
);

/// Descriptors that a process accepts, one of which only a child uses, and a child with its descriptor.
const SERVED: Trace = (
    b"100 @start(3)\n\
100 accept(3) RET 4\n\
100 pdfork() RET 101,5\n\
101 pdfork() RET 0,5\n\
101 read(4) RET 1\n\
101 fstat(5) RET 0\n\
# The number of a comment isn't counted.\n\
100 accept4(3,SOCK_CLOEXEC) RET 6\n\
100 dup(6) RET 7\n\
100 @uses(5,CAP_PDWAIT)\n\
100 pipe() RET 8,9\n\
100 write(7) RET 1\n\
100 write(9) RET 1\n",
    12,
);

static MAKERS: [Row; 9] = [
    (b"", One, (b"", 0), None, Ok("")),
    (b"", One, READ, None, Ok("")),
    // What a child needs is needed of its parent.
    (
        b"",
        One,
        TALLY,
        None,
        Ok(
            "insert 6 2102 cap_rights_limit(5,CAP_READ) RET 0\n\
insert 4 2101 cap_rights_limit(4,CAP_WRITE|CAP_FSYNC) RET 0\n\
insert 3 2101 cap_rights_limit(3,CAP_READ|CAP_SEEK|CAP_FSTAT) RET 0\n",
        ),
    ),
    // Comments aren't counted, and a descriptor that nothing uses needs nothing.
    (
        b"",
        One,
        (b"# A pipe.\n\n100 pipe() RET 3,4\n100 write(4) RET 1\n", 2),
        None,
        Ok(
            "insert 2 100 cap_rights_limit(4,CAP_WRITE) RET 0\n\
insert 2 100 cap_rights_limit(3,NONE) RET 0\n",
        ),
    ),
    // In profile 1 nothing is known after an exec.
    (
        b"",
        One,
        EXEC,
        None,
        Ok(
            "insert 3 100 cap_rights_limit(6,NONE) RET 0\n\
insert 2 100 cap_rights_limit(5,NONE) RET 0\n",
        ),
    ),
    (
        b"",
        Two,
        EXEC,
        None,
        Ok(
            "insert 3 100 cap_rights_limit(6,CAP_READ) RET 0\n\
insert 2 100 cap_rights_limit(5,NONE) RET 0\n",
        ),
    ),
    // Of what isn't known there is a comment at its place, where something is needed.
    (
        b"",
        One,
        SERVED,
        None,
        Ok(
            "insert 11 100 cap_rights_limit(9,CAP_WRITE) RET 0\n\
insert 11 100 cap_rights_limit(8,NONE) RET 0\n\
# descriptor 7 of process 100, made at line 8, isn't known; later calls need CAP_WRITE\n\
# descriptor 6 of process 100, made at line 7, isn't known; later calls need CAP_WRITE\n\
# descriptor 5 of process 100, made at line 3, isn't known; later calls need CAP_PDWAIT\n\
# descriptor 4 of process 100, made at line 2, isn't known; later calls need CAP_READ\n",
        ),
    ),
    (
        b"",
        Two,
        (
            b"100 kqueue() RET 4\n100 accept(3) RET 5\n100 read(5) RET -1 errno 93\n",
            3,
        ),
        None,
        Ok(""),
    ),
    // A start says what is copied.
    (
        b"100 out closed 3=CAP_READ|CAP_WRITE",
        One,
        STARTED,
        None,
        Ok("insert 2 100 cap_rights_limit(4,CAP_READ) RET 0\n"),
    ),
];

static BEFORE: [Row; 16] = [
    (
        b"",
        One,
        TALLY,
        Some(4),
        Ok(
            "# process 2101 before line 4\n\
insert 4 2101 cap_rights_limit(0,NONE) RET 0\n\
insert 5 2101 cap_rights_limit(1,NONE) RET 0\n\
insert 6 2101 cap_rights_limit(2,NONE) RET 0\n\
insert 7 2101 cap_rights_limit(3,CAP_READ|CAP_SEEK|CAP_FSTAT) RET 0\n\
insert 8 2101 cap_rights_limit(4,CAP_WRITE|CAP_FSYNC) RET 0\n\
# no cap_enter: line 5, openat of process 2102\n",
        ),
    ),
    (
        b"",
        One,
        TALLY,
        Some(6),
        Ok(
            "# process 2102 before line 6\n\
insert 6 2102 cap_rights_limit(0,NONE) RET 0\n\
insert 7 2102 cap_rights_limit(1,NONE) RET 0\n\
insert 8 2102 cap_rights_limit(2,NONE) RET 0\n\
insert 9 2102 cap_rights_limit(3,CAP_READ|CAP_SEEK|CAP_FSTAT) RET 0\n\
insert 10 2102 cap_rights_limit(4,CAP_WRITE|CAP_FSYNC) RET 0\n\
insert 11 2102 cap_rights_limit(5,CAP_READ) RET 0\n\
insert 12 2102 cap_enter() RET 0\n",
        ),
    ),
    (b"", One, TALLY, Some(0), Err(Refused::Position)),
    (b"", One, TALLY, Some(15), Err(Refused::Position)),
    (b"", Two, (b"", 0), Some(1), Err(Refused::Position)),
    // The line where the process begins, and the last.
    (
        b"",
        One,
        READ,
        Some(1),
        Ok(
            "# process 100 before line 1\n\
# line 1 is where process 100 begins\n",
        ),
    ),
    (
        b"",
        One,
        READ,
        Some(2),
        Ok(
            "# process 100 before line 2\n\
insert 2 100 cap_rights_limit(0,CAP_READ) RET 0\n\
insert 3 100 cap_enter() RET 0\n",
        ),
    ),
    // What is needed of unknown descriptors comes after the limits.
    (
        b"",
        One,
        OLDER,
        Some(2),
        Ok(
            "# process 100 before line 2\n\
insert 2 100 cap_rights_limit(4,CAP_READ) RET 0\n\
# descriptor 7 isn't known; later calls need CAP_FSTAT\n\
# descriptor 9 isn't known; later calls need CAP_WRITE\n\
insert 3 100 cap_enter() RET 0\n",
        ),
    ),
    // Lines after a cap_enter prevent nothing that it doesn't prevent already.
    (
        b"",
        One,
        ENTERED,
        Some(4),
        Ok(
            "# process 100 before line 4\n\
insert 4 100 cap_rights_limit(0,CAP_WRITE) RET 0\n\
# process 100 is in capability mode already\n",
        ),
    ),
    (
        b"",
        Two,
        (
            b"100 @start(0)\n100 read(0) RET 1\n100 unlink(\"a\") RET 0\n100 rmdir(\"b\") RET 0\n",
            4,
        ),
        Some(2),
        Ok(
            "# process 100 before line 2\n\
insert 2 100 cap_rights_limit(0,CAP_READ) RET 0\n\
# no cap_enter: line 3, unlink of process 100\n",
        ),
    ),
    // Of what a start knows only what it lists has a line, and no right that isn't held.
    (
        b"100 out ALL 7=CAP_READ|CAP_WRITE",
        One,
        STARTED,
        Some(2),
        Ok(
            "# process 100 before line 2\n\
insert 2 100 cap_rights_limit(4,CAP_READ) RET 0\n\
insert 3 100 cap_rights_limit(7,CAP_WRITE) RET 0\n\
insert 4 100 cap_enter() RET 0\n",
        ),
    ),
    (
        b"100 in unknown 7=CAP_READ",
        Two,
        STARTED,
        Some(3),
        Ok(
            "# process 100 before line 3\n\
insert 3 100 cap_rights_limit(7,NONE) RET 0\n\
# descriptor 5 isn't known; later calls need CAP_READ\n\
# process 100 is in capability mode already\n",
        ),
    ),
    // The start names another process.
    (
        b"99 in ALL 7=CAP_WRITE",
        One,
        STARTED,
        Some(4),
        Ok(
            "# process 100 before line 4\n\
# descriptor 5 isn't known; later calls need CAP_READ\n\
insert 4 100 cap_enter() RET 0\n",
        ),
    ),
    // A descriptor that an exec closes needs no right for the lines after it.
    (
        b"",
        Two,
        EXEC,
        Some(3),
        Ok(
            "# process 100 before line 3\n\
insert 3 100 cap_rights_limit(5,NONE) RET 0\n\
insert 4 100 cap_rights_limit(6,CAP_READ) RET 0\n\
# no cap_enter: line 3, execve of process 100\n",
        ),
    ),
    (
        b"",
        Two,
        EXEC,
        Some(4),
        Ok(
            "# process 100 before line 4\n\
insert 4 100 cap_rights_limit(6,CAP_READ) RET 0\n\
insert 5 100 cap_enter() RET 0\n",
        ),
    ),
    (
        b"",
        One,
        EXEC,
        Some(4),
        Ok(
            "# process 100 before line 4\n\
# descriptor 5 isn't known; later calls need CAP_READ\n\
# descriptor 6 isn't known; later calls need CAP_READ\n\
insert 4 100 cap_enter() RET 0\n",
        ),
    ),
];

/// How a call over devices ends that answers so, and what it writes.
fn ended(answer: Result<&'static str, Refused>) -> (ExplainOutcome, &'static str) {
    match answer {
        Ok(text) => (Ended(Outcome::Clean), text),
        Err(_) => (OutOfRange, "refused E7\n"),
    }
}

/// Fails a test where a call over devices doesn't answer so in pieces of any size.
fn are_written(alloc: Global, rows: &[Row]) -> Result<(), Fail> {
    for (start, profile, (trace, _), at, answer) in rows {
        let (outcome, text) = ended(*answer);
        let call = Call::Limits(*profile, *at);
        is_answered(alloc, &(call, trace, start, outcome, text))?;
    }
    Ok(())
}

#[test]
fn limits_are_written_in_pieces_of_any_size(rt: HostRuntime) -> Result<(), Fail> {
    are_written(rt.alloc(), &MAKERS)?;
    are_written(rt.alloc(), &BEFORE)
}

/// A profile, a trace and a start with a refused line, a position, the outcome, and what is written.
type Refusal = (
    Profile,
    &'static [u8],
    &'static [u8],
    Option<usize>,
    Outcome,
    &'static str,
);

/// A refused line comes before a position at which there is none, and a refused start before both.
static REFUSALS: [Refusal; 4] = [
    (
        One,
        b"100 open(\"a\",O_RDONLY) RET 5\n100 read(5 RET 1\n",
        b"",
        None,
        Outcome::Refused { code: 2, line: 2 },
        "refused E2 line 2\n",
    ),
    (
        Two,
        b"100 open(\"a\",O_RDONLY) RET 5\n# note\n100 read(x) RET 1\n",
        b"100 out closed",
        Some(9),
        Outcome::Refused { code: 4, line: 3 },
        "refused E4 line 3\n",
    ),
    (
        One,
        b"100 open(\"a\",O_RDONLY) RET 5\n",
        b"101 out closed\n100 out closed",
        None,
        Outcome::StartRefused { code: 3, line: 2 },
        "refused E3 start line 2\n",
    ),
    (
        Two,
        b"x",
        b"100 out open",
        Some(0),
        Outcome::StartRefused { code: 5, line: 1 },
        "refused E5 start line 1\n",
    ),
];

#[test]
fn a_refused_line_has_no_limits(rt: HostRuntime) -> Result<(), Fail> {
    for (profile, trace, start, at, outcome, text) in &REFUSALS {
        let call = Call::Limits(*profile, *at);
        is_answered(rt.alloc(), &(call, trace, start, Ended(*outcome), text))?;
    }
    Ok(())
}

/// Fails a test where a session doesn't answer a row so.
fn session_has(alloc: Global, row: &Row) -> Result<(), Fail> {
    let (start, profile, (trace, count), at, answer) = row;
    let (_, name) = ended(*answer);
    let steps = [
        Step::Change(Change::Load(trace), Ok(*count)),
        Step::Ask(Query::Limits(*at), *answer),
    ];
    holds(
        alloc,
        &Case {
            name,
            limit: 14,
            profile: Some(*profile),
            start,
            steps: &steps,
        },
    )
}

/// Fails a test where a session doesn't answer each row so.
fn sessions_have(alloc: Global, rows: &[Row]) -> Result<(), Fail> {
    for row in rows {
        session_has(alloc, row)?;
    }
    Ok(())
}

#[test]
fn a_session_has_its_limits(rt: HostRuntime) -> Result<(), Fail> {
    sessions_have(rt.alloc(), &MAKERS)?;
    sessions_have(rt.alloc(), &BEFORE)
}

#[test]
fn the_laws_of_limits_are_calls() {
    read_texts_are_spelled();
    limits_script_is_accepted();
    limits_script_is_enough();
    limits_script_is_least();
    entering_before_is_forbidden();
}
