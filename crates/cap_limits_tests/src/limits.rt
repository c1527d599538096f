//! The rights that later lines need, worked by hand.

use crate::texts::{lines_of, rights_of};
use cap_limits::{
    Entering, Limit, Limits, LimitsBefore, LiveRights, MakerLimit, MakerRow, all_limits_are_enough,
    all_limits_are_least, blocked_is_forbidden, limits_are_enough, limits_are_least, limits_before,
    limits_of_makers,
};
use cap_machine::{Cell, Mode, OnExec, Profile, Start};
use cap_rights::RightSet;
use cap_trace::Line;
use std::alloc::Global;

/// A process that opens two files, and a child that reads one and writes the other.
const TALLY: &[u8] =
    b"2101 @start(0,1,2)\n2101 openat(AT_FDCWD,\"access.log\",O_RDONLY) RET 3\n2101 openat(AT_FDCWD,\"tally.out\",O_WRONLY|O_CREAT|O_TRUNC) RET 4\n2101 fork() RET 2102\n2102 openat(AT_FDCWD,\"/etc/localtime\",O_RDONLY) RET 5\n2102 read(5) RET 2852\n2102 close(5) RET 0\n2102 fstat(3) RET 0\n2102 lseek(3) RET 32768\n2102 read(3) RET 32768\n2102 write(4) RET 9\n2102 fsync(4) RET 0\n2102 @exit()\n2101 wait4(2102,{ EXITED,val=0 },0x0,0x0) RET 2102\n2101 @exit()";

/// A trace, the line from which on rights are needed, a descriptor of a process and its flag, and the rights.
type LiveRow = (&'static [u8], usize, u32, u32, OnExec, &'static [u8]);

static LIVE: [LiveRow; 19] = [
    (TALLY, 4, 2101, 0, OnExec::Unsure, b"NONE"),
    // What a child needs is needed of its parent.
    (
        TALLY,
        4,
        2101,
        3,
        OnExec::Clear,
        b"CAP_READ|CAP_SEEK|CAP_FSTAT",
    ),
    (TALLY, 4, 2101, 4, OnExec::Clear, b"CAP_WRITE|CAP_FSYNC"),
    (TALLY, 4, 2101, 5, OnExec::Clear, b"NONE"),
    (TALLY, 6, 2102, 5, OnExec::Clear, b"CAP_READ"),
    // The child doesn't exist before the fork.
    (TALLY, 4, 2102, 3, OnExec::Clear, b"NONE"),
    // What a copy needs is needed of what it was copied from.
    (
        b"100 dup(3) RET 4\n100 read(4) RET 1",
        1,
        100,
        3,
        OnExec::Clear,
        b"CAP_READ",
    ),
    (
        b"100 dup2(3,4) RET 4\n100 read(4) RET 1",
        1,
        100,
        4,
        OnExec::Clear,
        b"NONE",
    ),
    // A call that failed needs nothing.
    (
        b"100 read(3) RET -1 errno 93",
        1,
        100,
        3,
        OnExec::Clear,
        b"NONE",
    ),
    // Nor does what comes after a close.
    (
        b"100 close(3) RET 0\n100 open(\"a\",O_RDONLY) RET 3\n100 read(3) RET 1",
        1,
        100,
        3,
        OnExec::Clear,
        b"NONE",
    ),
    // What a later limit takes away isn't needed.
    (
        b"100 cap_rights_limit(3,CAP_READ) RET 0\n100 write(3) RET 1",
        1,
        100,
        3,
        OnExec::Clear,
        b"CAP_READ",
    ),
    // A file below a directory has the directory's rights.
    (
        b"100 openat(3,\"a\",O_RDONLY) RET 4\n100 fstat(4) RET 0",
        1,
        100,
        3,
        OnExec::Clear,
        b"CAP_LOOKUP|CAP_READ|CAP_FSTAT",
    ),
    // Only what stays open is left after an exec.
    (
        b"100 execve(\"x\") RET 0\n100 read(3) RET 1",
        1,
        100,
        3,
        OnExec::Set,
        b"NONE",
    ),
    (
        b"100 execve(\"x\") RET 0\n100 read(3) RET 1",
        1,
        100,
        3,
        OnExec::Clear,
        b"CAP_READ",
    ),
    (
        b"100 execve(\"x\") RET 0\n100 read(3) RET 1",
        1,
        100,
        3,
        OnExec::Unsure,
        b"NONE",
    ),
    // Its flag can change first.
    (
        b"100 fcntl(3,F_SETFD,0) RET 0\n100 execve(\"x\") RET 0\n100 read(3) RET 1",
        1,
        100,
        3,
        OnExec::Set,
        b"CAP_READ",
    ),
    (
        b"100 read(3) RET 1\n100 execve(\"x\") RET 0\n100 write(3) RET 1",
        1,
        100,
        3,
        OnExec::Set,
        b"CAP_READ",
    ),
    (
        b"100 closefrom(3) RET 0\n100 read(3) RET 1",
        1,
        100,
        3,
        OnExec::Clear,
        b"NONE",
    ),
    (
        b"100 closefrom(4) RET 0\n100 read(3) RET 1",
        1,
        100,
        3,
        OnExec::Clear,
        b"CAP_READ",
    ),
];

/// A trace, the line from which on a process may be in capability mode, and the first line that is in the way.
static BLOCKED: [(&[u8], usize, u32, Option<usize>); 6] = [
    (TALLY, 4, 2101, Some(5)),
    (TALLY, 6, 2102, None),
    (TALLY, 3, 2101, Some(3)),
    (
        b"100 open(\"a\",O_RDONLY) RET 3\n100 read(3) RET 1",
        2,
        100,
        None,
    ),
    (
        b"100 open(\"a\",O_RDONLY) RET -1 errno 94\n100 read(3) RET 1",
        1,
        100,
        None,
    ),
    (
        b"100 cap_enter() RET 0\n100 open(\"a\",O_RDONLY) RET 3",
        1,
        100,
        None,
    ),
];

/// Whether a descriptor that was made is held, the position and the process of its line, the descriptor, and the rights.
type MadeRow = (bool, usize, u32, u32, &'static [u8]);

/// A trace, and what is said of each descriptor that it makes.
type MakerCase = (&'static [u8], &'static [MadeRow]);

static MADE: [MakerCase; 8] = [
    (
        TALLY,
        &[
            (true, 5, 2102, 5, b"CAP_READ"),
            (true, 3, 2101, 4, b"CAP_WRITE|CAP_FSYNC"),
            (true, 2, 2101, 3, b"CAP_READ|CAP_SEEK|CAP_FSTAT"),
        ],
    ),
    // Of two the larger comes first.
    (
        b"100 pipe() RET 3,4\n100 write(4) RET 1\n100 read(3) RET 1",
        &[
            (true, 1, 100, 4, b"CAP_WRITE"),
            (true, 1, 100, 3, b"CAP_READ"),
        ],
    ),
    // No right is named that isn't held.
    (
        b"100 @start(3)\n100 cap_rights_limit(3,CAP_READ) RET 0\n100 dup(3) RET 4\n100 write(4) RET 1",
        &[(true, 3, 100, 4, b"NONE")],
    ),
    // Nothing is known of what accept(2) makes, and nothing is said where nothing is needed.
    (
        b"100 accept(3) RET 4\n100 accept(3) RET 5\n100 read(4) RET 1\n100 write(5) RET -1 errno 32",
        &[(false, 1, 100, 4, b"CAP_READ")],
    ),
    // What a child needs is needed of its parent.
    (
        b"100 accept4(3,0) RET 4\n100 fork() RET 101\n101 read(4) RET 1\n100 kqueue() RET 5\n100 close(4) RET 0",
        &[(false, 1, 100, 4, b"CAP_READ")],
    ),
    // But not of what pdfork(2) makes, nor does its line in the child make anything.
    (
        b"100 pdfork() RET 101,4\n101 pdfork() RET 0,4\n101 fstat(4) RET 0\n100 @uses(4,CAP_PDKILL)",
        &[(false, 1, 100, 4, b"CAP_PDKILL")],
    ),
    // A limit takes away what comes after it.
    (
        b"100 dup(3) RET 4\n100 open(\"a\",O_RDONLY) RET 5\n100 cap_rights_limit(4,CAP_READ) RET 0\n100 write(4) RET 1",
        &[(true, 2, 100, 5, b"NONE"), (false, 1, 100, 4, b"CAP_READ")],
    ),
    (
        b"100 open(\"a\",O_RDONLY) RET -1 errno 2\n100 read(0) RET 1",
        &[],
    ),
];

/// A trace, a line of it, that line's process, the limits of what that holds before the line, what is needed of others,
/// and whether it may enter.
type BeforeRow = (
    &'static [u8],
    usize,
    u32,
    &'static [(u32, &'static [u8])],
    &'static [(u32, &'static [u8])],
    Entering,
);

static BEFORE: [BeforeRow; 6] = [
    // Each unknown descriptor with a need is named.
    (
        b"100 read(9) RET 1\n100 dup2(7,8) RET 8\n100 close(3) RET 0\n100 write(8) RET 1\n100 @exit()",
        2,
        100,
        &[],
        &[(7, b"CAP_WRITE")],
        Entering::May,
    ),
    (
        TALLY,
        4,
        2101,
        &[
            (0, b"NONE"),
            (1, b"NONE"),
            (2, b"NONE"),
            (3, b"CAP_READ|CAP_SEEK|CAP_FSTAT"),
            (4, b"CAP_WRITE|CAP_FSYNC"),
        ],
        &[],
        Entering::Blocked(5),
    ),
    // A child's descriptor is known by itself where its parent's was at the fork.
    (
        TALLY,
        6,
        2102,
        &[
            (0, b"NONE"),
            (1, b"NONE"),
            (2, b"NONE"),
            (3, b"CAP_READ|CAP_SEEK|CAP_FSTAT"),
            (4, b"CAP_WRITE|CAP_FSYNC"),
            (5, b"CAP_READ"),
        ],
        &[],
        Entering::May,
    ),
    // No unknown descriptor is held.
    (
        b"100 @start(3)\n100 execve(\"x\") RET 0\n100 read(3) RET 1",
        3,
        100,
        &[],
        &[(3, b"CAP_READ")],
        Entering::May,
    ),
    (
        b"100 cap_enter() RET 0\n100 read(3) RET 1",
        2,
        100,
        &[],
        &[(3, b"CAP_READ")],
        Entering::Inside,
    ),
    // A closed descriptor isn't held.
    (
        b"100 @start(0,3)\n100 close(3) RET 0\n100 read(0) RET 1",
        3,
        100,
        &[(0, b"CAP_READ")],
        &[],
        Entering::May,
    ),
];

/// Limits before a line, from a start in which process 100 holds 7, which is listed, and all others.
static STARTED: [BeforeRow; 2] = [
    (
        b"100 dup(3) RET 4\n100 read(4) RET 1\n100 read(5) RET 1",
        2,
        100,
        &[(4, b"CAP_READ"), (7, b"NONE")],
        &[],
        Entering::May,
    ),
    // An exec doesn't make the others stand.
    (
        b"100 execve(\"x\") RET 0\n100 fork() RET 101\n101 write(7) RET 1\n101 read(5) RET 1",
        3,
        101,
        &[(7, b"CAP_WRITE")],
        &[],
        Entering::May,
    ),
];

/// Limits before a line, from a start in which process 100 holds all, and listed 7 only before it was added again.
static ADDED_AGAIN: BeforeRow = (
    b"100 dup(3) RET 4\n100 read(4) RET 1\n100 read(7) RET 1",
    2,
    100,
    &[(4, b"CAP_READ")],
    &[],
    Entering::May,
);

/// Lets live rights pass the lines from the last one back to one.
fn passed(alloc: Global, lines: &[Line], from: usize) -> Option<LiveRights> {
    let mut live = LiveRights::none(alloc);
    let mut rest = lines;
    while let Some((line, before)) = rest.split_last() {
        if rest.len() < from {
            break;
        }
        if live.pass(rest.len(), Profile::Two, line).is_err() {
            return None;
        }
        rest = before;
    }
    Some(live)
}

/// What the lines of a trace need from one on.
fn passed_of(alloc: Global, trace: &[u8], from: usize) -> Option<LiveRights> {
    match lines_of(alloc, trace) {
        Some(lines) => passed(alloc, &lines, from),
        None => None,
    }
}

/// Whether these are the rights of a row.
fn is_live(alloc: Global, row: &LiveRow) -> bool {
    match passed_of(alloc, row.0, row.1) {
        Some(live) => {
            let rights = live.rights(row.2, row.3, row.4);
            drop(live);
            rights == rights_of(row.5)
        }
        None => false,
    }
}

/// Whether a row has the first line in the way.
fn is_blocked(alloc: Global, row: &(&[u8], usize, u32, Option<usize>)) -> bool {
    match passed_of(alloc, row.0, row.1) {
        Some(live) => {
            let blocked = live.blocked(row.2);
            drop(live);
            blocked == row.3
        }
        None => false,
    }
}

/// Whether rights are those of a row.
fn is_limit(limit: &MakerLimit, row: &MadeRow) -> bool {
    limit.at == row.1 && limit.pid == row.2 && limit.fd == row.3 && limit.rights == rights_of(row.4)
}

/// Whether what is said of a descriptor is as in a row.
fn is_said(said: &MakerRow, row: &MadeRow) -> bool {
    match said {
        MakerRow::Held(limit) => row.0 && is_limit(limit, row),
        MakerRow::Unknown(limit) => !row.0 && is_limit(limit, row),
    }
}

/// Whether all that is said is as in rows.
fn are_said(said: &[MakerRow], rows: &[MadeRow]) -> bool {
    let mut are_same = said.len() == rows.len();
    for (one, row) in said.iter().zip(rows) {
        are_same = are_same && is_said(one, row);
    }
    are_same
}

/// Whether this is said of what lines make.
fn makes(alloc: Global, start: &Start, lines: &[Line], rows: &[MadeRow]) -> bool {
    match limits_of_makers(alloc, Profile::Two, start, lines) {
        Ok(said) => are_said(&said, rows),
        Err(_) => false,
    }
}

/// Whether this is said of what the lines of a trace make.
fn is_made(alloc: Global, case: &MakerCase) -> bool {
    let start = Start::unknown(alloc);
    match lines_of(alloc, case.0) {
        Some(lines) => makes(alloc, &start, &lines, case.1),
        None => false,
    }
}

/// Whether these are the limits of descriptors.
fn are_held(limits: &[Limit], rows: &[(u32, &[u8])]) -> bool {
    let mut are_same = limits.len() == rows.len();
    for (limit, row) in limits.iter().zip(rows) {
        are_same = are_same && limit.fd == row.0 && limit.rights == rights_of(row.1);
    }
    are_same
}

/// Whether limits are as in a row.
fn are_before(limits: &Limits, row: &BeforeRow) -> bool {
    limits.pid == row.2
        && limits.entering == row.5
        && are_held(&limits.held, row.3)
        && are_held(&limits.unknown, row.4)
}

/// Whether the limits before a line are those of a row.
fn is_before(alloc: Global, start: &Start, lines: &[Line], row: &BeforeRow) -> bool {
    match limits_before(alloc, Profile::Two, start, lines, row.1) {
        Ok(LimitsBefore::Limits(limits)) => are_before(&limits, row),
        _ => false,
    }
}

/// Whether the limits before a line of a trace are those of a row, from the usual start.
fn is_usual(alloc: Global, row: &BeforeRow) -> bool {
    let start = Start::unknown(alloc);
    match lines_of(alloc, row.0) {
        Some(lines) => is_before(alloc, &start, &lines, row),
        None => false,
    }
}

/// A descriptor that was never limited.
fn whole() -> Cell {
    Cell::Held(RightSet::all(), OnExec::Clear)
}

/// A start in which process 100 holds 7, which is listed, and all others.
fn all_held(alloc: Global) -> Option<Start> {
    let mut start = Start::unknown(alloc);
    let mut cells = Vec::new(alloc);
    if cells.push((7, whole())).is_err() {
        return None;
    }
    match start.add(100, Mode::Outside, whole(), cells) {
        Ok(()) => Some(start),
        Err(_) => None,
    }
}

/// The same start, to which process 100 is added once more: it holds all again, and nothing is listed.
fn added_again(alloc: Global) -> Option<Start> {
    let mut start = all_held(alloc)?;
    match start.add(100, Mode::Outside, whole(), Vec::new(alloc)) {
        Ok(()) => Some(start),
        Err(_) => None,
    }
}

/// Whether the limits before a line of a trace are those of a row, from a start.
fn is_started(alloc: Global, start: Option<Start>, row: &BeforeRow) -> bool {
    match (start, lines_of(alloc, row.0)) {
        (Some(start), Some(lines)) => is_before(alloc, &start, &lines, row),
        _ => false,
    }
}

/// Whether there is no line at a position.
fn is_no_line(alloc: Global, at: usize) -> bool {
    let start = Start::unknown(alloc);
    match lines_of(alloc, TALLY) {
        Some(lines) => matches!(
            limits_before(alloc, Profile::Two, &start, &lines, at),
            Ok(LimitsBefore::NoLine)
        ),
        None => false,
    }
}

/// Whether a process begins with the line at a position, and so has no limits before it.
fn is_beginning(alloc: Global, pid: u32, at: usize) -> bool {
    let start = Start::unknown(alloc);
    match lines_of(alloc, TALLY) {
        Some(lines) => match limits_before(alloc, Profile::Two, &start, &lines, at) {
            Ok(LimitsBefore::Begins(own)) => own == pid,
            _ => false,
        },
        None => false,
    }
}

#[test]
fn processes_are_limited_before_a_line(rt: HostRuntime) {
    for row in &BEFORE {
        assert!(rt; is_usual(rt.alloc(), row));
    }
    for row in &STARTED {
        let start = all_held(rt.alloc());
        assert!(rt; is_started(rt.alloc(), start, row));
    }
    assert!(rt; is_no_line(rt.alloc(), 0));
    assert!(rt; is_no_line(rt.alloc(), 16));
    assert!(rt; is_beginning(rt.alloc(), 2101, 1));
}

#[test]
fn a_process_added_twice_lists_what_came_last(rt: HostRuntime) {
    let start = added_again(rt.alloc());
    assert!(rt; is_started(rt.alloc(), start, &ADDED_AGAIN));
}

#[test]
fn rights_are_live(rt: HostRuntime) {
    for row in &LIVE {
        assert!(rt; is_live(rt.alloc(), row));
    }
}

#[test]
fn lines_are_in_the_way(rt: HostRuntime) {
    for row in &BLOCKED {
        assert!(rt; is_blocked(rt.alloc(), row));
    }
}

#[test]
fn makers_are_limited(rt: HostRuntime) {
    for case in &MADE {
        assert!(rt; is_made(rt.alloc(), case));
    }
}

/// Each law may be called.
#[test]
fn the_laws_are_called() {
    limits_are_enough();
    limits_are_least();
    blocked_is_forbidden();
    all_limits_are_enough();
    all_limits_are_least();
}
