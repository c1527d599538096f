//! What limits rest on, and limits: after the lines that made descriptors, and before a line.

use crate::machine::{Before, CELLS, OnTrace, try_all};
use crate::sessions::{Query, ask_each};
use cap_limits::{
    Entering, Limit, Limits, LimitsBefore, MakerRow, limits_among, limits_before, limits_of_makers,
    live_after, machine_after, standing_fds,
};
use cap_machine::{Cell, NoMemory, OnExec, Profile, Start};
use cap_rights::{RightSet, parse_rights};
use cap_trace::{Fd, Line};
use std::alloc::Global;
use std::test::Fail;

/// An unknown descriptor, a pipe that a child reads, a file that the child opens, and a queue.
static TRACE: [&str; 11] = [
    "100 @start(0)",
    "100 @foreign(7)",
    "100 pipe() RET 3,4",
    "100 fork() RET 101",
    "101 read(3) RET 1",
    "100 write(4) RET 1",
    "100 fsync(7) RET 0",
    "101 open(\"a\",O_RDONLY) RET 5",
    "101 fstat(5) RET 0",
    "100 kqueue() RET 8",
    "100 fstat(8) RET 0",
];

/// What is asked for, in profile 2.
#[derive(Clone, Copy)]
pub enum Part {
    /// What a machine knows that has followed the lines.
    Followed,
    /// Which descriptors of the child stand in what is known.
    Standing,
    /// What the fork and the lines after it need.
    Live,
    /// The limits of some descriptors before the fork.
    Among,
    /// All that is known of limits before the fork.
    Before,
    /// The limits of what the lines made.
    Makers,
}

/// Whether these are the rights of a name.
fn is_named(rights: RightSet, name: &[u8]) -> bool {
    parse_rights(name) == Ok(rights)
}

/// Whether a machine that has followed the lines knows what the child opened, and the parent didn't.
fn follows(alloc: Global, start: &Start, lines: &[Line]) -> Result<bool, NoMemory> {
    let machine = machine_after(alloc, Profile::Two, start, lines)?;
    let whole = Cell::Held(RightSet::all(), OnExec::Clear);
    let is_right = machine.cell(101, 5) == whole && machine.cell(100, 5) == Cell::Closed;
    drop(machine);
    Ok(is_right)
}

/// Whether the descriptors of the child stand.
fn stands(alloc: Global, start: &Start, lines: &[Line]) -> Result<bool, NoMemory> {
    let fds = standing_fds(alloc, Profile::Two, start, lines, 101)?;
    let do_stand = fds.contains(&0) && fds.contains(&3) && fds.contains(&4) && fds.contains(&5);
    drop(fds);
    Ok(do_stand)
}

/// The lines before the fork, and those from it on.
fn parted(lines: &[Line]) -> (&[Line], &[Line]) {
    lines.split_at(lines.len().min(3))
}

/// Whether the descriptor that isn't known is needed, and the fifth line from the fork on is in the way.
fn needs(alloc: Global, lines: &[Line]) -> Result<bool, NoMemory> {
    let (_, later) = parted(lines);
    let live = live_after(alloc, Profile::Two, 0, later)?;
    let is_right = is_named(live.rights(100, 7, OnExec::Unsure), b"CAP_FSYNC")
        && live.blocked(100) == Some(5);
    drop(live);
    Ok(is_right)
}

/// Whether this limits a descriptor to the rights of a name.
fn is_limit(limit: &Limit, fd: Fd, name: &[u8]) -> bool {
    limit.fd == fd && is_named(limit.rights, name)
}

/// Whether these are the limits of what the parent holds before the fork.
fn are_held(limits: &[Limit]) -> bool {
    match limits {
        [began, read, write] => {
            is_limit(began, 0, b"NONE")
                && is_limit(read, 3, b"CAP_READ")
                && is_limit(write, 4, b"CAP_WRITE")
        }
        _ => false,
    }
}

/// The limits of the parent's standing descriptors between these lines.
fn limits_between(
    alloc: Global,
    start: &Start,
    before: &[Line],
    later: &[Line],
) -> Result<Vec<Limit>, NoMemory> {
    let machine = machine_after(alloc, Profile::Two, start, before)?;
    let live = live_after(alloc, Profile::Two, 0, later)?;
    let fds = standing_fds(alloc, Profile::Two, start, before, 100)?;
    limits_among(alloc, &machine, &live, 100, fds)
}

/// Whether they are right before the fork.
fn limits_held(alloc: Global, start: &Start, lines: &[Line]) -> Result<bool, NoMemory> {
    let (before, later) = parted(lines);
    let limits = limits_between(alloc, start, before, later)?;
    Ok(are_held(&limits))
}

/// Whether these are needed of one unknown descriptor.
fn are_unknown(limits: &[Limit]) -> bool {
    match limits {
        [one] => is_limit(one, 7, b"CAP_FSYNC"),
        _ => false,
    }
}

/// Whether these are the limits of the parent before the fork.
fn are_before(limits: &Limits) -> bool {
    limits.pid == 100
        && limits.entering == Entering::Blocked(8)
        && are_held(&limits.held)
        && are_unknown(&limits.unknown)
}

/// Whether they are answered so.
fn limits_parent(alloc: Global, start: &Start, lines: &[Line]) -> Result<bool, NoMemory> {
    match limits_before(alloc, Profile::Two, start, lines, 4)? {
        LimitsBefore::Limits(limits) => {
            let is_right = are_before(&limits);
            drop(limits);
            Ok(is_right)
        }
        _ => Ok(false),
    }
}

/// Whether this limits a descriptor to the rights of a name, after the line at a position.
fn is_limited_after(row: &MakerRow, at: usize, fd: Fd, name: &[u8]) -> bool {
    match row {
        MakerRow::Held(limit) => {
            limit.at == at && limit.fd == fd && is_named(limit.rights, name)
        }
        MakerRow::Unknown(_) => false,
    }
}

/// Whether this says that rights of a name are needed of an unknown descriptor, which the line at a position made.
fn is_needed_after(row: &MakerRow, at: usize, fd: Fd, name: &[u8]) -> bool {
    match row {
        MakerRow::Unknown(limit) => {
            limit.at == at && limit.fd == fd && is_named(limit.rights, name)
        }
        MakerRow::Held(_) => false,
    }
}

/// Whether what is said of what the lines made is right of the queue, the file and the pipe.
fn limits_made(alloc: Global, start: &Start, lines: &[Line]) -> Result<bool, NoMemory> {
    let rows = limits_of_makers(alloc, Profile::Two, start, lines)?;
    match rows.as_slice() {
        [queue, file, write, read] => Ok(
            is_needed_after(queue, 10, 8, b"CAP_FSTAT")
                && is_limited_after(file, 8, 5, b"CAP_FSTAT")
                && is_limited_after(write, 3, 4, b"CAP_WRITE")
                && is_limited_after(read, 3, 3, b"CAP_READ"),
        ),
        _ => Ok(false),
    }
}

/// Asks for one of those: whether it is right.
pub fn limits(alloc: Global, start: &Start, lines: &[Line], part: Part) -> Result<bool, NoMemory> {
    match part {
        Part::Followed => follows(alloc, start, lines),
        Part::Standing => stands(alloc, start, lines),
        Part::Live => needs(alloc, lines),
        Part::Among => limits_held(alloc, start, lines),
        Part::Before => limits_parent(alloc, start, lines),
        Part::Makers => limits_made(alloc, start, lines),
    }
}

/// Asks for one of those on the trace.
fn try_part(alloc: Global, before: Before, part: Part) -> Result<(), Fail> {
    try_all(alloc, before, &TRACE, &[OnTrace::Limits(part)])
}

#[test]
fn follow_refused(rt: HostRuntime) -> Result<(), Fail> {
    try_part(rt.alloc(), Before::Usual, Part::Followed)
}

/// The start lists two descriptors.
#[test]
fn standing_fds_refused(rt: HostRuntime) -> Result<(), Fail> {
    try_part(rt.alloc(), CELLS, Part::Standing)
}

#[test]
fn live_after_refused(rt: HostRuntime) -> Result<(), Fail> {
    try_part(rt.alloc(), Before::Usual, Part::Live)
}

#[test]
fn limits_among_refused(rt: HostRuntime) -> Result<(), Fail> {
    try_part(rt.alloc(), Before::Usual, Part::Among)
}

#[test]
fn limits_before_refused(rt: HostRuntime) -> Result<(), Fail> {
    try_part(rt.alloc(), Before::Usual, Part::Before)
}

#[test]
fn limits_of_makers_refused(rt: HostRuntime) -> Result<(), Fail> {
    try_part(rt.alloc(), Before::Usual, Part::Makers)
}

/// The scripts of these limits.
static SCRIPTS: [(Query, &str); 2] = [
    (
        Query::Limits(None),
        "# descriptor 8 of process 100, made at line 10, isn't known; later calls need CAP_FSTAT\n\
insert 9 101 cap_rights_limit(5,CAP_FSTAT) RET 0\n\
insert 4 100 cap_rights_limit(4,CAP_WRITE) RET 0\n\
insert 4 100 cap_rights_limit(3,CAP_READ) RET 0\n",
    ),
    (
        Query::Limits(Some(4)),
        "# process 100 before line 4\n\
insert 4 100 cap_rights_limit(0,NONE) RET 0\n\
insert 5 100 cap_rights_limit(3,CAP_READ) RET 0\n\
insert 6 100 cap_rights_limit(4,CAP_WRITE) RET 0\n\
# descriptor 7 isn't known; later calls need CAP_FSYNC\n\
# no cap_enter: line 8, open of process 101\n",
    ),
];

#[test]
fn session_limits_refused(rt: HostRuntime) -> Result<(), Fail> {
    ask_each(rt.alloc(), &TRACE, "findings 0\n", &SCRIPTS)
}
