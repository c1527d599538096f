//! What is known before a trace.

ghost use Rattle.std.specs.Prelude.{◌≤◌};
ghost use Rattle.std.specs.List.{All};
ghost use Rattle.cap_trace.specs.Entry.{IsFd};
ghost use Rattle.cap_trace.specs.Limits.{largest_pid};

use crate::lines::{Way, lines_of, reports};
use cap_machine::{Cell, Checker, Finding, Found, Mode, OnExec, Profile, Start, check};
use cap_rights::{RightSet, parse_rights};
use cap_trace::{Fd, Line, Pid};
use std::alloc::Global;

/// The rights that a text names, or none.
pub fn rights_of(text: &[u8]) -> RightSet {
    match parse_rights(text) {
        Ok(rights) => rights,
        Err(_) => RightSet::none(),
    }
}

/// A cell that is held for reading.
pub fn readable() -> Cell {
    Cell::Held(rights_of(b"CAP_READ"), OnExec::Unsure)
}

/// Adds a process with these cells to a start, and says whether it could.
///
/// A start that is given to `drop` at the end costs the check less than one that goes by itself.
pub fn add(
    alloc: Global,
    start: &mut Start,
    pid: Pid,
    mode: Mode,
    rest: Cell,
    cells: &[(Fd, Cell)],
) -> bool
    requires pid { pid ≤ largest_pid }
    requires fds { All (λ entry. IsFd entry.0) cells.now }
{
    match cells.to_vec(alloc) {
        Ok(cells) => start.add(pid, mode, rest, cells).is_ok(),
        Err(_) => false,
    }
}

/// What is known of process 100: its mode, the cell of one descriptor, and that of all others.
#[derive(Clone, Copy)]
struct Known {
    mode: Mode,
    fd: u8,
    cell: Cell,
    rest: Cell,
}

impl Known {
    /// Descriptor 0 has this cell, and nothing else is known of it.
    fn of_zero(cell: Cell) -> Known {
        Known {
            mode: Mode::Unsure,
            fd: 0,
            cell,
            rest: Cell::Unknown,
        }
    }

    /// It is outside, and descriptor 6 has this cell.
    fn of_six(cell: Cell, rest: Cell) -> Known {
        Known {
            mode: Mode::Outside,
            fd: 6,
            cell,
            rest,
        }
    }

    /// Adds that to a start, and says whether it could.
    fn add_to(&self, alloc: Global, start: &mut Start) -> bool {
        let cells = [(Fd::from(self.fd), self.cell)];
        add(alloc, start, 100, self.mode, self.rest, &cells)
    }
}

/// Descriptor 0 is held for reading, and nothing else is known.
fn reading() -> Known {
    Known::of_zero(readable())
}

/// Whether a start knows only that descriptor 0 of process 100 has this cell.
fn knows_cell(start: &Start, cell: Cell) -> bool {
    start.cell(100, 0) == cell
        && start.cell(100, 1) == Cell::Unknown
        && start.cell(101, 0) == Cell::Unknown
        && start.mode(100) == Mode::Unsure
}

/// Whether a start to which a cell that is held for reading is added knows that.
fn knows_reading(alloc: Global) -> bool {
    let mut start = Start::unknown(alloc);
    let knows = reading().add_to(alloc, &mut start) && knows_cell(&start, readable());
    drop(start);
    knows
}

/// Whether a start knows that process 100 is inside, and has no descriptor but perhaps 5.
fn knows_five(start: &Start) -> bool {
    start.cell(100, 4) == Cell::Closed
        && start.cell(100, 5) == Cell::Unknown
        && start.mode(100) == Mode::Inside
}

/// Whether a start to which that is added knows it.
fn knows_inside(alloc: Global) -> bool {
    let cells = [(5, Cell::Unknown)];
    let mut start = Start::unknown(alloc);
    let knows = add(alloc, &mut start, 100, Mode::Inside, Cell::Closed, &cells)
        && knows_five(&start);
    drop(start);
    knows
}

#[test]
fn a_start_says_what_was_added(rt: HostRuntime) {
    assert!(rt; knows_reading(rt.alloc()) && knows_inside(rt.alloc()));
}

/// Whether these are the findings of lines from a start.
fn finds_in(
    alloc: Global,
    profile: Profile,
    start: &Start,
    lines: &[Line],
    found: &[Found],
) -> bool {
    match check(alloc, profile, start, lines) {
        Ok(all) => all.as_slice() == found,
        Err(_) => false,
    }
}

/// Whether a check of a trace finds this.
fn finds_from(
    alloc: Global,
    profile: Profile,
    start: &Start,
    trace: &[u8],
    found: &[Found],
) -> bool {
    match lines_of(alloc, trace) {
        Some(lines) => finds_in(alloc, profile, start, &lines, found),
        None => false,
    }
}

/// Whether a check of a trace finds this, from a start where that is known.
fn finds(alloc: Global, profile: Profile, known: &Known, trace: &[u8], found: &[Found]) -> bool {
    let mut start = Start::unknown(alloc);
    let finds = known.add_to(alloc, &mut start) && finds_from(alloc, profile, &start, trace, found);
    drop(start);
    finds
}

/// Whether a write without its right is found.
fn finds_a_write(alloc: Global, profile: Profile) -> bool {
    let finding = Finding::Missing(0, rights_of(b"CAP_WRITE"));
    let found = [Found { at: 1, finding }];
    finds(alloc, profile, &reading(), b"100 write(0) RET 1", &found)
}

#[test]
fn a_trace_is_checked_from_a_start(rt: HostRuntime) {
    let alloc = rt.alloc();
    assert!(rt; finds_a_write(alloc, Profile::One) && finds_a_write(alloc, Profile::Two));
}

/// A limit that is asked for twice, and a call that lacks a right.
const LIMITED: &[u8] =
    b"100 cap_rights_limit(6,CAP_READ|CAP_SEEK) RET 0\n100 cap_rights_limit(6,CAP_READ) RET 0\n100 lseek(6) RET 0";

/// Whether these are the findings of that trace where descriptor 6 has this cell.
fn finds_limited(alloc: Global, cell: Cell, rest: Cell, found: &[Found]) -> bool {
    let known = Known::of_six(cell, rest);
    finds(alloc, Profile::Two, &known, LIMITED, found)
}

#[test]
fn a_limit_is_known_afterwards(rt: HostRuntime) {
    let alloc = rt.alloc();
    let finding = Finding::Missing(6, rights_of(b"CAP_SEEK"));
    let missing = Found { at: 3, finding };
    let finding = Finding::Closed(6);
    let closed = Found { at: 1, finding };
    let whole = Cell::Held(RightSet::all(), OnExec::Set);
    assert!(rt;
        finds_limited(alloc, Cell::Unknown, Cell::Closed, &[missing])
            && finds_limited(alloc, whole, Cell::Closed, &[missing])
            && finds_limited(alloc, Cell::Closed, Cell::Unknown, &[closed, missing])
    );
}

/// Whether this is the report of a trace from a start.
fn reports_from(
    alloc: Global,
    profile: Profile,
    start: &Start,
    trace: &[u8],
    report: &[u8],
) -> bool {
    match Checker::from_start(alloc, profile, start) {
        Ok(checker) => reports(alloc, checker, trace, Way::Owned, report),
        Err(_) => false,
    }
}

/// Whether a checker reports this of a trace, from a start where that is known.
fn reports_where(
    alloc: Global,
    profile: Profile,
    known: &Known,
    trace: &[u8],
    report: &[u8],
) -> bool {
    let mut start = Start::unknown(alloc);
    let reports = known.add_to(alloc, &mut start)
        && reports_from(alloc, profile, &start, trace, report);
    drop(start);
    reports
}

/// A write without its right is reported.
#[test]
fn a_report_begins_from_a_start(rt: HostRuntime) {
    let trace = b"100 write(0) RET 1".as_slice();
    let report = b"1 100 write missing 0 CAP_WRITE\nfindings 1\n".as_slice();
    assert!(rt; reports_where(rt.alloc(), Profile::One, &reading(), trace, report));
}

/// A descriptor that is not listed is read from after an exec, and one that is.
const EXECUTED: &[u8] = b"100 execve(\"/bin/x\") RET 0\n100 read(6) RET 1\n100 read(5) RET 1";

/// Profiles, and the report of that trace.
static EXECS: [(Profile, &[u8]); 2] = [
    (Profile::Two, b"2 100 read closed 6\nfindings 1\n"),
    (Profile::One, b"findings 0\n"),
];

/// Whether this is its report where all rights are held on descriptor 5.
fn reports_an_exec(alloc: Global, profile: Profile, report: &[u8]) -> bool {
    let whole = Known {
        mode: Mode::Outside,
        fd: 5,
        cell: Cell::Held(RightSet::all(), OnExec::Unsure),
        rest: Cell::Closed,
    };
    reports_where(alloc, profile, &whole, EXECUTED, report)
}

#[test]
fn an_exec_follows_the_start(rt: HostRuntime) {
    for (profile, report) in &EXECS {
        assert!(rt; reports_an_exec(rt.alloc(), *profile, report));
    }
}
