//! Starts, checks, checkers, machines and explanations.

ghost use Rattle.std.specs.Prelude.{◌≤◌, IfOk};
ghost use Rattle.std.specs.List.{All};
ghost use Rattle.cap_trace.specs.Entry.{IsFd};
ghost use Rattle.cap_trace.specs.Limits.{largest_pid};

use crate::calls::{Call, tried};
use crate::limits::Part;
use crate::marks::{Mark, lacked, right};
use cap_machine::{
    Cell, Checker, Explanation, Finding, Found, Machine, Mode, NoMemory, OnExec, Profile, Start,
    check, explain, provenance_of_cell, provenance_of_mode,
};
use cap_rights::parse_rights;
use cap_trace::{Fd, Line, Pid, parse_line};
use std::alloc::Global;
use std::test::Fail;

/// A limit, a fork, writes of parent and child, an exec and a closefrom.
pub static TRACE: [&str; 8] = [
    "100 @start(0,3)",
    "100 cap_rights_limit(3,CAP_READ) RET 0",
    "100 fork() RET 101",
    "101 close(0) RET 0",
    "100 write(3) RET 1",
    "101 execve(\"/bin/x\") RET 0",
    "101 closefrom(1) RET 0",
    "101 read(3) RET 1",
];

/// The lines of a trace.
pub fn lines_of(alloc: Global, trace: &[&str]) -> Result<Vec<Line>, Fail> {
    let mut lines = Vec::new(alloc);
    for text in trace {
        lines.push(parse_line(alloc, text.as_bytes())?)?;
    }
    Ok(lines)
}

/// A cell that holds these rights.
fn held(rights: &[u8]) -> Result<Cell, Fail> {
    Ok(Cell::Held(parse_rights(rights)?, OnExec::Clear))
}

/// What is known of a process: that it holds CAP_READ on descriptor 0 and all rights on 70.
fn cells_of(alloc: Global) -> Result<Vec<(Fd, Cell)>, Fail>
    ensures { IfOk result (λ cells. All (λ entry. IsFd entry.0) cells.items) }
{
    let (read, all) = (held(b"CAP_READ")?, held(b"ALL")?);
    Ok(Vec::from_slice(alloc, &[(0, read), (70, all)])?)
}

/// Before a trace: the usual start, and one in which a process has those cells and no other.
#[derive(Clone, Copy)]
pub enum Before {
    Usual,
    Cells(u16, Mode),
}

/// In which process 100 has those cells.
pub const CELLS: Before = Before::Cells(100, Mode::Outside);

/// Adds what is known before a trace.
fn add_before(alloc: Global, start: &mut Start, before: Before) -> Result<(), Fail> {
    if let Before::Cells(pid, mode) = before {
        start.add(Pid::from(pid), mode, Cell::Closed, cells_of(alloc)?)?;
    }
    Ok(())
}

/// What is known before a trace.
pub fn start_of(alloc: Global, before: Before) -> Result<Start, Fail> {
    let mut start = Start::unknown(alloc);
    match add_before(alloc, &mut start, before) {
        Ok(()) => Ok(start),
        Err(fail) => {
            drop(start);
            Err(fail)
        }
    }
}

/// A call on a trace, with what is right.
#[derive(Drop)]
pub enum OnTrace {
    /// A check finds something at these positions.
    Check(Profile, &'static [usize]),
    /// A checker reports.
    Report,
    /// A machine has two findings.
    Machine,
    /// The cell of descriptor 3 of process 100 comes from two lines.
    Cell,
    /// The mode of process 101 comes from two lines.
    Mode,
    /// The cells of a line come from these lines.
    Explain(usize, &'static [usize]),
    /// What the limits rest on, or the limits.
    Limits(Part),
}

/// Makes each of these calls.
fn try_each(alloc: Global, start: &Start, lines: &[Line], calls: &[OnTrace]) -> Result<(), Fail> {
    for call in calls {
        tried(
            alloc,
            &Call::OnTrace(start, lines, call),
            "a call on a trace",
        )?;
    }
    Ok(())
}

/// Tries each call on a trace with what is known before it.
pub fn try_all(
    alloc: Global,
    before: Before,
    trace: &[&str],
    calls: &[OnTrace],
) -> Result<(), Fail> {
    let lines = lines_of(alloc, trace)?;
    let start = start_of(alloc, before)?;
    let result = try_each(alloc, &start, &lines, calls);
    drop(start);
    drop(lines);
    result
}

/// Adds those cells of a process, in a second call where the first lacks memory. Whether a refused call left nothing.
fn add_or_again(alloc: Global, start: &mut Start, pid: u32) -> Result<bool, Fail>
    requires { pid ≤ largest_pid }
{
    let cells = cells_of(alloc)?;
    Mark::Begin.set(alloc);
    let first = start.add(pid, Mode::Outside, Cell::Unknown, cells);
    if !lacked(alloc, first.is_err()) {
        return Ok(true);
    }
    let is_left = start.cell(pid, 0) == Cell::Unknown && start.mode(pid) == Mode::Unsure;
    start.add(pid, Mode::Outside, Cell::Unknown, cells_of(alloc)?)?;
    Ok(is_left)
}

/// Whether a process is outside, or inside, and has those cells, and this one elsewhere.
fn has_cells(start: &Start, pid: u32, mode: Mode, elsewhere: Cell) -> Result<bool, Fail> {
    let has_mode = start.mode(pid) == mode && start.cell(pid, 71) == elsewhere;
    Ok(has_mode && start.cell(pid, 0) == held(b"CAP_READ")?)
}

/// Whether a process is added, and nothing else changes.
fn adds(alloc: Global, start: &mut Start, pid: u16) -> Result<bool, Fail> {
    let pid = Pid::from(pid);
    Ok(
        add_or_again(alloc, start, pid)?
            && has_cells(start, pid, Mode::Outside, Cell::Unknown)?
            && has_cells(start, 7, Mode::Inside, Cell::Closed)?,
    )
}

/// Adds four processes.
fn add_four(alloc: Global, start: &mut Start) -> Result<(), Fail> {
    for pid in 100..104 {
        right(alloc, adds(alloc, start, pid)?, "a process is added")?;
    }
    Ok(())
}

#[test]
fn start_add_refused(rt: HostRuntime) -> Result<(), Fail> {
    let mut start = start_of(rt.alloc(), Before::Cells(7, Mode::Inside))?;
    let result = add_four(rt.alloc(), &mut start);
    drop(start);
    result
}

/// Whether findings are at these positions.
pub fn are_at(found: &[Found], places: &[usize]) -> bool {
    for (one, place) in found.iter().zip(places) {
        if one.at != *place {
            return false;
        }
    }
    found.len() == places.len()
}

/// Whether the first of them is that the right to write is missing.
fn begins_with_write(found: &[Found]) -> bool {
    match found {
        [first, ..] => match first.finding {
            Finding::Missing(fd, rights) => fd == 3 && parse_rights(b"CAP_WRITE") == Ok(rights),
            _ => false,
        },
        [] => false,
    }
}

/// Checks lines in a profile: whether it finds something at these positions, first that the right to write is missing.
pub fn checks(
    alloc: Global,
    start: &Start,
    lines: &[Line],
    profile: Profile,
    places: &[usize],
) -> Result<bool, NoMemory> {
    let found = check(alloc, profile, start, lines)?;
    Ok(are_at(&found, places) && begins_with_write(&found))
}

/// Checks in each profile.
static CHECKS: [OnTrace; 2] = [
    OnTrace::Check(Profile::One, &[5]),
    OnTrace::Check(Profile::Two, &[5, 8]),
];

#[test]
fn check_refused(rt: HostRuntime) -> Result<(), Fail> {
    try_all(rt.alloc(), CELLS, &TRACE, &CHECKS)
}

/// Gives a checker these lines.
fn feed(checker: &mut Checker, lines: &[Line]) -> Result<(), NoMemory> {
    for line in lines {
        if checker.count() < 100 {
            checker.line(line)?;
        }
    }
    Ok(())
}

/// A checker over these lines, and its report.
fn reported(alloc: Global, start: &Start, lines: &[Line]) -> Result<Vec<u8>, NoMemory> {
    let mut checker = Checker::from_start(alloc, Profile::Two, start)?;
    match feed(&mut checker, lines) {
        Ok(()) => checker.report(),
        Err(lacking) => {
            drop(checker);
            Err(lacking)
        }
    }
}

/// Has a checker report on lines: whether that is right.
pub fn reports(alloc: Global, start: &Start, lines: &[Line]) -> Result<bool, NoMemory> {
    let report = b"5 100 write missing 3 CAP_WRITE\n8 101 read closed 3\nfindings 2\n";
    let text = reported(alloc, start, lines)?;
    Ok(text.as_slice() == report.as_slice())
}

#[test]
fn checker_refused(rt: HostRuntime) -> Result<(), Fail> {
    try_all(rt.alloc(), CELLS, &TRACE, &[OnTrace::Report])
}

/// How many findings a machine has of these lines, after which it forgets process 100.
fn found_by(machine: &mut Machine, lines: &[Line]) -> Result<usize, NoMemory> {
    let mut count: usize = 0;
    for line in lines {
        count = count.saturating_add(machine.step(Profile::Two, line)?.len());
    }
    machine.forget(100)?;
    Ok(count)
}

/// Whether a machine that begins with a start has two findings.
pub fn two_found_by_machine(
    alloc: Global,
    start: &Start,
    lines: &[Line],
) -> Result<bool, NoMemory> {
    let mut machine = Machine::from_start(alloc, start)?;
    let count = found_by(&mut machine, lines);
    drop(machine);
    Ok(count? == 2)
}

#[test]
fn machine_refused(rt: HostRuntime) -> Result<(), Fail> {
    try_all(rt.alloc(), CELLS, &TRACE, &[OnTrace::Machine])
}

/// Whether the cell of descriptor 3 of process 100 comes from two lines.
pub fn traces_cell(alloc: Global, start: &Start, lines: &[Line]) -> Result<bool, NoMemory> {
    let provenance = provenance_of_cell(alloc, Profile::One, start, lines, 100, 3)?;
    Ok(provenance.links.len() == 2)
}

#[test]
fn origin_of_cell_refused(rt: HostRuntime) -> Result<(), Fail> {
    try_all(rt.alloc(), Before::Usual, &TRACE, &[OnTrace::Cell])
}

/// Whether the mode of process 101 comes from two lines.
pub fn traces_mode(alloc: Global, start: &Start, lines: &[Line]) -> Result<bool, NoMemory> {
    let provenance = provenance_of_mode(alloc, Profile::One, start, lines, 101)?;
    Ok(provenance.links.len() == 2)
}

#[test]
fn origin_of_mode_refused(rt: HostRuntime) -> Result<(), Fail> {
    try_all(rt.alloc(), Before::Usual, &TRACE, &[OnTrace::Mode])
}

/// The positions of the lines that the cells of an explanation come from.
fn positions_of(alloc: Global, found: &Explanation) -> Result<Vec<usize>, NoMemory> {
    let mut positions = Vec::new(alloc);
    for provenance in &found.cells {
        for link in &provenance.links {
            positions.push(link.at)?;
        }
    }
    Ok(positions)
}

/// The positions of the lines that a line's cells come from, in profile 2.
fn named_lines(
    alloc: Global,
    start: &Start,
    lines: &[Line],
    at: usize,
) -> Result<Vec<usize>, NoMemory> {
    let found = explain(alloc, Profile::Two, start, lines, at)?;
    let positions = match &found {
        Some(found) => positions_of(alloc, found),
        None => Ok(Vec::new(alloc)),
    };
    drop(found);
    positions
}

/// Explains a line in profile 2: whether its cells come from these lines.
pub fn explains(
    alloc: Global,
    start: &Start,
    lines: &[Line],
    at: usize,
    named: &[usize],
) -> Result<bool, NoMemory> {
    let positions = named_lines(alloc, start, lines, at)?;
    Ok(positions.as_slice() == named)
}

/// Explanations of two lines.
static EXPLANATIONS: [OnTrace; 2] = [OnTrace::Explain(5, &[2, 1]), OnTrace::Explain(8, &[7])];

#[test]
fn explain_refused(rt: HostRuntime) -> Result<(), Fail> {
    try_all(rt.alloc(), Before::Usual, &TRACE, &EXPLANATIONS)
}
