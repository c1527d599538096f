//! Walks back, which are handed only the lines that matter.

use crate::lines::lines_of;
use crate::starts::{add, readable, rights_of};
use cap_machine::{
    Cell, CellEnd, CellLink, CellProvenance, CellWalk, Checks, Explanation, Finding, Mode, ModeEnd,
    ModeLink, ModeProvenance, ModeWalk, OnExec, Op, Profile, Start, Touched, Turned,
    effect_of_line, requirement_of_line, walks_may_leave_out,
};
use cap_trace::{Line, parse_line};
use std::alloc::Global;

/// Process 202 has descriptor 4 of 201, which limited what it has of 200.
const FORKS: &[u8] =
    b"200 @start(3)\n200 accept(3) RET 4\n200 dup(4) RET 5\n200 fork() RET 201\n201 cap_enter() RET 0\n201 cap_rights_limit(4,CAP_READ) RET 0\n200 close(4) RET 0\n201 fork() RET 202\n202 write(4) RET 1";

/// Lets a walk from a cell pass the line at a position, if there is one, and says whether it could.
fn pass(walk: &mut CellWalk, lines: &[Line], at: usize) -> bool {
    match lines.get(at.saturating_sub(1)) {
        Some(line) => walk.pass(at, Profile::Two, line).is_ok(),
        None => true,
    }
}

/// A walk from a cell that has passed the lines at these positions.
fn walked(
    alloc: Global,
    lines: &[Line],
    pid: u32,
    fd: u32,
    positions: &[usize],
) -> Option<CellWalk> {
    let mut walk = CellWalk::from(alloc, pid, fd);
    for at in positions {
        if !pass(&mut walk, lines, *at) {
            return None;
        }
    }
    Some(walk)
}

/// A walk over lines of a trace, at these positions.
fn walked_over(
    alloc: Global,
    trace: &[u8],
    pid: u32,
    fd: u32,
    positions: &[usize],
) -> Option<CellWalk> {
    match lines_of(alloc, trace) {
        Some(lines) => walked(alloc, &lines, pid, fd, positions),
        None => None,
    }
}

/// Lets a walk from a mode pass the line at a position, if there is one, and says whether it could.
fn mode_pass(walk: &mut ModeWalk, lines: &[Line], at: usize) -> bool {
    match lines.get(at.saturating_sub(1)) {
        Some(line) => walk.pass(at, Profile::Two, line).is_ok(),
        None => true,
    }
}

/// A walk from a mode that has passed the lines at these positions.
fn mode_walked(alloc: Global, lines: &[Line], pid: u32, positions: &[usize]) -> Option<ModeWalk> {
    let mut walk = ModeWalk::from(alloc, pid);
    for at in positions {
        if !mode_pass(&mut walk, lines, *at) {
            return None;
        }
    }
    Some(walk)
}

/// A walk of a mode over the forks, at these positions.
fn mode_walked_over_forks(alloc: Global, pid: u32, positions: &[usize]) -> Option<ModeWalk> {
    match lines_of(alloc, FORKS) {
        Some(lines) => mode_walked(alloc, &lines, pid, positions),
        None => None,
    }
}

/// The lines that descriptor 4 of process 202 comes from.
static CELL_LINKS: [CellLink; 4] = [
    CellLink {
        at: 8,
        pid: 202,
        fd: 4,
    },
    CellLink {
        at: 6,
        pid: 201,
        fd: 4,
    },
    CellLink {
        at: 4,
        pid: 201,
        fd: 4,
    },
    CellLink {
        at: 2,
        pid: 200,
        fd: 4,
    },
];

/// Whether a walk finds this cell, this end and these lines.
fn finishes(
    alloc: Global,
    walk: CellWalk,
    start: &Start,
    cell: Cell,
    end: CellEnd,
    links: &[CellLink],
) -> bool {
    match walk.finish(alloc, start) {
        Ok(provenance) => {
            provenance.cell == cell && provenance.end == end && provenance.links.as_slice() == links
        }
        Err(_) => false,
    }
}

/// Whether a walk finds this, and has ended where a line gave the cell.
fn finds(
    alloc: Global,
    walk: CellWalk,
    start: &Start,
    cell: Cell,
    end: CellEnd,
    links: &[CellLink],
) -> bool {
    let has_ended = walk.has_ended();
    finishes(alloc, walk, start, cell, end, links) && has_ended == matches!(end, CellEnd::Given(_))
}

/// Every line, and those alone that touched the cell.
static CELL_POSITIONS: [&[usize]; 2] = [&[8, 7, 6, 5, 4, 3, 2, 1], &[8, 6, 4, 2]];

/// Whether a walk over these positions finds the limit to CAP_READ.
fn finds_limit(alloc: Global, start: &Start, positions: &[usize]) -> bool {
    let end = CellEnd::Given(Cell::Unknown);
    match walked_over(alloc, FORKS, 202, 4, positions) {
        Some(walk) => finds(alloc, walk, start, readable(), end, &CELL_LINKS),
        None => false,
    }
}

/// Whether each such walk does, from the usual start.
fn all_find_limit(alloc: Global) -> bool {
    let start = Start::unknown(alloc);
    let mut all = true;
    for positions in &CELL_POSITIONS {
        all = all && finds_limit(alloc, &start, positions);
    }
    drop(start);
    all
}

#[test]
fn a_walk_finds_the_lines_that_a_cell_comes_from(rt: HostRuntime) {
    assert!(rt; all_find_limit(rt.alloc()));
}

/// The positions that a walk from descriptor 7 of process 101 has passed, where it is then, and whether it has ended.
static PLACES: [(&[usize], u32, u32, bool); 4] = [
    (&[], 101, 7, false),
    (&[3], 100, 7, false),
    (&[3, 2], 100, 3, false),
    (&[3, 2, 1], 100, 3, true),
];

/// Whether it is there.
fn is_at(alloc: Global, row: &(&[usize], u32, u32, bool)) -> bool {
    let trace = b"100 @start(3)\n100 dup(3) RET 7\n100 fork() RET 101".as_slice();
    match walked_over(alloc, trace, 101, 7, row.0) {
        Some(walk) => walk.pid() == row.1 && walk.fd() == row.2 && walk.has_ended() == row.3,
        None => false,
    }
}

/// Where it is after each line, and that it hasn't ended before its last.
#[test]
fn a_walk_says_where_it_is(rt: HostRuntime) {
    for row in &PLACES {
        assert!(rt; is_at(rt.alloc(), row));
    }
}

/// The line that closes the copy.
static CLOSED: [CellLink; 1] = [CellLink {
    at: 2,
    pid: 100,
    fd: 5,
}];

/// Whether a walk from a descriptor that was copied, or is the copy, finds this cell, this end and these lines.
fn finds_copy(
    alloc: Global,
    start: &Start,
    fd: u32,
    cell: Cell,
    end: CellEnd,
    links: &[CellLink],
) -> bool {
    let trace = b"100 dup(3) RET 5\n100 close(5) RET 0\n100 fork() RET 101".as_slice();
    match walked_over(alloc, trace, 100, fd, &[3, 2, 1]) {
        Some(walk) => finds(alloc, walk, start, cell, end, links),
        None => false,
    }
}

/// Whether both end where they should.
fn copies_end(alloc: Global, start: &Start) -> bool {
    let at_start = CellEnd::Start(100, 3, readable());
    let given = CellEnd::Given(Cell::Closed);
    finds_copy(alloc, start, 3, readable(), at_start, &[])
        && finds_copy(alloc, start, 5, Cell::Closed, given, &CLOSED)
}

/// Whether both end where they should, from a start in which the first is held for reading.
fn both_end(alloc: Global) -> bool {
    let cells = [(3, readable())];
    let mut start = Start::unknown(alloc);
    let end = add(alloc, &mut start, 100, Mode::Outside, Cell::Closed, &cells)
        && copies_end(alloc, &start);
    drop(start);
    end
}

/// Without a line that gave the cell, and after one that did: no older line is taken.
#[test]
fn a_walk_ends_at_the_start_or_where_the_cell_was_given(rt: HostRuntime) {
    assert!(rt; both_end(rt.alloc()));
}

/// A walk from the mode of a process over these positions.
struct ModeRow {
    pid: u32,
    positions: &'static [usize],
    /// The process that it is at then.
    at: u32,
    has_ended: bool,
    mode: Mode,
    end: ModeEnd,
    links: &'static [ModeLink],
}

const INSIDE_LINKS: &[ModeLink] = &[ModeLink { at: 8, pid: 202 }, ModeLink { at: 5, pid: 201 }];

static MODES: [ModeRow; 3] = [
    ModeRow {
        pid: 202,
        positions: &[8, 7, 6, 5, 4, 3, 2, 1],
        at: 201,
        has_ended: true,
        mode: Mode::Inside,
        end: ModeEnd::Given(Mode::Inside),
        links: INSIDE_LINKS,
    },
    ModeRow {
        pid: 202,
        positions: &[8, 5],
        at: 201,
        has_ended: true,
        mode: Mode::Inside,
        end: ModeEnd::Given(Mode::Inside),
        links: INSIDE_LINKS,
    },
    ModeRow {
        pid: 201,
        positions: &[4],
        at: 200,
        has_ended: false,
        mode: Mode::Outside,
        end: ModeEnd::Start(200, Mode::Outside),
        links: &[ModeLink { at: 4, pid: 201 }],
    },
];

/// Whether a walk is where a row says, and finds what it says.
fn is_mode(walk: ModeWalk, start: &Start, row: &ModeRow) -> bool {
    let is_there = walk.pid() == row.at && walk.has_ended() == row.has_ended;
    let provenance = walk.finish(start);
    is_there
        && provenance.mode == row.mode
        && provenance.end == row.end
        && provenance.links.as_slice() == row.links
}

/// Whether the walk of a row over the forks finds its mode.
fn finds_mode(alloc: Global, start: &Start, row: &ModeRow) -> bool {
    match mode_walked_over_forks(alloc, row.pid, row.positions) {
        Some(walk) => is_mode(walk, start, row),
        None => false,
    }
}

/// Whether the walk of each row finds its mode.
fn finds_modes(alloc: Global, start: &Start) -> bool {
    for row in &MODES {
        if !finds_mode(alloc, start, row) {
            return false;
        }
    }
    true
}

/// Whether the walk of each row finds its mode, from a start in which process 200 is outside.
fn finds_modes_from_outside(alloc: Global) -> bool {
    let mut start = Start::unknown(alloc);
    let finds = add(alloc, &mut start, 200, Mode::Outside, Cell::Unknown, &[])
        && finds_modes(alloc, &start);
    drop(start);
    finds
}

#[test]
fn a_mode_walk_finds_the_lines_that_a_mode_comes_from(rt: HostRuntime) {
    assert!(rt; finds_modes_from_outside(rt.alloc()));
}

/// Where descriptor 4 of process 202 comes from.
fn cell_of_202(alloc: Global, start: &Start) -> Option<CellProvenance> {
    match walked_over(alloc, FORKS, 202, 4, &[8, 6, 4, 2]) {
        Some(walk) => walk.finish(alloc, start).ok(),
        None => None,
    }
}

/// Adds that, and says whether it could.
fn add_cell_of_202(alloc: Global, start: &Start, cells: &mut Vec<CellProvenance>) -> bool {
    match cell_of_202(alloc, start) {
        Some(provenance) => cells.push(provenance).is_ok(),
        None => false,
    }
}

/// Where its mode comes from.
fn mode_of_202(alloc: Global, start: &Start) -> Option<ModeProvenance> {
    match mode_walked_over_forks(alloc, 202, &[8, 5]) {
        Some(walk) => Some(walk.finish(start)),
        None => None,
    }
}

/// Whether a line that checks one descriptor, for which the mode doesn't matter, is explained by one cell, with this
/// finding.
fn is_explained_by_cells(line: &Line, cells: Vec<CellProvenance>, finding: Finding) -> bool {
    let requirement = requirement_of_line(&line.view());
    match &requirement.checks {
        Checks::One(_) if cells.len() == 1 && !requirement.mode_matters() => {
            let found = Explanation::of(&requirement, cells, None);
            let holds = found.verdict.as_slice() == [finding].as_slice()
                && found.cells.len() == 1
                && found.mode.is_none();
            drop(found);
            holds
        }
        _ => false,
    }
}

/// Whether it is explained by descriptor 4 of process 202.
fn is_explained_by_cell(alloc: Global, start: &Start, line: &Line) -> bool {
    let missing = Finding::Missing(4, rights_of(b"CAP_WRITE"));
    let mut cells = Vec::new(alloc);
    let is_added = add_cell_of_202(alloc, start, &mut cells);
    is_explained_by_cells(line, cells, missing) && is_added
}

/// Whether a write to it is explained by descriptor 4 of process 202.
fn is_write_explained(alloc: Global, start: &Start) -> bool {
    match parse_line(alloc, b"202 write(4) RET 1") {
        Ok(line) => is_explained_by_cell(alloc, start, &line),
        Err(_) => false,
    }
}

#[test]
fn an_explanation_is_made_of_a_cell(rt: HostRuntime) {
    let start = Start::unknown(rt.alloc());
    let is_explained = is_write_explained(rt.alloc(), &start);
    drop(start);
    assert!(rt; is_explained);
}

/// Whether a line that checks none, for which the mode matters, is explained by a mode, with one finding.
fn is_explained_by_mode(alloc: Global, line: &Line, provenance: ModeProvenance) -> bool {
    let requirement = requirement_of_line(&line.view());
    match &requirement.checks {
        Checks::Nothing if requirement.mode_matters() => {
            let found = Explanation::of(&requirement, Vec::new(alloc), Some(provenance));
            let holds = found.verdict.len() == 1 && found.cells.is_empty() && found.mode.is_some();
            drop(found);
            holds
        }
        _ => false,
    }
}

/// Whether it is explained by the mode of process 202.
fn is_explained_by_its_mode(alloc: Global, start: &Start, line: &Line) -> bool {
    match mode_of_202(alloc, start) {
        Some(provenance) => is_explained_by_mode(alloc, line, provenance),
        None => false,
    }
}

/// Whether an open is explained by the mode of process 202.
fn is_open_explained(alloc: Global, start: &Start) -> bool {
    match parse_line(alloc, b"202 open(\"x\",O_RDONLY) RET 3") {
        Ok(line) => is_explained_by_its_mode(alloc, start, &line),
        Err(_) => false,
    }
}

#[test]
fn an_explanation_is_made_of_a_mode(rt: HostRuntime) {
    let start = Start::unknown(rt.alloc());
    let is_explained = is_open_explained(rt.alloc(), &start);
    drop(start);
    assert!(rt; is_explained);
}

fn touched_by(line: &Line, pid: u32, fd: u32) -> Touched {
    effect_of_line(Profile::Two, &line.view()).touch(line.pid(), pid, fd)
}

fn word_of(touched: &Touched) -> &'static str {
    match touched {
        Touched::Kept => "kept",
        Touched::Given(Cell::Unknown) => "unknown",
        Touched::Given(Cell::Closed) => "closed",
        Touched::Given(Cell::Held(_, _)) => "held",
        Touched::Taken(_, _) => "taken",
    }
}

/// A line, and what it does to the cell of a descriptor of a process.
static TOUCHES: [(&[u8], u32, u32, &str); 10] = [
    (b"100 read(3) RET 1", 100, 3, "kept"),
    (b"100 @start(3)", 100, 3, "held"),
    (b"100 @start(3)", 100, 4, "closed"),
    (b"100 @start(3)", 101, 4, "kept"),
    (b"100 closefrom(3) RET 0", 100, 2, "kept"),
    (b"100 closefrom(3) RET 0", 100, 3, "closed"),
    (b"100 pdfork() RET 101,5", 101, 5, "unknown"),
    (b"100 pdfork() RET 101,5", 101, 4, "taken"),
    (b"100 pdfork() RET 101,5", 100, 5, "unknown"),
    (b"100 pdfork() RET 101,5", 100, 4, "kept"),
];

/// Whether a line does that.
fn touches(alloc: Global, row: &(&[u8], u32, u32, &str)) -> bool {
    match parse_line(alloc, row.0) {
        Ok(line) => word_of(&touched_by(&line, row.1, row.2)) == row.3,
        Err(_) => false,
    }
}

#[test]
fn an_effect_touches_cells(rt: HostRuntime) {
    for row in &TOUCHES {
        assert!(rt; touches(rt.alloc(), row));
    }
}

/// Whether a line takes the cell of a descriptor from that of another one by an op.
fn takes(alloc: Global, text: &[u8], pid: u32, fd: u32, op: Op, from: u32) -> bool {
    match parse_line(alloc, text) {
        Ok(line) => touched_by(&line, pid, fd) == Touched::Taken(op, from),
        Err(_) => false,
    }
}

/// Of the cell of another descriptor, or of the parent.
#[test]
fn an_effect_takes_cells(rt: HostRuntime) {
    let derived = Op::derive(OnExec::Clear);
    assert!(rt;
        takes(rt.alloc(), b"100 fork() RET 101", 101, 4, Op::same(), 4)
            && takes(rt.alloc(), b"100 dup(3) RET 7", 100, 7, derived, 3)
            && Op::same().on(Cell::Closed) == Cell::Closed
    );
}

/// A line, and what it does to the mode of a process.
static TURNS: [(&[u8], u32, Turned); 5] = [
    (b"100 fork() RET 101", 101, Turned::Follows),
    (b"100 fork() RET 101", 100, Turned::Stays),
    (b"100 cap_enter() RET 0", 100, Turned::Turns(Mode::Inside)),
    (b"100 cap_enter() RET 0", 101, Turned::Stays),
    (b"100 @start(3)", 100, Turned::Turns(Mode::Outside)),
];

/// Whether a line does that.
fn turns(alloc: Global, row: &(&[u8], u32, Turned)) -> bool {
    match parse_line(alloc, row.0) {
        Ok(line) => { effect_of_line(Profile::Two, &line.view()).turn(line.pid(), row.1) == row.2 }
        Err(_) => false,
    }
}

#[test]
fn an_effect_turns_modes(rt: HostRuntime) {
    for row in &TURNS {
        assert!(rt; turns(rt.alloc(), row));
    }
}

#[test]
fn the_law_of_walks_is_called() {
    walks_may_leave_out();
}
