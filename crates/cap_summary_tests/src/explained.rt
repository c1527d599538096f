//! What single lines of worked traces rest on.

use crate::traces::{Parts, sum_of};
use cap_machine::{CellProvenance, Explanation, ModeProvenance, Profile, Start};
use cap_summary::{Summary, explain};
use cap_tree::NoMemory;
use std::alloc::Global;
use std::test::Fail;

/// closefrom(2) spares what is below its argument.
const CLOSED: Parts<'static> = &[
    ("100 @start(3,4)\n100 closefrom(4) RET 0", 1),
    ("100 read(3) RET 1\n100 read(4) RET 1", 1),
];

/// A child of a process in capability mode, and one that began outside.
const MODES: Parts<'static> = &[
    ("100 @start(0)\n100 cap_enter() RET 0", 1),
    ("100 fork() RET 101\n101 fork() RET 102", 1),
    ("102 open(\"x\",O_RDONLY) RET 3\n300 @start(0)", 1),
    ("300 open(\"x\",O_RDONLY) RET -1 errno 94", 1),
];

/// A limit far before its finding: all between them is left out.
const LONG: Parts<'static> = &[
    ("100 cap_rights_limit(3,CAP_READ) RET 0", 1),
    ("100 fork() RET 101", 1),
    ("102 dup(3) RET 4\n100 read(3) RET 1\n100 dup(3) RET 5", 300),
    ("101 write(3) RET 1\n100 write(5) RET 1", 1),
];

/// A trace, a position, how many findings the line there has, and the lines that its cell or its mode rests on.
type Row = (Parts<'static>, usize, usize, &'static [usize]);

static EXPLAINED: [Row; 8] = [
    (CLOSED, 1, 0, &[]),
    (CLOSED, 3, 0, &[1]),
    (CLOSED, 4, 1, &[2]),
    (MODES, 5, 1, &[4, 3, 2]),
    (MODES, 7, 1, &[6]),
    (LONG, 4, 0, &[1]),
    (LONG, 903, 1, &[2, 1]),
    (LONG, 904, 1, &[902, 1]),
];

/// Whether a cell rests on just these lines.
fn is_cell(found: &CellProvenance, lines: &[usize]) -> bool {
    let mut links = found.links.iter().zip(lines);
    found.links.len() == lines.len() && links.all(|(link, at)| link.at == *at)
}

/// Whether a mode rests on just these lines.
fn is_mode(found: &ModeProvenance, lines: &[usize]) -> bool {
    let mut links = found.links.iter().zip(lines);
    found.links.len() == lines.len() && links.all(|(link, at)| link.at == *at)
}

/// Whether an explanation says what is in a row.
fn says(found: &Explanation, row: &Row) -> bool {
    let is_right = match (found.cells.as_slice(), &found.mode) {
        ([cell], None) => is_cell(cell, row.3),
        ([], Some(mode)) => is_mode(mode, row.3),
        (cells, mode) => cells.is_empty() && mode.is_none() && row.3.is_empty(),
    };
    is_right && found.verdict.len() == row.2
}

/// Whether the line of a row is explained so in a summary.
fn has_line(alloc: Global, whole: &Summary, start: &Start, row: &Row) -> Result<bool, NoMemory> {
    match &explain(alloc, whole, start, row.1)? {
        Some(found) => Ok(says(found, row)),
        None => Ok(false),
    }
}

/// Whether the line of a row is explained so, where nothing is known before the trace.
fn is_explained(alloc: Global, row: &Row) -> Result<bool, Fail> {
    let whole = sum_of(alloc, Profile::Two, row.0)?;
    Ok(has_line(alloc, &whole, &Start::unknown(alloc), row)?)
}

#[test]
fn a_line_has_its_explanation(rt: HostRuntime) -> Result<(), Fail> {
    for row in &EXPLAINED {
        assert!(rt; is_explained(rt.alloc(), row)?);
    }
    Ok(())
}
