//! Worked traces that are cut in two: the parts are made by trees, joined, and read under a start.

use crate::rows::{KnownCell, ROWS, Row};
use crate::traces::{steps_of, tree_of};
use cap_machine::{Cell, Found, Mode, OnExec, Profile, Start, Step, put_count, put_finding};
use cap_rights::parse_rights;
use cap_summary::{Summary, resolve};
use cap_trace::Fd;
use cap_tree::{Meter, NoMemory, Segment, Tree};
use std::alloc::Global;
use std::rc::Rc;
use std::test::Fail;

/// A cell, by its word in the text of a start.
fn cell_of(word: &str) -> Result<Cell, Fail> {
    match word {
        "unknown" => Ok(Cell::Unknown),
        "closed" => Ok(Cell::Closed),
        rights => Ok(Cell::Held(parse_rights(rights.as_bytes())?, OnExec::Unsure)),
    }
}

/// The start in which this is known of process 100, and nothing of others.
fn start_of(alloc: Global, known: &Option<KnownCell>) -> Result<Start, Fail> {
    let mut start = Start::unknown(alloc);
    if let Some((mode, others, fd, cell)) = known {
        let cells = Vec::from_slice(alloc, &[(Fd::from(*fd), cell_of(cell)?)])?;
        start.add(100, *mode, cell_of(others)?, cells)?;
    }
    Ok(start)
}

/// The summary of two trees, one after the other.
fn joined(alloc: Global, front: &Tree<Summary>, back: &Tree<Summary>) -> Result<Summary, NoMemory> {
    let (left, right) = (front.summary(), back.summary());
    if left.len() > 1000 || right.len() > 1000 {
        return Err(NoMemory);
    }
    Summary::join(alloc, &mut Meter::new(), left, right)
}

/// The summary of steps that are cut in two at a place.
fn joined_at(alloc: Global, steps: &[Rc<Step>], place: usize) -> Result<Summary, NoMemory> {
    let (front, back) = steps.split_at(place.min(steps.len()));
    let first = tree_of(alloc, front.to_vec(alloc)?)?;
    let second = tree_of(alloc, back.to_vec(alloc)?)?;
    joined(alloc, &first, &second)
}

/// The report of what was found in these steps.
fn report_of(
    alloc: Global,
    steps: &[Rc<Step>],
    found: &[Found],
) -> Result<Vec<u8>, cap_machine::NoMemory> {
    let mut text = Vec::new(alloc);
    for one in found {
        if let Some(step) = steps.get(one.at.saturating_sub(1)) {
            put_finding(&mut text, one.at, &step.line.view(), &one.finding)?;
        }
    }
    put_count(&mut text, found.len())?;
    Ok(text)
}

/// Whether steps that are cut in two at a place have this report from a start.
fn reports_at(
    alloc: Global,
    steps: &[Rc<Step>],
    place: usize,
    start: &Start,
    report: &str,
) -> Result<bool, Fail> {
    let whole = joined_at(alloc, steps, place)?;
    let found = resolve(alloc, &whole, start)?;
    let text = report_of(alloc, steps, &found)?;
    Ok(text.as_slice() == report.as_bytes())
}

/// Whether the trace of a row has this report in a profile, wherever it is cut: before its first step, between two of
/// them, and after its last.
fn reports(alloc: Global, row: &Row, profile: Profile, report: &str) -> Result<bool, Fail> {
    let start = start_of(alloc, &row.known)?;
    let steps = steps_of(alloc, profile, &[(row.trace, 1)])?;
    for place in 0..steps.len() + 1 {
        if !reports_at(alloc, &steps, place, &start, report)? {
            return Ok(false);
        }
    }
    Ok(true)
}

/// Whether the trace of a row has its report in both profiles.
fn is_reported(alloc: Global, row: &Row) -> Result<bool, Fail> {
    let second = row.second.unwrap_or(row.report);
    Ok(reports(alloc, row, Profile::One, row.report)? && reports(alloc, row, Profile::Two, second)?)
}

#[test]
fn a_trace_may_be_cut_anywhere(rt: HostRuntime) -> Result<(), Fail> {
    for row in &ROWS {
        if !is_reported(rt.alloc(), row)? {
            return Err(Fail::new(row.name));
        }
    }
    Ok(())
}
