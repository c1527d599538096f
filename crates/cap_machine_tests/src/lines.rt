//! Lines of a trace, and the report of a checker. Where memory has run out there are no lines, and what is asked for
//! doesn't hold.

ghost use Rattle.cap_machine.specs.Code.Checked.{lines_of};
ghost use Rattle.std.specs.Prelude.{◌<◌, ◌^◌};

use cap_machine::Checker;
use cap_trace::{Line, parse_line, read_fast, read_slow};
use std::alloc::Global;

/// Adds the line that is read from a text, and says whether it could.
fn add_line(alloc: Global, lines: &mut Vec<Line>, text: &[u8]) -> bool {
    match parse_line(alloc, text) {
        Ok(line) => lines.push(line).is_ok(),
        Err(_) => false,
    }
}

/// The lines of a trace.
pub fn lines_of(alloc: Global, trace: &[u8]) -> Option<Vec<Line>> {
    let mut lines = Vec::new(alloc);
    for text in trace.split(|byte| *byte == b'\n') {
        if !text.is_empty() && !add_line(alloc, &mut lines, text) {
            return None;
        }
    }
    Some(lines)
}

/// How a checker is given a line.
#[derive(Clone, Copy)]
pub enum Way {
    /// As a line that owns its texts.
    Owned,
    /// Where it lies, if that can be.
    InPlace,
}

/// Checks a line that owns its texts, and says whether it could.
fn check_owned(alloc: Global, checker: &mut Checker, text: &[u8]) -> bool
    requires { lines_of checker.old < 2 ^ 60 }
{
    match parse_line(alloc, text) {
        Ok(line) => checker.line(&line).is_ok(),
        Err(_) => false,
    }
}

/// Checks a line where it lies, and says whether it could.
fn check_in_place(checker: &mut Checker, text: &[u8]) -> bool
    requires { lines_of checker.old < 2 ^ 60 }
{
    match read_fast(text) {
        Some(line) => checker.line_ref(&line).is_ok(),
        None => match read_slow(text) {
            Ok(line) => checker.line_ref(&line).is_ok(),
            Err(_) => false,
        },
    }
}

/// Checks a text that is a line, if less than 100 were checked, and says whether it could.
fn check_text(alloc: Global, checker: &mut Checker, text: &[u8], way: Way) -> bool {
    if text.is_empty() || checker.count() >= 100 {
        return true;
    }
    match way {
        Way::Owned => check_owned(alloc, checker, text),
        Way::InPlace => check_in_place(checker, text),
    }
}

/// Checks each line of a trace of less than 100, and says whether it could.
fn check_trace(alloc: Global, checker: &mut Checker, trace: &[u8], way: Way) -> bool {
    for text in trace.split(|byte| *byte == b'\n') {
        if !check_text(alloc, checker, text, way) {
            return false;
        }
    }
    true
}

/// Whether a report has no finding and no denial.
fn is_empty(report: &[u8]) -> bool {
    report == b"findings 0\n".as_slice() || report == b"denials 0\n".as_slice()
}

/// Whether a checker has this report, and is clean where the report has no finding and no denial.
fn has_report(checker: Checker, report: &[u8]) -> bool {
    let is_clean = checker.is_clean();
    match checker.report() {
        Ok(text) => is_clean == is_empty(report) && text.as_slice() == report,
        Err(_) => false,
    }
}

/// Whether a checker was given no line, and could check each line of a trace of less than 100.
fn is_checked(alloc: Global, checker: &mut Checker, trace: &[u8], way: Way) -> bool {
    checker.is_clean() && checker.count() == 0 && check_trace(alloc, checker, trace, way)
}

/// Whether a checker that was given no line has this report of a trace of less than 100, and is clean where the report
/// has no finding and no denial.
pub fn reports(alloc: Global, mut checker: Checker, trace: &[u8], way: Way, report: &[u8]) -> bool {
    let is_checked = is_checked(alloc, &mut checker, trace, way);
    has_report(checker, report) && is_checked
}
