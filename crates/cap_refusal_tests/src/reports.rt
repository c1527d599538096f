//! Reports of a session, and texts of starts.

use crate::calls::{Call, is_answered, tried};
use crate::machine::{CELLS, TRACE, start_of};
use crate::marks::right;
use crate::sessions::{Query, REPORT, ask_each, is_at, session_from, session_of};
use cap_machine::{Cell, Mode, NoMemory, Start};
use cap_session::{Refused, Session, StartFault, parse_start};
use std::alloc::Global;
use std::test::Fail;

/// Reports of ranges.
static REPORTS: [(Query, &str); 2] = [
    (
        Query::Range(5, 7),
        "5 100 write missing 3 CAP_WRITE\nfindings 1\n",
    ),
    (Query::Range(1, 4), "findings 0\n"),
];

#[test]
fn reports_refused(rt: HostRuntime) -> Result<(), Fail> {
    ask_each(rt.alloc(), &TRACE, REPORT, &REPORTS)
}

/// Asks for the report from a start: whether it is that of the trace.
pub fn reports_from(session: &Session, start: &Start) -> Result<bool, NoMemory> {
    match &session.report_from(start) {
        Ok(text) => Ok(text.as_slice() == REPORT.as_bytes()),
        Err(Refused::Memory) => Err(NoMemory),
        Err(_) => Ok(false),
    }
}

/// The start has CAP_READ on descriptor 0.
#[test]
fn report_from_refused(rt: HostRuntime) -> Result<(), Fail> {
    let mut session = session_of(rt.alloc())?;
    let is_right = match start_of(rt.alloc(), CELLS) {
        Ok(start) => {
            let is_reported = is_answered(rt.alloc(), &Call::ReportFrom(&session, &start));
            drop(start);
            Ok(is_reported && is_at(&mut session, 8, REPORT))
        }
        Err(fail) => Err(fail),
    };
    drop(session);
    right(rt.alloc(), is_right?, REPORT)
}

/// A line that lacks a right, one in capability mode, and one that nothing explains.
static DENIED: [&str; 5] = [
    "100 write(0) RET -1 errno 93",
    "100 cap_enter() RET 0",
    "100 fork() RET 101",
    "101 open(\"a\",O_RDONLY) RET -1 errno 94",
    "101 read(0) RET -1 errno 93",
];

/// Asks for the denials: whether they are those of these lines.
pub fn has_denials(session: &Session) -> Result<bool, NoMemory> {
    let text =
        "1 100 write lacks 0 CAP_WRITE\n4 101 open inside\n5 101 read unexplained\ndenials 3\n";
    match &session.denials() {
        Ok(answer) => Ok(answer.as_slice() == text.as_bytes()),
        Err(Refused::Memory) => Err(NoMemory),
        Err(_) => Ok(false),
    }
}

/// The start has CAP_READ on descriptor 0.
#[test]
fn denials_refused(rt: HostRuntime) -> Result<(), Fail> {
    let session = session_from(rt.alloc(), CELLS, &DENIED)?;
    let has_denials = is_answered(rt.alloc(), &Call::Denials(&session));
    let is_right = has_denials && session.count() == 5;
    drop(session);
    right(rt.alloc(), is_right, "a session has its denials")
}

/// Reads a start: whether it is that of the text.
pub fn reads_start(alloc: Global) -> Result<bool, NoMemory> {
    let text = b"100 out closed 0=CAP_READ 70=ALL\n101 in unknown 3=closed\n";
    match parse_start(alloc, text) {
        Ok(start) => {
            let is_read = start.cell(100, 1) == Cell::Closed
                && start.cell(101, 3) == Cell::Closed
                && start.cell(101, 0) == Cell::Unknown
                && start.mode(101) == Mode::Inside;
            drop(start);
            Ok(is_read)
        }
        Err(StartFault::Memory) => Err(NoMemory),
        Err(_) => Ok(false),
    }
}

#[test]
fn parse_start_refused(rt: HostRuntime) -> Result<(), Fail> {
    tried(rt.alloc(), &Call::Start, "a start is read")
}
