//! Calls that are tried with each of their allocations refused. Each says whether it answers what is right.

use crate::limits::limits;
use crate::machine::{
    OnTrace, checks, explains, reports, traces_cell, traces_mode, two_found_by_machine,
};
use crate::making::{Made, lists_fds, makes};
use crate::marks::{Mark, lacked, right};
use crate::reports::{has_denials, reads_start, reports_from};
use crate::sessions::{Query, answers_query};
use crate::summaries::{resolves, sums};
use cap_machine::{NoMemory, Start, Step};
use cap_session::Session;
use cap_summary::Summary;
use cap_trace::Line;
use std::alloc::Global;
use std::rc::Rc;
use std::test::Fail;

/// A call, with what it is given and what is right.
#[derive(Drop)]
pub enum Call<'a> {
    Make(Made, &'a str),
    Fds,
    Start,
    OnTrace(&'a Start, &'a [Line], &'a OnTrace),
    Sum(Option<&'a Rc<Step>>),
    Range(&'a Start, &'a Summary, (usize, usize), &'a [usize]),
    Ask(&'a Session, &'a Query, &'a str),
    ReportFrom(&'a Session, &'a Start),
    Denials(&'a Session),
}

/// Makes a call on a trace.
fn answers_on_trace(
    alloc: Global,
    start: &Start,
    lines: &[Line],
    call: &OnTrace,
) -> Result<bool, NoMemory> {
    match call {
        OnTrace::Check(profile, places) => checks(alloc, start, lines, *profile, places),
        OnTrace::Report => reports(alloc, start, lines),
        OnTrace::Machine => two_found_by_machine(alloc, start, lines),
        OnTrace::Cell => traces_cell(alloc, start, lines),
        OnTrace::Mode => traces_mode(alloc, start, lines),
        OnTrace::Explain(at, named) => explains(alloc, start, lines, *at, named),
        OnTrace::Limits(part) => limits(alloc, start, lines, *part),
    }
}

/// Makes a call: whether it answers what is right.
fn answers(alloc: Global, call: &Call<'_>) -> Result<bool, NoMemory> {
    match call {
        Call::Make(part, bytes) => makes(alloc, *part, bytes),
        Call::Fds => lists_fds(alloc),
        Call::Start => reads_start(alloc),
        Call::OnTrace(start, lines, call) => answers_on_trace(alloc, start, lines, call),
        Call::Sum(step) => sums(alloc, *step),
        Call::Range(start, summary, range, places) => {
            resolves(alloc, start, summary, *range, places)
        }
        Call::Ask(session, query, text) => answers_query(session, query, text),
        Call::ReportFrom(session, start) => reports_from(session, start),
        Call::Denials(session) => has_denials(session),
    }
}

/// Whether a call answers what is right, in a second one where the first lacks memory.
pub fn is_answered(alloc: Global, call: &Call<'_>) -> bool {
    Mark::Begin.set(alloc);
    let mut answer = answers(alloc, call);
    if lacked(alloc, answer.is_err()) {
        answer = answers(alloc, call);
    }
    answer == Ok(true)
}

/// Fails a test with these words where it doesn't.
pub fn tried(alloc: Global, call: &Call<'_>, words: &str) -> Result<(), Fail> {
    right(alloc, is_answered(alloc, call), words)
}
