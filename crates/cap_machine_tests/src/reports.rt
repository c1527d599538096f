//! Worked traces have their reports.

use crate::lines::{Way, reports};
use crate::traces::{BY_PROFILE, REPORTS};
use cap_machine::{Checker, Finding, Profile, put_count, put_finding, put_finding_words};
use cap_trace::{LineRef, parse_line};
use std::alloc::Global;
use std::test::Fail;

/// Whether this is the report of a trace in a profile, by its lines and where they lie.
fn reports_both_ways(alloc: Global, profile: Profile, trace: &[u8], report: &[u8]) -> bool {
    let owned = Checker::new(alloc, profile);
    let in_place = Checker::new(alloc, profile);
    let by_lines = reports(alloc, owned, trace, Way::Owned, report);
    reports(alloc, in_place, trace, Way::InPlace, report) && by_lines
}

/// Whether these are the reports of a trace in the first profile and in the second.
fn reports_in_each(alloc: Global, trace: &[u8], one: &[u8], two: &[u8]) -> bool {
    reports_both_ways(alloc, Profile::One, trace, one)
        && reports_both_ways(alloc, Profile::Two, trace, two)
}

#[test]
fn a_trace_has_its_report(rt: HostRuntime) -> Result<(), Fail> {
    for (trace, report) in &REPORTS {
        if !reports_in_each(rt.alloc(), trace, report, report) {
            return Err(*report)?;
        }
    }
    Ok(())
}

#[test]
fn a_trace_has_its_report_in_each_profile(rt: HostRuntime) -> Result<(), Fail> {
    for (trace, one, two) in &BY_PROFILE {
        if !reports_in_each(rt.alloc(), trace, one, two) {
            return Err(*one)?;
        }
    }
    Ok(())
}

/// Whether this is written of a finding of a line, with a count of one.
fn writes(alloc: Global, line: &LineRef<'_>, finding: Finding, text: &[u8]) -> bool {
    let mut out = Vec::new(alloc);
    put_finding(&mut out, 7, line, &finding).is_ok()
        && put_count(&mut out, 1).is_ok()
        && out.as_slice() == text
}

/// Whether an open that is forbidden is written so.
fn writes_an_open(alloc: Global, text: &[u8]) -> bool {
    match parse_line(alloc, b"100 open(\"a\",0) RET 3") {
        Ok(line) => writes(alloc, &line.view(), Finding::Forbidden, text),
        Err(_) => false,
    }
}

/// Whether a finding has these words.
fn has_words(alloc: Global, finding: Finding, words: &[u8]) -> bool {
    let mut out = Vec::new(alloc);
    put_finding_words(&mut out, &finding).is_ok() && out.as_slice() == words
}

#[test]
fn findings_are_written(rt: HostRuntime) {
    assert!(rt; writes_an_open(rt.alloc(), b"7 100 open forbidden\nfindings 1\n"));
    assert!(rt; has_words(rt.alloc(), Finding::Closed(9), b"closed 9"));
}

/// The example at the crate's head.
#[test]
fn the_example_runs(rt: HostRuntime) {
    let trace =
        b"100 @start(0)\n100 cap_rights_limit(0,CAP_READ) RET 0\n100 write(0) RET 5".as_slice();
    let report = b"3 100 write missing 0 CAP_WRITE\nfindings 1\n".as_slice();
    let checker = Checker::new(rt.alloc(), Profile::One);
    assert!(rt; reports(rt.alloc(), checker, trace, Way::Owned, report));
}
