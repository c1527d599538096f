//! What came and what went among findings, by one walk over both lists of them.
ghost use Rattle.std.specs.Prelude.{◌≡◌, ◌+◌, ◌<◌, ◌≤◌, ◌^◌, ◌++◌, [], map, filter, IfOk, OnOk, IfSome, IfNone, ◌⊎◌};
ghost use Rattle.cap_session.specs.Limits.{most_lines};
ghost use Rattle.cap_session.specs.Changes.{came_to, went_from, same_finding, same_findings};
ghost use Rattle.cap_session.specs.Code.RunTable.{IsTable};
ghost use Rattle.cap_session.specs.Code.Walked.{Rise, RiseWithin, BeginAt, differs_then, differs_now, lines_of};

use cap_machine::Found;
use cap_summary::KeptRun;
use std::alloc::{AllocError, Global};

/// What went and what came, each in order.
#[derive(Drop)]
pub struct Changes {
    pub went: Vec<Found>,
    pub came: Vec<Found>,
}

/// Whether the same is found, at whatever position.
fn is_same(one: &Found, other: &Found) -> bool
    ensures { result ≡ same_finding one.now.finding other.now.finding }
{
    one.finding == other.finding
}

/// Whether two lines have the same findings.
fn are_same(then: &[Found], now: &[Found]) -> bool
    ensures { result ≡ same_findings (map (λ one. one.finding) then.now) (map (λ one. one.finding) now.now) }
{
    if then.len() != now.len() {
        return false;
    }
    for i in 0..then.len() {
        if !is_same(&then[i], &now[i]) {
            return false;
        }
    }
    true
}

/// The findings up to a position, and those behind it.
fn split_behind(found: &[Found], last: usize) -> (&[Found], &[Found])
    requires { Rise 0 found.now }
    ensures whole { found.now ≡ result.0.now ++ result.1.now }
    ensures front { RiseWithin 0 last result.0.now }
    ensures back { Rise (last + 1) result.1.now }
{
    let mut count = 0;
    while count < found.len() && found[count].at <= last {
        count += 1;
    }
    found.split_at(count)
}

/// How far the first finding is behind so many lines.
fn first_behind(lines: usize, found: &[Found]) -> Option<usize>
    requires { Rise (lines + 1) found.now }
    ensures some { IfSome result (λ line. BeginAt (lines + line) found.now) }
    ensures none { IfNone result (found.now ≡ []) }
{
    match found.first() {
        Some(one) => Some(one.at - lines),
        None => None,
    }
}

/// How far a run's first line with findings, then or now, is behind the lines before the run.
fn first_line(run: &KeptRun, then: &[Found], now: &[Found]) -> Option<usize>
    requires then { Rise (run.now.was + 1) then.now }
    requires now { Rise (run.now.at + 1) now.now }
    ensures then { IfSome result (λ line. Rise (run.now.was + line) then.now) }
    ensures now { IfSome result (λ line. Rise (run.now.at + line) now.now) }
    ensures some { IfSome result
        (λ line. BeginAt (run.now.was + line) then.now ⊎ BeginAt (run.now.at + line) now.now) }
    ensures none { IfNone result ((then.now ≡ []) × (now.now ≡ [])) }
{
    match (first_behind(run.was, then), first_behind(run.at, now)) {
        (Some(old), Some(new)) => Some(old.min(new)),
        (Some(line), None) => Some(line),
        (None, Some(line)) => Some(line),
        (None, None) => None,
    }
}

impl Changes {
    /// Adds the findings of a line that has others now.
    fn add(&mut self, then: &[Found], now: &[Found]) -> Result<(), AllocError>
        ensures went { OnOk result (self.new.went.items ≡ self.old.went.items ++ then.now) }
        ensures came { OnOk result (self.new.came.items ≡ self.old.came.items ++ now.now) }
    {
        self.went.extend_from_slice(then)?;
        self.came.extend_from_slice(now)?;
        Ok(())
    }

    /// Adds what went and what came of the lines of a run.
    fn add_run(&mut self, run: &KeptRun, then: &[Found], now: &[Found]) -> Result<(), AllocError>
        requires then { RiseWithin (run.now.was + 1) (run.now.was + run.now.len) then.now }
        requires now { RiseWithin (run.now.at + 1) (run.now.at + run.now.len) now.now }
        requires was_small { run.now.was + run.now.len ≤ most_lines }
        requires at_small { run.now.at + run.now.len ≤ most_lines }
        ensures went { OnOk result
            (self.new.went.items ≡ self.old.went.items ++ filter (differs_then run.now then.now now.now) then.now) }
        ensures came { OnOk result
            (self.new.came.items ≡ self.old.came.items ++ filter (differs_now run.now then.now now.now) now.now) }
    {
        let mut then = then;
        let mut now = now;
        while let Some(line) = first_line(run, then, now) {
            let (old, later_then) = split_behind(then, run.was + line);
            let (new, later_now) = split_behind(now, run.at + line);
            if !are_same(old, new) {
                self.add(old, new)?;
            }
            then = later_then;
            now = later_now;
        }
        Ok(())
    }
}

/// What went and what came, by runs of lines that stood one after another and do so now.
pub fn changes_of(
    alloc: Global,
    runs: &[KeptRun],
    then: &[Found],
    now: &[Found],
) -> Result<Changes, AllocError>
    requires table { IsTable most_lines runs.now }
    requires then { Rise 1 then.now }
    requires now { Rise 1 now.now }
    ensures went { IfOk result (λ changes. changes.went.items ≡ went_from (lines_of runs.now) then.now now.now) }
    ensures came { IfOk result (λ changes. changes.came.items ≡ came_to (lines_of runs.now) then.now now.now) }
{
    let mut changes = Changes {
        went: Vec::new(alloc),
        came: Vec::new(alloc),
    };
    let mut then = then;
    let mut now = now;
    for run in runs {
        let (gone, later_then) = split_behind(then, run.was);
        let (new, later_now) = split_behind(now, run.at);
        changes.add(gone, new)?;
        let (old, later_then) = split_behind(later_then, run.was + run.len);
        let (here, later_now) = split_behind(later_now, run.at + run.len);
        changes.add_run(run, old, here)?;
        then = later_then;
        now = later_now;
    }
    changes.add(then, now)?;
    Ok(changes)
}
