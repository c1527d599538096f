//! What `plan_of` answers to words of the command line.

use crate::plan::{Plan, Run, Task, plan_of};
use Wanted::{Ask, Edit, Explain, Help, Limits, Usage};
use cap_machine::Profile::{self, One, Two};
use cap_machine::Question::{self, Denials, Findings};
use std::test::Fail;

/// The trace and the start of a run, its profile, and whether words are asked for.
type Read = (
    Option<&'static str>,
    Option<Option<&'static str>>,
    Profile,
    bool,
);

/// A plan. Of a text that is printed it has a part.
#[derive(Clone, Copy)]
enum Wanted {
    Ask(Question, Read),
    Edit(Read, Option<&'static str>),
    Explain(Read, usize),
    Limits(Read, Option<usize>),
    Help(&'static str),
    Usage(&'static str),
}

/// The trace `t`, and nothing else.
const TRACE: Read = (Some("t"), None, One, false);

/// The trace `t` from the start `s`, with all options.
const ALL: Read = (Some("t"), Some(Some("s")), Two, true);

const NO_PROFILE: Wanted = Usage("the profile is 1 or 2");

const NO_POSITION: Wanted = Usage("the position is a number of 1 to 19 digits");

const INPUT_TWICE: Wanted = Usage("standard input can be read only once");

const MISTAKE: Wanted = Usage("error: ");

static ROWS: [(&str, Wanted); 61] = [
    ("check", Ask(Findings, (None, None, One, false))),
    ("check -", Ask(Findings, (None, None, One, false))),
    ("check t", Ask(Findings, TRACE)),
    ("check -p 1 t", Ask(Findings, TRACE)),
    ("check -v -s s -p 2 t", Ask(Findings, ALL)),
    ("check t -p 2 -s s -v", Ask(Findings, ALL)),
    (
        "check --profile=2 --start s --verbose t",
        Ask(Findings, ALL),
    ),
    (
        "check -s - t",
        Ask(Findings, (Some("t"), Some(None), One, false)),
    ),
    (
        "check -s s -",
        Ask(Findings, (None, Some(Some("s")), One, false)),
    ),
    ("check -s -", INPUT_TWICE),
    ("check -s - -", INPUT_TWICE),
    ("check -p 3 t", NO_PROFILE),
    ("check -p 0 t", NO_PROFILE),
    ("check -p 12 t", NO_PROFILE),
    ("check t t", MISTAKE),
    ("check -x t", MISTAKE),
    ("check -p", MISTAKE),
    ("check --help", Help("Usage: capcheck check")),
    ("denials", Ask(Denials, (None, None, One, false))),
    ("denials t", Ask(Denials, TRACE)),
    ("denials -v -s s -p 2 t", Ask(Denials, ALL)),
    ("denials t -p 2 -s s -v", Ask(Denials, ALL)),
    ("denials -s -", INPUT_TWICE),
    ("denials -p 3 t", NO_PROFILE),
    ("denials -h", Help("Usage: capcheck denials")),
    ("edit t", Edit(TRACE, None)),
    ("edit t -", Edit(TRACE, None)),
    ("edit t u", Edit(TRACE, Some("u"))),
    ("edit - u", Edit((None, None, One, false), Some("u"))),
    ("edit -v -s s -p 2 t u", Edit(ALL, Some("u"))),
    ("edit t u -p 2 -s s -v", Edit(ALL, Some("u"))),
    (
        "edit -s - t u",
        Edit((Some("t"), Some(None), One, false), Some("u")),
    ),
    ("edit -", INPUT_TWICE),
    ("edit - -", INPUT_TWICE),
    ("edit -s - t", INPUT_TWICE),
    ("edit -s - - u", INPUT_TWICE),
    ("edit -p 3 t u", NO_PROFILE),
    ("edit", MISTAKE),
    ("edit --help", Help("Usage: capcheck edit")),
    ("explain t 7", Explain(TRACE, 7)),
    ("explain - 7", Explain((None, None, One, false), 7)),
    ("explain -v -s s -p 2 t 12", Explain(ALL, 12)),
    ("explain t 12 -p 2 -s s -v", Explain(ALL, 12)),
    ("explain t 07", NO_POSITION),
    ("explain t seven", NO_POSITION),
    ("explain -p 3 t 7", NO_PROFILE),
    ("explain -s - - 7", INPUT_TWICE),
    ("explain t", MISTAKE),
    ("explain --help", Help("Usage: capcheck explain")),
    ("limits t", Limits(TRACE, None)),
    ("limits t 5", Limits(TRACE, Some(5))),
    ("limits -v -s s -p 2 t 5", Limits(ALL, Some(5))),
    ("limits t 5 -p 2 -s s -v", Limits(ALL, Some(5))),
    ("limits t five", NO_POSITION),
    ("limits -p 3 t", NO_PROFILE),
    ("limits -s - -", INPUT_TWICE),
    ("limits", MISTAKE),
    ("--help", Help("Usage: capcheck <COMMAND>")),
    ("--version", Help("capcheck ")),
    ("report t", MISTAKE),
    ("", MISTAKE),
];

/// Whether a run reads this, and this script.
fn reads(run: &Run<'_>, read: &Read, script: Option<Option<&'static str>>) -> bool {
    let (trace, start, profile, verbose) = read;
    run.start == *start
        && run.trace == *trace
        && run.script == script
        && run.profile == *profile
        && run.verbose == *verbose
}

/// Whether a run is the one that is wanted.
fn is_wanted_run(run: &Run<'_>, wanted: &Wanted) -> bool {
    match (&run.task, wanted) {
        (Task::Ask(question), Ask(asked, read)) => question == asked && reads(run, read, None),
        (Task::Edit, Edit(read, script)) => reads(run, read, Some(*script)),
        (Task::Explain(position), Explain(read, at)) => position == at && reads(run, read, None),
        (Task::Limits(at), Limits(read, before)) => at == before && reads(run, read, None),
        _ => false,
    }
}

/// Whether a plan is the one that is wanted.
fn is_wanted(plan: &Plan<'_>, wanted: &Wanted) -> bool {
    match (plan, wanted) {
        (Plan::Run(run), _) => is_wanted_run(run, wanted),
        (Plan::Help(text), Help(part)) | (Plan::Usage(text), Usage(part)) => text.contains(*part),
        _ => false,
    }
}

#[test]
fn words_have_their_plans(rt: HostRuntime) -> Result<(), Fail> {
    for (line, wanted) in &ROWS {
        let words: Vec<&str> = line.split_whitespace().collect(rt.alloc())?;
        if !is_wanted(&plan_of(rt.alloc(), words.as_slice()), wanted) {
            return Err(Fail::new(line));
        }
    }
    Ok(())
}
