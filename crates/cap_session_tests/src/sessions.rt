//! What sessions answer, step by step.

use crate::answers::wanted;
use Change::{By, Load, Make};
use bstr::ByteSlice;
use cap_machine::Profile;
use cap_session::Edit::{self, Delete, Insert, Replace};
use cap_session::{ExplainOutcome, ExplainedLine, Outcome, Refused, Session, Setting, parse_start};
use cap_trace::{Line, parse_line};
use std::alloc::Global;
use std::test::Fail;

/// How many lines a session has after a change, or why it refused it.
pub type Answer = Result<usize, Refused>;

/// What a session answers with a text.
#[derive(Drop)]
pub enum Query {
    Report,
    /// What changed since the last report.
    Changes,
    /// The report from this start.
    ReportFrom(&'static [u8]),
    Denials,
    /// The limits, after the lines that made descriptors or before a line.
    Limits(Option<usize>),
    Range(usize, usize),
    Show(usize),
}

/// A change of a session.
#[derive(Drop)]
pub enum Change<'a> {
    /// The lines of this trace are loaded.
    Load(&'a [u8]),
    /// An edit is made, by the function for its kind.
    By(Edit<'a>),
    /// An edit is made as a value.
    Make(Edit<'a>),
}

/// What is done with a session, and what it answers.
#[derive(Drop)]
pub enum Step<'a> {
    Count(usize),
    Change(Change<'a>, Answer),
    Apply(&'a [Edit<'a>], &'a [Answer]),
    ReportAfter(&'a [Edit<'a>], &'a [Answer], &'a str),
    Ask(Query, Result<&'a str, Refused>),
    Explain(usize, ExplainOutcome, &'a str),
}

/// A session, and what is done with it.
#[derive(Drop)]
pub struct Case<'a> {
    pub name: &'a str,
    pub limit: usize,
    /// None where the session is made without one, and from the usual start.
    pub profile: Option<Profile>,
    /// Its start. Where this is empty it is made without one.
    pub start: &'a [u8],
    pub steps: &'a [Step<'a>],
}

/// The lines of a trace, without those that are skipped.
pub fn lines_of(alloc: Global, trace: &[u8]) -> Result<Vec<Line>, Refused> {
    let mut lines = Vec::new(alloc);
    for text in trace.lines() {
        if !text.is_empty() && !text.starts_with(b"#") {
            lines.push(parse_line(alloc, text)?)?;
        }
    }
    Ok(lines)
}

/// Makes an edit by the function for its kind.
pub fn edited(session: &mut Session, edit: &Edit<'_>) -> Answer {
    match edit {
        Insert { position, line } => session.insert(*position, line),
        Replace { position, line } => session.replace(*position, line),
        Delete { position } => session.delete(*position),
    }
}

/// Makes a change.
fn changed(alloc: Global, session: &mut Session, change: &Change<'_>) -> Answer {
    match change {
        Load(trace) => session.load(lines_of(alloc, trace)?),
        By(edit) => edited(session, edit),
        Make(edit) => session.edit(edit),
    }
}

/// Whether a change is answered so. A session that refuses it has as many lines and joins as before.
fn changes(alloc: Global, session: &mut Session, change: &Change<'_>, answer: Answer) -> bool {
    let (count, joins) = (session.count(), session.joins());
    changed(alloc, session, change) == answer
        && session.count() == answer.unwrap_or(count)
        && (answer.is_ok() || session.joins() == joins)
}

/// Whether edits are answered so.
fn applies(session: &mut Session, edits: &[Edit<'_>], answers: &[Answer]) -> bool {
    match &session.apply(edits) {
        Ok(given) => given.as_slice() == answers,
        Err(_) => false,
    }
}

/// Whether edits are answered so, with this report after them.
fn reports_after(
    session: &mut Session,
    edits: &[Edit<'_>],
    answers: &[Answer],
    report: &str,
) -> bool {
    match &session.report_after(edits) {
        Ok(given) => given.answers.as_slice() == answers && is_text(&given.report, Ok(report)),
        Err(_) => false,
    }
}

/// The report of a session from this start.
fn reported_from(alloc: Global, session: &Session, start: &[u8]) -> Result<Vec<u8>, Refused> {
    match parse_start(alloc, start) {
        Ok(start) => {
            let report = session.report_from(&start);
            drop(start);
            report
        }
        Err(_) => Err(Refused::Argument),
    }
}

/// Whether a session was asked, and answers so.
fn answers_query(
    alloc: Global,
    session: &mut Session,
    query: &Query,
    answer: Result<&str, Refused>,
) -> bool {
    let given = match query {
        Query::Report => session.report(),
        Query::Changes => session.changes(),
        Query::ReportFrom(start) => reported_from(alloc, session, start),
        Query::Denials => session.denials(),
        Query::Limits(at) => session.limits(*at),
        Query::Range(first, last) => session.report_range(*first, *last),
        Query::Show(position) => session.show(*position),
    };
    is_text(&given, answer)
}

/// Whether this text was answered.
fn is_text(given: &Result<Vec<u8>, Refused>, answer: Result<&str, Refused>) -> bool {
    match (given, answer) {
        (Ok(text), Ok(wanted)) => text.as_slice() == wanted.as_bytes(),
        (Err(refused), Err(wanted)) => *refused == wanted,
        _ => false,
    }
}

/// Whether a line is explained so.
fn explains(
    explained: &Result<ExplainedLine, Refused>,
    outcome: ExplainOutcome,
    text: &str,
) -> bool {
    match explained {
        Ok(line) => {
            let ended = if line.is_clean {
                Outcome::Clean
            } else {
                Outcome::Findings
            };
            outcome == ExplainOutcome::Ended(ended) && line.text.as_slice() == text.as_bytes()
        }
        Err(refused) => *refused == Refused::Position && outcome == ExplainOutcome::OutOfRange,
    }
}

/// Whether a session answers a step so.
fn answers(alloc: Global, session: &mut Session, step: &Step<'_>) -> bool {
    match step {
        Step::Count(count) => session.count() == *count,
        Step::Change(change, answer) => changes(alloc, session, change, *answer),
        Step::Apply(edits, answers) => applies(session, edits, answers),
        Step::ReportAfter(edits, answers, report) => reports_after(session, edits, answers, report),
        Step::Ask(query, answer) => answers_query(alloc, session, query, *answer),
        Step::Explain(at, outcome, text) => explains(&session.explain(*at), *outcome, text),
    }
}

/// Whether a session answers each step so.
fn answers_all(alloc: Global, session: &mut Session, steps: &[Step<'_>]) -> bool {
    for step in steps {
        if !answers(alloc, session, step) {
            return false;
        }
    }
    true
}

/// The session of a case.
fn session_of(alloc: Global, case: &Case<'_>) -> Result<Session, Refused> {
    let limit = case.limit.min(1_000_000);
    let Some(profile) = case.profile else {
        return Ok(Session::new(alloc, limit)?);
    };
    if case.start.is_empty() {
        return Ok(Session::with_profile(alloc, limit, profile)?);
    }
    match parse_start(alloc, case.start) {
        Ok(start) => Ok(Session::with_setting(alloc, limit, Setting { profile, start })?),
        Err(_) => Err(Refused::Argument),
    }
}

/// Fails a test where the session of a case doesn't answer so.
pub fn holds(alloc: Global, case: &Case<'_>) -> Result<(), Fail> {
    let mut session = session_of(alloc, case)?;
    let is_so = answers_all(alloc, &mut session, case.steps);
    drop(session);
    wanted(is_so, case.name)
}

const FINDS_NONE: &str = "findings 0\n";

const FINDS_ONE: &str = "3 100 write missing 0 CAP_WRITE\nfindings 1\n";

const FINDS_TWO: &str =
    "3 100 cap_rights_limit expanded 0 CAP_WRITE\n4 100 write missing 0 CAP_WRITE\nfindings 2\n";

const FINDS_WRITE: &str = "1 100 write missing 0 CAP_WRITE\nfindings 1\n";

const LACKS_TWO: &str = "3 100 pwrite missing 0 CAP_WRITE|CAP_SEEK\nfindings 1\n";

/// A limit of two rights that a call lacks.
const SOUGHT: &[u8] =
    b"100 @start(0,3)\n100 cap_rights_limit(0,CAP_READ) RET 0\n100 pwrite(0) RET 5";

/// A line of another process.
const OTHER: Edit<'static> = Insert {
    position: 1,
    line: b"200 @start(0)",
};

const FINDS_CLOSED: &str = "4 100 read closed 5\nfindings 1\n";

/// A start, a limit of its rights, and a call.
const LIMITED: &[u8] =
    b"100 @start(0,3)\n100 cap_rights_limit(0,CAP_READ) RET 0\n100 write(0) RET 5";

/// A limit that grows no rights, and a call that lacks one.
const EXPANDED: &[u8] =
    b"100 @start(0,3)\n100 cap_rights_limit(0,CAP_READ) RET 0\n100 cap_rights_limit(0,CAP_READ|CAP_WRITE) RET 0\n100 write(0) RET 1";

/// A descriptor that an exec closes is read from after it.
const EXECUTED: &[u8] =
    b"100 @start(0,3)\n100 open(\"a\",O_RDONLY|O_CLOEXEC) RET 5\n100 execve(\"/bin/x\") RET 0\n100 read(5) RET 1";

const GOOD: &[u8] = b"100 read(0) RET 1";

/// One edit is refused, and those round it are made.
const MIXED: [Edit<'static>; 3] = [
    Delete { position: 2 },
    Delete { position: 3 },
    Insert {
        position: 2,
        line: b"100 cap_rights_limit(0,CAP_SEEK) RET 0",
    },
];

/// What is known of a process: that it may read from a descriptor.
const READING: &[u8] = b"100 unsure unknown 0=CAP_READ";

const WRITE: Edit<'static> = Insert {
    position: 1,
    line: b"100 write(0) RET 1",
};

static CASES: [Case<'static>; 20] = [
    Case {
        name: "the example at the head of the crate",
        limit: 10,
        profile: None,
        start: b"",
        steps: &[
            Step::Change(
                By(Insert {
                    position: 1,
                    line: b"100 @start(0,3)",
                }),
                Ok(1),
            ),
            Step::Change(
                By(Insert {
                    position: 2,
                    line: b"100 cap_rights_limit(0,CAP_READ) RET 0",
                }),
                Ok(2),
            ),
            Step::Change(
                By(Insert {
                    position: 3,
                    line: b"100 write(0) RET 5",
                }),
                Ok(3),
            ),
            Step::Ask(Query::Report, Ok(FINDS_ONE)),
            Step::Change(By(Delete { position: 2 }), Ok(2)),
            Step::Ask(Query::Report, Ok(FINDS_NONE)),
        ],
    },
    Case {
        name: "accepted edits change the report",
        limit: 10,
        profile: None,
        start: b"",
        steps: &[
            Step::Change(Load(LIMITED), Ok(3)),
            Step::Ask(Query::Report, Ok(FINDS_ONE)),
            Step::Change(Make(Delete { position: 2 }), Ok(2)),
            Step::Ask(Query::Report, Ok(FINDS_NONE)),
            Step::Change(
                Make(Insert {
                    position: 2,
                    line: b"100 cap_rights_limit(0,CAP_WRITE) RET 0",
                }),
                Ok(3),
            ),
            Step::Ask(Query::Report, Ok(FINDS_NONE)),
            Step::Change(
                Make(Replace {
                    position: 2,
                    line: b"100 cap_rights_limit(0,CAP_READ) RET 0",
                }),
                Ok(3),
            ),
            Step::Ask(Query::Report, Ok(FINDS_ONE)),
        ],
    },
    Case {
        name: "refused edits leave the report",
        limit: 10,
        profile: None,
        start: b"",
        steps: &[
            Step::Change(Load(EXPANDED), Ok(4)),
            Step::Change(Make(Delete { position: 9 }), Err(Refused::Position)),
            Step::Ask(Query::Report, Ok(FINDS_TWO)),
            Step::Change(
                Make(Replace {
                    position: 2,
                    line: b"100 read(4 RET 1",
                }),
                Err(Refused::Shape),
            ),
            Step::Ask(Query::Report, Ok(FINDS_TWO)),
        ],
    },
    Case {
        name: "refusals come in order",
        limit: 2,
        profile: None,
        start: b"",
        steps: &[
            Step::Change(
                Load(b"100 @start(0,3)\n100 cap_rights_limit(0,CAP_READ) RET 0"),
                Ok(2),
            ),
            Step::Change(
                Make(Insert {
                    position: 3,
                    line: GOOD,
                }),
                Err(Refused::Full),
            ),
            Step::Change(
                Make(Insert {
                    position: 4,
                    line: GOOD,
                }),
                Err(Refused::Position),
            ),
            Step::Change(
                Make(Insert {
                    position: 3,
                    line: b"x",
                }),
                Err(Refused::Full),
            ),
            Step::Change(
                Make(Replace {
                    position: 2,
                    line: b"x",
                }),
                Err(Refused::Pid),
            ),
            Step::Change(
                Make(Replace {
                    position: 2,
                    line: GOOD,
                }),
                Ok(2),
            ),
            Step::Change(Make(Delete { position: 1 }), Ok(1)),
            Step::Change(
                Make(Insert {
                    position: 1,
                    line: b"100 @start(0)",
                }),
                Ok(2),
            ),
            Step::Ask(Query::Report, Ok(FINDS_NONE)),
        ],
    },
    Case {
        name: "a list up to the limit is loaded",
        limit: 3,
        profile: None,
        start: b"",
        steps: &[Step::Change(Load(LIMITED), Ok(3))],
    },
    Case {
        name: "a list past the limit is refused",
        limit: 2,
        profile: None,
        start: b"",
        steps: &[Step::Change(Load(LIMITED), Err(Refused::Full))],
    },
    Case {
        name: "a session begins with no lines",
        limit: 0,
        profile: None,
        start: b"",
        steps: &[
            Step::Ask(Query::Report, Ok(FINDS_NONE)),
            Step::Count(0),
            Step::Change(Load(b""), Ok(0)),
        ],
    },
    Case {
        name: "a session in profile 1 begins with no lines",
        limit: 10,
        profile: Some(Profile::One),
        start: b"",
        steps: &[Step::Count(0)],
    },
    Case {
        name: "a line is shown in its one spelling, and no other line is shown",
        limit: 1,
        profile: None,
        start: b"",
        steps: &[
            Step::Change(
                Load(b"100 cap_rights_limit(3,CAP_WRITE|CAP_PREAD|CAP_READ) RET 0"),
                Ok(1),
            ),
            Step::Ask(
                Query::Show(1),
                Ok("100 cap_rights_limit(3,CAP_READ|CAP_WRITE|CAP_SEEK) RET 0"),
            ),
            Step::Ask(Query::Show(0), Err(Refused::Position)),
            Step::Ask(Query::Show(2), Err(Refused::Position)),
        ],
    },
    Case {
        name: "a range has the findings at its positions, and there is no other range",
        limit: 10,
        profile: None,
        start: b"",
        steps: &[
            Step::Change(Load(EXPANDED), Ok(4)),
            Step::Ask(Query::Range(1, 4), Ok(FINDS_TWO)),
            Step::Ask(
                Query::Range(4, 4),
                Ok("4 100 write missing 0 CAP_WRITE\nfindings 1\n"),
            ),
            Step::Ask(Query::Range(1, 2), Ok(FINDS_NONE)),
            Step::Ask(Query::Range(0, 1), Err(Refused::Position)),
            Step::Ask(Query::Range(2, 1), Err(Refused::Position)),
            Step::Ask(Query::Range(4, 5), Err(Refused::Position)),
        ],
    },
    Case {
        name: "edits are made one after the other",
        limit: 10,
        profile: None,
        start: b"",
        steps: &[
            Step::Change(Load(LIMITED), Ok(3)),
            Step::Apply(&MIXED, &[Ok(2), Err(Refused::Position), Ok(3)]),
            Step::Ask(Query::Report, Ok(FINDS_ONE)),
        ],
    },
    Case {
        name: "the report after edits is that of their trace",
        limit: 10,
        profile: None,
        start: b"",
        steps: &[
            Step::Change(Load(LIMITED), Ok(3)),
            Step::ReportAfter(
                &[Delete { position: 2 }, Delete { position: 3 }],
                &[Ok(2), Err(Refused::Position)],
                FINDS_NONE,
            ),
            Step::Ask(Query::Report, Ok(FINDS_NONE)),
        ],
    },
    Case {
        name: "an exec closes nothing in profile 1",
        limit: 10,
        profile: Some(Profile::One),
        start: b"",
        steps: &[
            Step::Change(Load(EXECUTED), Ok(4)),
            Step::Ask(Query::Report, Ok(FINDS_NONE)),
            Step::Ask(Query::Range(4, 4), Ok(FINDS_NONE)),
            Step::Change(Make(Delete { position: 3 }), Ok(3)),
            Step::Ask(Query::Report, Ok(FINDS_NONE)),
        ],
    },
    Case {
        name: "an exec closes descriptors in profile 2",
        limit: 10,
        profile: Some(Profile::Two),
        start: b"",
        steps: &[
            Step::Count(0),
            Step::Change(Load(EXECUTED), Ok(4)),
            Step::Ask(Query::Report, Ok(FINDS_CLOSED)),
            Step::Ask(Query::Range(4, 4), Ok(FINDS_CLOSED)),
            Step::Change(Make(Delete { position: 3 }), Ok(3)),
            Step::Ask(Query::Report, Ok(FINDS_NONE)),
        ],
    },
    Case {
        name: "a report in profile 1 is under the usual start, or under another that is asked for",
        limit: 1,
        profile: Some(Profile::One),
        start: b"",
        steps: &[
            Step::Change(By(WRITE), Ok(1)),
            Step::Ask(Query::ReportFrom(READING), Ok(FINDS_WRITE)),
            Step::Ask(Query::Report, Ok(FINDS_NONE)),
        ],
    },
    Case {
        name: "a report in profile 2 is under the start of the session, or under another that is asked for",
        limit: 1,
        profile: Some(Profile::Two),
        start: READING,
        steps: &[
            Step::Change(By(WRITE), Ok(1)),
            Step::Ask(Query::ReportFrom(b""), Ok(FINDS_NONE)),
            Step::Ask(Query::Report, Ok(FINDS_WRITE)),
        ],
    },
    Case {
        name: "what went and what came, and a part of a report, are under the start of the session",
        limit: 10,
        profile: Some(Profile::One),
        start: READING,
        steps: &[
            Step::Change(By(WRITE), Ok(1)),
            Step::Ask(
                Query::Changes,
                Ok("all\n+ 1 100 write missing 0 CAP_WRITE\nfindings 1\n"),
            ),
            Step::Change(By(OTHER), Ok(2)),
            Step::Ask(Query::Range(1, 1), Ok(FINDS_NONE)),
            Step::Ask(
                Query::Range(2, 2),
                Ok("2 100 write missing 0 CAP_WRITE\nfindings 1\n"),
            ),
            Step::Change(
                By(Insert {
                    position: 2,
                    line: b"100 close(0) RET 0",
                }),
                Ok(3),
            ),
            Step::Ask(
                Query::Changes,
                Ok("- 1 100 write missing 0 CAP_WRITE\n+ 3 100 write closed 0\nfindings 1\n"),
            ),
            Step::Apply(&[Delete { position: 2 }], &[Ok(2)]),
            Step::ReportAfter(
                &[Delete { position: 1 }],
                &[Ok(1)],
                "1 100 write missing 0 CAP_WRITE\nfindings 1\n",
            ),
        ],
    },
    Case {
        name: "what went and what came since the last report",
        limit: 10,
        profile: None,
        start: b"",
        steps: &[
            Step::Change(Load(SOUGHT), Ok(3)),
            Step::Ask(
                Query::Changes,
                Ok("all\n+ 3 100 pwrite missing 0 CAP_WRITE|CAP_SEEK\nfindings 1\n"),
            ),
            Step::Ask(Query::Changes, Ok("findings 1\n")),
            Step::Change(By(OTHER), Ok(4)),
            Step::Ask(Query::Changes, Ok("findings 1\n")),
            Step::Change(
                By(Replace {
                    position: 3,
                    line: b"100 cap_rights_limit(0,CAP_WRITE) RET 0",
                }),
                Ok(4),
            ),
            Step::Ask(
                Query::Changes,
                Ok(
                    "- 4 100 pwrite missing 0 CAP_WRITE|CAP_SEEK\n+ 4 100 pwrite missing 0 CAP_SEEK\nfindings 1\n",
                ),
            ),
            Step::Change(
                By(Replace {
                    position: 4,
                    line: b"100 pwrite(0) RET 5",
                }),
                Ok(4),
            ),
            Step::Ask(
                Query::Changes,
                Ok(
                    "- 4 100 pwrite missing 0 CAP_SEEK\n+ 4 100 pwrite missing 0 CAP_SEEK\nfindings 1\n",
                ),
            ),
            Step::Change(
                By(Replace {
                    position: 4,
                    line: b"100 write(0) RET 1",
                }),
                Ok(4),
            ),
            Step::Change(
                By(Replace {
                    position: 9,
                    line: b"100 write(0) RET 1",
                }),
                Err(Refused::Position),
            ),
            Step::Change(
                By(Replace {
                    position: 4,
                    line: b"100 pwrite(0) RET 5",
                }),
                Ok(4),
            ),
            Step::Ask(
                Query::Changes,
                Ok(
                    "- 4 100 pwrite missing 0 CAP_SEEK\n+ 4 100 pwrite missing 0 CAP_SEEK\nfindings 1\n",
                ),
            ),
            Step::Change(By(Delete { position: 4 }), Ok(3)),
            Step::Ask(
                Query::Changes,
                Ok("- 4 100 pwrite missing 0 CAP_SEEK\nfindings 0\n"),
            ),
            Step::Change(
                By(Insert {
                    position: 4,
                    line: b"100 pwrite(0) RET 5",
                }),
                Ok(4),
            ),
            Step::Ask(
                Query::Changes,
                Ok("+ 4 100 pwrite missing 0 CAP_SEEK\nfindings 1\n"),
            ),
            Step::Change(By(Delete { position: 4 }), Ok(3)),
            Step::Change(
                By(Insert {
                    position: 4,
                    line: b"100 pwrite(0) RET 5",
                }),
                Ok(4),
            ),
            Step::Ask(
                Query::Changes,
                Ok(
                    "- 4 100 pwrite missing 0 CAP_SEEK\n+ 4 100 pwrite missing 0 CAP_SEEK\nfindings 1\n",
                ),
            ),
        ],
    },
    Case {
        name: "other reports leave the last one alone, and a load forgets it",
        limit: 10,
        profile: None,
        start: b"",
        steps: &[
            Step::Change(Load(SOUGHT), Ok(3)),
            Step::Ask(Query::Report, Ok(LACKS_TWO)),
            Step::Change(By(OTHER), Ok(4)),
            Step::Ask(
                Query::Range(1, 4),
                Ok("4 100 pwrite missing 0 CAP_WRITE|CAP_SEEK\nfindings 1\n"),
            ),
            Step::Ask(
                Query::ReportFrom(READING),
                Ok("4 100 pwrite missing 0 CAP_WRITE|CAP_SEEK\nfindings 1\n"),
            ),
            Step::Ask(Query::Changes, Ok("findings 1\n")),
            Step::Change(Load(LIMITED), Ok(3)),
            Step::Ask(
                Query::Changes,
                Ok("all\n+ 3 100 write missing 0 CAP_WRITE\nfindings 1\n"),
            ),
        ],
    },
    Case {
        name: "runs that meet again",
        limit: 10,
        profile: None,
        start: b"",
        steps: &[
            Step::Change(Load(EXPANDED), Ok(4)),
            Step::Ask(Query::Report, Ok(FINDS_TWO)),
            Step::Change(
                By(Insert {
                    position: 3,
                    line: b"200 @start(0)",
                }),
                Ok(5),
            ),
            Step::Change(
                By(Insert {
                    position: 2,
                    line: b"200 @start(0)",
                }),
                Ok(6),
            ),
            Step::Change(By(Delete { position: 4 }), Ok(5)),
            Step::Ask(Query::Changes, Ok("findings 2\n")),
            Step::Change(By(Delete { position: 2 }), Ok(4)),
            Step::Change(
                By(Replace {
                    position: 1,
                    line: b"100 @start(0,3)",
                }),
                Ok(4),
            ),
            Step::Change(By(Delete { position: 3 }), Ok(3)),
            Step::Ask(
                Query::Changes,
                Ok("- 4 100 cap_rights_limit expanded 0 CAP_WRITE\nfindings 1\n"),
            ),
        ],
    },
];

#[test]
fn sessions_answer_step_by_step(rt: HostRuntime) -> Result<(), Fail> {
    for case in &CASES {
        holds(rt.alloc(), case)?;
    }
    Ok(())
}
