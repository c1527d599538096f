//! Edits of a session, and what it shows.

use crate::calls::{Call, is_answered};
use crate::machine::{Before, TRACE, lines_of, start_of};
use crate::marks::{Mark, lacked, right};
use cap_machine::{NoMemory, Profile};
use cap_session::{Edit, EditOutcome, Refused, Session, Setting};
use std::alloc::Global;
use std::test::Fail;

/// The report of the trace in profile 2.
pub const REPORT: &str = "5 100 write missing 3 CAP_WRITE\n8 101 read closed 3\nfindings 2\n";

/// What is found with another line in place of the limit.
const UNLIMITED: &str = "8 101 read closed 3\nfindings 1\n";

/// What is found without a line in place of the limit.
const SHORTER: &str = "7 101 read closed 3\nfindings 1\n";

/// A session in profile 2 of the trace.
pub fn session_of(alloc: Global) -> Result<Session, Fail> {
    session_with(alloc, &TRACE)
}

/// A session in profile 2 of some lines, from the usual start.
pub fn session_with(alloc: Global, lines: &[&str]) -> Result<Session, Fail> {
    session_from(alloc, Before::Usual, lines)
}

/// A session in profile 2 of some lines, from a start.
pub fn session_from(alloc: Global, before: Before, lines: &[&str]) -> Result<Session, Fail> {
    let lines = lines_of(alloc, lines)?;
    let start = start_of(alloc, before)?;
    let profile = Profile::Two;
    let mut session = Session::with_setting(alloc, 100, Setting { profile, start })?;
    match session.load(lines) {
        Ok(_) => Ok(session),
        Err(refused) => {
            drop(session);
            Err(refused)?
        }
    }
}

/// Does this with a session of the trace.
fn with_session<F: FnOnce(Global, &mut Session) -> Result<(), Fail>>(
    alloc: Global,
    act: F,
) -> Result<(), Fail>
    requires { F.IsAlwaysCallable act }
{
    let mut session = session_of(alloc)?;
    let result = act(alloc, &mut session);
    drop(session);
    result
}

/// Whether a session has so many lines and this report, and memory for it.
pub fn is_at(session: &mut Session, count: usize, report: &str) -> bool {
    match &session.report() {
        Ok(text) => text.as_slice() == report.as_bytes() && session.count() == count,
        Err(_) => false,
    }
}

#[test]
fn session_new_refused(rt: HostRuntime) -> Result<(), Fail> {
    Mark::Begin.set(rt.alloc());
    let first = Session::new(rt.alloc(), 100);
    let session = if lacked(rt.alloc(), first.is_err()) {
        Session::new(rt.alloc(), 100)
    } else {
        first
    };
    let is_new = match session {
        Ok(mut session) => {
            let is_new = is_at(&mut session, 0, "findings 0\n");
            drop(session);
            is_new
        }
        Err(_) => false,
    };
    right(rt.alloc(), is_new, "a new session has no line")
}

/// Loads a part of the trace, in a second call where the first lacks memory. The session was left, and then has these lines.
fn load_part(alloc: Global, session: &mut Session) -> Result<(), Fail> {
    let lines = lines_of(alloc, &TRACE[..3])?;
    Mark::Begin.set(alloc);
    let first = session.load(lines);
    let mut is_left = true;
    if lacked(alloc, first.is_err()) {
        is_left = first == Err(Refused::Memory) && is_at(session, 8, REPORT);
        session.load(lines_of(alloc, &TRACE[..3])?)?;
    }
    let is_right = is_left && is_at(session, 3, "findings 0\n");
    right(alloc, is_right, "a part is loaded")
}

#[test]
fn load_refused(rt: HostRuntime) -> Result<(), Fail> {
    with_session(rt.alloc(), load_part)
}

/// Edits that take the limit out, and put it in again in three ways.
static EDITS: [(Edit<'static>, &str); 6] = [
    (Edit::Delete { position: 2 }, SHORTER),
    (
        Edit::Insert {
            position: 2,
            line: b"100 cap_rights_limit(3,CAP_READ) RET 0",
        },
        REPORT,
    ),
    (
        Edit::Replace {
            position: 2,
            line: b"100 cap_rights_limit(3,ALL) RET 0",
        },
        UNLIMITED,
    ),
    (
        Edit::Replace {
            position: 2,
            line: b"100 openat(AT_FDCWD,\"a\\\"b\",O_RDONLY) RET 4",
        },
        UNLIMITED,
    ),
    (Edit::Delete { position: 2 }, SHORTER),
    (
        Edit::Insert {
            position: 2,
            line: b"100 cap_rights_limit(3,CAP_READ|CAP_SEEK) RET 0",
        },
        REPORT,
    ),
];

/// The length of the trace after an edit.
fn length_after(count: usize, edit: &Edit<'_>) -> usize {
    match edit {
        Edit::Insert { .. } => count.saturating_add(1),
        Edit::Delete { .. } => count.saturating_sub(1),
        Edit::Replace { .. } => count,
    }
}

/// Edits a session, in a second call where the first lacks memory. Whether a refused call left the report and the length, and
/// the session then has what is right.
fn edits(
    alloc: Global,
    session: &mut Session,
    change: &Edit<'_>,
    before: &str,
    after: &str,
) -> Result<bool, Refused> {
    let count = session.count();
    Mark::Begin.set(alloc);
    let first = session.edit(change);
    let mut is_left = true;
    if lacked(alloc, first.is_err()) {
        is_left = first == Err(Refused::Memory) && is_at(session, count, before);
        session.edit(change)?;
    }
    Ok(is_left && is_at(session, length_after(count, change), after))
}

/// Makes each edit.
fn edit_all(alloc: Global, session: &mut Session) -> Result<(), Fail> {
    let mut report = REPORT;
    for (change, after) in &EDITS {
        right(alloc, edits(alloc, session, change, report, after)?, after)?;
        report = *after;
    }
    Ok(())
}

#[test]
fn edits_refused(rt: HostRuntime) -> Result<(), Fail> {
    with_session(rt.alloc(), edit_all)
}

/// An edit that is refused for its position, and one that takes the limit out.
static TWO: [Edit<'static>; 2] = [Edit::Delete { position: 9 }, Edit::Delete { position: 2 }];

/// What came of the edit that takes the limit out.
#[derive(Clone, Copy)]
enum Came {
    EditOutcome,
    NotEdited,
    Lacked,
    Wrong,
}

/// What came of the two edits. The first is refused for its position.
fn came_of(answers: Result<Vec<Result<usize, Refused>>, Refused>) -> Came {
    match answers {
        Ok(answers) => match answers.as_slice() {
            [Err(Refused::Position), Err(Refused::Memory)] => Came::Lacked,
            [Err(Refused::Position), Ok(_)] => Came::EditOutcome,
            _ => Came::Wrong,
        },
        Err(Refused::Memory) => Came::Lacked,
        Err(_) => Came::Wrong,
    }
}

/// Makes the two edits, in a second call where the first lacks memory: the session was left, and then has the second.
fn apply_two(alloc: Global, session: &mut Session) -> Result<(), Fail> {
    Mark::Begin.set(alloc);
    let came = came_of(session.apply(&TWO));
    let mut is_right = matches!(came, Came::EditOutcome);
    if lacked(alloc, matches!(came, Came::Lacked)) {
        is_right = is_at(session, 8, REPORT);
        drop(session.apply(&TWO)?);
    }
    is_right = is_right && is_at(session, 7, SHORTER);
    right(alloc, is_right, "two edits are made")
}

#[test]
fn apply_refused(rt: HostRuntime) -> Result<(), Fail> {
    with_session(rt.alloc(), apply_two)
}

/// What came of the edit, by the report after it.
fn came_of_report(edited: Result<EditOutcome, Refused>) -> Came {
    let report = match edited {
        Ok(edited) => edited.report,
        Err(refused) => Err(refused),
    };
    match &report {
        Ok(text) if text.as_slice() == SHORTER.as_bytes() => Came::EditOutcome,
        Ok(text) if text.as_slice() == REPORT.as_bytes() => Came::NotEdited,
        Err(Refused::Memory) => Came::Lacked,
        _ => Came::Wrong,
    }
}

/// Whether that fits the session after it.
fn fits(came: Came, count: usize) -> bool {
    match came {
        Came::EditOutcome => count == 7,
        Came::NotEdited => count == 8,
        Came::Lacked => count == 7 || count == 8,
        Came::Wrong => false,
    }
}

/// Makes the edit, in a second call where the first didn't: each call was right, and the session then has it.
fn report_one(alloc: Global, session: &mut Session) -> Result<(), Fail> {
    Mark::Begin.set(alloc);
    let came = came_of_report(session.report_after(&TWO[1..]));
    let is_lacking = lacked(alloc, !matches!(came, Came::EditOutcome));
    let mut is_right = fits(came, session.count());
    if is_lacking && session.count() != 7 {
        let is_left = is_at(session, 8, REPORT);
        let again = came_of_report(session.report_after(&TWO[1..]));
        is_right = is_right && is_left && matches!(again, Came::EditOutcome);
    }
    is_right = is_right && is_at(session, 7, SHORTER);
    right(alloc, is_right, "an edit is reported on")
}

#[test]
fn report_after_refused(rt: HostRuntime) -> Result<(), Fail> {
    with_session(rt.alloc(), report_one)
}

/// Whether this is answered.
fn is_text(given: &Result<Vec<u8>, Refused>, text: &str) -> bool {
    match given {
        Ok(given) => given.as_slice() == text.as_bytes(),
        Err(_) => false,
    }
}

/// Asks for the report, in a second call where the first lacks memory. Where there is none to keep it, it is given.
fn report_all(alloc: Global, session: &mut Session) -> Result<(), Fail> {
    Mark::Begin.set(alloc);
    let mut given = session.report();
    if lacked(alloc, given.is_err()) {
        given = session.report();
    }
    right(alloc, is_text(&given, REPORT), "the trace is reported")
}

#[test]
fn report_refused(rt: HostRuntime) -> Result<(), Fail> {
    with_session(rt.alloc(), report_all)
}

/// What changes where the limit is taken out. The other finding moves.
const CHANGES: &str = "- 5 100 write missing 3 CAP_WRITE\nfindings 1\n";

/// Asks what changed, in a second call where the first lacks memory. A report is kept before, unless there is no memory for
/// that.
fn change_one(alloc: Global, session: &mut Session) -> Result<(), Fail> {
    let is_kept = is_at(session, 8, REPORT);
    session.delete(2)?;
    Mark::Begin.set(alloc);
    let mut given = session.changes();
    if lacked(alloc, given.is_err()) {
        given = session.changes();
    }
    right(
        alloc,
        is_kept && is_text(&given, CHANGES),
        "what changed is told",
    )
}

#[test]
fn changes_refused(rt: HostRuntime) -> Result<(), Fail> {
    with_session(rt.alloc(), change_one)
}

/// What is asked of a session.
pub enum Query {
    Range(usize, usize),
    Show(usize),
    /// What a line with findings rests on.
    Explain(usize),
    /// The limits, after the lines that made descriptors or before a line.
    Limits(Option<usize>),
}

/// What a session answers. No line that it explains is clean.
fn asked(session: &Session, query: &Query) -> Result<Vec<u8>, Refused> {
    match query {
        Query::Range(first, last) => session.report_range(*first, *last),
        Query::Show(position) => session.show(*position),
        Query::Explain(position) => match session.explain(*position)? {
            line if line.is_clean => Err(Refused::Position),
            line => Ok(line.text),
        },
        Query::Limits(at) => session.limits(*at),
    }
}

/// Asks that: whether this is the answer.
pub fn answers_query(session: &Session, query: &Query, text: &str) -> Result<bool, NoMemory> {
    match &asked(session, query) {
        Ok(answer) => Ok(answer.as_slice() == text.as_bytes()),
        Err(Refused::Memory) => Err(NoMemory),
        Err(_) => Ok(false),
    }
}

/// Asks each of those: this is the answer, and the session is as it was, with this report.
fn ask_all(
    alloc: Global,
    session: &mut Session,
    report: &str,
    queries: &[(Query, &'static str)],
) -> Result<(), Fail> {
    let count = session.count();
    for (query, text) in queries {
        let is_right = is_answered(alloc, &Call::Ask(session, query, text));
        right(alloc, is_right && is_at(session, count, report), text)?;
    }
    Ok(())
}

/// Asks a session of a trace with this report each of those.
pub fn ask_each(
    alloc: Global,
    trace: &[&str],
    report: &str,
    queries: &[(Query, &'static str)],
) -> Result<(), Fail> {
    let mut session = session_with(alloc, trace)?;
    let result = ask_all(alloc, &mut session, report, queries);
    drop(session);
    result
}

/// Each line of the trace.
static SHOWN: [(Query, &str); 8] = [
    (Query::Show(1), "100 @start(0,3)"),
    (Query::Show(2), "100 cap_rights_limit(3,CAP_READ) RET 0"),
    (Query::Show(3), "100 fork() RET 101"),
    (Query::Show(4), "101 close(0) RET 0"),
    (Query::Show(5), "100 write(3) RET 1"),
    (Query::Show(6), "101 execve(\"/bin/x\") RET 0"),
    (Query::Show(7), "101 closefrom(1) RET 0"),
    (Query::Show(8), "101 read(3) RET 1"),
];

#[test]
fn show_refused(rt: HostRuntime) -> Result<(), Fail> {
    ask_each(rt.alloc(), &TRACE, REPORT, &SHOWN)
}

/// Lines of the trace, and what they rest on.
static EXPLAINED: [(Query, &str); 2] = [
    (
        Query::Explain(5),
        "5 100 write(3) RET 1\nmissing 3 CAP_WRITE\n3 2 100 cap_rights_limit(3,CAP_READ) RET 0\n3 1 100 @start(0,3)\n",
    ),
    (
        Query::Explain(8),
        "8 101 read(3) RET 1\nclosed 3\n3 7 101 closefrom(1) RET 0\n",
    ),
];

#[test]
fn explain_refused(rt: HostRuntime) -> Result<(), Fail> {
    ask_each(rt.alloc(), &TRACE, REPORT, &EXPLAINED)
}
