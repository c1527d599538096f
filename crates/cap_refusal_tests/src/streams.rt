//! Traces, starts and scripts that come piece by piece.

ghost use Rattle.std.specs.Prelude.{◌≡◌};

use crate::marks::{Mark, lacked, right};
use cap_machine::Profile;
use cap_session::ExplainOutcome::{self, Ended};
use cap_session::{
    Failed, Outcome, Source, check_stream, check_stream_as, check_stream_from,
    check_stream_from_as, denials_stream, edit_stream, edit_stream_as, edit_stream_from_as,
    explain_stream, limits_stream,
};
use cap_session_tests::devices::{Kept, Pieces};
use std::alloc::Global;
use std::test::Fail;

const TRACE: &[u8] =
    b"100 @start(0,3)\n100 cap_rights_limit(3,CAP_READ) RET 0\n100 fork() RET 101\n100 close(3) RET 0\n101 write(3) RET 1\n";

const REPORT: &[u8] = b"5 101 write missing 3 CAP_WRITE\nfindings 1\n";

/// A line that lacks a right, one in capability mode, and one that nothing explains.
const DENIED: &[u8] =
    b"100 write(3) RET -1 errno 93\n100 cap_enter() RET 0\n100 fork() RET 101\n101 open(\"a\",O_RDONLY) RET -1 errno 94\n101 read(3) RET -1 errno 93\n";

const DENIALS: &[u8] =
    b"1 100 write lacks 3 CAP_WRITE\n4 101 open inside\n5 101 read unexplained\ndenials 3\n";

/// A pipe that a child reads, and a file that it opens.
const LIMITED: &[u8] = b"100 pipe() RET 3,4\n\
100 fork() RET 101\n\
101 read(3) RET 1\n\
100 write(4) RET 1\n\
100 fsync(70) RET 0\n\
101 open(\"a\",O_RDONLY) RET 5\n";

const MAKER_LIMITS: &[u8] = b"insert 7 101 cap_rights_limit(5,NONE) RET 0\n\
insert 2 100 cap_rights_limit(4,CAP_WRITE) RET 0\n\
insert 2 100 cap_rights_limit(3,CAP_READ) RET 0\n";

/// Before the fork.
const LIMITS_BEFORE: &[u8] = b"# process 100 before line 2\n\
insert 2 100 cap_rights_limit(3,CAP_READ) RET 0\n\
insert 3 100 cap_rights_limit(4,CAP_WRITE) RET 0\n\
insert 4 100 cap_rights_limit(70,CAP_FSYNC) RET 0\n\
# no cap_enter: line 6, open of process 101\n";

const START: &[u8] = b"100 out closed 3=CAP_READ 70=ALL\n";

const SCRIPT: &[u8] = b"delete 2\nreport\n";

/// What may be written to the script: with memory for all, and where it runs out for the one command or the other.
static REPLIES: [(Outcome, &[u8]); 3] = [
    (Outcome::Clean, b"ok 4\nfindings 0\n"),
    (
        Outcome::Findings,
        b"refused E9\n5 101 write missing 3 CAP_WRITE\nfindings 1\n",
    ),
    (Outcome::Clean, b"ok 4\nrefused E9\n"),
];

/// A script that asks, and changes nothing.
const ASKS: &[u8] = b"explain 5\ndenials\nlimits\n";

/// What may be written to it.
static ANSWERS: [(Outcome, &[u8]); 4] = [
    (
        Outcome::Findings,
        b"5 101 write(3) RET 1\nmissing 3 CAP_WRITE\n3 3 100 fork() RET 101\n3 2 100 cap_rights_limit(3,CAP_READ) RET 0\n3 1 100 @start(0,3)\nexplained 3\ndenials 0\nlimits 0\n",
    ),
    (Outcome::Findings, b"refused E9\ndenials 0\nlimits 0\n"),
    (
        Outcome::Findings,
        b"5 101 write(3) RET 1\nmissing 3 CAP_WRITE\n3 3 100 fork() RET 101\n3 2 100 cap_rights_limit(3,CAP_READ) RET 0\n3 1 100 @start(0,3)\nexplained 3\nrefused E9\nlimits 0\n",
    ),
    (
        Outcome::Findings,
        b"5 101 write(3) RET 1\nmissing 3 CAP_WRITE\n3 3 100 fork() RET 101\n3 2 100 cap_rights_limit(3,CAP_READ) RET 0\n3 1 100 @start(0,3)\nexplained 3\ndenials 0\nrefused E9\n",
    ),
];

/// What the last line of the trace rests on.
const EXPLAINED: &[u8] =
    b"5 101 write(3) RET 1\nmissing 3 CAP_WRITE\n3 3 100 fork() RET 101\n3 2 100 cap_rights_limit(3,CAP_READ) RET 0\n3 1 100 @start(0,3)\n";

/// A call of a stream. The last explains the last line of the trace.
#[derive(Clone, Copy)]
enum Call {
    Check,
    CheckAs,
    CheckFrom,
    CheckFromAs,
    Edit,
    EditAs,
    EditFrom,
    EditAsking,
    Denials,
    Limits,
    LimitsBefore,
    Explain,
}

/// Makes a call with a trace, a start, a script and a writer: its outcome.
fn made(
    alloc: Global,
    call: Call,
    trace: &mut Pieces<'_>,
    start: &mut Pieces<'_>,
    script: &mut Pieces<'_>,
    kept: &mut Kept,
) -> ExplainOutcome
    requires unread { trace.old.calls ≡ 0 }
    requires start_unread { start.old.calls ≡ 0 }
    requires script_unread { script.old.calls ≡ 0 }
    requires unwritten { kept.old.faults ≡ 0 }
{
    let two = Profile::Two;
    let outcome = match call {
        Call::Check => check_stream(alloc, 4096, trace, kept),
        Call::CheckAs => check_stream_as(alloc, two, 4096, trace, kept),
        Call::CheckFrom => check_stream_from(alloc, 4096, start, trace, kept),
        Call::CheckFromAs => check_stream_from_as(alloc, two, 4096, start, trace, kept),
        Call::Edit => edit_stream(alloc, 4096, trace, script, kept),
        Call::EditAs | Call::EditAsking => { edit_stream_as(alloc, two, 4096, trace, script, kept) }
        Call::EditFrom => edit_stream_from_as(alloc, two, 4096, start, trace, script, kept),
        Call::Denials => denials_stream(alloc, two, 4096, start, trace, kept),
        Call::Limits => return limits_stream(alloc, two, 4096, None, start, trace, kept),
        Call::LimitsBefore => return limits_stream(alloc, two, 4096, Some(2), start, trace, kept),
        Call::Explain => return explain_stream(alloc, two, 4096, 5, start, trace, kept),
    };
    Ended(outcome)
}

/// The trace of a call.
fn trace_of(call: Call) -> &'static [u8] {
    match call {
        Call::Denials => DENIED,
        Call::Limits | Call::LimitsBefore => LIMITED,
        _ => TRACE,
    }
}

/// The script of a call.
fn script_of(call: Call) -> &'static [u8] {
    match call {
        Call::EditAsking => ASKS,
        _ => SCRIPT,
    }
}

/// What may be written to the script of a call, first with memory for all.
fn replies_of(call: Call) -> &'static [(Outcome, &'static [u8])] {
    match call {
        Call::EditAsking => &ANSWERS,
        _ => &REPLIES,
    }
}

/// The outcome of a call, and what it wrote.
fn streamed(alloc: Global, call: Call) -> (ExplainOutcome, Kept) {
    let mut trace = Pieces::new(trace_of(call), 64, 0);
    let mut start = Pieces::new(START, 64, 0);
    let mut script = Pieces::new(script_of(call), 64, 0);
    let mut kept = Kept::new(64, 256);
    let outcome = made(alloc, call, &mut trace, &mut start, &mut script, &mut kept);
    (outcome, kept)
}

/// Whether a call has this outcome and writes this.
fn gives(alloc: Global, call: Call, outcome: Outcome, text: &[u8]) -> bool {
    let (ended, kept) = streamed(alloc, call);
    ended == Ended(outcome) && kept.text() == text
}

/// Whether a call has this outcome and writes this, or a second one where the first lacks memory and wrote nothing.
fn answers(alloc: Global, call: Call, outcome: Outcome, text: &[u8]) -> bool {
    Mark::Begin.set(alloc);
    let (ended, kept) = streamed(alloc, call);
    if lacked(alloc, ended == Ended(Outcome::Memory)) {
        return kept.text().is_empty() && gives(alloc, call, outcome, text);
    }
    ended == Ended(outcome) && kept.text() == text
}

/// Fails a test where these calls don't.
fn all_find(alloc: Global, calls: &[Call], text: &[u8], words: &str) -> Result<(), Fail> {
    for call in calls {
        let is_right = answers(alloc, *call, Outcome::Findings, text);
        right(alloc, is_right, words)?;
    }
    Ok(())
}

static CHECKS: [Call; 4] = [
    Call::Check,
    Call::CheckAs,
    Call::CheckFrom,
    Call::CheckFromAs,
];

#[test]
fn check_streams_refused(rt: HostRuntime) -> Result<(), Fail> {
    all_find(rt.alloc(), &CHECKS, REPORT, "a stream is checked")
}

#[test]
fn denials_stream_refused(rt: HostRuntime) -> Result<(), Fail> {
    all_find(rt.alloc(), &[Call::Denials], DENIALS, "denials are written")
}

#[test]
fn limits_streams_refused(rt: HostRuntime) -> Result<(), Fail> {
    for (call, text) in [
        (Call::Limits, MAKER_LIMITS),
        (Call::LimitsBefore, LIMITS_BEFORE),
    ] {
        let is_right = answers(rt.alloc(), call, Outcome::Clean, text);
        right(rt.alloc(), is_right, "limits are written")?;
    }
    Ok(())
}

#[test]
fn explain_stream_refused(rt: HostRuntime) -> Result<(), Fail> {
    all_find(
        rt.alloc(),
        &[Call::Explain],
        EXPLAINED,
        "a line is explained",
    )
}

/// Whether this may be replied where memory runs out: one of the replies, or nothing after one of them.
fn may_be_replied(call: Call, ended: ExplainOutcome, written: &[u8]) -> bool {
    for (outcome, text) in replies_of(call) {
        if *text == written && (ended == Ended(*outcome) || ended == Ended(Outcome::Memory)) {
            return true;
        }
    }
    ended == Ended(Outcome::Memory) && written.is_empty()
}

/// Whether the first call of a script answers what is right, or what it may where memory runs out, and the second what is
/// right.
fn replies(alloc: Global, call: Call) -> bool {
    Mark::Begin.set(alloc);
    let (outcome, kept) = streamed(alloc, call);
    let Some(right) = replies_of(call).first() else {
        return false;
    };
    let is_first = outcome == Ended(right.0) && kept.text() == right.1;
    let may_be = !lacked(alloc, !is_first) || may_be_replied(call, outcome, kept.text());
    may_be && gives(alloc, call, right.0, right.1)
}

static EDITS: [Call; 4] = [Call::Edit, Call::EditAs, Call::EditFrom, Call::EditAsking];

#[test]
fn edit_streams_refused(rt: HostRuntime) -> Result<(), Fail> {
    for call in &EDITS {
        right(
            rt.alloc(),
            replies(rt.alloc(), *call),
            "a script is answered",
        )?;
    }
    Ok(())
}

/// A script that comes a line at a time, with marks around what is done about its first line.
#[derive(Drop)]
struct Marked<S> {
    script: S,
    reads: u32,
    alloc: Global,
}

impl<S: Source> Source for Marked<S> {
    ghost state = { λ s. S.state s.script };

    fn read(&mut self, buffer: &mut [u8]) -> Result<usize, Failed> {
        if self.reads == 1 {
            Mark::End.set(self.alloc);
        }
        let result = self.script.read(buffer);
        if self.reads == 0 {
            Mark::Begin.set(self.alloc);
        }
        self.reads = self.reads.saturating_add(1);
        result
    }

    fn room(&self) -> u64 {
        self.script.room()
    }
}

/// Whether a script with marks inside is answered rightly, or as where its first command lacks memory.
fn deletes(alloc: Global) -> bool {
    let mut trace = Pieces::new(TRACE, 64, 0);
    let mut script = Marked {
        script: Pieces::new(SCRIPT, 9, 0),
        reads: 0,
        alloc,
    };
    let mut kept = Kept::new(64, 256);
    let profile = Profile::Two;
    let outcome = edit_stream_as(alloc, profile, 4096, &mut trace, &mut script, &mut kept);
    if outcome == Outcome::Clean {
        return kept.text() == REPLIES[0].1;
    }
    Mark::Lacked.set(alloc);
    outcome == REPLIES[1].0 && kept.text() == REPLIES[1].1
}

/// Each allocation inside `delete 2` is refused in turn. Where the command can't do without it, it is answered so, and
/// the trace is reported as it was.
#[test]
fn delete_in_a_script_refused(rt: HostRuntime) -> Result<(), Fail> {
    right(rt.alloc(), deletes(rt.alloc()), "a line is deleted")
}
