//! What the calls answer over readers and writers: how they end, what they write, and how often they read.

ghost use Rattle.std.specs.Prelude.{◌≡◌};

use crate::devices::{Kept, Pieces};
use cap_machine::Profile;
use cap_session::{
    ExplainOutcome, check_stream, check_stream_as, check_stream_from, check_stream_from_as,
    denials_stream, edit_stream, edit_stream_as, edit_stream_from_as, explain_stream,
    limits_stream,
};
use std::alloc::Global;
use std::test::Fail;

/// Fails a test with these words where it isn't so.
pub fn wanted(is_so: bool, words: &str) -> Result<(), Fail> {
    if is_so { Ok(()) } else { Err(Fail::new(words)) }
}

/// A call over devices. Those that explain a line have its position, and so may those that write limits. An edit from a
/// start has its text.
#[derive(Clone, Copy)]
pub enum Call {
    Check,
    CheckAs(Profile),
    CheckFrom,
    CheckFromAs(Profile),
    Denials(Profile),
    Edit,
    EditAs(Profile),
    EditFrom(Profile, &'static [u8]),
    Explain(Profile, usize),
    Limits(Profile, Option<usize>),
}

/// The bytes of a reader, how many come with a read, and the read that fails, counted from 1: 0 where none does.
pub type Text<'a> = (&'a [u8], usize, u64);

/// A call over devices, and how it is to end.
#[derive(Clone, Copy)]
pub struct Run<'a> {
    pub call: Call,
    /// How many reads may be made of each text.
    pub turns: u64,
    pub trace: Text<'a>,
    /// The start or the script, where the call has one.
    pub other: Text<'a>,
    /// How many bytes the writer takes at once, and in all.
    pub room: (usize, usize),
    pub outcome: ExplainOutcome,
    pub written: &'static str,
    /// How many reads are made of the trace, where that is tested.
    pub reads: Option<u64>,
    /// How many are made of the start or the script, where that is tested.
    pub other_reads: Option<u64>,
}

impl<'a> Run<'a> {
    /// This run with so many bytes at once, and no device that fails.
    pub fn by(&self, size: usize) -> Run<'a> {
        Run {
            trace: (self.trace.0, size, 0),
            other: (self.other.0, size, 0),
            room: (size, 512),
            ..*self
        }
    }

    /// Fails a test where a call ended otherwise, or read otherwise.
    fn judge(
        &self,
        ended: ExplainOutcome,
        text: &[u8],
        reads: u64,
        other_reads: u64,
    ) -> Result<(), Fail> {
        wanted(
            ended == self.outcome
                && text == self.written.as_bytes()
                && self.reads.unwrap_or(reads) == reads
                && self.other_reads.unwrap_or(other_reads) == other_reads,
            self.written,
        )
    }
}

/// Makes the call of a run: how it ends.
fn made(
    alloc: Global,
    run: &Run<'_>,
    trace: &mut Pieces<'_>,
    other: &mut Pieces<'_>,
    writer: &mut Kept,
) -> ExplainOutcome
    requires unread { trace.old.calls ≡ 0 }
    requires other_unread { other.old.calls ≡ 0 }
    requires unwritten { writer.old.faults ≡ 0 }
{
    let turns = run.turns.min(4096);
    let outcome = match run.call {
        Call::Check => check_stream(alloc, turns, trace, writer),
        Call::CheckAs(profile) => check_stream_as(alloc, profile, turns, trace, writer),
        Call::CheckFrom => check_stream_from(alloc, turns, other, trace, writer),
        Call::CheckFromAs(profile) => {
            check_stream_from_as(alloc, profile, turns, other, trace, writer)
        }
        Call::Denials(profile) => denials_stream(alloc, profile, turns, other, trace, writer),
        Call::Edit => edit_stream(alloc, turns, trace, other, writer),
        Call::EditAs(profile) => edit_stream_as(alloc, profile, turns, trace, other, writer),
        Call::EditFrom(profile, start) => {
            let mut start = Pieces::new(start, 9, 0);
            edit_stream_from_as(alloc, profile, turns, &mut start, trace, other, writer)
        }
        Call::Explain(profile, at) => {
            return explain_stream(alloc, profile, turns, at, other, trace, writer);
        }
        Call::Limits(profile, at) => {
            return limits_stream(alloc, profile, turns, at, other, trace, writer);
        }
    };
    ExplainOutcome::Ended(outcome)
}

/// Fails a test where a run doesn't end as it should.
pub fn ends(alloc: Global, run: &Run<'_>) -> Result<(), Fail> {
    let mut trace = Pieces::new(run.trace.0, run.trace.1.max(1), run.trace.2);
    let mut other = Pieces::new(run.other.0, run.other.1.max(1), run.other.2);
    let mut writer = Kept::new(run.room.0, run.room.1);
    let ended = made(alloc, run, &mut trace, &mut other, &mut writer);
    run.judge(ended, writer.text(), trace.calls, other.calls)
}

/// How many bytes come with a read, and are taken by a write.
static SIZES: [usize; 11] = [1, 2, 3, 7, 9, 17, 64, 100, 500, 1_024, 65_536];

/// A call, the trace, and the start or the script where it has one; how it ends, and what it writes.
pub type Worked<'a> = (Call, &'a [u8], &'a [u8], ExplainOutcome, &'static str);

/// Fails a test where a text isn't answered so in pieces of each size.
pub fn is_answered(alloc: Global, worked: &Worked<'_>) -> Result<(), Fail> {
    let (call, trace, other, outcome, written) = worked;
    let run = Run {
        call: *call,
        turns: 4096,
        trace: (trace, 1, 0),
        other: (other, 1, 0),
        room: (1, 512),
        outcome: *outcome,
        written,
        reads: None,
        other_reads: None,
    };
    for size in &SIZES {
        ends(alloc, &run.by(*size))?;
    }
    Ok(())
}

/// Fails a test where one of these isn't.
pub fn are_answered(alloc: Global, texts: &[Worked<'_>]) -> Result<(), Fail> {
    for worked in texts {
        is_answered(alloc, worked)?;
    }
    Ok(())
}
