//! A trace is checked as it comes: no line is kept, and only the text that answers what is asked is.
ghost use Rattle.std.specs.Prelude.{◌^◌, ◌<◌, ◌≤◌, List, []};
ghost use Rattle.cap_trace.specs.Entry.{Entry};
ghost use Rattle.cap_machine.specs.declared.cell.Profile.{Profile};
ghost use Rattle.cap_machine.specs.declared.question.Question.{Question};
ghost use Rattle.cap_machine.specs.State.{State, usual};
ghost use Rattle.cap_machine.specs.Code.Checked.{IsAsked, lines_of};
ghost use Rattle.cap_session.specs.Streams.{AskedStreams, Streams, asked_says};
ghost use Rattle.cap_session.specs.Code.Works.{WritesAnswer};
ghost use Rattle.cap_session.specs.declared.outcome.ExplainOutcome.TheVariants.{Ended};

use crate::devices::{Sink, Source};
use crate::entries::{TraceSink, read_trace};
use crate::outcome::Outcome;
use crate::refused::Input;
use crate::write::{write_ending, write_stop};
use cap_machine::{Checker, NoMemory, Profile};
use cap_trace::LineRef;
use std::alloc::Global;

impl TraceSink for Checker {
    ghost keeps = { λ checker inquiry entries.
        IsAsked checker inquiry.question inquiry.profile inquiry.start entries };

    ghost lines_of = { lines_of };

    fn count(&self) -> usize {
        self.count()
    }

    #[inline(always)]
    fn keep(&mut self, alloc: Global, text: &[u8], line: &LineRef<'_>) -> Result<(), NoMemory> {
        let _ = alloc;
        let _ = text;
        self.line_ref(line)
    }
}

/// Writes the report of the trace that was checked, or what else was asked of it.
fn write_report<W: Sink>(checker: Checker, writer: &mut W) -> Outcome
    requires { 1 ≤ (W.state writer.old).room }
    ensures { (question : Question) (profile : Profile) (s : State) (entries : List Entry)
        → IsAsked checker question profile s entries
        → WritesAnswer (asked_says question profile s entries) (W.state writer.old) (W.state writer.new) (Ended result) }
{
    let is_clean = checker.is_clean();
    match checker.report() {
        Ok(text) => write_ending(text.as_slice(), Outcome::found(is_clean), writer),
        Err(_) => Outcome::Memory,
    }
}

/// Checks a trace as it comes, with a checker that was given no line, whatever that is asked.
pub fn check_with<R: Source, W: Sink>(
    alloc: Global,
    turns: u64,
    reader: &mut R,
    writer: &mut W,
    checker: Checker,
) -> Outcome
    requires turns { turns ≤ 2 ^ 32 }
    requires calls { turns ≤ (R.state reader.old).room }
    requires failure { 1 ≤ (W.state writer.old).room }
    ensures { (question : Question) (profile : Profile) (s : State) → IsAsked checker question profile s []
        → AskedStreams question profile s turns (R.state reader.old) (R.state reader.new) (W.state writer.old)
        (W.state writer.new) result }
{
    match read_trace(alloc, turns, reader, checker) {
        Ok(checker) => write_report(checker, writer),
        Err(stop) => write_stop(Input::Trace, stop, writer),
    }
}

/// Checks a trace as it comes in a profile under the usual start, and writes its report or its first refused line.
///
/// It does what [`check_stream`] does, by the rules of the profile.
pub fn check_stream_as<R: Source, W: Sink>(
    alloc: Global,
    profile: Profile,
    turns: u64,
    reader: &mut R,
    writer: &mut W,
) -> Outcome
    requires turns { turns ≤ 2 ^ 32 }
    requires calls { turns ≤ (R.state reader.old).room }
    requires failure { 1 ≤ (W.state writer.old).room }
    ensures { Streams profile usual turns (R.state reader.old) (R.state reader.new) (W.state writer.old)
        (W.state writer.new) result }
{
    check_with(alloc, turns, reader, writer, Checker::new(alloc, profile))
}

/// Checks a trace as it comes in profile 1 under the usual start, and writes its report or its first refused line.
///
/// The trace is read in pieces of at most 65,536 bytes, each worked through before the next, with at most
/// `turns` calls of `read`. What follows a refused line isn't looked at.
///
/// - `Clean` and `Findings`: the trace was read to its end and no line is refused. The report was written.
/// - `Refused`: the code and the number of the first refused line, written as `refused E2 line 7` and LF. Code 1 is a
///   line of more than 1,024 bytes, 2 to 6 its first fault as `parse_line` has it, and 8 a line past the 1,000,000th.
/// - `Memory`, `ReadFault` and `TooLong`: no line of what was read is refused, and nothing was written.
/// - `WriteFault`: a prefix of the report or of the refusal was written.
///
/// `turns` must be at most 2^32, the reader must be able to count so many calls, and the writer must be able to count a
/// failure.
pub fn check_stream<R: Source, W: Sink>(
    alloc: Global,
    turns: u64,
    reader: &mut R,
    writer: &mut W,
) -> Outcome
    requires turns { turns ≤ 2 ^ 32 }
    requires calls { turns ≤ (R.state reader.old).room }
    requires failure { 1 ≤ (W.state writer.old).room }
    ensures { Streams Profile.One usual turns (R.state reader.old) (R.state reader.new) (W.state writer.old)
        (W.state writer.new) result }
{
    check_stream_as(alloc, Profile::One, turns, reader, writer)
}
