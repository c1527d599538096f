//! A trace is asked for its findings or for its denials as it comes, from a start text that is read first.
ghost use Rattle.std.specs.Prelude.{◌≡◌, ◌^◌, ◌≤◌, []};
ghost use Rattle.cap_machine.specs.Code.Checked.{IsAsked, HasChecked, lines_of};
ghost use Rattle.cap_machine.specs.State.{State, start_state};
ghost use Rattle.cap_machine.specs.declared.cell.Profile.{Profile};
ghost use Rattle.cap_machine.specs.declared.cell.Profile.TheVariants.{One};
ghost use Rattle.cap_machine.specs.declared.question.Question.TheVariants.{Denials};
ghost use Rattle.cap_session.specs.Streams.{AskedStreams, AskedStartStreams, StartStreams};

use crate::check::check_with;
use crate::devices::{Sink, Source};
use crate::outcome::Outcome;
use crate::refused::Input;
use crate::start_text::read_start;
use crate::write::write_stop;
use cap_machine::{Checker, Profile, Question, Start};
use std::alloc::Global;

/// A checker that was given no line, asked this question.
fn asked(checker: Checker, question: Question) -> Checker
    requires { lines_of checker ≡ 0 }
    ensures { (profile : Profile) (s : State) → HasChecked checker profile s []
        → IsAsked result question profile s [] }
{
    match question {
        Question::Findings => checker,
        Question::Denials => checker.for_denials(),
    }
}

/// Asks this of a trace as it comes, from a start.
fn ask_from<R: Source, W: Sink>(
    alloc: Global,
    question: Question,
    profile: Profile,
    turns: u64,
    start: &Start,
    reader: &mut R,
    writer: &mut W,
) -> Outcome
    requires turns { turns ≤ 2 ^ 32 }
    requires calls { turns ≤ (R.state reader.old).room }
    requires failure { 1 ≤ (W.state writer.old).room }
    ensures { AskedStreams question profile (start_state start.now) turns (R.state reader.old)
        (R.state reader.new) (W.state writer.old) (W.state writer.new) result }
{
    let Ok(checker) = Checker::from_start(alloc, profile, start) else {
        return Outcome::Memory;
    };
    check_with(alloc, turns, reader, writer, asked(checker, question))
}

/// Reads a start text, and asks this of a trace as it comes from that start.
fn ask_stream_from<S: Source, R: Source, W: Sink>(
    alloc: Global,
    question: Question,
    profile: Profile,
    turns: u64,
    start: &mut S,
    reader: &mut R,
    writer: &mut W,
) -> Outcome
    requires turns { turns ≤ 2 ^ 32 }
    requires start_calls { turns ≤ (S.state start.old).room }
    requires calls { turns ≤ (R.state reader.old).room }
    requires failure { 1 ≤ (W.state writer.old).room }
    ensures { AskedStartStreams question profile turns (S.state start.old) (S.state start.new) (R.state reader.old)
        (R.state reader.new) (W.state writer.old) (W.state writer.new) result }
{
    match read_start(alloc, turns, start) {
        Ok(known) => {
            let outcome = ask_from(alloc, question, profile, turns, &known, reader, writer);
            drop(known);
            outcome
        }
        Err(stop) => write_stop(Input::Start, stop, writer),
    }
}

/// Reads a start text, checks a trace as it comes from that start in a profile, and writes its report or the first
/// refused line.
///
/// Both texts are read as [`check_stream`](crate::check_stream) reads a trace, the start first; `turns` bounds the
/// calls of each reader by itself. The start is a text as `parse_start` reads it. What follows its refused line isn't
/// looked at.
///
/// - `StartRefused`: the code and the number of the first refused line of the start, as `parse_start` has them, written
///   as `refused E4 start line 2` and LF. The trace isn't read.
/// - `Memory`, `ReadFault`, `TooLong` and `WriteFault` of the start: as for a trace, and the trace isn't read.
/// - Else the outcome is that of the trace, as [`check_stream`](crate::check_stream) has it, from this start.
///
/// `turns` must be at most 2^32, both readers must be able to count so many calls, and the writer must be able to count
/// a failure.
pub fn check_stream_from_as<S: Source, R: Source, W: Sink>(
    alloc: Global,
    profile: Profile,
    turns: u64,
    start: &mut S,
    reader: &mut R,
    writer: &mut W,
) -> Outcome
    requires turns { turns ≤ 2 ^ 32 }
    requires start_calls { turns ≤ (S.state start.old).room }
    requires calls { turns ≤ (R.state reader.old).room }
    requires failure { 1 ≤ (W.state writer.old).room }
    ensures { StartStreams profile turns (S.state start.old) (S.state start.new) (R.state reader.old)
        (R.state reader.new) (W.state writer.old) (W.state writer.new) result }
{
    let question = Question::Findings;
    ask_stream_from(alloc, question, profile, turns, start, reader, writer)
}

/// Does what [`check_stream_from_as`] does, in profile 1.
pub fn check_stream_from<S: Source, R: Source, W: Sink>(
    alloc: Global,
    turns: u64,
    start: &mut S,
    reader: &mut R,
    writer: &mut W,
) -> Outcome
    requires turns { turns ≤ 2 ^ 32 }
    requires start_calls { turns ≤ (S.state start.old).room }
    requires calls { turns ≤ (R.state reader.old).room }
    requires failure { 1 ≤ (W.state writer.old).room }
    ensures { StartStreams One turns (S.state start.old) (S.state start.new) (R.state reader.old) (R.state reader.new)
        (W.state writer.old) (W.state writer.new) result }
{
    check_stream_from_as(alloc, Profile::One, turns, start, reader, writer)
}

/// Reads a start text, and writes what was lacking for each line of a trace that errno 93 or 94 refused, by what is known
/// from that start in a profile, or the first refused line. An empty start text is the usual start.
///
/// It does what [`check_stream_from_as`] does, with these denials in place of the findings: `Clean` says that there is
/// none, and `Findings` that there are some.
pub fn denials_stream<S: Source, R: Source, W: Sink>(
    alloc: Global,
    profile: Profile,
    turns: u64,
    start: &mut S,
    reader: &mut R,
    writer: &mut W,
) -> Outcome
    requires turns { turns ≤ 2 ^ 32 }
    requires start_calls { turns ≤ (S.state start.old).room }
    requires calls { turns ≤ (R.state reader.old).room }
    requires failure { 1 ≤ (W.state writer.old).room }
    ensures { AskedStartStreams Denials profile turns (S.state start.old) (S.state start.new) (R.state reader.old)
        (R.state reader.new) (W.state writer.old) (W.state writer.new) result }
{
    let question = Question::Denials;
    ask_stream_from(alloc, question, profile, turns, start, reader, writer)
}
