//! [`explain_stream`] and [`limits_stream`]: a start text is read, then a trace, and then one of its lines is explained, or
//! the limits that it needs are written.
//!
//! The lines are kept as a list: one walk back over them costs less than a session's tree.
ghost use Rattle.std.specs.Prelude.{◌≡◌, ◌^◌, ◌≤◌, length, IfOk, Err};
ghost use Rattle.cap_session.specs.AnswerStreams.{of_trace, AnswerStreams, AnswerStartStreams};
ghost use Rattle.cap_session.specs.ExplainStreams.{explanation_says};
ghost use Rattle.cap_session.specs.LimitStreams.{limits_say};
ghost use Rattle.cap_session.specs.Outcome.{found};
ghost use Rattle.cap_session.specs.Code.Queries.{query_says};
ghost use Rattle.cap_session.specs.Refusal.{refused_text};
ghost use Rattle.cap_session.specs.Code.Works.{Writes, WritesAnswer};
ghost use Rattle.cap_session.specs.declared.outcome.Outcome.TheVariants.{WriteFault};
ghost use Rattle.cap_session.specs.declared.outcome.ExplainOutcome.TheVariants.{Ended, OutOfRange};

use crate::devices::{Sink, Source};
use crate::entries::{TraceSink, read_trace};
use crate::explained::{ExplainedLine, explain_among};
use crate::limits_text::limits_among;
use crate::outcome::{ExplainOutcome, Outcome};
use crate::refused::{Input, Refused};
use crate::short_text::ShortText;
use crate::start_text::read_start;
use crate::write::{write_ending, write_stop, write_text};
use cap_machine::{NoMemory, Profile, Start};
use cap_trace::{Line, LineRef};
use std::alloc::Global;

impl TraceSink for Vec<Line> {
    ghost keeps = { λ lines _ entries. lines.items ≡ entries };

    ghost lines_of = { λ lines. length lines.items };

    fn count(&self) -> usize {
        self.len()
    }

    fn keep(&mut self, alloc: Global, text: &[u8], line: &LineRef<'_>) -> Result<(), NoMemory> {
        let line = line.to_line(alloc, text)?;
        match self.push(line) {
            Ok(()) => Ok(()),
            Err(_) => Err(NoMemory),
        }
    }
}

/// What is asked of the lines of a whole trace.
#[derive(Clone, Copy)]
enum Query {
    /// What the line at a position rests on.
    Explanation(usize),
    /// The limits before the line at a position, or after each line that made a descriptor.
    Limits(Option<usize>),
}

/// The answer of a trace that was read, under a start.
fn answer_among(
    alloc: Global,
    query: Query,
    profile: Profile,
    start: &Start,
    lines: &Vec<Line>,
) -> Result<ExplainedLine, Refused>
    ensures text { IfOk result (λ line.
        query_says query profile start.now lines.now.items (Ended (found line.is_clean)) line.text.items) }
    ensures position { result ≡ Err Refused.Position
        → query_says query profile start.now lines.now.items OutOfRange (refused_text 7) }
{
    match query {
        Query::Explanation(position) => explain_among(alloc, profile, start, lines, position),
        Query::Limits(at) => match limits_among(alloc, profile, start, lines, at) {
            Ok(text) => Ok(ExplainedLine {
                text,
                links: 0,
                is_clean: true,
            }),
            Err(refused) => Err(refused),
        },
    }
}

/// Writes that no line is at the position.
fn write_out_of_range<W: Sink>(writer: &mut W) -> ExplainOutcome
    requires { 1 ≤ (W.state writer.old).room }
    ensures { Writes (refused_text 7) OutOfRange (Ended WriteFault) (W.state writer.old) (W.state writer.new) result }
{
    let text = ShortText::refused(Refused::Position.code());
    match write_text(writer, text.as_slice()) {
        Ok(()) => ExplainOutcome::OutOfRange,
        Err(_) => ExplainOutcome::Ended(Outcome::WriteFault),
    }
}

/// Writes the answer of a trace that was read, or that there is no such line.
fn write_answer<W: Sink>(
    alloc: Global,
    query: Query,
    profile: Profile,
    start: &Start,
    lines: &Vec<Line>,
    writer: &mut W,
) -> ExplainOutcome
    requires { 1 ≤ (W.state writer.old).room }
    ensures { WritesAnswer (query_says query profile start.now lines.now.items) (W.state writer.old)
        (W.state writer.new) result }
{
    match answer_among(alloc, query, profile, start, lines) {
        Ok(line) => {
            let told = Outcome::found(line.is_clean);
            ExplainOutcome::Ended(write_ending(line.text.as_slice(), told, writer))
        }
        Err(Refused::Position) => write_out_of_range(writer),
        Err(_) => ExplainOutcome::Ended(Outcome::Memory),
    }
}

/// Reads a trace, and answers of it under a start.
fn answer_under<R: Source, W: Sink>(
    alloc: Global,
    query: Query,
    profile: Profile,
    turns: u64,
    start: &Start,
    reader: &mut R,
    writer: &mut W,
) -> ExplainOutcome
    requires turns { turns ≤ 2 ^ 32 }
    requires calls { turns ≤ (R.state reader.old).room }
    requires failure { 1 ≤ (W.state writer.old).room }
    ensures { AnswerStreams of_trace (query_says query profile start.now) turns (R.state reader.old)
        (R.state reader.new) (W.state writer.old) (W.state writer.new) result }
{
    match read_trace(alloc, turns, reader, Vec::new(alloc)) {
        Ok(lines) => write_answer(alloc, query, profile, start, &lines, writer),
        Err(stop) => ExplainOutcome::Ended(write_stop(Input::Trace, stop, writer)),
    }
}

/// Reads a start text and then a trace, and answers of the trace from that start.
fn answer_stream<S: Source, R: Source, W: Sink>(
    alloc: Global,
    query: Query,
    profile: Profile,
    turns: u64,
    start: &mut S,
    reader: &mut R,
    writer: &mut W,
) -> ExplainOutcome
    requires turns { turns ≤ 2 ^ 32 }
    requires start_calls { turns ≤ (S.state start.old).room }
    requires calls { turns ≤ (R.state reader.old).room }
    requires failure { 1 ≤ (W.state writer.old).room }
    ensures { AnswerStartStreams (query_says query profile) turns (S.state start.old) (S.state start.new)
        (R.state reader.old) (R.state reader.new) (W.state writer.old) (W.state writer.new) result }
{
    match read_start(alloc, turns, start) {
        Ok(known) => {
            let outcome = answer_under(alloc, query, profile, turns, &known, reader, writer);
            drop(known);
            outcome
        }
        Err(stop) => ExplainOutcome::Ended(write_stop(Input::Start, stop, writer)),
    }
}

/// Reads a start text, reads a trace in a profile, and writes what the line at a position rests on: the line, its findings,
/// and the lines that these come from. Positions are from 1, and count the lines that are not skipped. An empty start text
/// is the usual start.
///
/// Both texts are read as [`check_stream_from_as`](crate::check_stream_from_as) reads them, the start first, and the trace
/// to its end, whatever the position; `turns` bounds the calls of each reader by itself.
///
/// - `Ended(Clean)` and `Ended(Findings)`: no line of either text is refused, and the line was explained. It has no
///   finding, or some.
/// - `OutOfRange`: no line of either text is refused, and none is at the position; `refused E7` and LF was written.
/// - `Ended(Memory)`: no line of what was read is refused, and nothing was written.
/// - `Ended(WriteFault)`: a prefix of the explanation or of a refusal was written.
/// - Else as there.
///
/// `turns` must be at most 2^32, both readers must be able to count so many calls, and the writer must be able to count
/// a failure.
pub fn explain_stream<S: Source, R: Source, W: Sink>(
    alloc: Global,
    profile: Profile,
    turns: u64,
    position: usize,
    start: &mut S,
    reader: &mut R,
    writer: &mut W,
) -> ExplainOutcome
    requires turns { turns ≤ 2 ^ 32 }
    requires start_calls { turns ≤ (S.state start.old).room }
    requires calls { turns ≤ (R.state reader.old).room }
    requires failure { 1 ≤ (W.state writer.old).room }
    ensures { AnswerStartStreams (explanation_says profile position) turns (S.state start.old) (S.state start.new)
        (R.state reader.old) (R.state reader.new) (W.state writer.old) (W.state writer.new) result }
{
    let query = Query::Explanation(position);
    answer_stream(alloc, query, profile, turns, start, reader, writer)
}

/// Reads a start text, reads a trace in a profile, and writes a script that `edit` takes, of limits
/// (cap_rights_limit(2)) to the rights that later lines need.
///
/// - With a position, from 1: before the line there, a limit of each descriptor that its process then holds, but of those
///   that only a start's cell of all others gives. Then the process enters capability mode (cap_enter(2)), or a comment
///   says why it can't.
/// - Without: right after each line that made a descriptor, which is then held, a limit of it. The last comes first, so
///   that each position is one of the trace.
///
/// Limits are enough and least: `limits_script_is_enough` and `limits_script_is_least` say of what.
///
/// The texts are read as [`explain_stream`] reads them, and the outcomes are as there, of the script in place of the
/// explanation, which is always `Clean`. Without a position the script is empty where the trace made no descriptor.
pub fn limits_stream<S: Source, R: Source, W: Sink>(
    alloc: Global,
    profile: Profile,
    turns: u64,
    at: Option<usize>,
    start: &mut S,
    reader: &mut R,
    writer: &mut W,
) -> ExplainOutcome
    requires turns { turns ≤ 2 ^ 32 }
    requires start_calls { turns ≤ (S.state start.old).room }
    requires calls { turns ≤ (R.state reader.old).room }
    requires failure { 1 ≤ (W.state writer.old).room }
    ensures { AnswerStartStreams (limits_say profile at) turns (S.state start.old) (S.state start.new)
        (R.state reader.old) (R.state reader.new) (W.state writer.old) (W.state writer.new) result }
{
    let query = Query::Limits(at);
    answer_stream(alloc, query, profile, turns, start, reader, writer)
}
