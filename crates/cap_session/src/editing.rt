//! [`edit_stream_from_as`]: a start is read, a trace is loaded, and then a script of commands on it is replied to, line by
//! line.
ghost use Rattle.std.specs.Prelude.{◌≡◌, ◌^◌, ◌<◌, ◌≤◌, [], length};
ghost use Rattle.cap_machine.specs.declared.cell.Profile.TheVariants.{One};
ghost use Rattle.cap_session.specs.EditStreams.{EditStreams, EditStartStreams, Replies, IsOutcome};
ghost use Rattle.cap_session.specs.Limits.{longest_piece};
ghost use Rattle.cap_session.specs.Settings.{usually};

use crate::devices::{Sink, Source};
use crate::entries::read_trace;
use crate::limits::LONGEST_PIECE;
use crate::line_buffer::LineBuffer;
use crate::loading::Loading;
use crate::outcome::Outcome;
use crate::refused::Input;
use crate::replies::reply_all;
use crate::script::Script;
use crate::session::Session;
use crate::start_text::read_start;
use crate::write::write_stop;
use cap_machine::{Profile, Start};
use std::alloc::Global;

/// Replies to a script with room for a piece, and ends with the outcome of the trace as it then is.
fn edit_loaded<S: Source, W: Sink>(
    turns: u64,
    reader: &mut S,
    writer: &mut W,
    mut script: Script,
    piece: &mut [u8],
) -> Outcome
    requires turns { turns ≤ 2 ^ 32 }
    requires calls { turns ≤ (S.state reader.old).room }
    requires failure { 1 ≤ (W.state writer.old).room }
    requires begins { script.held ≡ [] }
    requires some { 0 < length piece.old }
    requires most { length piece.old ≤ longest_piece }
    ensures { Replies script.setting turns (S.state reader.old) (S.state reader.new) (W.state writer.old)
        (W.state writer.new) script.state result }
{
    match reply_all(turns, reader, writer, &mut script, piece) {
        Ok(()) => outcome_of(&script.session),
        Err(stop) => Outcome::from(stop),
    }
}

/// The outcome of the trace of a session.
fn outcome_of(session: &Session) -> Outcome
    ensures { IsOutcome session.now.setting session.now.trace result }
{
    match session.is_clean() {
        Ok(true) => Outcome::Clean,
        Ok(false) => Outcome::Findings,
        Err(_) => Outcome::Memory,
    }
}

/// Takes a trace over in a profile and from a start, and replies to a script of commands on it.
fn edit_from<T: Source, S: Source, W: Sink>(
    alloc: Global,
    profile: Profile,
    turns: u64,
    start: Start,
    trace: &mut T,
    script: &mut S,
    writer: &mut W,
) -> Outcome
    requires turns { turns ≤ 2 ^ 32 }
    requires trace_calls { turns ≤ (T.state trace.old).room }
    requires script_calls { turns ≤ (S.state script.old).room }
    requires failure { 1 ≤ (W.state writer.old).room }
    ensures { EditStreams (record { profile = profile; start = start }) turns (T.state trace.old) (T.state trace.new)
        (S.state script.old) (S.state script.new) (W.state writer.old) (W.state writer.new) result }
{
    let Ok(mut piece) = vec![in alloc; 0u8; LONGEST_PIECE] else {
        return Outcome::Memory;
    };
    let Ok(held) = LineBuffer::new(alloc) else {
        return Outcome::Memory;
    };
    let empty = Loading::new(alloc, profile);
    match read_trace(alloc, turns, trace, empty) {
        Ok(loading) => {
            let Ok(session) = loading.session(start) else {
                return Outcome::Memory;
            };
            let loaded = Script { session, held };
            edit_loaded(turns, script, writer, loaded, piece.as_mut_slice())
        }
        Err(stop) => write_stop(Input::Trace, stop, writer),
    }
}

/// Reads a start text, takes a trace over in a profile, and replies to a script of commands on it, line by line: what is
/// found, and what is said of it, is from this start. An empty start text is the usual start.
///
/// The start and the trace are read as [`check_stream_from_as`](crate::check_stream_from_as) reads them, the start first;
/// `turns` bounds the calls of each reader by itself. Where the start isn't taken, the outcome is as there, and neither the
/// trace nor the script is read. Else the trace and the script are, and the outcome is that of [`edit_stream_as`], from
/// this start.
///
/// `turns` must be at most 2^32, the readers must be able to count so many calls, and the writer must be able to count a
/// failure.
pub fn edit_stream_from_as<Z: Source, T: Source, S: Source, W: Sink>(
    alloc: Global,
    profile: Profile,
    turns: u64,
    start: &mut Z,
    trace: &mut T,
    script: &mut S,
    writer: &mut W,
) -> Outcome
    requires turns { turns ≤ 2 ^ 32 }
    requires start_calls { turns ≤ (Z.state start.old).room }
    requires trace_calls { turns ≤ (T.state trace.old).room }
    requires script_calls { turns ≤ (S.state script.old).room }
    requires failure { 1 ≤ (W.state writer.old).room }
    ensures { EditStartStreams profile turns (Z.state start.old) (Z.state start.new) (T.state trace.old) (T.state trace.new)
        (S.state script.old) (S.state script.new) (W.state writer.old) (W.state writer.new) result }
{
    match read_start(alloc, turns, start) {
        Ok(known) => edit_from(alloc, profile, turns, known, trace, script, writer),
        Err(stop) => write_stop(Input::Start, stop, writer),
    }
}

/// Takes a trace over in a profile, from the usual start, and replies to a script of commands on it, line by line.
///
/// The trace is read as `check_stream` reads it. Where it isn't taken over, the outcome is as there: `Refused`,
/// `Memory`, `ReadFault`, `TooLong`, or `WriteFault` of the refusal, and the script isn't read.
///
/// Each line of the script is replied to before the next is worked through. Empty lines and lines that begin with `#`
/// have no reply. A line of more than 1,056 bytes is replied to with `refused E1` as soon as its 1,057th byte came.
///
/// - `insert K LINE`, `replace K LINE` and `delete K` reply `ok N`, where N is the new count.
/// - `show K` replies the line's canonical text, `count` the number of lines, `report` the report, and `report A B`
///   the findings of the whole check at the positions A to B. `changes` replies what went and what came since the last
///   `report` or `changes`.
/// - `explain K`, `denials`, `limits` and `limits K` reply the texts that `Session::explain`, `denials` and `limits` answer.
///   After an explanation comes `explained N`, where N is how many lines of it are of chains, and after a script of limits
///   `limits N`, where N is how many lines it inserts.
/// - A command that is refused replies `refused E7`, by the code of its refusal, and any other line `refused E10`. One
///   for which memory runs out replies `refused E9`. The script goes on.
///
/// - `Clean` and `Findings`: the script was read to its end, and this is the outcome of the trace as it then is.
/// - `Memory`: memory ran out before that was known, or before the script was read.
/// - `ReadFault`, `WriteFault`, `TooLong`: of the script, or of the writer, which ends it at once. The replies so far
///   were written, and at `WriteFault` a prefix of them.
///
/// `turns` must be at most 2^32, both readers must be able to count so many calls, and the writer must be able to count
/// a failure.
pub fn edit_stream_as<T: Source, S: Source, W: Sink>(
    alloc: Global,
    profile: Profile,
    turns: u64,
    trace: &mut T,
    script: &mut S,
    writer: &mut W,
) -> Outcome
    requires turns { turns ≤ 2 ^ 32 }
    requires trace_calls { turns ≤ (T.state trace.old).room }
    requires script_calls { turns ≤ (S.state script.old).room }
    requires failure { 1 ≤ (W.state writer.old).room }
    ensures { EditStreams (usually profile) turns (T.state trace.old) (T.state trace.new) (S.state script.old)
        (S.state script.new) (W.state writer.old) (W.state writer.new) result }
{
    let start = Start::unknown(alloc);
    edit_from(alloc, profile, turns, start, trace, script, writer)
}

/// Takes a trace over in profile 1, and replies to a script of commands on it, as [`edit_stream_as`] does.
pub fn edit_stream<T: Source, S: Source, W: Sink>(
    alloc: Global,
    turns: u64,
    trace: &mut T,
    script: &mut S,
    writer: &mut W,
) -> Outcome
    requires turns { turns ≤ 2 ^ 32 }
    requires trace_calls { turns ≤ (T.state trace.old).room }
    requires script_calls { turns ≤ (S.state script.old).room }
    requires failure { 1 ≤ (W.state writer.old).room }
    ensures { EditStreams (usually One) turns (T.state trace.old) (T.state trace.new) (S.state script.old)
        (S.state script.new) (W.state writer.old) (W.state writer.new) result }
{
    edit_stream_as(alloc, Profile::One, turns, trace, script, writer)
}
