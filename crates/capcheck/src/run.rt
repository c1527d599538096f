//! What the program does with its words: it opens the texts, does with the trace what is asked for, says on standard
//! error why there is no answer, and ends with the exit status.
//!
//! [`run`] is the program but for its devices, which `main` makes: it takes any arguments, texts and output. Nothing here can
//! print on standard output by itself.

ghost use Rattle.std.specs.Prelude.{◌≡◌, ◌≤◌, ◌^◌, ◌⊎◌, [], IfErr, IfOk, Ok, drop, map};
ghost use Rattle.std.specs.Prelude.{option_to_list, string_bytes};
ghost use Rattle.std.specs.Option.{option_map};
ghost use Rattle.cap_machine.specs.State.{usual};
ghost use Rattle.cap_session.specs.Outcome.{explain_status_of};
ghost use Rattle.cap_session.specs.StartTexts.{start as start_said};
ghost use Rattle.capcheck.specs.Faults.{fault_code};
ghost use Rattle.capcheck.specs.Plans.{run_of, seen};
ghost use Rattle.capcheck.specs.Runs.{AnyMayFail, CarriesOut, Ends, Finishes, NeverFail, OpensAll, OpensUntil, Prints};
ghost use Rattle.capcheck.specs.Runs.{RunsText, TaskIsNoFault, TaskStreams, known_of, names_of, readers_of};
ghost use Rattle.capcheck.specs.Texts.{Gives, MayFail};

use crate::messages::{begin, tell};
use crate::notes::Notes;
use crate::plan::{Plan, Run, Task, plan_of};
use crate::system::Arguments;
use crate::texts::Texts;
use crate::write::write_text;
use cap_machine::Question;
use cap_session::ExplainOutcome::{self, Ended};
use cap_session::{
    Failed, Outcome, Sink, Source, check_stream_from_as, denials_stream, edit_stream_from_as,
    explain_stream, limits_stream,
};
use std::alloc::{AllocError, Global};
use std::io;

/// How often each text may be read.
const TURNS: u64 = 2_147_483_648;

/// The status of a command line that is a mistake.
const MISTAKEN: u8 = 2;

/// What standard error says of a word that isn't UTF-8.
const NO_TEXT: &str = "\
error: a word of the command line is not UTF-8 text; a file of such a name can be checked on standard input

Usage: capcheck <COMMAND>

For more information, try '--help'.
";

/// Does what the arguments ask for over any texts and any output, and answers the exit status: 0 with no finding and after
/// help, 1 with findings, 2 for a mistake in the words or a refused line, and 3 where memory ran out, a device
/// failed or an input had no end. Standard error then has the reason, and where it is a terminal or the words ask for
/// it, what is wrong in words.
pub fn run<A: Arguments, T: Texts, W: Sink, R: Eprint + AllocGlobal>(
    rt: &R,
    arguments: &A,
    texts: &mut T,
    notes: &Notes,
    output: &mut W,
) -> u8
    requires { 1 ≤ (W.state output.old).room }
    ensures most { result ≤ 3 }
    ensures ends { Ends (A.may_be arguments.now) T.Reader.state T.opens (T.known texts.old) texts.old texts.new
        (W.state output.old) (W.state output.new) result }
{
    match arguments.read() {
        Ok(args) => answer_arguments(rt, texts, notes, output, args.as_slice()),
        Err(error) => no_arguments(rt, notes, &error),
    }
}

/// Says why the arguments can't be read.
fn no_arguments<R: Eprint + AllocGlobal>(rt: &R, notes: &Notes, error: &io::Error) -> u8
    ensures { (result ≡ 2) ⊎ (result ≡ 3) }
{
    if error.kind() == io::ErrorKind::OutOfMemory {
        return exit_status(rt, notes, None, Ended(Outcome::Memory));
    }
    usage_error(rt, NO_TEXT)
}

/// Does what the arguments ask for, of which the first is the name of the program.
fn answer_arguments<T: Texts, W: Sink, R: Eprint + AllocGlobal>(
    rt: &R,
    texts: &mut T,
    notes: &Notes,
    output: &mut W,
    args: &[String],
) -> u8
    requires { 1 ≤ (W.state output.old).room }
    ensures { Finishes T.Reader.state T.opens (T.known texts.old) (drop 1 (map string_bytes args.now))
        texts.old texts.new (W.state output.old) (W.state output.new) result }
{
    match words_of(rt.alloc(), args) {
        Ok(words) => answer(rt, texts, notes, output, words.as_slice()),
        Err(AllocError) => exit_status(rt, notes, None, Ended(Outcome::Memory)),
    }
}

/// What follows the name of the program.
fn words_of(alloc: Global, args: &[String]) -> Result<Vec<&str>, AllocError>
    ensures { IfOk result (λ words. map (λ w. w.now) words.items ≡ map string_bytes (drop 1 args.now)) }
{
    let after_name = args.get(1..).unwrap_or(&[]);
    let mut words = Vec::new(alloc);
    for word in after_name {
        words.push(word.as_str())?;
    }
    Ok(words)
}

/// Does what the words ask for over any texts and any output, and answers the exit status.
///
/// The output takes what a run writes, and the text of help. Where the bytes of the named texts are known, the report,
/// the replies and the status are those of these bytes. What is said in words is made of the notes.
pub fn answer<T: Texts, W: Sink, R: Eprint + AllocGlobal>(
    rt: &R,
    texts: &mut T,
    notes: &Notes,
    output: &mut W,
    words: &[&str],
) -> u8
    requires { 1 ≤ (W.state output.old).room }
    ensures { Finishes T.Reader.state T.opens (T.known texts.old) (map (λ w. w.now) words.entry.now)
        texts.old texts.new (W.state output.old) (W.state output.new) result }
{
    carry_out(rt, texts, notes, output, plan_of(rt.alloc(), words))
}

/// Does what a plan says, and answers the exit status.
fn carry_out<T: Texts, W: Sink, R: Eprint + AllocGlobal>(
    rt: &R,
    texts: &mut T,
    notes: &Notes,
    output: &mut W,
    plan: Plan<'_>,
) -> u8
    requires { 1 ≤ (W.state output.old).room }
    ensures { CarriesOut T.Reader.state T.opens (T.known texts.old) texts.old texts.new
        (W.state output.old) (W.state output.new) plan.entry result }
{
    match plan {
        Plan::Run(run) => {
            begin(rt.alloc(), notes, &run);
            let outcome = perform(rt.alloc(), texts, output, &run);
            exit_status(rt, notes, Some(&run), outcome)
        }
        Plan::Help(text) => print(rt, notes, output, text.as_str()),
        Plan::Usage(text) => usage_error(rt, text.as_str()),
        Plan::Memory => exit_status(rt, notes, None, Ended(Outcome::Memory)),
    }
}

/// Writes a text that was asked for, and answers the exit status.
fn print<W: Sink, R: Eprint + AllocGlobal>(rt: &R, notes: &Notes, output: &mut W, text: &str) -> u8
    requires { 1 ≤ (W.state output.old).room }
    ensures { Prints text.now (W.state output.old) (W.state output.new) result }
{
    match write_text(output, text.as_bytes()) {
        Ok(()) => 0,
        Err(Failed) => exit_status(rt, notes, None, Ended(Outcome::WriteFault)),
    }
}

/// A start text without any bytes is the usual start.
#[tactic(auto, unfolding(cap_session::specs::Texts::with_lines, cap_session::specs::Lines::whole_lines, cap_session::specs::Lines::last_piece, cap_machine::specs::State::start_state))]
pub fn empty_start_is_usual()
    ensures { start_said [] ≡ Ok usual }
{}

/// Where a reader's type never counts a failure, as that of texts in memory, no run ends with a read fault, unless one of
/// its texts may be one that can't be opened.
pub fn no_fault_of_readers_that_never_fail<T: Texts>()
    ensures { NeverFail T.Reader.state → TaskIsNoFault T.Reader.state T.opens }
{}

/// The readers of the texts of a run.
#[derive(Drop)]
pub struct Readers<R: Drop> {
    start: R,
    trace: R,
    script: R,
}

/// Opens a text that a run may have. Where it has none that is a text without any bytes, which is the usual start.
fn open_any<T: Texts>(texts: &mut T, text: Option<Option<&str>>) -> Result<T::Reader, Failed>
    ensures opened { IfOk result (λ z. let names = option_map seen text.entry in OpensAll T.opens texts.old
        (option_to_list names) (option_to_list (option_map (λ name. z) names)) texts.new) }
    ensures until { IfErr result (λ _. OpensUntil T.opens texts.old (option_to_list (option_map seen text.entry))
        texts.new) }
    ensures text { IfOk result
        (λ z. Gives (known_of (T.known texts.old) (option_map seen text.entry)) (T.Reader.state z).bytes) }
    ensures room { IfOk result (λ z. 2 ^ 32 ≤ (T.Reader.state z).room) }
    ensures fails { IfErr result (λ _. MayFail (known_of (T.known texts.old) (option_map seen text.entry))) }
    ensures same { T.known texts.new ≡ T.known texts.old }
{
    match text {
        Some(name) => texts.open(name),
        None => Ok(texts.empty()),
    }
}

/// Opens the start, the trace and the script, in this order and each once.
fn open_all<T: Texts>(texts: &mut T, run: &Run<'_>) -> Result<Readers<T::Reader>, Failed>
    ensures opened { IfOk result (λ r. OpensAll T.opens texts.old (names_of (run_of run.now))
        (readers_of (run_of run.now) r.start r.trace r.script) texts.new) }
    ensures until { IfErr result (λ _. OpensUntil T.opens texts.old (names_of (run_of run.now)) texts.new) }
    ensures start { IfOk result
        (λ r. Gives (known_of (T.known texts.old) (run_of run.now).start) (T.Reader.state r.start).bytes) }
    ensures trace { IfOk result (λ r. Gives (T.known texts.old (run_of run.now).trace) (T.Reader.state r.trace).bytes) }
    ensures script { IfOk result
        (λ r. Gives (known_of (T.known texts.old) (run_of run.now).script) (T.Reader.state r.script).bytes) }
    ensures start_room { IfOk result (λ r. 2 ^ 32 ≤ (T.Reader.state r.start).room) }
    ensures trace_room { IfOk result (λ r. 2 ^ 32 ≤ (T.Reader.state r.trace).room) }
    ensures script_room { IfOk result (λ r. 2 ^ 32 ≤ (T.Reader.state r.script).room) }
    ensures fails { IfErr result (λ _. AnyMayFail (T.known texts.old) (run_of run.now)) }
{
    let start = open_any(texts, run.start)?;
    let trace = texts.open(run.trace)?;
    let script = open_any(texts, run.script)?;
    Ok(Readers {
        start,
        trace,
        script,
    })
}

/// Opens the texts, and then does what a run is for.
///
/// All are opened before any is read. No stream is buffered here: a piece is read by one system call, and the report is
/// written by one where the system takes it whole.
pub fn perform<T: Texts, W: Sink>(
    alloc: Global,
    texts: &mut T,
    output: &mut W,
    run: &Run<'_>,
) -> ExplainOutcome
    requires { 1 ≤ (W.state output.old).room }
    ensures { RunsText T.Reader.state T.opens (T.known texts.old) (run_of run.now) texts.old texts.new
        (W.state output.old) (W.state output.new) result }
{
    match open_all(texts, run) {
        Ok(mut readers) => do_task(alloc, run, &mut readers, output),
        Err(Failed) => Ended(Outcome::ReadFault),
    }
}

/// Does what a run is for, in its profile, and writes the answer, the reply to each line of a script before the next is
/// looked at, or why there is none.
fn do_task<R: Source + Drop, W: Sink>(
    alloc: Global,
    run: &Run<'_>,
    readers: &mut Readers<R>,
    output: &mut W,
) -> ExplainOutcome
    requires start { 2 ^ 32 ≤ (R.state readers.old.start).room }
    requires trace { 2 ^ 32 ≤ (R.state readers.old.trace).room }
    requires script { 2 ^ 32 ≤ (R.state readers.old.script).room }
    requires writes { 1 ≤ (W.state output.old).room }
    ensures { TaskStreams run.now.profile run.now.task (R.state readers.old.start) (R.state readers.new.start)
        (R.state readers.old.trace) (R.state readers.new.trace) (R.state readers.old.script) (R.state readers.new.script)
        (W.state output.old) (W.state output.new) result }
{
    let profile = run.profile;
    let Readers {
        start,
        trace,
        script,
    } = readers;
    match run.task {
        Task::Ask(Question::Findings) => Ended(check_stream_from_as(
            alloc, profile, TURNS, start, trace, output,
        )),
        Task::Ask(Question::Denials) => Ended(denials_stream(
            alloc, profile, TURNS, start, trace, output,
        )),
        Task::Edit => Ended(edit_stream_from_as(
            alloc, profile, TURNS, start, trace, script, output,
        )),
        Task::Explain(position) => {
            explain_stream(alloc, profile, TURNS, position, start, trace, output)
        }
        Task::Limits(at) => limits_stream(alloc, profile, TURNS, at, start, trace, output),
    }
}

/// Prints on standard error what is wrong with the words; whether that can be written doesn't matter.
fn usage_error<R: Eprint>(rt: &R, text: &str) -> u8
    ensures { result ≡ 2 }
{
    let _ = rt.eprint(text);
    MISTAKEN
}

/// The exit status of an outcome. What kept the program from an answer is said in words, where they are wanted, and
/// printed as a code; whether that can be written doesn't matter.
fn exit_status<R: Eprint + AllocGlobal>(
    rt: &R,
    notes: &Notes,
    run: Option<&Run<'_>>,
    outcome: ExplainOutcome,
) -> u8
    ensures { result ≡ explain_status_of outcome }
{
    tell(rt, notes, run, outcome);
    if let Ended(ended) = outcome
        && let Some(code) = code_of_fault(ended)
    {
        let _ = eprintln!(rt; "capcheck: {code}");
    }
    outcome.status()
}

/// The code for standard error: `E9` for memory, `E11` for a reader, `E12` for the writer and `E13` for an input
/// with no end.
fn code_of_fault(outcome: Outcome) -> Option<&'static str>
    ensures { option_map (λ code. code.now) result ≡ fault_code outcome }
{
    match outcome {
        Outcome::Memory => Some("E9"),
        Outcome::ReadFault => Some("E11"),
        Outcome::WriteFault => Some("E12"),
        Outcome::TooLong => Some("E13"),
        Outcome::Clean
        | Outcome::Findings
        | Outcome::Refused { .. }
        | Outcome::StartRefused { .. } => None,
    }
}
