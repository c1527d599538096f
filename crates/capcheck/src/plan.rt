//! What the words of the command line ask for: a run, help, or nothing, where they are a mistake.
//!
//! `clap` reads the words. [`plan_of`] makes a [`Plan`] of its matches or of its error.
ghost use Rattle.std.specs.Prelude.{◌≡◌, IfErr, IfOk, IsTrue, ◌↔◌, codes, map, option_and_then, option_map};
ghost use Rattle.std.specs.Result.{result_ok};
ghost use Rattle.clap.specs.Words.{FailsBy, fault_of, first_of, found_of, kind_of, rows_of, subcommand_of};
ghost use Rattle.clap.specs.Words.{subcommand_rows_of};
ghost use Rattle.capcheck.specs.CommandLine.{capcheck};
ghost use Rattle.capcheck.specs.Plans.{Fits, IsRequest, NamesNone, NamesRun, TellsKind, is_input};
ghost use Rattle.capcheck.specs.Plans.{is_input_twice, place_among, profile_among, run_for, run_in, run_of};
ghost use Rattle.capcheck.specs.Plans.{script_among, seen, start_among, task_in, text_among, text_named, verbose_among};

use crate::words::command;
use cap_machine::{Profile, Question};
use cap_session::number_of;
use clap::error::ErrorKind;
use clap::{ArgMatches, Error};
use std::alloc::Global;

/// What standard error says of a profile that is neither 1 nor 2.
const NO_PROFILE: &str = "the profile is 1 or 2";

/// What standard error says of a position that is no number, or isn't spelled as one.
const NO_POSITION: &str = "the position is a number of 1 to 19 digits, without a leading zero";

/// What standard error says where two texts of a run are standard input.
const INPUT_TWICE: &str =
    "standard input can be read only once, and two of the files are standard input";

/// What standard error would say of a command that `clap` took and this program doesn't have.
const NO_COMMAND: &str = "there is no such command";

/// What is done with a trace.
#[derive(Drop)]
pub enum Task {
    /// Ask this of it: a check asks for its findings.
    Ask(Question),
    /// Work through a script.
    Edit,
    /// Explain the line at this position.
    Explain(usize),
    /// Write the limits that later lines need, before the line at this position, or where there is none after each line
    /// that made a descriptor.
    Limits(Option<usize>),
}

/// What a run reads, how, and what for.
#[derive(Drop)]
pub struct Run<'a> {
    /// The start of this name, or standard input, where one is named.
    pub start: Option<Option<&'a str>>,
    /// The trace of this name, or standard input.
    pub trace: Option<&'a str>,
    /// The script of this name, or standard input. An edit alone has one.
    pub script: Option<Option<&'a str>>,
    pub profile: Profile,
    /// Whether words on standard error were asked for.
    pub verbose: bool,
    pub task: Task,
}

/// What the program is to do.
#[derive(Drop)]
pub enum Plan<'a> {
    Run(Run<'a>),
    /// Print this text, help or the version, which was asked for.
    Help(String),
    /// Print this text: the words are a mistake.
    Usage(String),
    /// Memory ran out before the words were understood.
    Memory,
}

/// What the words after the program's name ask for.
///
/// - `Run`: only where `clap` finds no fault in the words, and with just the names, the options, the position and the
///   profile that its matches give. The name `-` is standard input, as is a trace or a script that isn't named. The
///   profile is 1 where the words name none.
/// - `Help`: only where they ask for help or for the version.
/// - `Usage`: only where they are a mistake. `clap` finds it, or the profile is neither 1 nor 2, or the position is no
///   number as a script spells it, or two texts are standard input.
pub fn plan_of<'a>(alloc: Global, words: &'a [&'a str]) -> Plan<'a>
    ensures { Fits (map (λ w. w.now) words.entry.now) result }
{
    match run_named(alloc, words) {
        Ok(run) => Plan::Run(run),
        Err(error) => plan_for_error(alloc, &error),
    }
}

/// The run that the words name, or an error in the form of those of `clap`.
fn run_named<'a>(alloc: Global, words: &'a [&'a str]) -> Result<Run<'a>, Error>
    ensures run { IfOk result (λ r. NamesRun (map (λ w. w.now) words.entry.now) (run_of r)) }
    ensures none { IfErr result (NamesNone (map (λ w. w.now) words.entry.now)) }
{
    let matches = matches_of(alloc, words)?;
    match run_found(&matches) {
        Ok(run) => Ok(run),
        Err(mistake) => Err(command(alloc)?.error(ErrorKind::InvalidValue, mistake)?),
    }
}

/// What `clap` makes of the words.
fn matches_of<'a>(alloc: Global, words: &'a [&'a str]) -> Result<ArgMatches<'a>, Error>
    ensures found { IfOk result (λ m. subcommand_rows_of m
        ≡ subcommand_of capcheck (map (λ w. w.now) words.entry.now)) }
    ensures kinds { FailsBy (fault_of capcheck (map (λ w. w.now) words.entry.now)) result }
{
    command(alloc)?.try_get_matches_from(words)
}

/// The run that the matches name, or what is wrong with them.
fn run_found<'a>(matches: &ArgMatches<'a>) -> Result<Run<'a>, &'static str>
    ensures { option_map run_of (result_ok result) ≡ option_and_then run_in (subcommand_rows_of matches.now) }
{
    let (name, found) = matches.subcommand().ok_or(NO_COMMAND)?;
    run_for(task_in(name, found)?, found)
}

/// The run that a task and the arguments name.
fn run_for<'a>(task: Task, found: &ArgMatches<'a>) -> Result<Run<'a>, &'static str>
    ensures { option_map run_of (result_ok result) ≡ run_for (rows_of (found_of found.now)) task }
{
    let run = Run {
        start: start_in(found),
        trace: text_in(found, "trace"),
        script: script_in(&task, found),
        profile: profile_in(found)?,
        verbose: is_verbose(found),
        task,
    };
    if is_input_twice(&run) {
        return Err(INPUT_TWICE);
    }
    Ok(run)
}

/// What a command is to do, by its arguments.
fn task_in(name: &str, found: &ArgMatches<'_>) -> Result<Task, &'static str>
    ensures { result_ok result ≡ task_in name.now (rows_of (found_of found.now)) }
{
    match name {
        "check" => Ok(Task::Ask(Question::Findings)),
        "denials" => Ok(Task::Ask(Question::Denials)),
        "edit" => Ok(Task::Edit),
        "explain" => Ok(Task::Explain(place_in(found)?.ok_or(NO_POSITION)?)),
        "limits" => Ok(Task::Limits(place_in(found)?)),
        _ => Err(NO_COMMAND),
    }
}

/// Whether a text that a run may have is standard input.
fn is_input(text: Option<Option<&str>>) -> bool
    ensures { result ≡ is_input (option_map seen text.entry) }
{
    match text {
        Some(name) => name.is_none(),
        None => false,
    }
}

/// Whether two texts of a run are standard input.
fn is_input_twice(run: &Run<'_>) -> bool
    ensures { result ≡ is_input_twice (option_map seen run.now.start) (seen run.now.trace) (option_map seen run.now.script) }
{
    let start = is_input(run.start);
    let script = is_input(run.script);
    run.trace.is_none() && (start || script) || start && script
}

/// The start that the arguments name, where they name one.
fn start_in<'a>(found: &ArgMatches<'a>) -> Option<Option<&'a str>>
    ensures { option_map seen result ≡ start_among (rows_of (found_of found.now)) }
{
    Some(text_named(value(found, "start")?))
}

/// The script that the arguments name, where a task has one.
fn script_in<'a>(task: &Task, found: &ArgMatches<'a>) -> Option<Option<&'a str>>
    ensures { option_map seen result ≡ script_among task.now (rows_of (found_of found.now)) }
{
    match task {
        Task::Edit => Some(text_in(found, "script")),
        _ => None,
    }
}

/// The text that an argument names, and standard input where it is absent.
fn text_in<'a>(found: &ArgMatches<'a>, id: &str) -> Option<&'a str>
    ensures { seen result ≡ text_among id.now (rows_of (found_of found.now)) }
{
    text_named(value(found, id)?)
}

/// What a name stands for: `-` is standard input.
fn text_named(name: &str) -> Option<&str>
    ensures { seen result ≡ text_named name.now }
{
    match name {
        "-" => None,
        _ => Some(name),
    }
}

/// Whether the arguments ask for words.
fn is_verbose(found: &ArgMatches<'_>) -> bool
    ensures { result ≡ verbose_among (rows_of (found_of found.now)) }
{
    match value(found, "verbose") {
        Some(value) => value == "true",
        None => false,
    }
}

/// The position that the arguments name, where they name one.
fn place_in(found: &ArgMatches<'_>) -> Result<Option<usize>, &'static str>
    ensures { result_ok result ≡ place_among (rows_of (found_of found.now)) }
{
    match value(found, "position") {
        Some(word) => Ok(Some(number_of(word.as_bytes()).ok_or(NO_POSITION)?)),
        None => Ok(None),
    }
}

/// The profile that the arguments name.
fn profile_in(found: &ArgMatches<'_>) -> Result<Profile, &'static str>
    ensures { result_ok result ≡ profile_among (rows_of (found_of found.now)) }
{
    match value(found, "profile") {
        None | Some("1") => Ok(Profile::One),
        Some("2") => Ok(Profile::Two),
        Some(_) => Err(NO_PROFILE),
    }
}

/// The first value of an argument.
fn value<'a>(found: &ArgMatches<'a>, id: &str) -> Option<&'a str>
    ensures { seen result ≡ first_of id.now (rows_of (found_of found.now)) }
{
    found.get_str(id)
}

/// The answer to words that name no run.
fn plan_for_error<'a>(alloc: Global, error: &Error) -> Plan<'a>
    ensures { TellsKind (kind_of error.now) result }
{
    let kind = error.kind();
    if kind == ErrorKind::OutOfMemory {
        return Plan::Memory;
    }
    match error.to_string(alloc) {
        Ok(text) if is_request(kind) => Plan::Help(text),
        Ok(text) => Plan::Usage(text),
        Err(_) => Plan::Memory,
    }
}

/// Whether an error is no mistake, but an answer that was asked for.
fn is_request(kind: ErrorKind) -> bool
    ensures { IsTrue result ↔ IsRequest kind }
{
    matches!(kind, ErrorKind::DisplayHelp | ErrorKind::DisplayVersion)
}
