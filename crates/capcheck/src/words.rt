//! The command line, as `clap` is given it: the commands and their arguments. The texts of help are in `help`.
//!
//! The contract of [`command`] says that it builds the command line which `specs/CommandLine.antt` has as a value.
ghost use Rattle.std.specs.Prelude.{◌≡◌, IfOk, false};
ghost use Rattle.clap.specs.Words.{app_of, rule_of, shape_of};
ghost use Rattle.clap.specs.declared.builder.command.Command.TheViews.{out-Command};
ghost use Rattle.capcheck.specs.CommandLine.{asking_words, bare_words, capcheck, edit_words, editing_words};
ghost use Rattle.capcheck.specs.CommandLine.{explain_words, file_words, limits_words, reading_words, with_options};
ghost use Rattle.capcheck.specs.CommandLine.{with_start, word_rule};

use crate::help;
use clap::{Arg, ArgAction, Command};
use std::alloc::{AllocError, Global};

/// The command line of this program: `specs/CommandLine.antt` has it as a value.
pub fn command<'a>(alloc: Global) -> Result<Command<'a>, AllocError>
    ensures { IfOk result (λ c. app_of c ≡ capcheck) }
{
    editing_command(alloc)?
        .subcommand(explain_command(alloc)?)?
        .subcommand(limits_command(alloc)?)
}

/// The commands but for those that answer of a whole trace.
fn editing_command<'a>(alloc: Global) -> Result<Command<'a>, AllocError>
    ensures { IfOk result (λ c. app_of c ≡ editing_words) }
{
    asking_command(alloc)?.subcommand(edit_command(alloc)?)
}

/// The commands that read a trace as it comes.
fn asking_command<'a>(alloc: Global) -> Result<Command<'a>, AllocError>
    ensures { IfOk result (λ c. app_of c ≡ asking_words) }
{
    let findings = "Checks a trace, and prints its findings";
    let denials = "Shows what was lacking for calls that were refused";
    bare_command(alloc)?
        .subcommand(reading_command(alloc, "check", findings, help::CHECK)?)?
        .subcommand(reading_command(alloc, "denials", denials, help::DENIALS)?)
}

/// The program's own settings, with no command yet.
fn bare_command<'a>(alloc: Global) -> Result<Command<'a>, AllocError>
    ensures { IfOk result (λ c. app_of c ≡ bare_words) }
{
    Command::new(alloc, "capcheck")
        .about("Checks recorded system calls against the rights that FreeBSD's Capsicum gave")
        .after_help(help::PROGRAM)
        .version(help::VERSION)
        .no_binary_name(true)
        .subcommand_required(true)
        .bin_name("capcheck")
}

/// `NAME [FILE]`, with `--start` and the options.
fn reading_command<'a>(
    alloc: Global,
    name: &'a str,
    about: &'a str,
    after_help: &'a str,
) -> Result<Command<'a>, AllocError>
    ensures shape { IfOk result (λ c. shape_of c ≡ (reading_words name.entry.now).top) }
    ensures local { IfOk result (λ c. (out-Command c).has_globals ≡ false) }
{
    let help = "The trace; standard input where it is - or absent";
    let command = Command::new(alloc, name)
        .about(about)
        .after_help(after_help)
        .arg(word_arg(alloc, "trace", "FILE", help))?;
    with_start(alloc, command)
}

/// `NAME FILE`, with nothing else yet.
fn file_command<'a>(
    alloc: Global,
    name: &'a str,
    about: &'a str,
    after_help: &'a str,
) -> Result<Command<'a>, AllocError>
    ensures app { IfOk result (λ c. app_of c ≡ file_words name.entry.now) }
    ensures local { IfOk result (λ c. (out-Command c).has_globals ≡ false) }
{
    let help = "The trace; the file itself is not changed";
    Command::new(alloc, name)
        .about(about)
        .after_help(after_help)
        .arg(word_arg(alloc, "trace", "FILE", help).required(true))
}

/// `edit FILE [SCRIPT]`, with `--start` and the options.
fn edit_command<'a>(alloc: Global) -> Result<Command<'a>, AllocError>
    ensures shape { IfOk result (λ c. shape_of c ≡ edit_words.top) }
    ensures local { IfOk result (λ c. (out-Command c).has_globals ≡ false) }
{
    let about = "Replies to a script of commands on a trace";
    let help = "The script; standard input where it is - or absent";
    let command = file_command(alloc, "edit", about, help::EDIT)?.arg(word_arg(
        alloc, "script", "SCRIPT", help,
    ))?;
    with_start(alloc, command)
}

/// `explain FILE K`, with `--start` and the options.
fn explain_command<'a>(alloc: Global) -> Result<Command<'a>, AllocError>
    ensures shape { IfOk result (λ c. shape_of c ≡ explain_words.top) }
    ensures local { IfOk result (λ c. (out-Command c).has_globals ≡ false) }
{
    let about = "Shows a line of a trace with its findings, and the lines that they rest on";
    let help = "The line, counted from 1 without empty lines and comments";
    let command = file_command(alloc, "explain", about, help::EXPLAIN)?.arg(word_arg(
        alloc, "position", "K", help,
    ).required(true))?;
    with_start(alloc, command)
}

/// `limits FILE [K]`, with `--start` and the options.
fn limits_command<'a>(alloc: Global) -> Result<Command<'a>, AllocError>
    ensures shape { IfOk result (λ c. shape_of c ≡ limits_words.top) }
    ensures local { IfOk result (λ c. (out-Command c).has_globals ≡ false) }
{
    let about = "Writes a script that limits descriptors to the rights that later lines need";
    let help =
        "The line before which limits are put, counted as for explain; else after each line that made a descriptor";
    let command = file_command(alloc, "limits", about, help::LIMITS)?.arg(word_arg(
        alloc, "position", "K", help,
    ))?;
    with_start(alloc, command)
}

/// A command, with `--start` and the options.
fn with_start<'a>(alloc: Global, command: Command<'a>) -> Result<Command<'a>, AllocError>
    requires { (out-Command command).has_globals ≡ false }
    ensures shape { IfOk result (λ c. shape_of c ≡ (with_start (app_of command.entry)).top) }
    ensures local { IfOk result (λ c. (out-Command c).has_globals ≡ false) }
{
    let help = "What is known of processes before the trace; by default nothing";
    let start = word_arg(alloc, "start", "FILE", help)
        .short('s')
        .long("start");
    with_options(alloc, command.arg(start)?)
}

/// A command, with `--profile` and `--verbose`.
fn with_options<'a>(alloc: Global, command: Command<'a>) -> Result<Command<'a>, AllocError>
    requires { (out-Command command).has_globals ≡ false }
    ensures shape { IfOk result (λ c. shape_of c ≡ (with_options (app_of command.entry)).top) }
    ensures local { IfOk result (λ c. (out-Command c).has_globals ≡ false) }
{
    let help = "1, or 2 to follow close-on-exec flags and closefrom(2); by default 1";
    let profile = word_arg(alloc, "profile", "NUMBER", help)
        .short('p')
        .long("profile");
    let verbose = Arg::new(alloc, "verbose")
        .short('v')
        .long("verbose")
        .action(ArgAction::SetTrue)
        .help(
            "Says on standard error, in words, why there is no report; a terminal gets them in any case",
        );
    command.arg(profile)?.arg(verbose)
}

/// An argument with a value, without its option, and with what help calls that value and says of it.
fn word_arg<'a>(alloc: Global, id: &'a str, value: &'a str, help: &'a str) -> Arg<'a>
    ensures rule { rule_of result ≡ word_rule id.entry.now }
    ensures local { result.global ≡ false }
{
    Arg::new(alloc, id).value_name(value).help(help)
}
