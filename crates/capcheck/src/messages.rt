//! The words on standard error beside the codes: for each refusal and each failure a line that says where and what is
//! wrong. No contract reads them, and whether they can be written doesn't matter.
ghost use Rattle.std.specs.Prelude.{◌≡◌};

use crate::notes::{Notes, SCRIPT, START};
use crate::plan::{Run, Task};
use crate::wrong::{Kind, Shown, wrong_in};
use cap_session::ExplainOutcome::{self, Ended, OutOfRange};
use cap_session::{Outcome, Refused, number_of};
use std::alloc::Global;
use std::io::Write;
use std::{fmt, io};

/// So many characters of a name are shown.
const LONGEST_NAME: usize = 4096;

/// What people call the text of this name.
fn shown_name(name: Option<&str>) -> Shown<'_> {
    Shown {
        text: name.unwrap_or("standard input"),
        most: LONGEST_NAME,
    }
}

/// Why a device failed, as people say it.
#[derive(Clone, Copy)]
struct Reason(Option<io::Error>);

impl fmt::Display for Reason {
    fn fmt<W: fmt::Write>(&self, f: &mut fmt::Formatter<W>) -> fmt::Result {
        let Some(error) = self.0 else {
            return f.write_str("no more bytes are taken");
        };
        match error.kind() {
            io::ErrorKind::NotFound => f.write_str("no such file or directory"),
            io::ErrorKind::StorageFull => f.write_str("no space left on device"),
            io::ErrorKind::Uncategorized => fmt::Display::fmt(&error, f),
            kind => fmt::Display::fmt(&kind, f),
        }
    }
}

/// Notes what the words of a run are made of, before it begins.
pub fn begin(alloc: Global, notes: &Notes, run: &Run<'_>) {
    if run.verbose {
        notes.are_wanted.set(true);
    }
    if let (Some(script), true) = (run.script, notes.are_wanted.get())
        && let Ok(name) = shown_name(script).text.to_string(alloc)
    {
        let _ = notes.script.try_replace(Some(name));
    }
}

/// The text of a run that was opened or read last.
fn name_in<'a>(notes: &Notes, run: &Run<'a>) -> Shown<'a> {
    let named = match notes.at.get() {
        START => run.start,
        SCRIPT => run.script,
        _ => None,
    };
    shown_name(named.unwrap_or(run.trace))
}

/// Says why there is no report. Without a run no text was read.
pub fn tell<R: Eprint + AllocGlobal>(
    rt: &R,
    notes: &Notes,
    run: Option<&Run<'_>>,
    outcome: ExplainOutcome,
) {
    if !notes.are_wanted.get() {
        return;
    }
    let name = match run {
        Some(run) => name_in(notes, run),
        None => shown_name(None),
    };
    let _ = match outcome {
        OutOfRange => tell_no_line(rt, notes, name, run),
        Ended(Outcome::Clean | Outcome::Findings) => Ok(()),
        Ended(Outcome::Refused { code, line }) => {
            tell_line(rt, notes, name, Kind::Trace, line, code)
        }
        Ended(Outcome::StartRefused { code, line }) => {
            tell_line(rt, notes, name, Kind::Start, line, code)
        }
        Ended(Outcome::Memory) => eprintln!(rt; "capcheck: memory ran out"),
        Ended(Outcome::TooLong) => eprintln!(rt; "capcheck: {name}: it has no end"),
        Ended(Outcome::ReadFault) => {
            let reason = Reason(notes.error.get());
            eprintln!(rt; "capcheck: {name}: {reason}")
        }
        Ended(Outcome::WriteFault) => tell_output(rt, notes, run),
    };
}

/// Says why the output can't be written. A closed pipe is no news to one who closed it.
fn tell_output<R: Eprint>(rt: &R, notes: &Notes, run: Option<&Run<'_>>) -> io::Result<()> {
    let error = notes.error.get();
    let is_closed = error.is_some_and(|error| error.kind() == io::ErrorKind::BrokenPipe);
    if is_closed && !run.is_some_and(|run| run.verbose) {
        return Ok(());
    }
    let reason = Reason(error);
    eprintln!(rt; "capcheck: standard output: {reason}")
}

/// Says what is wrong with a refused line of a text of this kind.
fn tell_line<R: Eprint + AllocGlobal>(
    rt: &R,
    notes: &Notes,
    name: Shown<'_>,
    kind: Kind,
    line: usize,
    code: u8,
) -> io::Result<()> {
    let Ok(recent) = notes.recent.try_borrow() else {
        return Ok(());
    };
    let wrong = wrong_in(rt.alloc(), kind, recent.line(line), Refused::of_code(code));
    eprintln!(rt; "capcheck: {name}:{line}: E{code}: {wrong}")
}

/// Says that the trace has no line at the position of a run.
fn tell_no_line<R: Eprint>(
    rt: &R,
    notes: &Notes,
    name: Shown<'_>,
    run: Option<&Run<'_>>,
) -> io::Result<()> {
    let position = match run.map(|run| &run.task) {
        Some(Task::Explain(position) | Task::Limits(Some(position))) => *position,
        _ => return Ok(()),
    };
    let lines = match notes.recent.try_borrow() {
        Ok(recent) => recent.positions(),
        Err(_) => None,
    };
    match lines {
        Some(lines) => {
            eprintln!(rt;
                "capcheck: {name}: E7: there is no line {position}, of {lines} that are not skipped"
            )
        }
        None => eprintln!(rt; "capcheck: {name}: E7: there is no line {position}"),
    }
}

/// What a run writes, with words on standard error for each command of a script that is refused.
#[derive(Drop)]
pub struct Output<'a, W, R> {
    printer: W,
    rt: &'a R,
    notes: &'a Notes,
}

impl<'a, W, R> Output<'a, W, R> {
    pub fn new(printer: W, rt: &'a R, notes: &'a Notes) -> Output<'a, W, R>
        ensures { result.printer ≡ printer }
    {
        Output { printer, rt, notes }
    }
}

impl<W: Write, R: Eprint + AllocGlobal> Write for Output<'_, W, R> {
    ghost contents = { λ s. W.contents s.printer };

    fn write(&mut self, buf: &[u8]) -> io::Result<usize> {
        match self.printer.write(buf) {
            Ok(n) => {
                if n == buf.len() {
                    tell_reply(self.rt, self.notes, buf);
                }
                Ok(n)
            }
            Err(error) => {
                self.notes.error.set(Some(error));
                Err(error)
            }
        }
    }

    fn flush(&mut self) -> io::Result<()> {
        self.printer.flush()
    }
}

/// Says why a command is refused, where a script is replied to and this is the reply, or its end.
fn tell_reply<R: Eprint + AllocGlobal>(rt: &R, notes: &Notes, reply: &[u8]) {
    let Ok(script) = notes.script.try_borrow() else {
        return;
    };
    let (Some(script), SCRIPT) = (&*script, notes.at.get()) else {
        return;
    };
    let position = notes.replies.get().saturating_add(1);
    notes.replies.set(position);
    if let Some(code) = code_in(reply)
        && let Some(line) = line_of(notes, position)
    {
        let name = shown_name(Some(script.as_str()));
        let _ = tell_line(rt, notes, name, Kind::Script, line, code);
    }
}

/// The line of a script that has this position.
fn line_of(notes: &Notes, position: usize) -> Option<usize> {
    notes.recent.try_borrow().ok()?.line_of(position)
}

/// The code of a reply that refuses a command.
fn code_in(reply: &[u8]) -> Option<u8> {
    let code = reply.strip_prefix(b"refused E")?.strip_suffix(b"\n")?;
    match number_of(code) {
        Some(code) if code <= 10 => Some(code as u8),
        _ => None,
    }
}
