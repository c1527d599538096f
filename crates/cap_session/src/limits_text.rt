//! The limits of a trace as the text of a script that puts them in.
ghost use Rattle.std.specs.Prelude.{◌≡◌, ◌⊎◌, ◌↔◌, ◌++◌, ◌+◌, ◌<◌, ◌^◌, length, map, IfOk, OnOk, OnErr, IsTrue, Err, List};
ghost use Rattle.std.specs.Prelude.{codes, decimal, option_copied};
ghost use Rattle.std.specs.List.{All};
ghost use Rattle.cap_trace.specs.Entry.{Entry};
ghost use Rattle.cap_limits.specs.Limits.{row_of};
ghost use Rattle.cap_machine.specs.Report.{line_of_words};
ghost use Rattle.cap_limits.specs.declared.makers.MakerRow.{MakerRow};
ghost use Rattle.cap_limits.specs.Makers.{row_place};
ghost use Rattle.cap_session.specs.LimitScripts.{limit_line, enter_line, made_words, maker_line, maker_lines, words_of, comment};
ghost use Rattle.cap_session.specs.LimitScripts.{insertion, insertions, script_text, place_words, unknown_words};
ghost use Rattle.cap_session.specs.LimitScripts.{unknown_lines, inside_words, blocked_words, call_text, entering_line};
ghost use Rattle.cap_session.specs.LimitScripts.{begins_words, beginning_script};
ghost use Rattle.cap_session.specs.LimitStreams.{limits_script, IsMakersText, IsProcessText, IsLimitsText, IsOutside};

use crate::refused::Refused;
use crate::trace::is_position;
use crate::wording::put_between;
use cap_limits::{
    Entering, Limit, Limits, LimitsBefore, MakerLimit, MakerRow, limits_before, limits_of_makers,
};
use cap_machine::{NoMemory, Profile, Start};
use cap_rights::{RightSet, write_rights};
use cap_trace::{Fd, Line, Pid, put_number};
use std::alloc::Global;

/// Appends how a line of a script begins that puts in at a position a line of a process.
fn put_insert(out: &mut Vec<u8>, at: usize, pid: Pid) -> Result<(), NoMemory>
    ensures { OnOk result (out.new.items
        ≡ out.old.items ++ (codes "insert " ++ (decimal at ++ (codes " " ++ decimal pid)))) }
{
    put_between(out, b"insert ", at as u64, b" ")?;
    put_number(out, u64::from(pid))?;
    Ok(())
}

/// Appends the line of a script that puts in at a position the line by which a process limits a descriptor.
fn put_insertion(
    out: &mut Vec<u8>,
    at: usize,
    pid: Pid,
    fd: Fd,
    rights: &RightSet,
) -> Result<(), NoMemory>
    ensures { OnOk result (out.new.items
        ≡ out.old.items ++ line_of_words (words_of (insertion at (limit_line pid (fd, rights.now))))) }
{
    put_insert(out, at, pid)?;
    put_between(out, b" cap_rights_limit(", u64::from(fd), b",")?;
    write_rights(rights, out)?;
    out.extend_from_slice(b") RET 0\n")?;
    Ok(())
}

/// Appends for which descriptor a comment is, and which line made it.
fn put_made(out: &mut Vec<u8>, limit: &MakerLimit) -> Result<(), NoMemory>
    ensures { OnOk result (out.new.items ≡ out.old.items
        ++ (codes "# descriptor " ++ (decimal limit.now.fd ++ (codes " of process " ++ (decimal limit.now.pid
        ++ (codes ", made at line " ++ decimal limit.now.at)))))) }
{
    put_between(out, b"# descriptor ", u64::from(limit.fd), b" of process ")?;
    put_number(out, u64::from(limit.pid))?;
    out.extend_from_slice(b", made at line ")?;
    put_number(out, limit.at as u64)?;
    Ok(())
}

/// Appends the comment that says what later calls need of an unknown descriptor that a line made.
fn put_made_needed(out: &mut Vec<u8>, limit: &MakerLimit) -> Result<(), NoMemory>
    ensures { OnOk result (out.new.items ≡ out.old.items ++ line_of_words (words_of (comment (made_words limit.now)))) }
{
    put_made(out, limit)?;
    out.extend_from_slice(b", isn't known; later calls need ")?;
    write_rights(&limit.rights, out)?;
    out.extend_from_slice(b"\n")?;
    Ok(())
}

/// Appends the line of a script that puts a limit right after the line that made its descriptor, or that comment.
fn put_maker(out: &mut Vec<u8>, row: &MakerRow) -> Result<(), NoMemory>
    requires { (row_place row.now).0 < 2 ^ 63 }
    ensures { OnOk result (out.new.items ≡ out.old.items ++ line_of_words (words_of (maker_line row.now))) }
{
    match row {
        MakerRow::Held(limit) => {
            put_insertion(out, limit.at + 1, limit.pid, limit.fd, &limit.rights)
        }
        MakerRow::Unknown(limit) => put_made_needed(out, limit),
    }
}

/// The script of limits, each right after a line, with a comment on each unknown descriptor that is needed.
fn script_of(alloc: Global, rows: &[MakerRow]) -> Result<Vec<u8>, NoMemory>
    requires { All (λ (row : MakerRow). (row_place row).0 < 2 ^ 63) rows.now }
    ensures { IfOk result (λ text. text.items ≡ maker_lines rows.now) }
{
    let mut text = Vec::new(alloc);
    for row in rows {
        put_maker(&mut text, row)?;
    }
    Ok(text)
}

/// The script of the least rights of each descriptor that a trace makes, right after the line that made it, with a comment
/// on each that isn't known and of which later lines need something.
fn makers_text(
    alloc: Global,
    profile: Profile,
    start: &Start,
    lines: &Vec<Line>,
) -> Result<Vec<u8>, NoMemory>
    ensures { IfOk result (λ text. IsMakersText profile start.now lines.now.items text.items) }
{
    let all = lines.as_slice();
    let rows = limits_of_makers(alloc, profile, start, all)?;
    let text = script_of(alloc, rows.as_slice())?;
    Ok(text)
}

/// Appends the comment that says for which process and before which line the limits are.
fn put_place(out: &mut Vec<u8>, pid: Pid, at: usize) -> Result<(), NoMemory>
    ensures { OnOk result (out.new.items ≡ out.old.items ++ line_of_words (words_of (comment (place_words pid at)))) }
{
    put_between(out, b"# process ", u64::from(pid), b" before line ")?;
    put_number(out, at as u64)?;
    out.extend_from_slice(b"\n")?;
    Ok(())
}

/// Appends the limits of a process: the first is put in at a position, and each other after the one before.
fn put_limits(out: &mut Vec<u8>, at: usize, pid: Pid, limits: &[Limit]) -> Result<(), NoMemory>
    requires { at + length limits.now < 2 ^ 64 }
    ensures { OnOk result (out.new.items
        ≡ out.old.items ++ script_text (insertions at (map (limit_line pid) (map row_of limits.now)))) }
{
    let mut next = at;
    for limit in limits {
        put_insertion(out, next, pid, limit.fd, &limit.rights)?;
        next += 1;
    }
    Ok(())
}

/// Appends the comment that says what later calls need of an unknown descriptor.
fn put_needed(out: &mut Vec<u8>, limit: &Limit) -> Result<(), NoMemory>
    ensures { OnOk result (out.new.items
        ≡ out.old.items ++ line_of_words (words_of (comment (unknown_words (row_of limit.now))))) }
{
    let known = b" isn't known; later calls need ";
    put_between(out, b"# descriptor ", u64::from(limit.fd), known)?;
    write_rights(&limit.rights, out)?;
    out.extend_from_slice(b"\n")?;
    Ok(())
}

/// Appends such a comment for each of these.
fn put_unknown(out: &mut Vec<u8>, limits: &[Limit]) -> Result<(), NoMemory>
    ensures { OnOk result (out.new.items
        ≡ out.old.items ++ script_text (unknown_lines (map row_of limits.now))) }
{
    for limit in limits {
        put_needed(out, limit)?;
    }
    Ok(())
}

/// Appends the line of a script by which a process enters capability mode at a position.
fn put_entry(out: &mut Vec<u8>, at: usize, pid: Pid) -> Result<(), NoMemory>
    ensures { OnOk result (out.new.items ≡ out.old.items ++ line_of_words (words_of (insertion at (enter_line pid)))) }
{
    put_insert(out, at, pid)?;
    out.extend_from_slice(b" cap_enter() RET 0\n")?;
    Ok(())
}

/// Appends the comment that says that a process is in capability mode already.
fn put_inside(out: &mut Vec<u8>, pid: Pid) -> Result<(), NoMemory>
    ensures { OnOk result (out.new.items ≡ out.old.items ++ line_of_words (words_of (comment (inside_words pid)))) }
{
    let is_inside = b" is in capability mode already\n";
    put_between(out, b"# process ", u64::from(pid), is_inside)
}

/// Appends the comment that says that a process begins with the line at a position.
fn put_beginning(out: &mut Vec<u8>, pid: Pid, at: usize) -> Result<(), NoMemory>
    ensures { OnOk result (out.new.items ≡ out.old.items ++ line_of_words (words_of (comment (begins_words pid at)))) }
{
    put_between(out, b"# line ", at as u64, b" is where process ")?;
    put_number(out, u64::from(pid))?;
    out.extend_from_slice(b" begins\n")?;
    Ok(())
}

/// Appends the call and the process of the line that is in the way.
fn put_call(out: &mut Vec<u8>, line: Option<&Line>) -> Result<(), NoMemory>
    ensures { OnOk result (out.new.items ≡ out.old.items ++ call_text (option_copied line.entry)) }
{
    if let Some(line) = line {
        out.extend_from_slice(b", ")?;
        out.extend_from_slice(line.name())?;
        out.extend_from_slice(b" of process ")?;
        put_number(out, u64::from(line.pid()))?;
    }
    Ok(())
}

/// Appends the comment that says which line is in the way of capability mode.
fn put_blocked(out: &mut Vec<u8>, at: usize, line: Option<&Line>) -> Result<(), NoMemory>
    ensures { OnOk result (out.new.items
        ≡ out.old.items ++ line_of_words (words_of (comment (blocked_words at (option_copied line.entry))))) }
{
    out.extend_from_slice(b"# no cap_enter: line ")?;
    put_number(out, at as u64)?;
    put_call(out, line)?;
    out.extend_from_slice(b"\n")?;
    Ok(())
}

/// Appends what is said of a process's entering capability mode, or its line, put in at a position.
fn put_entering(
    out: &mut Vec<u8>,
    lines: &[Line],
    pid: Pid,
    at: usize,
    entering: Entering,
) -> Result<(), NoMemory>
    ensures { OnOk result (out.new.items
        ≡ out.old.items ++ line_of_words (words_of (entering_line lines.now pid at entering))) }
{
    match entering {
        Entering::May => put_entry(out, at, pid),
        Entering::Inside => put_inside(out, pid),
        Entering::Blocked(line) => put_blocked(out, line, lines.get(line.saturating_sub(1))),
    }
}

/// The script of the limits of a process before the line at a position.
fn limits_text(
    alloc: Global,
    lines: &[Line],
    at: usize,
    limits: &Limits,
) -> Result<Vec<u8>, NoMemory>
    requires { at + length limits.now.held.items < 2 ^ 64 }
    ensures { IfOk result (λ text. text.items ≡ script_text (limits_script lines.now at limits.now)) }
{
    let pid = limits.pid;
    let held = limits.held.as_slice();
    let next = at + held.len();
    let mut text = Vec::new(alloc);
    put_place(&mut text, pid, at)?;
    put_limits(&mut text, at, pid, held)?;
    put_unknown(&mut text, limits.unknown.as_slice())?;
    put_entering(&mut text, lines, pid, next, limits.entering)?;
    Ok(text)
}

/// The script before the line at a position, with which a process begins.
fn beginning_text(alloc: Global, pid: Pid, at: usize) -> Result<Vec<u8>, NoMemory>
    ensures { IfOk result (λ text. text.items ≡ script_text (beginning_script pid at)) }
{
    let mut text = Vec::new(alloc);
    put_place(&mut text, pid, at)?;
    put_beginning(&mut text, pid, at)?;
    Ok(text)
}

/// Whether a position was asked for at which a trace of so many lines has none.
pub fn is_outside(at: Option<usize>, count: usize) -> bool
    ensures { (lines : List Entry) → length lines ≡ count → IsTrue result ↔ IsOutside at lines }
{
    match at {
        Some(at) => !is_position(at, count),
        None => false,
    }
}

/// The script of the least rights of the descriptors of the process of a line, before that line.
fn process_text(
    alloc: Global,
    profile: Profile,
    start: &Start,
    lines: &[Line],
    at: usize,
) -> Result<Vec<u8>, Refused>
    ensures text { IfOk result (λ text. IsProcessText profile start.now lines.now at text.items) }
    ensures position { (result ≡ Err Refused.Position) ↔ IsOutside (Some at) lines.now }
    ensures only { OnErr result ((result ≡ Err Refused.Position) ⊎ (result ≡ Err Refused.Memory)) }
{
    if is_outside(Some(at), lines.len()) {
        return Err(Refused::Position);
    }
    let limits = limits_before(alloc, profile, start, lines, at)?;
    match limits {
        LimitsBefore::NoLine => Err(Refused::Position),
        LimitsBefore::Begins(pid) => Ok(beginning_text(alloc, pid, at)?),
        LimitsBefore::Limits(limits) => Ok(limits_text(alloc, lines, at, &limits)?),
    }
}

/// The script of the least rights of a trace: right after each line that made a descriptor; or before the line at a
/// position, of the descriptors of its process.
///
/// `Position` where there is no such line, and `Memory` where memory runs out.
pub fn limits_among(
    alloc: Global,
    profile: Profile,
    start: &Start,
    lines: &Vec<Line>,
    at: Option<usize>,
) -> Result<Vec<u8>, Refused>
    ensures text { IfOk result (λ text. IsLimitsText profile at start.now lines.now.items text.items) }
    ensures position { (result ≡ Err Refused.Position) ↔ IsOutside at lines.now.items }
    ensures only { OnErr result ((result ≡ Err Refused.Position) ⊎ (result ≡ Err Refused.Memory)) }
{
    match at {
        Some(at) => process_text(alloc, profile, start, lines.as_slice(), at),
        None => Ok(makers_text(alloc, profile, start, lines)?),
    }
}
