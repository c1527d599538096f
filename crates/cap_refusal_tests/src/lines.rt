//! Rights and lines.

use crate::marks::{Mark, lacked, right};
use cap_machine::{Finding, put_count, put_finding};
use cap_rights::{NoMemory, RightSet, parse_rights, write_rights};
use cap_trace::{Line, LineFault, parse_line, put_number, write_line};
use std::alloc::Global;
use std::test::Fail;

/// Texts of rights.
static RIGHTS: [&str; 4] = [
    "NONE",
    "ALL",
    "CAP_READ",
    "CAP_READ|CAP_WRITE|CAP_SEEK|CAP_FSTAT",
];

/// Lines of several shapes.
static LINES: [&str; 12] = [
    "100 @start()",
    "100 @start(0,3,17)",
    "100 @exit()",
    "100 read(3) RET 1",
    "100 open(\"a/long/path\\\"b\",O_RDONLY|O_CREAT) RET 3",
    "100 openat(3,\"a/longer/path/b\",O_RDONLY) RET 5",
    "100 renameat(3,\"a\",4,\"a/longer/path/b\") RET 0",
    "100 linkat(AT_FDCWD,\"a\",4,\"b\",0) RET 0",
    "100 mmap(3,PROT_READ|PROT_WRITE,MAP_SHARED|MAP_FIXED) RET 4096",
    "100 cap_rights_limit(3,CAP_READ|CAP_SEEK) RET 0",
    "100 fcntl(3,F_DUPFD_CLOEXEC) RET 4",
    "100 sched_setscheduler(any arguments at all) RET -1 errno 9",
];

/// What is written after other text.
#[derive(Drop)]
enum Part<'a> {
    Rights(&'a RightSet),
    Line(&'a Line),
    /// The line of a finding on a line.
    Forbidden(&'a Line),
    /// The last line of a report with so many findings.
    Count(usize),
    Number(u64),
}

/// Writes it.
fn put(part: &Part<'_>, out: &mut Vec<u8>) -> Result<(), NoMemory> {
    match part {
        Part::Rights(rights) => write_rights(rights, out),
        Part::Line(line) => write_line(line, out),
        Part::Forbidden(line) => put_finding(out, 7, &line.view(), &Finding::Forbidden),
        Part::Count(count) => put_count(out, *count),
        Part::Number(number) => Ok(put_number(out, *number)?),
    }
}

/// Writes something, in a second call where the first lacks memory: it is this text, after what was written before. A
/// refused call left that.
fn write(alloc: Global, part: &Part<'_>, before: &str, text: &str) -> Result<(), Fail> {
    let mut out = Vec::from_slice(alloc, before.as_bytes())?;
    Mark::Begin.set(alloc);
    let mut written = put(part, &mut out);
    let mut is_left = true;
    if lacked(alloc, written.is_err()) {
        is_left = out.as_slice() == before.as_bytes();
        written = put(part, &mut out);
    }
    let is_right = is_left
        && written.is_ok()
        && out.strip_prefix(before.as_bytes()) == Some(text.as_bytes());
    drop(out);
    right(alloc, is_right, text)
}

#[test]
fn write_rights_refused(rt: HostRuntime) -> Result<(), Fail> {
    for text in &RIGHTS {
        let rights = parse_rights(text.as_bytes())?;
        write(rt.alloc(), &Part::Rights(&rights), "before ", text)?;
    }
    Ok(())
}

/// Whether a line has this text, and there is memory for it.
pub fn is_text(alloc: Global, line: &Line, text: &str) -> bool {
    let mut out = Vec::new(alloc);
    let is_written = write_line(line, &mut out).is_ok();
    let is_text = is_written && out.as_slice() == text.as_bytes();
    drop(out);
    is_text
}

/// Whether a text is read as its line, in a second call where the first lacks memory.
fn parses(alloc: Global, text: &str) -> bool {
    Mark::Begin.set(alloc);
    let first = parse_line(alloc, text.as_bytes());
    let line = if lacked(alloc, matches!(first, Err(LineFault::Memory))) {
        parse_line(alloc, text.as_bytes())
    } else {
        first
    };
    match line {
        Ok(line) => {
            let is_text = is_text(alloc, &line, text);
            drop(line);
            is_text
        }
        Err(_) => false,
    }
}

#[test]
fn parse_line_refused(rt: HostRuntime) -> Result<(), Fail> {
    for text in &LINES {
        right(rt.alloc(), parses(rt.alloc(), text), text)?;
    }
    Ok(())
}

/// Writes the line of a text.
fn rewrite(alloc: Global, text: &str) -> Result<(), Fail> {
    let line = parse_line(alloc, text.as_bytes())?;
    let result = write(alloc, &Part::Line(&line), "", text);
    drop(line);
    result
}

#[test]
fn write_line_refused(rt: HostRuntime) -> Result<(), Fail> {
    for text in &LINES {
        rewrite(rt.alloc(), text)?;
    }
    Ok(())
}

#[test]
fn put_finding_refused(rt: HostRuntime) -> Result<(), Fail> {
    let line = parse_line(rt.alloc(), b"100 read(3) RET 1")?;
    let part = Part::Forbidden(&line);
    let result = write(rt.alloc(), &part, " ", "7 100 read forbidden\n");
    drop(line);
    result
}

#[test]
fn put_count_refused(rt: HostRuntime) -> Result<(), Fail> {
    write(rt.alloc(), &Part::Count(1), " ", "findings 1\n")
}

#[test]
fn put_number_refused(rt: HostRuntime) -> Result<(), Fail> {
    write(
        rt.alloc(),
        &Part::Number(u64::MAX),
        " ",
        "18446744073709551615",
    )
}
