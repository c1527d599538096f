//! Parts of lines and lines that are made.

use crate::calls::{Call, tried};
use crate::lines::is_text;
use crate::marks::{Mark, lacked, right};
use cap_machine::NoMemory;
use cap_trace::{Answer, Fds, Item, Line, LineFault, Path, fds_of};
use std::alloc::Global;
use std::test::Fail;

/// A part of a line.
#[derive(Clone, Copy)]
pub enum Made {
    Path,
    Escaped,
    Unescaped,
    Fds,
}

/// Parts, and their bytes.
static MADE: [(Made, &str); 4] = [
    (Made::Path, "a/long/path\\x0ab"),
    (Made::Escaped, "a/long/path\\x0ab\\\""),
    (Made::Unescaped, "a/long/path\nb"),
    (Made::Fds, "0,3,17"),
];

/// A copy of these bytes.
fn copied(alloc: Global, bytes: &[u8]) -> Result<Vec<u8>, LineFault> {
    match Vec::from_slice(alloc, bytes) {
        Ok(copy) => Ok(copy),
        Err(_) => Err(LineFault::Memory),
    }
}

/// The bytes of a part that is made.
fn bytes_of(alloc: Global, part: Made) -> Result<Vec<u8>, LineFault> {
    match part {
        Made::Escaped => copied(alloc, Path::escape(alloc, b"a/long/path\nb\"")?.as_bytes()),
        Made::Unescaped => match Path::new(alloc, b"a/long/path\\x0ab")?.unescape(alloc) {
            Ok(bytes) => Ok(bytes),
            Err(_) => Err(LineFault::Memory),
        },
        Made::Path => copied(alloc, Path::new(alloc, b"a/long/path\\x0ab")?.as_bytes()),
        Made::Fds => copied(alloc, Fds::new(alloc, &[0, 3, 17])?.as_bytes()),
    }
}

/// Makes a part of a line: whether it has these bytes.
pub fn makes(alloc: Global, part: Made, wanted: &str) -> Result<bool, NoMemory> {
    match &bytes_of(alloc, part) {
        Ok(bytes) => Ok(bytes.as_slice() == wanted.as_bytes()),
        Err(LineFault::Memory) => Err(NoMemory),
        Err(_) => Ok(false),
    }
}

#[test]
fn parts_refused(rt: HostRuntime) -> Result<(), Fail> {
    for (part, wanted) in &MADE {
        tried(rt.alloc(), &Call::Make(*part, wanted), wanted)?;
    }
    Ok(())
}

/// Reads the descriptors of a start: whether they are two.
pub fn lists_fds(alloc: Global) -> Result<bool, NoMemory> {
    let fds = fds_of(alloc, b"0,3")?;
    Ok(fds.as_slice() == [0, 3].as_slice())
}

#[test]
fn fds_refused(rt: HostRuntime) -> Result<(), Fail> {
    tried(rt.alloc(), &Call::Fds, "two descriptors")
}

/// The line of a call that opens a file.
fn open_line(alloc: Global) -> Result<Option<Line>, NoMemory> {
    let call = cap_trace::Call::Open(b"a/long/path\\x0a", b"O_RDONLY");
    let answer = Answer::Made(3);
    Line::new(alloc, 100, &Item::Call { call, answer })
}

#[test]
fn line_new_refused(rt: HostRuntime) -> Result<(), Fail> {
    let text = "100 open(\"a/long/path\\x0a\",O_RDONLY) RET 3";
    Mark::Begin.set(rt.alloc());
    let first = open_line(rt.alloc());
    let made = if lacked(rt.alloc(), first.is_err()) {
        open_line(rt.alloc())
    } else {
        first
    };
    let is_right = match made {
        Ok(Some(line)) => {
            let is_text = is_text(rt.alloc(), &line, text);
            drop(line);
            is_text
        }
        _ => false,
    };
    right(rt.alloc(), is_right, "the line that is made")
}
