//! Worked start texts: what is known of each process, and the fault of each text that isn't good.

use crate::answers::wanted;
use cap_machine::{Cell, Mode, OnExec, Profile, Start, check};
use cap_rights::parse_rights;
use cap_session::{StartFault, parse_start};
use cap_trace::parse_line;
use std::alloc::Global;
use std::test::Fail;

/// A text with a process, a comment, an empty line and another process; the last line has no LF.
const GOOD: &[u8] =
    b"# before\n100 out closed 0=ALL 3=CAP_READ|CAP_SEEK 5=unknown\n\n101 in NONE 0=closed";

/// Descriptors in that text, and their cells as a text spells them.
static CELLS: [(u32, u32, &[u8]); 8] = [
    (100, 5, b"unknown"),
    (100, 4, b"closed"),
    (100, 1_048_575, b"closed"),
    (101, 0, b"closed"),
    (102, 0, b"unknown"),
    (100, 0, b"ALL"),
    (100, 3, b"CAP_READ|CAP_SEEK"),
    (101, 1, b"NONE"),
];

/// Whether a cell is that of a word.
fn is_spelled(cell: Cell, word: &[u8]) -> bool {
    match cell {
        Cell::Closed => word == b"closed".as_slice(),
        Cell::Unknown => word == b"unknown".as_slice(),
        Cell::Held(rights, on_exec) => {
            on_exec == OnExec::Unsure && parse_rights(word) == Ok(rights)
        }
    }
}

/// Whether a start has those cells.
fn has_cells(start: &Start) -> bool {
    for (pid, fd, word) in &CELLS {
        if !is_spelled(start.cell(*pid, *fd), word) {
            return false;
        }
    }
    true
}

#[test]
fn modes_and_cells_of_a_start_are_read(rt: HostRuntime) -> Result<(), Fail> {
    let start = parse_start(rt.alloc(), GOOD)?;
    let is_read = has_cells(&start)
        && start.mode(100) == Mode::Outside
        && start.mode(101) == Mode::Inside
        && start.mode(102) == Mode::Unsure;
    drop(start);
    wanted(is_read, "modes and cells")
}

/// Texts, and of those that are refused the code and the number of their first refused line.
static TEXTS: [(&[u8], Option<(u8, usize)>); 61] = [
    // Good ones.
    (b"", None),
    (b"\n\n", None),
    (b"# 100 up closed", None),
    (b"1 unsure unknown", None),
    (b"99999 in closed 1048575=ALL", None),
    (b"100 out closed\n101 out closed\n", None),
    (b"100 out ALL 0=NONE 1=CAP_READ|CAP_READ", None),
    (b"9 out closed\n10 out closed", None),
    (b"100 out closed 9=ALL 10=ALL", None),
    // Refused ones.
    (b"101 out closed\n100 out closed", Some((3, 2))),
    (b"100 out closed\n100 out closed", Some((3, 2))),
    (b"100 up closed", Some((4, 1))),
    (b"100 out", Some((4, 1))),
    (b"100 out closed 3", Some((4, 1))),
    (b"100 out closed 3=ALL 3=ALL", Some((4, 1))),
    (b"100 out open", Some((5, 1))),
    (b"100 out closed 0=CAP_SEEK_TELL", Some((5, 1))),
    // A field is missing, or empty.
    (b"100", Some((4, 1))),
    (b"100 ", Some((4, 1))),
    (b"100 out ", Some((5, 1))),
    (b"100 out closed ", Some((4, 1))),
    (b"100 out closed 3=", Some((5, 1))),
    (b"100 out closed =ALL", Some((4, 1))),
    (b" ", Some((3, 1))),
    (b" 100 out closed", Some((3, 1))),
    // A word is cut at its first `=`.
    (b"100 out closed 3=ALL=ALL", Some((5, 1))),
    (b"100 out closed 3==ALL", Some((5, 1))),
    // Pids.
    (b"0 out closed", Some((3, 1))),
    (b"100000 out closed", Some((3, 1))),
    (b"0100 out closed", Some((3, 1))),
    (b"+1 out closed", Some((3, 1))),
    (b"18446744073709551716 out closed", Some((3, 1))),
    (b"x", Some((3, 1))),
    (b"\r\n", Some((3, 1))),
    (b"100\tout closed", Some((3, 1))),
    // The first bad field from the left decides.
    (b"x up open", Some((3, 1))),
    (b"100 up open", Some((4, 1))),
    (b"100 out open 3", Some((5, 1))),
    (b"100 out closed 3=open 2", Some((5, 1))),
    (b"100 out closed 3 4=open", Some((4, 1))),
    (b"100 out closed 3=ALL 3=open", Some((4, 1))),
    // Modes and cells in full.
    (b"100 Out closed", Some((4, 1))),
    (b"100 outside closed", Some((4, 1))),
    (b"100 out Closed", Some((5, 1))),
    (b"100 out all", Some((5, 1))),
    (b"100 out CAP_READ|", Some((5, 1))),
    // Descriptors.
    (b"100 out closed 1048576=ALL", Some((4, 1))),
    (b"100 out closed 03=ALL", Some((4, 1))),
    (b"100 out closed 4=ALL 3=ALL", Some((4, 1))),
    (b"100 out closed 10=ALL 9=ALL", Some((4, 1))),
    (b"100 out closed -1=ALL", Some((4, 1))),
    // One space between words, and nothing after the last.
    (b"100  out closed", Some((4, 1))),
    (b"100 out  closed", Some((5, 1))),
    (b"100 out closed  3=ALL", Some((4, 1))),
    (b"100 out closed\r\n", Some((5, 1))),
    // Skipped lines are counted, and a line that is refused ends the text.
    (
        b"# a\n\n100 out closed\n\n# b\n99 out closed\nx",
        Some((3, 6)),
    ),
    (b"100 out closed\n #", Some((3, 2))),
    // A line has at most 1,024 bytes, comments included.
    (&[b'#'; 1025], Some((1, 1))),
    (&[b'x'; 1025], Some((1, 1))),
    (&[b'x'; 1024], Some((3, 1))),
    (&[b'#'; 1024], None),
];

/// Whether a text is read, or refused so.
fn is_answered(alloc: Global, text: &[u8], refused: Option<(u8, usize)>) -> bool {
    match (parse_start(alloc, text).err(), refused) {
        (Some(StartFault::Bad { code, line }), Some(fault)) => fault == (code, line),
        (None, None) => true,
        _ => false,
    }
}

#[test]
fn good_texts_are_read_and_others_refused(rt: HostRuntime) -> Result<(), Fail> {
    for (text, refused) in &TEXTS {
        wanted(is_answered(rt.alloc(), text, *refused), "a text of a start")?;
    }
    Ok(())
}

/// Starts, the one line of a trace, and how many findings it has.
static CHECKED: [(&[u8], &[u8], usize); 3] = [
    (b"100 out closed 0=ALL", b"100 read(3) RET 1", 1),
    (b"100 in unknown", b"100 open(\"a\",O_RDONLY) RET 3", 1),
    (b"", b"100 write(7) RET 5", 0),
];

/// Whether a line has so many findings from a start.
fn finds(alloc: Global, start: &Start, line: &[u8], count: usize) -> Result<bool, Fail> {
    let lines = [parse_line(alloc, line)?];
    Ok(check(alloc, Profile::One, start, &lines)?.len() == count)
}

/// Whether a line has so many findings from the start of a text.
fn finds_from(alloc: Global, text: &[u8], line: &[u8], count: usize) -> Result<bool, Fail> {
    let start = parse_start(alloc, text)?;
    let finds = finds(alloc, &start, line, count);
    drop(start);
    finds
}

#[test]
fn a_trace_is_checked_from_a_start(rt: HostRuntime) -> Result<(), Fail> {
    for (text, line, count) in &CHECKED {
        let finds = finds_from(rt.alloc(), text, line, *count)?;
        wanted(finds, "the findings from a start")?;
    }
    Ok(())
}
