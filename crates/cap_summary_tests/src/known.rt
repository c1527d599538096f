//! What is known of worked traces.

use crate::traces::sum_of;
use cap_machine::{Cell, Mode, Profile, Start};
use cap_summary::Key::{self, Fd};
use cap_summary::Summary;
use std::alloc::Global;
use std::test::Fail;

/// A child of a process in capability mode opens a file.
const OPEN: &str = "100 cap_enter() RET 0\n100 fork() RET 101\n101 open(\"x\",O_RDONLY) RET 3";

/// A trace, and whether something is found in it where nothing is known before it. A process, and one of its
/// descriptors or its mode: whether that is closed, or inside, after the trace; and whether it is left.
type Row = (&'static str, bool, u32, Key, bool, bool);

static KNOWN: [Row; 9] = [
    ("", false, 100, Fd(3), false, true),
    ("100 read(4) RET 1", false, 100, Key::Mode, false, true),
    ("100 close(4) RET 0", false, 100, Fd(4), true, false),
    ("100 closefrom(4) RET 0", false, 100, Fd(5), true, false),
    ("100 closefrom(4) RET 0", false, 100, Fd(3), false, true),
    ("100 fork() RET 101", false, 101, Fd(3), false, false),
    (OPEN, true, 100, Key::Mode, true, false),
    (OPEN, true, 101, Key::Mode, true, false),
    (OPEN, true, 102, Key::Mode, false, true),
];

/// Whether a summary says so from a start.
fn says(whole: &Summary, start: &Start, row: &Row) -> bool {
    let Some(known) = whole.known() else {
        return false;
    };
    let (_, is_found, pid, key, is_so, is_left) = row;
    let (cell, mode) = if *is_so {
        (Cell::Closed, Mode::Inside)
    } else {
        (Cell::Unknown, Mode::Unsure)
    };
    let is_after = match key {
        Fd(fd) => known.cell(start, *pid, *fd) == cell,
        Key::Mode => known.mode(start, *pid) == mode,
    };
    is_after && known.finds(start) == *is_found && known.leaves(*pid, *key) == *is_left
}

/// Whether the summary of a row's trace says so.
fn is_known(alloc: Global, row: &Row) -> Result<bool, Fail> {
    let whole = sum_of(alloc, Profile::Two, &[(row.0, 1)])?;
    Ok(says(&whole, &Start::unknown(alloc), row))
}

#[test]
fn a_summary_says_what_is_known(rt: HostRuntime) -> Result<(), Fail> {
    for row in &KNOWN {
        assert!(rt; is_known(rt.alloc(), row)?);
    }
    Ok(())
}
