//! Worked traces have their denials.

use crate::lines::{Way, lines_of, reports};
use crate::starts::rights_of;
use cap_machine::{
    Cell, Checker, Checks, Denial, LineDenials, Mode, OnExec, Profile, Start, denials,
    denials_are_within, denials_in_turn, explain, explained_denials_are_right,
    lacking_rights_are_what_to_add, put_denial, put_denial_count, put_denial_words,
    refused_lines_are_denied, requirement_of_line, wrong_refusals_are_unexplained,
};
use cap_trace::{Line, LineRef, parse_line};
use std::alloc::Global;
use std::test::Fail;

/// Traces, their denials in the first profile, and those in the second.
static DENIALS: [(&[u8], &[u8], &[u8]); 8] = [
    // No line is refused by errno 93 or 94.
    (
        b"100 @start(0)\n100 cap_rights_limit(0,CAP_READ) RET 0\n100 write(0) RET 5\n100 write(0) RET -1 errno 9\n100 open(\"a\",0) RET -1 errno 2\n100 @exit()",
        b"denials 0\n",
        b"denials 0\n",
    ),
    // Held without the right, held with it, with other limits than rights, closed, and unknown.
    (
        b"100 @start(0,3)\n100 cap_rights_limit(3,CAP_WRITE|CAP_IOCTL) RET 0\n100 read(3) RET -1 errno 93\n100 write(3) RET -1 errno 93\n100 ioctl(3) RET -1 errno 93\n100 read(9) RET -1 errno 93\n101 read(3) RET -1 errno 93\n100 pread(3) RET -1 errno 93\n100 sync() RET -1 errno 93",
        b"3 100 read lacks 3 CAP_READ\n4 100 write unexplained\n5 100 ioctl unexplained\n6 100 read unexplained\n7 101 read unexplained\n8 100 pread lacks 3 CAP_READ|CAP_SEEK\n9 100 sync unexplained\ndenials 7\n",
        b"3 100 read lacks 3 CAP_READ\n4 100 write unexplained\n5 100 ioctl unexplained\n6 100 read unexplained\n7 101 read unexplained\n8 100 pread lacks 3 CAP_READ|CAP_SEEK\n9 100 sync unexplained\ndenials 7\n",
    ),
    // Outside capability mode, inside it, where it always allows the call, and where the mode isn't known.
    (
        b"100 @start(0)\n100 open(\"a\",O_RDONLY) RET -1 errno 94\n100 cap_enter() RET 0\n100 open(\"a\",O_RDONLY) RET -1 errno 94\n100 connect(0) RET -1 errno 94\n100 read(0) RET -1 errno 94\n101 open(\"a\",O_RDONLY) RET -1 errno 94\n100 fork() RET 102\n102 unlink(\"a\") RET -1 errno 94",
        b"2 100 open unexplained\n4 100 open inside\n5 100 connect inside\n6 100 read unexplained\n7 101 open unexplained\n9 102 unlink inside\ndenials 6\n",
        b"2 100 open unexplained\n4 100 open inside\n5 100 connect inside\n6 100 read unexplained\n7 101 open unexplained\n9 102 unlink inside\ndenials 6\n",
    ),
    // Two directories: one lacks a right, both do, and one isn't looked at.
    (
        b"100 @start(3,4)\n100 cap_rights_limit(3,CAP_LOOKUP|CAP_RENAMEAT_SOURCE) RET 0\n100 cap_rights_limit(4,CAP_LOOKUP) RET 0\n100 renameat(3,\"a\",4,\"b\") RET -1 errno 93\n100 renameat(4,\"a\",3,\"b\") RET -1 errno 93\n100 renameat(AT_FDCWD,\"a\",4,\"b\") RET -1 errno 93\n100 linkat(4,\"/a\",3,\"b\",0) RET -1 errno 93\n100 linkat(7,\"a\",3,\"b\",0) RET -1 errno 93",
        b"4 100 renameat lacks 4 CAP_RENAMEAT_TARGET\n5 100 renameat lacks 4 CAP_RENAMEAT_SOURCE\n5 100 renameat lacks 3 CAP_RENAMEAT_TARGET\n6 100 renameat lacks 4 CAP_RENAMEAT_TARGET\n7 100 linkat lacks 3 CAP_LINKAT_TARGET\n8 100 linkat lacks 3 CAP_LINKAT_TARGET\ndenials 6\n",
        b"4 100 renameat lacks 4 CAP_RENAMEAT_TARGET\n5 100 renameat lacks 4 CAP_RENAMEAT_SOURCE\n5 100 renameat lacks 3 CAP_RENAMEAT_TARGET\n6 100 renameat lacks 4 CAP_RENAMEAT_TARGET\n7 100 linkat lacks 3 CAP_LINKAT_TARGET\n8 100 linkat lacks 3 CAP_LINKAT_TARGET\ndenials 6\n",
    ),
    // A path that may leave its directory, and one below the working directory.
    (
        b"100 @start(3)\n100 openat(3,\"../a\",O_RDONLY) RET -1 errno 93\n100 cap_rights_limit(3,CAP_LOOKUP) RET 0\n100 openat(3,\"a\",O_RDWR) RET -1 errno 93\n100 openat(3,\"a\",O_RDONLY) RET -1 errno 94\n100 cap_enter() RET 0\n100 openat(AT_FDCWD,\"a\",O_RDONLY) RET -1 errno 94\n100 openat(AT_FDCWD,\"a\",O_RDONLY) RET -1 errno 93",
        b"2 100 openat unexplained\n4 100 openat lacks 3 CAP_READ|CAP_WRITE\n5 100 openat unexplained\n7 100 openat inside\n8 100 openat unexplained\ndenials 5\n",
        b"2 100 openat unexplained\n4 100 openat lacks 3 CAP_READ|CAP_WRITE\n5 100 openat unexplained\n7 100 openat inside\n8 100 openat unexplained\ndenials 5\n",
    ),
    // A limit lacks the rights that it asks for beyond what is held.
    (
        b"100 @start(3)\n100 cap_rights_limit(3,CAP_READ|CAP_SEEK) RET 0\n100 cap_rights_limit(3,CAP_READ|CAP_WRITE) RET -1 errno 93\n100 cap_rights_limit(3,CAP_READ) RET -1 errno 93\n100 cap_rights_limit(3,CAP_READ) RET -1 errno 94",
        b"3 100 cap_rights_limit lacks 3 CAP_WRITE\n4 100 cap_rights_limit unexplained\n5 100 cap_rights_limit unexplained\ndenials 3\n",
        b"3 100 cap_rights_limit lacks 3 CAP_WRITE\n4 100 cap_rights_limit unexplained\n5 100 cap_rights_limit unexplained\ndenials 3\n",
    ),
    // Profile 2 follows a descriptor over an exec.
    (
        b"100 @start(0)\n100 open(\"a\",O_RDWR) RET 3\n100 cap_rights_limit(3,CAP_READ) RET 0\n100 execve(\"b\") RET 0\n100 write(3) RET -1 errno 93",
        b"5 100 write unexplained\ndenials 1\n",
        b"5 100 write lacks 3 CAP_WRITE\ndenials 1\n",
    ),
    // A refused call does what it does: a failed close leaves nothing known.
    (
        b"100 @start(3)\n100 cap_rights_limit(3,CAP_READ) RET 0\n100 write(3) RET -1 errno 93\n100 close(3) RET -1 errno 93\n100 write(3) RET -1 errno 93",
        b"3 100 write lacks 3 CAP_WRITE\n4 100 close unexplained\n5 100 write unexplained\ndenials 3\n",
        b"3 100 write lacks 3 CAP_WRITE\n4 100 close unexplained\n5 100 write unexplained\ndenials 3\n",
    ),
];

/// Whether these are the denials of a trace in a profile, by its lines and where they lie.
fn denies_both_ways(alloc: Global, profile: Profile, trace: &[u8], text: &[u8]) -> bool {
    let owned = Checker::new(alloc, profile).for_denials();
    let in_place = Checker::new(alloc, profile).for_denials();
    let by_lines = reports(alloc, owned, trace, Way::Owned, text);
    reports(alloc, in_place, trace, Way::InPlace, text) && by_lines
}

#[test]
fn a_trace_has_its_denials_in_each_profile(rt: HostRuntime) -> Result<(), Fail> {
    for (trace, one, two) in &DENIALS {
        if !denies_both_ways(rt.alloc(), Profile::One, trace, one)
            || !denies_both_ways(rt.alloc(), Profile::Two, trace, two)
        {
            return Err(*one)?;
        }
    }
    Ok(())
}

/// A trace whose denials stand below.
const TRACE: &[u8] =
    b"100 @start(3,4)\n100 cap_rights_limit(3,CAP_LOOKUP) RET 0\n100 cap_rights_limit(4,CAP_LOOKUP) RET 0\n100 renameat(3,\"a\",4,\"b\") RET -1 errno 93\n100 read(3) RET -1 errno 9\n100 cap_enter() RET 0\n100 open(\"a\",O_RDONLY) RET -1 errno 94";

/// Whether these are the denials of the lines.
fn has_denials(alloc: Global, start: &Start, lines: &[Line]) -> bool {
    let from = Denial::Lacks(
        3,
        rights_of(b"CAP_RENAMEAT_SOURCE").minus(&rights_of(b"CAP_LOOKUP")),
    );
    let to = Denial::Lacks(
        4,
        rights_of(b"CAP_RENAMEAT_TARGET").minus(&rights_of(b"CAP_LOOKUP")),
    );
    match denials(alloc, Profile::One, start, lines) {
        Ok(all) => match all.as_slice() {
            [a, b, c] => {
                (a.at, b.at, c.at) == (4, 4, 7)
                    && (a.denial, b.denial, c.denial) == (from, to, Denial::Inside)
            }
            _ => false,
        },
        Err(_) => false,
    }
}

/// Whether the explanation of the line at a position has as many denials.
fn explains(alloc: Global, start: &Start, lines: &[Line], at: usize, count: usize) -> bool {
    match explain(alloc, Profile::One, start, lines, at) {
        Ok(Some(found)) => {
            let holds = found.denials.len() == count && found.verdict.len() == 0;
            drop(found);
            holds
        }
        _ => false,
    }
}

/// Whether the lines have their denials, and their explanations too.
fn are_denied(alloc: Global, start: &Start, lines: &[Line]) -> bool {
    has_denials(alloc, start, lines)
        && explains(alloc, start, lines, 4, 2)
        && explains(alloc, start, lines, 5, 0)
        && explains(alloc, start, lines, 7, 1)
}

/// Whether the lines of the trace have their denials, and their explanations too.
fn is_denied(alloc: Global, start: &Start) -> bool {
    match lines_of(alloc, TRACE) {
        Some(lines) => {
            let holds = are_denied(alloc, start, lines.as_slice());
            drop(lines);
            holds
        }
        None => false,
    }
}

#[test]
fn a_trace_has_a_list_of_denials(rt: HostRuntime) {
    let start = Start::unknown(rt.alloc());
    let holds = is_denied(rt.alloc(), &start);
    drop(start);
    assert!(rt; holds);
}

/// Whether the denials of a line are printed so.
fn are_printed(alloc: Global, denials: &LineDenials, text: &[u8]) -> bool {
    match format!(in alloc; "{:?}", denials) {
        Ok(printed) => printed.as_bytes() == text,
        Err(_) => false,
    }
}

/// Whether the denials of the line at a position of the trace are printed so.
fn prints(alloc: Global, at: usize, text: &[u8]) -> bool {
    let start = Start::unknown(alloc);
    match lines_of(alloc, TRACE) {
        Some(lines) => match explain(alloc, Profile::One, &start, &lines, at) {
            Ok(Some(found)) => are_printed(alloc, &found.denials, text),
            _ => false,
        },
        None => false,
    }
}

#[test]
fn denials_of_a_line_are_printed_as_a_list(rt: HostRuntime) {
    assert!(rt; prints(rt.alloc(), 6, b"[]"));
    assert!(rt; prints(rt.alloc(), 7, b"[Inside]"));
}

/// Whether this is written of a denial of a line, with a count of one.
fn writes(alloc: Global, line: &LineRef<'_>, denial: Denial, text: &[u8]) -> bool {
    let mut out = Vec::new(alloc);
    put_denial(&mut out, 7, line, &denial).is_ok()
        && put_denial_count(&mut out, 1).is_ok()
        && out.as_slice() == text
}

/// Whether a denial has these words.
fn has_words(alloc: Global, denial: Denial, words: &[u8]) -> bool {
    let mut out = Vec::new(alloc);
    put_denial_words(&mut out, &denial).is_ok() && out.as_slice() == words
}

/// Whether a read that lacks a right is written so.
fn writes_a_read(alloc: Global, text: &[u8]) -> bool {
    match parse_line(alloc, b"100 read(5) RET -1 errno 93") {
        Ok(line) => writes(
            alloc,
            &line.view(),
            Denial::Lacks(5, rights_of(b"CAP_READ")),
            text,
        ),
        Err(_) => false,
    }
}

#[test]
fn denials_are_written(rt: HostRuntime) {
    assert!(rt; writes_a_read(rt.alloc(), b"7 100 read lacks 5 CAP_READ\ndenials 1\n"));
    assert!(rt; has_words(rt.alloc(), Denial::Unexplained, b"unexplained"));
}

/// What was lacking for a line that checks one descriptor, in capability mode.
fn lacking_of(line: &Line, cell: Cell) -> Option<Denial> {
    let requirement = requirement_of_line(&line.view());
    match requirement.checks {
        Checks::One(_) => requirement
            .denials(Mode::Inside, &[cell])
            .as_slice()
            .first()
            .copied(),
        _ => None,
    }
}

/// Whether a read of a descriptor that was limited to writing lacks the right to read.
fn is_lacking(alloc: Global) -> bool {
    match parse_line(alloc, b"100 read(5) RET -1 errno 93") {
        Ok(line) => {
            let held = Cell::Held(rights_of(b"CAP_WRITE"), OnExec::Unsure);
            lacking_of(&line, held) == Some(Denial::Lacks(5, rights_of(b"CAP_READ")))
        }
        Err(_) => false,
    }
}

#[test]
fn a_line_is_denied(rt: HostRuntime) {
    assert!(rt; is_lacking(rt.alloc()));
}

#[test]
fn laws_of_denials_are_called() {
    wrong_refusals_are_unexplained();
    explained_denials_are_right();
    denials_are_within();
    denials_in_turn();
    refused_lines_are_denied();
    lacking_rights_are_what_to_add();
}
