//! What single lines of worked traces rest on.

use crate::lines::lines_of;
use crate::starts::{add, readable};
use cap_machine::{
    Cell, CellEnd, CellLink, CellProvenance, Explanation, Mode, ModeEnd, ModeLink, ModeProvenance,
    Profile, Start, chains_are_enough, chains_skip_no_line, explain, mode_matters_where_it_decides,
    named_lines_matter, provenance_of_cell, provenance_of_mode,
};
use cap_trace::Line;
use std::alloc::Global;
use std::test::Fail;

/// Writes the position, the pid and the descriptor of each line, and says whether it could.
fn put_links(text: &mut String, links: &[CellLink]) -> bool {
    for link in links {
        if write!(text, "{} {} {}, ", link.at, link.pid, link.fd).is_err() {
            return false;
        }
    }
    true
}

/// Appends the links of a chain of cells, and how it ends.
fn put_cells(text: &mut String, provenance: &CellProvenance) -> bool {
    put_links(text, provenance.links.as_slice())
        && match provenance.end {
            CellEnd::Given(_) => text.push_str("given; ").is_ok(),
            CellEnd::Start(pid, fd, _) => write!(text, "start {pid} {fd}; ").is_ok(),
        }
}

/// Writes the position and the pid of each line, and says whether it could.
fn put_mode_links(text: &mut String, links: &[ModeLink]) -> bool {
    for link in links {
        if write!(text, "{} {}, ", link.at, link.pid).is_err() {
            return false;
        }
    }
    true
}

/// Appends the links of a chain of modes, and how it ends.
fn put_modes(text: &mut String, provenance: &ModeProvenance) -> bool {
    put_mode_links(text, provenance.links.as_slice())
        && match provenance.end {
            ModeEnd::Given(_) => text.push_str("mode given; ").is_ok(),
            ModeEnd::Start(pid, _) => write!(text, "mode start {pid}; ").is_ok(),
        }
}

/// Writes each chain of cells, and says whether it could.
fn put_provenances(text: &mut String, provenances: &[CellProvenance]) -> bool {
    for provenance in provenances {
        if !put_cells(text, provenance) {
            return false;
        }
    }
    true
}

/// Writes the chains of an explanation, and how many findings it has, and says whether it could.
fn put_explanation(text: &mut String, found: &Explanation) -> bool {
    let has_put = match &found.mode {
        Some(provenance) => {
            put_provenances(text, found.cells.as_slice()) && put_modes(text, provenance)
        }
        None => put_provenances(text, found.cells.as_slice()),
    };
    has_put && write!(text, "{}", found.verdict.len()).is_ok()
}

/// A server whose worker gives up its rights.
const SERVER: &[u8] =
    b"200 @start(0,1,2,3)\n200 accept(3) RET 4\n200 fork() RET 201\n201 cap_rights_limit(4,CAP_READ|CAP_WRITE) RET 0\n201 cap_enter() RET 0\n201 read(4) RET 80\n201 write(4) RET 200\n200 shutdown(4) RET 0\n201 shutdown(4) RET 0";

/// Process 102 has its descriptor 7 of 101, which copied it from 5, which it has of 100, which copied it from 3.
const COPIES: &[u8] =
    b"100 @start(3)\n100 cap_rights_limit(3,CAP_READ) RET 0\n100 dup(3) RET 5\n100 fork() RET 101\n101 dup2(5,7) RET 7\n101 fork() RET 102\n101 cap_rights_limit(7,CAP_SEEK) RET 0\n102 write(7) RET 1";

/// A child of a process in capability mode, and one that began outside.
const MODES: &[u8] =
    b"100 @start(0)\n100 cap_enter() RET 0\n100 fork() RET 101\n101 fork() RET 102\n102 open(\"x\",O_RDONLY) RET 3\n300 @start(0)\n300 open(\"x\",O_RDONLY) RET -1 errno 94\n102 read(3) RET 1";

/// An exec that leaves descriptor 4 open and closes 5.
const EXEC: &[u8] =
    b"100 @start(3)\n100 open(\"a\",O_RDONLY) RET 4\n100 open(\"b\",O_RDONLY|O_CLOEXEC) RET 5\n100 cap_rights_limit(4,CAP_READ) RET 0\n100 execve(\"/bin/x\") RET 0\n100 write(4) RET 1\n100 read(5) RET 1";

/// Limits, and only the first takes rights away, and one that failed.
const LIMITS: &[u8] =
    b"100 @start(3)\n100 cap_rights_limit(3,CAP_READ) RET 0\n100 cap_rights_limit(3,CAP_READ) RET 0\n100 cap_rights_limit(3,CAP_READ|CAP_WRITE) RET 0\n100 cap_rights_limit(3,CAP_WRITE) RET -1 errno 93\n100 write(3) RET 1";

/// Two directories are checked.
const RENAME: &[u8] =
    b"100 @start(3)\n100 dup(3) RET 9\n100 close(9) RET 0\n100 renameat(3,\"a\",9,\"b\") RET 0";

/// A trace, a profile, a position, and what is said of the line there from the usual start, if there is such a line.
type Row = (&'static [u8], Profile, usize, Option<&'static str>);

static EXPLAINED: [Row; 14] = [
    (
        SERVER,
        Profile::One,
        9,
        Some("4 201 4, 3 201 4, 2 200 4, given; 1"),
    ),
    // The parent's descriptor has nothing to do with the limit.
    (SERVER, Profile::One, 8, Some("2 200 4, given; 0")),
    (SERVER, Profile::One, 0, None),
    (SERVER, Profile::One, 10, None),
    (
        COPIES,
        Profile::Two,
        8,
        Some("6 102 7, 5 101 7, 4 101 5, 3 100 5, 2 100 3, 1 100 3, given; 1"),
    ),
    (
        b"101 read(7) RET 1",
        Profile::One,
        1,
        Some("start 101 7; 0"),
    ),
    (
        MODES,
        Profile::One,
        5,
        Some("4 102, 3 101, 2 100, mode given; 1"),
    ),
    (MODES, Profile::One, 7, Some("6 300, mode given; 1")),
    // No mode has anything to do with what is said of a read that succeeded.
    (MODES, Profile::One, 8, Some("5 102 3, given; 0")),
    // The exec is named where it changed the cell.
    (EXEC, Profile::Two, 6, Some("4 100 4, 2 100 4, given; 1")),
    (EXEC, Profile::Two, 7, Some("5 100 5, 3 100 5, given; 1")),
    (EXEC, Profile::One, 6, Some("5 100 4, given; 0")),
    (LIMITS, Profile::One, 6, Some("2 100 3, 1 100 3, given; 1")),
    (
        RENAME,
        Profile::One,
        4,
        Some("1 100 3, given; 3 100 9, given; 1"),
    ),
];

/// Whether an explanation is written so.
fn is_written(alloc: Global, found: &Explanation, wanted: &str) -> bool {
    let mut text = String::new(alloc);
    put_explanation(&mut text, found) && text.as_str() == wanted
}

/// Whether an explanation is there, and written so, or neither.
fn is_said(alloc: Global, found: &Option<Explanation>, wanted: Option<&str>) -> bool {
    match (found, wanted) {
        (Some(found), Some(wanted)) => is_written(alloc, found, wanted),
        (None, None) => true,
        _ => false,
    }
}

/// Whether the line of a row is explained so.
fn is_explained_in(alloc: Global, start: &Start, lines: &[Line], row: &Row) -> bool {
    match explain(alloc, row.1, start, lines, row.2) {
        Ok(found) => is_said(alloc, &found, row.3),
        Err(_) => false,
    }
}

/// Whether the line of a row is explained as the row says, from a start.
fn is_explained_from(alloc: Global, start: &Start, row: &Row) -> bool {
    match lines_of(alloc, row.0) {
        Some(lines) => is_explained_in(alloc, start, &lines, row),
        None => false,
    }
}

/// Whether the line of a row is explained as the row says, from the usual start.
fn is_explained(alloc: Global, row: &Row) -> bool {
    let start = Start::unknown(alloc);
    let is_explained = is_explained_from(alloc, &start, row);
    drop(start);
    is_explained
}

#[test]
fn a_line_has_its_explanation(rt: HostRuntime) -> Result<(), Fail> {
    for row in &EXPLAINED {
        if !is_explained(rt.alloc(), row) {
            return Err(row.3)?;
        }
    }
    Ok(())
}

/// Whether a cell comes from descriptor 0 of process 100 at the start, which has this cell.
fn cell_reaches(alloc: Global, start: &Start, lines: &[Line], cell: Cell) -> bool {
    match provenance_of_cell(alloc, Profile::One, start, lines, 101, 4) {
        Ok(provenance) => provenance.end == CellEnd::Start(100, 0, cell),
        Err(_) => false,
    }
}

/// Whether another one is closed, as the others are.
fn other_is_closed(alloc: Global, start: &Start, lines: &[Line]) -> bool {
    match provenance_of_cell(alloc, Profile::One, start, lines, 100, 5) {
        Ok(provenance) => provenance.cell == Cell::Closed,
        Err(_) => false,
    }
}

/// Whether the mode of process 101 comes from that of 100 at the start, outside.
fn mode_reaches(alloc: Global, start: &Start, lines: &[Line]) -> bool {
    match provenance_of_mode(alloc, Profile::One, start, lines, 101) {
        Ok(provenance) => {
            provenance.mode == Mode::Outside && provenance.end == ModeEnd::Start(100, Mode::Outside)
        }
        Err(_) => false,
    }
}

/// Whether all of that holds after a copy in a child.
fn chains_reach(alloc: Global, start: &Start, cell: Cell) -> bool {
    match lines_of(alloc, b"100 dup(0) RET 4\n100 fork() RET 101") {
        Some(lines) => {
            cell_reaches(alloc, start, &lines, cell)
                && other_is_closed(alloc, start, &lines)
                && mode_reaches(alloc, start, &lines)
        }
        None => false,
    }
}

/// Whether the chains reach their ends, from a start in which descriptor 0 is held for reading.
fn chains_reach_reading(alloc: Global) -> bool {
    let cells = [(0, readable())];
    let mut start = Start::unknown(alloc);
    let reach = add(alloc, &mut start, 100, Mode::Outside, Cell::Closed, &cells)
        && chains_reach(alloc, &start, readable());
    drop(start);
    reach
}

#[test]
fn a_chain_reaches_the_start(rt: HostRuntime) {
    assert!(rt; chains_reach_reading(rt.alloc()));
}

/// Each law may be called.
#[test]
fn the_laws_of_chains_are_called() {
    chains_are_enough();
    chains_skip_no_line();
    named_lines_matter();
    mode_matters_where_it_decides();
}
