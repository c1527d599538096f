//! What is known, moved on by one step after another.

use crate::starts::{add, rights_of};
use cap_machine::{Cell, Finding, Machine, Mode, OnExec, Profile, Start};
use cap_trace::{Line, parse_line};
use std::alloc::Global;

/// Steps in their profiles, and whether the right to write is missing there.
static STEPS: [(Profile, &[u8], bool); 4] = [
    (Profile::Two, b"100 execve(\"/bin/x\") RET 0", false),
    (Profile::One, b"100 write(5) RET 1", true),
    (Profile::One, b"100 execve(\"/bin/x\") RET 0", false),
    (Profile::Two, b"100 write(5) RET 1", false),
];

/// Moves a machine on by a line, and says whether these are the findings.
fn says(machine: &mut Machine, profile: Profile, line: &Line, findings: &[Finding]) -> bool {
    match machine.step(profile, line) {
        Ok(verdict) => verdict.as_slice() == findings,
        Err(_) => false,
    }
}

/// Moves a machine on by the text of a line, and says whether it finds that a right is missing where the row says so.
fn finds(alloc: Global, machine: &mut Machine, row: &(Profile, &[u8], bool)) -> bool {
    let missing = [Finding::Missing(5, rights_of(b"CAP_WRITE"))];
    let findings = if row.2 { missing.as_slice() } else { &[] };
    match parse_line(alloc, row.1) {
        Ok(line) => says(machine, row.0, &line, findings),
        Err(_) => false,
    }
}

/// Whether the right is missing where a step says so, and nothing else is found.
fn finds_in_steps(alloc: Global, machine: &mut Machine) -> bool {
    for row in &STEPS {
        if !finds(alloc, machine, row) {
            return false;
        }
    }
    true
}

/// Whether a machine from a start finds in each step what the rows say.
fn judges_from(alloc: Global, start: &Start) -> bool {
    match Machine::from_start(alloc, start) {
        Ok(mut machine) => {
            let judges = finds_in_steps(alloc, &mut machine);
            drop(machine);
            judges
        }
        Err(_) => false,
    }
}

/// Whether a machine finds what the rows say where process 100 holds CAP_READ on descriptor 5, and nothing else.
fn judges(alloc: Global) -> bool {
    let cells = [(5, Cell::Held(rights_of(b"CAP_READ"), OnExec::Clear))];
    let mut start = Start::unknown(alloc);
    let judges = add(alloc, &mut start, 100, Mode::Outside, Cell::Closed, &cells)
        && judges_from(alloc, &start);
    drop(start);
    judges
}

/// Each step has a profile of its own: after the first exec descriptor 5 is held as before, and after the second one
/// nothing is known of it.
#[test]
fn a_machine_judges_each_step_and_moves_on(rt: HostRuntime) {
    assert!(rt; judges(rt.alloc()));
}

/// Whether a machine that forgets process 100 knows nothing of it, and of process 101 what it knew before.
fn forgets(machine: &mut Machine) -> bool {
    machine.forget(100).is_ok()
        && machine.cell(100, 5) == Cell::Unknown
        && machine.mode(100) == Mode::Unsure
        && machine.cell(101, 5) == Cell::Closed
        && machine.mode(101) == Mode::Inside
}

/// Whether a machine forgets process 100 of a start, and nothing else.
fn forgets_one(alloc: Global, start: &Start) -> bool {
    match Machine::from_start(alloc, start) {
        Ok(mut machine) => {
            let holds = forgets(&mut machine);
            drop(machine);
            holds
        }
        Err(_) => false,
    }
}

/// Whether process 100 of two is forgotten.
fn forgets_the_first(alloc: Global) -> bool {
    let mut start = Start::unknown(alloc);
    let holds = add(alloc, &mut start, 100, Mode::Outside, Cell::Closed, &[])
        && add(alloc, &mut start, 101, Mode::Inside, Cell::Closed, &[])
        && forgets_one(alloc, &start);
    drop(start);
    holds
}

#[test]
fn a_machine_forgets_one_process(rt: HostRuntime) {
    assert!(rt; forgets_the_first(rt.alloc()));
}
