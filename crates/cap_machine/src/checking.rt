//! [`check`]: the findings of a whole trace. One line is judged and then moves the table on, as in the checker.

ghost use Rattle.std.specs.Prelude.{◌≡◌, ◌++◌, map, IfOk, OnOk};
ghost use Rattle.cap_machine.specs.Steps.{step, steps};
ghost use Rattle.cap_machine.specs.Check.{check, said, found_at};
ghost use Rattle.cap_machine.specs.Code.Table.{Keeps, state_of};
ghost use Rattle.cap_machine.specs.History.{step_after};
ghost use Rattle.cap_machine.specs.State.{start_state};

use crate::cell::Profile;
use crate::start::Start;
use crate::table::Table;
use crate::verdict::{Found, Verdict};
use cap_rights::NoMemory;
use cap_trace::{Line, LineRef};
use std::alloc::Global;

/// Judges a line by what is known before it, and moves what is known on.
pub(crate) fn take_line(
    table: &mut Table,
    profile: Profile,
    line: &Line,
) -> Result<Verdict, NoMemory>
    ensures says { IfOk result (λ verdict. verdict ≡ said (step profile line.now) (state_of table.old)) }
    ensures moved { OnOk result (Keeps table.new (step_after (step profile line.now) (state_of table.old))) }
{
    let view = line.view();
    let verdict = if table.has_no_finding(&view) {
        Verdict::silent()
    } else {
        table.findings_by_rule(&view)
    };
    table.apply_line(profile, &view)?;
    Ok(verdict)
}

/// Adds what is said of the line at a position.
fn add_findings(found: &mut Vec<Found>, at: usize, verdict: &Verdict) -> Result<(), NoMemory>
    ensures { OnOk result (found.new.items ≡ found.old.items ++ map (found_at at) verdict.now) }
{
    for finding in verdict.as_slice() {
        found.push(Found {
            at,
            finding: *finding,
        })?;
    }
    Ok(())
}

/// What is found in a trace from its first line, in order and with positions from 1.
///
/// `NoMemory` when out of memory.
#[tactic(auto, unfolding(crate::specs::State::start_state))]
pub fn check(
    alloc: Global,
    profile: Profile,
    start: &Start,
    lines: &[Line],
) -> Result<Vec<Found>, NoMemory>
    ensures { IfOk result (λ found. found.items ≡ check (start_state start.now) (steps profile lines.now)) }
{
    let mut table = start.table.copy(alloc)?;
    let mut found = Vec::new(alloc);
    for (i, line) in lines.iter().enumerate() {
        let verdict = take_line(&mut table, profile, line)?;
        add_findings(&mut found, i + 1, &verdict)?;
    }
    Ok(found)
}
