//! [`denials`]: what was lacking for each line of a whole trace that errno 93 or 94 refused. Any other line only moves
//! the table on.

ghost use Rattle.std.specs.Prelude.{◌≡◌, ◌++◌, [], map, IfOk, OnOk, IsTrue};
ghost use Rattle.cap_machine.specs.Steps.{step, steps};
ghost use Rattle.cap_machine.specs.Rule.{requirement};
ghost use Rattle.cap_machine.specs.State.{State};
ghost use Rattle.cap_machine.specs.Denials.{denials, denied, denied_of, denied_at};
ghost use Rattle.cap_machine.specs.Code.Table.{Keeps, state_of};
ghost use Rattle.cap_machine.specs.History.{step_after};
ghost use Rattle.cap_machine.specs.State.{start_state};

use crate::cell::Profile;
use crate::denial::{Denied, LineDenials};
use crate::errno::{ECAPMODE, ENOTCAPABLE};
use crate::requirements::requirement_of_line;
use crate::rule::Checks;
use crate::start::Start;
use crate::table::Table;
use cap_rights::NoMemory;
use cap_trace::{Answer, Item, Line, LineRef, NeedsMarker};
use std::alloc::Global;

impl Table {
    /// What was lacking for a line, by its rule.
    #[inline(never)]
    pub(crate) fn denied_by_rule(&self, line: &LineRef<'_>) -> LineDenials
        ensures { result ≡ denied_of (requirement line.now) line.now.pid (state_of self.now) }
    {
        let pid = line.pid;
        let mode = self.mode(pid);
        let requirement = requirement_of_line(line);
        match &requirement.checks {
            Checks::Nothing => requirement.denials(mode, &[]),
            Checks::One(a) => requirement.denials(mode, &[self.cell(pid, a.fd)]),
            Checks::Two(a, b) => {
                requirement.denials(mode, &[self.cell(pid, a.fd), self.cell(pid, b.fd)])
            }
        }
    }
}

/// Whether nothing was lacking for a line, by its answer.
#[inline(always)]
pub(crate) fn was_let_through(line: &LineRef<'_>) -> bool
    ensures { IsTrue result → (s : State) → denied_of (requirement line.now) line.now.pid s ≡ [] }
{
    match &line.item {
        Item::Call { call: _, answer } => !matches!(answer, Answer::Fault(ENOTCAPABLE | ECAPMODE)),
        Item::Needs(NeedsMarker::Refused, _, _) => false,
        _ => true,
    }
}

/// What was lacking for a line by what is known before it, and moves what is known on.
fn take_denied(table: &mut Table, profile: Profile, line: &Line) -> Result<LineDenials, NoMemory>
    ensures says { IfOk result (λ found. found ≡ denied (step profile line.now) (state_of table.old)) }
    ensures moved { OnOk result (Keeps table.new (step_after (step profile line.now) (state_of table.old))) }
{
    let view = line.view();
    let found = table.denied_by_rule(&view);
    table.apply_line(profile, &view)?;
    Ok(found)
}

/// Adds what was lacking for the line at a position.
fn add_denials(all: &mut Vec<Denied>, at: usize, found: &LineDenials) -> Result<(), NoMemory>
    ensures { OnOk result (all.new.items ≡ all.old.items ++ map (denied_at at) found.now) }
{
    for denial in found.as_slice() {
        all.push(Denied {
            at,
            denial: *denial,
        })?;
    }
    Ok(())
}

/// What was lacking in a trace from its first line, in order and with positions from 1: for each line that errno 93 or
/// 94 refused.
///
/// `NoMemory` when out of memory.
#[tactic(auto, unfolding(crate::specs::State::start_state))]
pub fn denials(
    alloc: Global,
    profile: Profile,
    start: &Start,
    lines: &[Line],
) -> Result<Vec<Denied>, NoMemory>
    ensures { IfOk result (λ all. all.items ≡ denials (start_state start.now) (steps profile lines.now)) }
{
    let mut table = start.table.copy(alloc)?;
    let mut all = Vec::new(alloc);
    for (i, line) in lines.iter().enumerate() {
        let found = take_denied(&mut table, profile, line)?;
        add_denials(&mut all, i + 1, &found)?;
    }
    Ok(all)
}
