//! What one step of a summary rests on.

ghost use Rattle.std.specs.Prelude.{IfOk, None, OnOk, Some, [], if◌then◌else◌, length, map, true, ◌+◌, ◌<◌, ◌≡◌, ◌≤◌};
ghost use Rattle.cap_summary.specs.{Check, Positions.IsPlace, Positions.history, Positions.positions, Positions.within};
ghost use Rattle.cap_summary.specs.{Stands.summed_up, check, explained, explanation, listed, option_map, start_state};
ghost use Rattle.cap_machine.specs.{Explain.mode_or_unsure, declared.provenance.CellProvenance.CellProvenance};
ghost use Rattle.cap_machine.specs.{Explain.explained_by, Explain.mode_matters, History.cell_after, History.mode_after};
ghost use Rattle.cap_machine.specs.declared.provenance.ModeProvenance.{ModeProvenance};
ghost use Rattle.cap_machine.specs.Provenance.{cell_chain, cell_chain_of, mode_chain, mode_chain_of};

use crate::judging::{Asked, note_asked};
use crate::node::Node;
use crate::{Report, Summary};
use cap_machine::{
    CellProvenance, CellWalk, Checks, Explanation, Found, ModeProvenance, ModeWalk, Requirement,
    Start, Step, requirement_of_line,
};
use cap_trace::{Fd, Pid};
use cap_tree::NoMemory;
use std::alloc::Global;

/// The place after so many steps of a node, which begin from a start.
#[derive(Clone, Copy)]
pub(crate) struct PlaceInNode<'a> {
    start: &'a Start,
    node: &'a Node,
    count: usize,
}

impl PlaceInNode<'_> {
    /// Where the cell of a descriptor of a process comes from.
    fn cell_provenance(&self, alloc: Global, pid: Pid, fd: Fd) -> Result<CellProvenance, NoMemory>
        requires { IsPlace self.now }
        ensures cell { IfOk result (λ provenance.
            provenance.cell ≡ cell_after (start_state self.now.start.now) (history self.now) pid fd) }
        ensures chain { IfOk result (λ provenance.
            cell_chain_of provenance ≡ cell_chain (start_state self.now.start.now) (history self.now) pid fd) }
    {
        let mut walk = CellWalk::from(alloc, pid, fd);
        self.node.walk(&mut walk, 0, self.count)?;
        walk.finish(alloc, self.start).map_err(|_| NoMemory)
    }

    /// Where the cell of each descriptor that is checked comes from, in order.
    fn provenances(
        &self,
        alloc: Global,
        pid: Pid,
        checks: &Checks,
    ) -> Result<Vec<CellProvenance>, NoMemory>
        requires { IsPlace self.now }
        ensures cells { IfOk result (λ provenances. map
            (λ (provenance : CellProvenance). provenance.cell) provenances.items
            ≡ map (λ (check : Check). cell_after (start_state self.now.start.now) (history self.now) pid check.fd)
            (listed checks.now)) }
        ensures chains { IfOk result (λ provenances. map cell_chain_of provenances.items
            ≡ map (λ (check : Check). cell_chain (start_state self.now.start.now) (history self.now) pid check.fd)
            (listed checks.now)) }
    {
        let mut provenances = Vec::new(alloc);
        match checks {
            Checks::Nothing => {}
            Checks::One(a) => {
                provenances.push(self.cell_provenance(alloc, pid, a.fd)?)?;
            }
            Checks::Two(a, b) => {
                provenances.push(self.cell_provenance(alloc, pid, a.fd)?)?;
                provenances.push(self.cell_provenance(alloc, pid, b.fd)?)?;
            }
        }
        Ok(provenances)
    }

    /// Where the mode of a process comes from, where what is said of a line with this requirement can depend on it.
    fn mode_where(
        &self,
        alloc: Global,
        pid: Pid,
        requirement: &Requirement,
    ) -> Result<Option<ModeProvenance>, NoMemory>
        requires { IsPlace self.now }
        ensures mode { mode_matters requirement.now ≡ true → IfOk result (λ provenance. mode_or_unsure provenance
            ≡ mode_after (start_state self.now.start.now) (history self.now) pid) }
        ensures chain { IfOk result (λ provenance. option_map mode_chain_of provenance
            ≡ (if mode_matters requirement.now
            then Some (mode_chain (start_state self.now.start.now) (history self.now) pid) else None)) }
    {
        if !requirement.mode_matters() {
            return Ok(None);
        }
        let mut walk = ModeWalk::from(alloc, pid);
        self.node.walk(&mut walk, 0, self.count)?;
        Ok(Some(walk.finish(self.start)))
    }

    /// What a step at this place rests on.
    fn explain(&self, alloc: Global, step: &Step) -> Result<Explanation, NoMemory>
        requires { IsPlace self.now }
        ensures { IfOk result
            (λ e. explained_by e ≡ explained (start_state self.now.start.now) (history self.now) step.now) }
    {
        let line = step.line.view();
        let pid = line.pid;
        let requirement = requirement_of_line(&line);
        let cells = self.provenances(alloc, pid, &requirement.checks)?;
        let mode = self.mode_where(alloc, pid, &requirement)?;
        Ok(Explanation::of(&requirement, cells, mode))
    }
}

/// Judges each step that is asked for alone, and notes what is found in it.
pub(crate) fn judge_alone(
    alloc: Global,
    node: &Node,
    start: &Start,
    asked: &Asked,
    report: &mut Report,
) -> Result<(), NoMemory>
    requires nothing { report.old.found.items ≡ [] }
    requires none_judged { report.old.judged ≡ 0 }
    ensures found { OnOk result (report.new.found.items
        ≡ within asked.now.from asked.now.to (check (start_state start.now) node.now.steps)) }
    ensures all { OnOk result (report.new.judged ≤ length node.now.steps) }
    ensures each { OnOk result (positions report.new.found.items ≤ report.new.judged) }
{
    let last = asked.to.min(node.len());
    let mut count = asked.from.saturating_sub(1);
    while count < last {
        let place = PlaceInNode { start, node, count };
        let explanation = place.explain(alloc, node.step(count))?;
        count += 1;
        note_asked(&explanation.verdict, count, asked, &mut report.found)?;
        report.judged += 1;
    }
    Ok(())
}

/// What the step at a position of a summary rests on; positions are from 1. `None` where it has no such step.
///
/// From the position it goes back to where the cell of each descriptor that the line checks was given, and to where the
/// mode was where it matters. It leaves out each part of the summary that is known not to touch the cell.
/// It judges this step alone. Its memory is that of the chains.
///
/// `NoMemory` when out of memory; the summary is unchanged.
pub fn explain(
    alloc: Global,
    summary: &Summary,
    start: &Start,
    position: usize,
) -> Result<Option<Explanation>, NoMemory>
    ensures { IfOk result (λ found. option_map explained_by found
        ≡ explanation (start_state start.now) (summed_up summary.now) position) }
{
    let node = &*summary.node;
    if position == 0 || position > node.len() {
        return Ok(None);
    }
    let count = position - 1;
    let place = PlaceInNode { start, node, count };
    let step = node.step(count);
    let explanation = place.explain(alloc, step)?;
    Ok(Some(explanation))
}
