//! What one line of a trace rests on.

ghost use Rattle.std.specs.Prelude.{◌≡◌, ◌&&◌, ℕ, IfOk, List, map, reverse, length, option_map};
ghost use Rattle.cap_machine.specs.declared.step.Step.{Step};
ghost use Rattle.cap_machine.specs.declared.rule.Check.{Check};
ghost use Rattle.cap_machine.specs.declared.provenance.CellProvenance.{CellProvenance};
ghost use Rattle.cap_machine.specs.declared.provenance.ModeProvenance.{ModeProvenance};
ghost use Rattle.cap_machine.specs.Steps.{step, steps};
ghost use Rattle.cap_machine.specs.State.{State};
ghost use Rattle.cap_machine.specs.History.{ended};
ghost use Rattle.cap_machine.specs.Rule.{requirement};
ghost use Rattle.cap_machine.specs.Judge.{listed, judged, has_check};
ghost use Rattle.cap_machine.specs.Denials.{denied_with};
ghost use Rattle.cap_machine.specs.State.{start_state};
ghost use Rattle.cap_machine.specs.Provenance.{cell_provenance, cell_chain_of};
ghost use Rattle.cap_machine.specs.Explain.{all_have_excuse, mode_matters, explained, explanation};
ghost use Rattle.cap_machine.specs.Explain.{explained_of, explained_by, mode_or_unsure, RestsOn};

use crate::cell::{Mode, Profile};
use crate::denial::LineDenials;
use crate::provenance::{CellProvenance, ModeProvenance};
use crate::requirements::requirement_of_line;
use crate::rule::{Checks, Class, Reply, Requirement};
use crate::start::Start;
use crate::verdict::Verdict;
use crate::walks::{provenance_of_cell, provenance_of_mode};
use cap_rights::NoMemory;
use cap_trace::{Line, Pid};
use std::alloc::Global;

/// What one line rests on.
#[derive(Debug, Drop)]
pub struct Explanation {
    /// What is said of the line.
    pub verdict: Verdict,
    /// What was lacking, where errno 93 or 94 refused it.
    pub denials: LineDenials,
    /// Where the cell of each descriptor that the line checks comes from, in order.
    pub cells: Vec<CellProvenance>,
    /// Where the mode of its process comes from, where what is said of the line can depend on it.
    pub mode: Option<ModeProvenance>,
}

impl Checks {
    /// Whether each check has rights that make a refusal wrongful, and there is one.
    fn all_have_excuse(&self) -> bool
        ensures { result ≡ has_check self.now && all_have_excuse (listed self.now) }
    {
        match self {
            Checks::Nothing => false,
            Checks::One(a) => a.excuse.is_some(),
            Checks::Two(a, b) => a.excuse.is_some() && b.excuse.is_some(),
        }
    }
}

impl Requirement {
    /// Whether what is said of a line with this requirement can depend on the mode of its process.
    pub fn mode_matters(&self) -> bool
        ensures { result ≡ mode_matters self.now }
    {
        match self.reply {
            Reply::Success => self.class == Class::Forbidden,
            Reply::NotCapable => self.at && self.checks.all_have_excuse(),
            Reply::NotPermitted => self.class != Class::Allowed,
            Reply::Other => false,
        }
    }
}

/// Where the cell of each descriptor that is checked comes from.
fn provenances_of(
    alloc: Global,
    profile: Profile,
    start: &Start,
    lines: &[Line],
    pid: Pid,
    checks: &Checks,
) -> Result<Vec<CellProvenance>, NoMemory>
    ensures cells { IfOk result (λ provenances. map (λ (provenance : CellProvenance). provenance.cell) provenances.items
        ≡ map (λ (check : Check). (ended (start_state start.now) (steps profile lines.now)).cell pid check.fd)
        (listed checks.now)) }
    ensures chains { IfOk result (λ provenances. map cell_chain_of provenances.items
        ≡ map (λ (check : Check). cell_provenance (start_state start.now) (steps profile lines.now) pid check.fd)
        (listed checks.now)) }
{
    let mut provenances = Vec::new(alloc);
    match checks {
        Checks::Nothing => {}
        Checks::One(a) => {
            provenances.push(provenance_of_cell(alloc, profile, start, lines, pid, a.fd)?)?;
        }
        Checks::Two(a, b) => {
            provenances.push(provenance_of_cell(alloc, profile, start, lines, pid, a.fd)?)?;
            provenances.push(provenance_of_cell(alloc, profile, start, lines, pid, b.fd)?)?;
        }
    }
    Ok(provenances)
}

/// What is said of a line with this requirement, in this mode, with the cells that these chains end in.
fn verdict_of(requirement: &Requirement, mode: Mode, provenances: &[CellProvenance]) -> Verdict
    requires one_each { length provenances.now ≡ length (listed requirement.now.checks) }
    ensures { result ≡ judged requirement.now mode
        (map (λ (provenance : CellProvenance). provenance.cell) provenances.now) }
{
    match &requirement.checks {
        Checks::Nothing => requirement.judge(mode, &[]),
        Checks::One(_) => requirement.judge(mode, &[provenances[0].cell]),
        Checks::Two(_, _) => requirement.judge(mode, &[provenances[0].cell, provenances[1].cell]),
    }
}

/// What was lacking for a line with this requirement, in this mode, with the cells that these chains end in.
fn denials_of(requirement: &Requirement, mode: Mode, provenances: &[CellProvenance]) -> LineDenials
    requires one_each { length provenances.now ≡ length (listed requirement.now.checks) }
    ensures { result ≡ denied_with requirement.now mode
        (map (λ (provenance : CellProvenance). provenance.cell) provenances.now) }
{
    match &requirement.checks {
        Checks::Nothing => requirement.denials(mode, &[]),
        Checks::One(_) => requirement.denials(mode, &[provenances[0].cell]),
        Checks::Two(_, _) => requirement.denials(mode, &[provenances[0].cell, provenances[1].cell]),
    }
}

impl Explanation {
    /// What a line with this requirement rests on, which is judged here, with what was lacking for it: given where the
    /// cell of each of its checks comes from, in order, and where the mode of its process does, where it matters
    /// ([`Requirement::mode_matters`]).
    pub fn of(
        requirement: &Requirement,
        cells: Vec<CellProvenance>,
        mode: Option<ModeProvenance>,
    ) -> Explanation
        requires one_each { length cells.items ≡ length (listed requirement.now.checks) }
        ensures verdict { result.verdict
            ≡ judged requirement.now (mode_or_unsure mode)
            (map (λ (provenance : CellProvenance). provenance.cell) cells.items) }
        ensures denials { result.denials
            ≡ denied_with requirement.now (mode_or_unsure mode)
            (map (λ (provenance : CellProvenance). provenance.cell) cells.items) }
        ensures cells { result.cells ≡ cells }
        ensures mode { result.mode ≡ mode }
        // Where the cells and the mode are those after a history, so is the explanation.
        ensures explained { (s : State) (history : List Step) (p : ℕ)
            → RestsOn s history requirement.now p cells.items mode
            → explained_by result ≡ explained_of s history requirement.now p }
    {
        let known = match &mode {
            Some(provenance) => provenance.mode,
            None => Mode::Unsure,
        };
        Explanation {
            verdict: verdict_of(requirement, known, &cells),
            denials: denials_of(requirement, known, &cells),
            cells,
            mode,
        }
    }
}

/// What a line rests on that follows these.
fn explain_next(
    alloc: Global,
    profile: Profile,
    start: &Start,
    before: &[Line],
    line: &Line,
) -> Result<Explanation, NoMemory>
    ensures { IfOk result (λ e. explained_by e
        ≡ explained (start_state start.now) (reverse (steps profile before.now)) (step profile line.now)) }
{
    let pid = line.pid();
    let requirement = requirement_of_line(&line.view());
    let cells = provenances_of(alloc, profile, start, before, pid, &requirement.checks)?;
    let mode = if requirement.mode_matters() {
        Some(provenance_of_mode(alloc, profile, start, before, pid)?)
    } else {
        None
    };
    Ok(Explanation::of(&requirement, cells, mode))
}

/// What the line at a position of a trace rests on; positions are from 1. `None` where the trace has no such line.
///
/// It looks at the lines before this one, from the last one back, and judges this one alone. Its memory is that of the
/// chains.
///
/// `NoMemory` when out of memory.
#[tactic(auto, using(crate::proofs::Explained::explained_past, crate::proofs::Explained::explained_here, crate::proofs::Explained::explained_zero))]
pub fn explain(
    alloc: Global,
    profile: Profile,
    start: &Start,
    lines: &[Line],
    at: usize,
) -> Result<Option<Explanation>, NoMemory>
    ensures { IfOk result (λ found. option_map explained_by found
        ≡ explanation (start_state start.now) (steps profile lines.now) at) }
{
    if at > lines.len() {
        return Ok(None);
    }
    match lines[..at].split_last() {
        Some((line, before)) => Ok(Some(explain_next(alloc, profile, start, before, line)?)),
        None => Ok(None),
    }
}
