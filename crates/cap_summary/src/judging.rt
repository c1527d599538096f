//! Which findings are asked for, what a report has, and the findings of a run of steps.

ghost use Rattle.std.specs.Prelude.{◌≡◌, ◌&&◌, ◌+◌, ◌^◌, ◌<◌, ◌≤◌, ◌++◌, ◌∷◌, nat_le, [], length, IfOk, OnOk, map};
ghost use Rattle.cap_summary.specs.{Effects.state_before, State, ended, findings_of, found_at, start_state, values};
ghost use Rattle.cap_summary.specs.{said};
ghost use Rattle.cap_summary.specs.Positions.{AgreeAfter, AreJudged, AreNoted, found_in, said_in};

use crate::last_steps::LastSteps;
use crate::passing::forget;
use crate::{Before, Effect};
use cap_machine::{Found, Machine, Requirement, Step, Verdict, rule_of};
use cap_trace::Pid;
use cap_tree::NoMemory;
use std::alloc::Global;
use std::rc::Rc;

/// Which findings are asked for.
#[derive(Clone, Copy)]
pub(crate) struct Asked {
    /// The first position.
    pub(crate) from: usize,
    /// The last position.
    pub(crate) to: usize,
}

/// What is found in steps, and how many of them were judged for it.
#[derive(Drop)]
pub struct Report {
    /// The findings, in order and with their positions.
    pub found: Vec<Found>,
    /// How many steps were judged.
    pub judged: usize,
}

impl Asked {
    /// Whether a position is one of those.
    pub(crate) fn has(&self, at: usize) -> bool
        ensures { result ≡ (nat_le self.now.from at && nat_le at self.now.to) }
    {
        self.from <= at && at <= self.to
    }

    /// Whether they are at most so many.
    pub(crate) fn are_at_most(&self, count: usize) -> bool {
        self.to.saturating_sub(self.from) < count
    }
}

/// Notes what is said of the line at a position.
fn note(found: &mut Vec<Found>, at: usize, verdict: &Verdict) -> Result<(), NoMemory>
    ensures { OnOk result (found.new.items ≡ found.old.items ++ map (found_at at) verdict.now) }
{
    for finding in verdict.as_slice() {
        found.push(Found {
            at,
            finding: *finding,
        })?;
    }
    Ok(())
}

/// Notes what is said of a step at a position, where that is asked for.
#[tactic(auto, using(crate::proofs::Resolving::not_asked, crate::proofs::Resolving::asked_for))]
pub(crate) fn note_asked(
    verdict: &Verdict,
    at: usize,
    asked: &Asked,
    found: &mut Vec<Found>,
) -> Result<(), NoMemory>
    ensures { OnOk result (found.new.items ≡ found.old.items ++ said_in asked.now at verdict.now) }
{
    if !asked.has(at) {
        return Ok(());
    }
    note(found, at, verdict)
}

/// Notes what is said of a line at a position, where that is asked for.
#[tactic(auto, using(crate::proofs::Resolving::not_asked))]
fn note_line(
    before: &Before<'_>,
    pid: Pid,
    requirement: &Requirement,
    at: usize,
    asked: &Asked,
    found: &mut Vec<Found>,
) -> Result<(), NoMemory>
    ensures { OnOk result (found.new.items ≡ found.old.items
        ++ said_in asked.now at (findings_of requirement.now pid (state_before before.now))) }
{
    if !asked.has(at) {
        return Ok(());
    }
    let verdict = before.said(pid, requirement);
    note(found, at, &verdict)
}

/// Notes what is found in a run of steps that begins in this state after so many others, at the positions that are
/// asked for. Each step of the run counts as judged, and none is read after the last of these positions.
pub(crate) fn judge_run(
    alloc: Global,
    run: &[Rc<Step>],
    before: &Before<'_>,
    at: usize,
    asked: &Asked,
    report: &mut Report,
) -> Result<(), NoMemory>
    requires short { at + length run.now ≤ 2 ^ 31 }
    requires room { report.old.judged + length run.now < 2 ^ 64 }
    ensures found { OnOk result (report.new.found.items ≡ report.old.found.items
        ++ found_in asked.now at (state_before before.now) (values run.now)) }
    ensures counted { report.new.judged ≡ report.old.judged + length run.now }
{
    report.judged += run.len();
    let mut effect = Effect::empty(alloc);
    let mut position = at;
    let read = &run[..run.len().min(asked.to.saturating_sub(at))];
    for step in read {
        position += 1;
        let line = step.line.view();
        let rule = rule_of(step.profile, &line);
        let here = Before::After(&*before, &effect);
        note_line(
            &here,
            line.pid,
            &rule.requirement,
            position,
            asked,
            &mut report.found,
        )?;
        effect.push(alloc, line.pid, &rule.effect)?;
    }
    Ok(())
}

/// Judges the next step.
fn judged(machine: &mut Machine, step: &Step) -> Result<Verdict, NoMemory>
    ensures says { IfOk result (λ verdict. verdict ≡ said step.now (start_state machine.old)) }
    ensures moves { OnOk result (start_state machine.new ≡ ended (start_state machine.old) (step.now ∷ [])) }
{
    machine.step(step.profile, &step.line).map_err(|_| NoMemory)
}

/// Forgets the process of a step where it makes none after so many.
#[tactic(auto, using(crate::proofs::Agreeing::agree_forgotten))]
fn forget_done(
    machine: &mut Machine,
    at: usize,
    last: &LastSteps,
    step: &Step,
) -> Result<(), NoMemory>
    ensures { (s : State) → AgreeAfter last.now at s (start_state machine.old)
        → OnOk result (AgreeAfter last.now at s (start_state machine.new)) }
{
    let pid = step.line.pid();
    if last.of(pid) > at {
        return Ok(());
    }
    forget(machine, pid)
}

/// Notes what is found in a run of steps after so many others, at the positions that are asked for, and moves the
/// machine on to what is known after them of the processes that make later ones.
pub(crate) fn judge_in_order(
    run: &[Rc<Step>],
    machine: &mut Machine,
    at: usize,
    last: &LastSteps,
    asked: &Asked,
    found: &mut Vec<Found>,
) -> Result<(), NoMemory>
    requires short { at + length run.now ≤ 2 ^ 31 }
    requires noted { AreNoted last.now at (values run.now) }
    ensures { (s : State) → AgreeAfter last.now at s (start_state machine.old) → OnOk result (AreJudged last.now
        asked.now at (values run.now) s (start_state machine.new) found.old.items found.new.items) }
{
    if run.len() == 0 {
        return Ok(());
    }
    let verdict = judged(machine, &run[0])?;
    note_asked(&verdict, at + 1, asked, found)?;
    forget_done(machine, at + 1, last, &run[0])?;
    judge_in_order(&run[1..], machine, at + 1, last, asked, found)
}

/// Passes the next step, and judges nothing.
fn passed(machine: &mut Machine, step: &Step) -> Result<(), NoMemory>
    ensures { OnOk result (start_state machine.new ≡ ended (start_state machine.old) (step.now ∷ [])) }
{
    machine
        .apply_line(step.profile, &step.line)
        .map_err(|_| NoMemory)
}

/// Moves the machine on over a run of steps after so many others, of which none is judged, to what is known after them of
/// the processes that make later ones.
pub(crate) fn pass_in_order(
    run: &[Rc<Step>],
    machine: &mut Machine,
    at: usize,
    last: &LastSteps,
) -> Result<(), NoMemory>
    requires short { at + length run.now ≤ 2 ^ 31 }
    requires noted { AreNoted last.now at (values run.now) }
    ensures { (s : State) → AgreeAfter last.now at s (start_state machine.old)
        → OnOk result (AgreeAfter last.now (at + length run.now) (ended s (values run.now)) (start_state machine.new)) }
{
    if run.len() == 0 {
        return Ok(());
    }
    passed(machine, &run[0])?;
    forget_done(machine, at + 1, last, &run[0])?;
    pass_in_order(&run[1..], machine, at + 1, last)
}
