//! The findings of a trace by those of an earlier one, with which it shares runs of steps.

ghost use Rattle.std.specs.Prelude.{All, IfOk, IfSome, OnOk, is_some, length, map, take, true, ◌+◌, ◌++◌, ◌<◌, ◌^◌, ◌≡◌};
ghost use Rattle.std.specs.Prelude.{[], false, ℕ, ◌∷◌, ◌≤◌};
ghost use Rattle.cap_summary.specs.Again.{IsAgain, IsHere, IsKeptAt, IsPassed, IsPlaced, begins, old_steps};
ghost use Rattle.cap_summary.specs.{Effects.state_before, KeptRuns.AreKeptRuns, KeptRuns.steps_of, Stands.summed_up};
ghost use Rattle.cap_summary.specs.{Found, List, check, ended, found_at, later, start_state, values};
ghost use Rattle.cap_summary.specs.{Differing.DifferAt, Keys.cells_of, said};

use crate::difference::{Alone, Differences};
use crate::node::{Content, Node};
use crate::{Before, Effect, KeptRun, LineAsks, Summary};
use cap_machine::{Found, Start, Step, Verdict, requirement_of_line};
use cap_tree::NoMemory;
use std::alloc::Global;
use std::rc::Rc;

/// Of so many steps, one is judged at most, or is gone.
const STEPS_A_JUDGED: usize = 32;

/// How many steps of any list may be judged or gone beside these.
const JUDGED_OF_ANY: usize = 1_024;

/// The most cells that two states have differently.
const MOST_DIFFERENCES: usize = 64;

/// What was found in an earlier list of steps, and what of it was kept.
#[derive(Clone, Copy)]
pub struct Earlier<'a> {
    /// The earlier steps.
    pub summary: &'a Summary,
    /// All findings in them, in order.
    pub found: &'a [Found],
    /// Which of them were kept.
    pub kept: &'a [KeptRun],
}

/// The steps, those of an earlier list, what was found in these from the same start, and what was kept.
#[derive(Clone, Copy)]
pub(crate) struct Again<'a> {
    node: &'a Node,
    earlier: &'a Node,
    found: &'a [Found],
    kept: &'a [KeptRun],
    start: &'a Start,
}

/// How far both lists were passed.
#[derive(Drop)]
pub(crate) struct Passed {
    /// How many steps of the earlier list were.
    was: usize,
    /// What the states after them have differently.
    differences: Differences,
    /// What was found.
    found: Vec<Found>,
    /// How many steps were judged, or are gone.
    judged: usize,
}

/// Why a report isn't made again.
#[derive(Drop)]
pub(crate) enum Stop {
    /// Memory ran out.
    Memory,
    /// It would cost as much as to judge all steps.
    GivesUp,
}

impl From<NoMemory> for Stop {
    fn from(_: NoMemory) -> Stop {
        Stop::Memory
    }
}

/// How many of some findings, whose positions rise, are at most so many steps in.
fn count_to(found: &[Found], steps: usize) -> usize
    ensures split { (front back : List Found) → found.now ≡ front ++ back → All (λ (x : Found). x.at ≤ steps) front
        → All (λ (x : Found). steps < x.at) back → result ≡ length front }
    ensures within { result ≤ length found.now }
{
    let mut low = 0;
    let mut high = found.len();
    while low < high {
        let middle = low + (high - low) / 2;
        if found[middle].at <= steps {
            low = middle + 1;
        } else {
            high = middle;
        }
    }
    low
}

/// The number of the last run that begins at most so many steps in, and 0 where there is none.
fn last_to(kept: &[KeptRun], steps: usize) -> usize {
    let mut low = 0;
    let mut high = kept.len();
    while low < high {
        let middle = low + (high - low) / 2;
        if kept[middle].at <= steps {
            low = middle + 1;
        } else {
            high = middle;
        }
    }
    low.saturating_sub(1)
}

impl Again<'_> {
    /// Where so many steps stood in the earlier list that stand after so many others now, where all of them are of one
    /// run that was kept.
    fn place_of(&self, at: usize, len: usize) -> Option<usize>
        requires { IsAgain self.now }
        ensures { IfSome result (λ was. IsKeptAt self.now was at len) }
    {
        let run = self.kept.get(last_to(self.kept, at))?;
        if at < run.at || run.len < at - run.at || run.len - (at - run.at) < len {
            return None;
        }
        Some(run.was + (at - run.at))
    }

    /// Notes again what was found in so many steps of the earlier list, which stand after so many others now.
    fn copy(
        &self,
        was: usize,
        len: usize,
        at: usize,
        found: &mut Vec<Found>,
    ) -> Result<(), NoMemory>
        requires again { IsAgain self.now }
        requires within { was + len ≤ length (old_steps self.now) }
        requires few { at ≤ 2 ^ 30 }
        ensures { OnOk result (found.new.items ≡ found.old.items ++ map (later at)
            (check (ended (begins self.now) (take was (old_steps self.now))) (steps_of (old_steps self.now) was len))) }
    {
        let from = count_to(self.found, was);
        let to = count_to(self.found, was + len);
        let upto = &self.found[..to];
        for one in &upto[from..] {
            found.push(Found {
                at: one.at - was + at,
                finding: one.finding,
            })?;
        }
        Ok(())
    }
}

/// What is said of a step.
fn said_of(before: &Before<'_>, step: &Step) -> Verdict
    ensures { result ≡ said step.now (state_before before.now) }
{
    let line = step.line.view();
    let pid = line.pid;
    let requirement = requirement_of_line(&line);
    before.said(pid, &requirement)
}

/// Notes what is found in a step, after so many others.
fn judge(
    before: &Before<'_>,
    step: &Step,
    at: usize,
    found: &mut Vec<Found>,
) -> Result<(), NoMemory>
    requires { at ≤ 2 ^ 30 }
    ensures { OnOk result (found.new.items
        ≡ found.old.items ++ map (found_at (at + 1)) (said step.now (state_before before.now))) }
{
    let verdict = said_of(before, step);
    for finding in verdict.as_slice() {
        found.push(Found {
            at: at + 1,
            finding: *finding,
        })?;
    }
    Ok(())
}

/// Notes what is found in a step that stood after so many others, and stands after so many now: what was found in it, unless
/// the states differ in what it asks.
fn find_kept(
    differences: &Differences,
    again: &Again<'_>,
    before: &Before<'_>,
    step: &Step,
    was: usize,
    at: usize,
    found: &mut Vec<Found>,
) -> Result<(), NoMemory>
    requires again { IsAgain again.now }
    requires kept { IsKeptAt again.now was at 1 }
    requires placed { IsPlaced again.now at (step.now ∷ []) }
    requires differ { DifferAt differences.now.cells.items
        (cells_of (ended (begins again.now) (take was (old_steps again.now)))) (cells_of (state_before before.now)) }
    ensures { OnOk result (found.new.items
        ≡ found.old.items ++ map (found_at (at + 1)) (said step.now (state_before before.now))) }
{
    if differences.agree_on_step(step) {
        again.copy(was, 1, at, found)
    } else {
        judge(before, step, at, found)
    }
}

impl Passed {
    /// The earlier state alone passes the next step of the earlier list, which is gone.
    fn leave_one(
        &mut self,
        alloc: Global,
        again: &Again<'_>,
        before: &Before<'_>,
    ) -> Result<(), Stop>
        requires more { self.old.was < length (old_steps again.now) }
        requires few { length (old_steps again.now) ≤ 2 ^ 30 }
        ensures passed { (at : ℕ) → IsHere again.now before.now at → IsPassed again.now self.old at
            → OnOk result (IsPassed again.now self.new at) }
        ensures one { OnOk result (self.new.was ≡ self.old.was + 1) }
    {
        let step = again.earlier.step(self.was);
        if !self
            .differences
            .take_step(alloc, before, Alone::Earlier, step)?
        {
            return Err(Stop::GivesUp);
        }
        self.was += 1;
        self.judged = self.judged.saturating_add(1);
        Ok(())
    }

    /// The earlier state alone passes the steps of the earlier list that are gone, up to a place.
    fn catch_up(
        &mut self,
        alloc: Global,
        again: &Again<'_>,
        before: &Before<'_>,
        to: usize,
    ) -> Result<(), Stop>
        requires few { length (old_steps again.now) ≤ 2 ^ 30 }
        requires within { to ≤ length (old_steps again.now) }
        ensures passed { (at : ℕ) → IsHere again.now before.now at → IsPassed again.now self.old at
            → OnOk result (IsPassed again.now self.new at) }
        ensures there { OnOk result (self.new.was ≡ to) }
    {
        while self.was < to {
            if !self.is_little(again) {
                return Err(Stop::GivesUp);
            }
            self.leave_one(alloc, again, before)?;
        }
        if self.was > to {
            return Err(Stop::GivesUp);
        }
        Ok(())
    }

    /// Both states pass a step that was kept.
    fn keep_step(
        &mut self,
        alloc: Global,
        again: &Again<'_>,
        before: &Before<'_>,
        step: &Step,
        was: usize,
        at: usize,
    ) -> Result<(), Stop>
        requires again { IsAgain again.now }
        requires kept { IsKeptAt again.now was at 1 }
        requires placed { IsPlaced again.now at (step.now ∷ []) }
        requires here { IsHere again.now before.now at }
        requires passed { IsPassed again.now self.old at }
        ensures { OnOk result (IsPassed again.now self.new (at + 1)) }
    {
        self.catch_up(alloc, again, before, was)?;
        find_kept(
            &self.differences,
            again,
            before,
            step,
            was,
            at,
            &mut self.found,
        )?;
        self.differences = self.differences.through_step(alloc, step)?;
        self.was = was + 1;
        Ok(())
    }

    /// The present state alone passes a step that is new.
    fn take_new(
        &mut self,
        alloc: Global,
        again: &Again<'_>,
        before: &Before<'_>,
        step: &Step,
        at: usize,
    ) -> Result<(), Stop>
        requires again { IsAgain again.now }
        requires placed { IsPlaced again.now at (step.now ∷ []) }
        requires here { IsHere again.now before.now at }
        requires passed { IsPassed again.now self.old at }
        ensures { OnOk result (IsPassed again.now self.new (at + 1)) }
    {
        judge(before, step, at, &mut self.found)?;
        if !self
            .differences
            .take_step(alloc, before, Alone::Present, step)?
        {
            return Err(Stop::GivesUp);
        }
        Ok(())
    }

    /// The next step of now is passed.
    fn pass_step(
        &mut self,
        alloc: Global,
        again: &Again<'_>,
        before: &Before<'_>,
        step: &Step,
        at: usize,
    ) -> Result<(), Stop>
        requires again { IsAgain again.now }
        requires placed { IsPlaced again.now at (step.now ∷ []) }
        requires here { IsHere again.now before.now at }
        requires passed { IsPassed again.now self.old at }
        ensures { OnOk result (IsPassed again.now self.new (at + 1)) }
    {
        match again.place_of(at, 1) {
            Some(was) => self.keep_step(alloc, again, before, step, was, at),
            None => self.take_new(alloc, again, before, step, at),
        }
    }

    /// The steps of a run are passed one by one.
    fn pass_run(
        &mut self,
        alloc: Global,
        again: &Again<'_>,
        before: &Before<'_>,
        run: &[Rc<Step>],
        at: usize,
    ) -> Result<(), Stop>
        requires again { IsAgain again.now }
        requires placed { IsPlaced again.now at (values run.now) }
        requires here { IsHere again.now before.now at }
        requires passed { IsPassed again.now self.old at }
        ensures { OnOk result (IsPassed again.now self.new (at + length run.now)) }
    {
        let mut effect = Effect::empty(alloc);
        let mut place = at;
        for step in run {
            let here = Before::After(&*before, &effect);
            self.pass_step(alloc, again, &here, step, place)?;
            effect.push_step(alloc, step)?;
            place += 1;
        }
        self.judged = self.judged.saturating_add(run.len());
        Ok(())
    }

    /// Whether few cells differ, and few steps were judged or are gone.
    fn is_little(&self, again: &Again<'_>) -> bool {
        self.differences.cells.len() <= MOST_DIFFERENCES
            && self.judged <= JUDGED_OF_ANY + again.node.len() / STEPS_A_JUDGED
    }

    /// Both states pass the steps of a node at once that were kept after so many others, if they agree in all that these
    /// ask. It answers whether they do; else they stand before these.
    fn keep_node(
        &mut self,
        alloc: Global,
        again: &Again<'_>,
        before: &Before<'_>,
        node: &Node,
        was: usize,
        at: usize,
    ) -> Result<bool, Stop>
        requires again { IsAgain again.now }
        requires known { is_some node.now.known ≡ true }
        requires kept { IsKeptAt again.now was at (length node.now.steps) }
        requires placed { IsPlaced again.now at node.now.steps }
        requires here { IsHere again.now before.now at }
        requires passed { IsPassed again.now self.old at }
        ensures kept { IfOk result (λ kept. kept ≡ true → IsPassed again.now self.new (at + length node.now.steps)) }
        ensures left { IfOk result (λ kept. kept ≡ false → IsPassed again.now self.new at) }
    {
        let known = node.known().unwrap();
        self.catch_up(alloc, again, before, was)?;
        if !self.differences.agree_in(&known.precondition) {
            return Ok(false);
        }
        again.copy(was, node.len(), at, &mut self.found)?;
        self.differences = self.differences.through(alloc, &known.effect)?;
        self.was = was + node.len();
        Ok(true)
    }
}

impl Node {
    /// The steps of the node are passed, after so many others.
    fn find_again(
        &self,
        alloc: Global,
        again: &Again<'_>,
        before: &Before<'_>,
        at: usize,
        passed: &mut Passed,
    ) -> Result<(), Stop>
        requires again { IsAgain again.now }
        requires known { is_some self.now.known ≡ true }
        requires placed { IsPlaced again.now at self.now.steps }
        requires here { IsHere again.now before.now at }
        requires passed { IsPassed again.now passed.old at }
        ensures { OnOk result (IsPassed again.now passed.new (at + length self.now.steps)) }
    {
        if !passed.is_little(again) {
            return Err(Stop::GivesUp);
        }
        if let Some(was) = again.place_of(at, self.len()) {
            if passed.keep_node(alloc, again, before, self, was, at)? {
                return Ok(());
            }
        }
        match &self.content {
            Content::Run(run, _) => passed.pass_run(alloc, again, before, run, at),
            Content::Both(a, b) => {
                let left = &**a;
                let right = &**b;
                left.find_again(alloc, again, before, at, passed)?;
                let first = left.known().unwrap();
                let effect = &*first.effect;
                let between = Before::After(&*before, effect);
                right.find_again(alloc, again, &between, at + left.len(), passed)
            }
        }
    }
}

/// What is found in the steps of a summary from a start, by what was found in earlier steps from the same start, of which some
/// were kept. `None` where that would cost as much as to judge all steps: where more than 64 cells differ at once, more than
/// one step in 32 and 1,024 beside are judged or gone, a new step or one that is gone changes a whole table or two cells, or nothing is kept of the
/// whole. Then [`resolve`] tells.
///
/// [`resolve`]: crate::summary::resolve
///
/// `NoMemory` when out of memory; the summaries are unchanged.
pub fn resolve_again(
    alloc: Global,
    summary: &Summary,
    start: &Start,
    earlier: &Earlier<'_>,
) -> Result<Option<Vec<Found>>, NoMemory>
    requires found { earlier.now.found.now ≡ check (start_state start.now) (summed_up earlier.now.summary.now) }
    requires kept { AreKeptRuns (summed_up earlier.now.summary.now) (summed_up summary.now) earlier.now.kept.now }
    ensures { IfOk result (λ found. IfSome found
        (λ found. found.items ≡ check (start_state start.now) (summed_up summary.now))) }
{
    let node: &Node = &summary.node;
    let old: &Node = &earlier.summary.node;
    let _lens = (node.len(), old.len());
    if !node.is_kept() {
        return Ok(None);
    }
    let again = Again {
        node,
        earlier: old,
        found: earlier.found,
        kept: earlier.kept,
        start,
    };
    let mut passed = Passed {
        was: 0,
        differences: Differences::none(alloc),
        found: Vec::with_capacity(alloc, earlier.found.len())?,
        judged: 0,
    };
    let before = Before::At(&*start);
    match node.find_again(alloc, &again, &before, 0, &mut passed) {
        Ok(()) => Ok(Some(passed.found)),
        Err(Stop::Memory) => Err(NoMemory),
        Err(Stop::GivesUp) => Ok(None),
    }
}
