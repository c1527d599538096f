//! [`Origins`]: where each line of a trace stood before some edits.
ghost use Rattle.std.specs.Prelude.{◌≡◌, ◌+◌, ◌<◌, ◌≤◌, ◌^◌, [], length, map, insert, remove, slice_set, IfOk, OnOk, None, drop, take, All, ◌++◌, ℕ, true, vec_len};
ghost use Rattle.cap_machine.specs.declared.step.Step.{Step};
ghost use Rattle.cap_session.specs.Limits.{most_lines};
ghost use Rattle.cap_session.specs.Session.{StoodThere};
ghost use Rattle.cap_summary.specs.KeptRuns.{AreKeptRuns};
ghost use Rattle.std.specs.List.{AllZip};
ghost use Rattle.std.specs.Prelude.{List};
ghost use Rattle.cap_session.specs.Changes.{came, went};
ghost use Rattle.cap_session.specs.Code.Walked.{Rise};
ghost use Rattle.cap_session.specs.Origins.{unmoved, runs_in};
ghost use Rattle.std.specs.List.{AllWithin};
ghost use Rattle.cap_session.specs.Code.RunTable.{spread, IsTable, IsCut, up, down, was_end, at_end, without_first, joined, do_meet};

use crate::changes::{Changes, changes_of};
use cap_machine::Found;
use cap_summary::KeptRun;
use std::alloc::{AllocError, Global};
use std::marker::Model;

/// Where each line of a trace stood: the runs of lines that stood one after another and do so now.
#[derive(Drop)]
pub struct Origins {
    runs: Vec<KeptRun>,
    count: usize,
}

impl Model for Origins {
    ghost use Rattle.std.specs.Prelude.{List, Option, ℕ};
    ghost use Rattle.cap_session.specs.Code.RunTable.{spread, IsTable};

    ghost Value = { List (Option ℕ) };

    ghost view = { λ a. spread 0 a.runs.items a.count };

    ghost invariant = { λ a. IsTable a.count a.runs.items };
}

/// The index of the first run that ends behind a place.
fn first_beyond(runs: &[KeptRun], at: usize) -> usize
    requires { IsTable most_lines runs.now }
    ensures within { result ≤ length runs.now }
    ensures before { AllWithin (λ run. run.at + run.len ≤ at) runs.now 0 result }
    ensures behind { AllWithin (λ run. at < run.at + run.len) runs.now result (length runs.now) }
{
    let mut low = 0;
    let mut high = runs.len();
    while low < high {
        let middle = low + (high - low) / 2;
        let run = &runs[middle];
        if run.at + run.len <= at {
            low = middle + 1;
        } else {
            high = middle;
        }
    }
    low
}

/// Cuts the run in which a place lies in two, and answers the index of the first run from there on.
fn cut(runs: &mut Vec<KeptRun>, at: usize) -> Result<usize, AllocError>
    requires { IsTable most_lines runs.old.items }
    ensures cut { IfOk result (λ index. IsCut at runs.new.items index) }
    ensures stood { OnOk result ((end : ℕ) → spread 0 runs.new.items end ≡ spread 0 runs.old.items end) }
    ensures was { OnOk result (was_end 0 runs.new.items ≡ was_end 0 runs.old.items) }
    ensures at { OnOk result (at_end 0 runs.new.items ≡ at_end 0 runs.old.items) }
{
    let index = first_beyond(runs.as_slice(), at);
    if index == runs.len() {
        return Ok(index);
    }
    let run = runs[index];
    if run.at >= at {
        return Ok(index);
    }
    let front = at - run.at;
    runs[index] = KeptRun { len: front, ..run };
    let back = KeptRun {
        was: run.was + front,
        at,
        len: run.len - front,
    };
    runs.insert(index + 1, back)?;
    Ok(index + 1)
}

/// Takes the line at a place off the run at an index, where that begins there.
fn drop_line(runs: &mut Vec<KeptRun>, index: usize, at: usize)
    requires cut { IsCut at runs.old.items index }
    requires within_then { was_end 0 runs.old.items ≤ most_lines }
    requires within_now { at_end 0 runs.old.items ≤ most_lines }
    ensures { runs.new.items ≡ take index runs.old.items ++ without_first at (drop index runs.old.items) }
{
    if index == runs.len() {
        return;
    }
    let run = runs[index];
    if run.at != at {
        return;
    }
    if run.len == 1 {
        runs.remove(index);
        return;
    }
    runs[index] = KeptRun {
        was: run.was + 1,
        at: run.at + 1,
        len: run.len - 1,
    };
}

/// Whether one run begins where another ends, then and now.
fn do_meet(run: KeptRun, next: KeptRun) -> bool
    requires was { run.was + run.len < 2 ^ 64 }
    requires at { run.at + run.len < 2 ^ 64 }
    ensures { result ≡ do_meet run next }
{
    run.was + run.len == next.was && run.at + run.len == next.at
}

/// Joins the run at an index and the one before it, where they meet.
fn join(runs: &mut Vec<KeptRun>, index: usize)
    requires cut { IsCut (at_end 0 (take index runs.old.items)) runs.old.items index }
    requires within_then { was_end 0 runs.old.items ≤ most_lines }
    requires within_now { at_end 0 runs.old.items ≤ most_lines }
    ensures { runs.new.items ≡ joined index runs.old.items }
{
    if index == 0 || index == runs.len() {
        return;
    }
    let run = runs[index - 1];
    let next = runs[index];
    if !do_meet(run, next) {
        return;
    }
    runs[index - 1] = KeptRun {
        len: run.len + next.len,
        ..run
    };
    runs.remove(index);
}

/// Moves runs up by one line.
fn move_up(runs: &mut [KeptRun])
    requires { All (λ run. run.at < 2 ^ 32) runs.old }
    ensures { runs.new ≡ map up runs.old }
{
    for run in runs.iter_mut() {
        run.at += 1;
    }
}

/// Moves runs down by one line.
fn move_down(runs: &mut [KeptRun])
    requires { All (λ run. 0 < run.at) runs.old }
    ensures { runs.new ≡ map down runs.old }
{
    for run in runs.iter_mut() {
        run.at -= 1;
    }
}

/// Moves the runs from an index on up by one line.
fn move_later_up(runs: &mut Vec<KeptRun>, index: usize)
    requires within { index ≤ vec_len runs.old }
    requires small { All (λ run. run.at < 2 ^ 32) (drop index runs.old.items) }
    ensures { runs.new.items ≡ take index runs.old.items ++ map up (drop index runs.old.items) }
{
    move_up(&mut runs[index..]);
}

/// Moves the runs from an index on down by one line.
fn move_later_down(runs: &mut Vec<KeptRun>, index: usize)
    requires within { index ≤ vec_len runs.old }
    requires beyond { All (λ run. 0 < run.at) (drop index runs.old.items) }
    ensures { runs.new.items ≡ take index runs.old.items ++ map down (drop index runs.old.items) }
{
    move_down(&mut runs[index..]);
}

impl Origins {
    /// So many lines that stand where they stood.
    pub fn unmoved(alloc: Global, count: usize) -> Result<Origins, AllocError>
        requires { count ≤ most_lines }
        ensures { IfOk result (λ origins. origins ≡ unmoved count) }
    {
        let mut runs = Vec::new(alloc);
        if count > 0 {
            runs.push(KeptRun {
                was: 0,
                at: 0,
                len: count,
            })?;
        }
        Ok(Origins { runs, count })
    }

    /// Where the lines stood, with a new line at a place.
    pub fn inserted(self, at: usize) -> Result<Origins, AllocError>
        requires in_range { at ≤ length self }
        requires few { length self < most_lines }
        ensures { IfOk result (λ origins. origins ≡ insert self at None) }
    {
        let Origins { mut runs, count } = self;
        let index = cut(&mut runs, at)?;
        move_later_up(&mut runs, index);
        Ok(Origins {
            runs,
            count: count + 1,
        })
    }

    /// Where the lines stood, without the one at a place.
    pub fn removed(self, at: usize) -> Result<Origins, AllocError>
        requires in_range { at < length self }
        ensures { IfOk result (λ origins. origins ≡ remove self at) }
    {
        let Origins { mut runs, count } = self;
        let index = cut(&mut runs, at)?;
        drop_line(&mut runs, index, at);
        move_later_down(&mut runs, index);
        join(&mut runs, index);
        Ok(Origins {
            runs,
            count: count - 1,
        })
    }

    /// Where the lines stood, with a new line in place of the one at a place.
    pub fn replaced(self, at: usize) -> Result<Origins, AllocError>
        requires in_range { at < length self }
        ensures { IfOk result (λ origins. origins ≡ slice_set self at None) }
    {
        let Origins { mut runs, count } = self;
        let index = cut(&mut runs, at)?;
        drop_line(&mut runs, index, at);
        Ok(Origins { runs, count })
    }

    /// The runs of lines that stood one after another and do so now, in order.
    pub fn runs(&self) -> &[KeptRun]
        ensures { (before now : List Step) → AllZip (StoodThere before) self.now now → AreKeptRuns before now result.now }
    {
        self.runs.as_slice()
    }

    /// What went from the findings then, and what came in those now.
    pub fn changes(
        &self,
        alloc: Global,
        before: &[Found],
        now: &[Found],
    ) -> Result<Changes, AllocError>
        requires before { Rise 1 before.now }
        requires now { Rise 1 now.now }
        ensures went { IfOk result (λ changes. changes.went.items ≡ went self.now before.now now.now) }
        ensures came { IfOk result (λ changes. changes.came.items ≡ came self.now before.now now.now) }
    {
        changes_of(alloc, &self.runs, before, now)
    }

    /// Whether all lines stand where they stood, of so many then.
    pub fn are_unmoved(&self, before: usize) -> bool
        ensures { result ≡ true → (self.now ≡ unmoved before) }
    {
        if self.count != before {
            return false;
        }
        match self.runs.first() {
            None => before == 0,
            Some(run) => run.was == 0 && run.len == before,
        }
    }

    /// How many runs the lines make that stood one after another and do so now.
    pub fn count_runs(&self) -> usize
        ensures { result ≡ runs_in self.now }
    {
        self.runs.len()
    }
}
