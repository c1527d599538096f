//! Walks back through the steps of a node.

ghost use Rattle.std.specs.Prelude.{List, OnOk, [], length, take, true, ℕ, ◌+◌, ◌<◌, ◌^◌, ◌∷◌, ◌≡◌, ◌≤◌};
ghost use Rattle.cap_summary.specs.{Knows.Knows, State, Step, slice_index_or, values};
ghost use Rattle.cap_summary.specs.Positions.{Origin, Passes, cell_seen, mode_seen};

use crate::node::{Content, Node};
use crate::{Key, Known};
use cap_machine::{CellWalk, ModeWalk, Step};
use cap_tree::NoMemory;
use std::rc::Rc;

/// A walk back from a cell, or from a mode.
pub(crate) trait Walk {
    /// What it finds where a history comes before the steps that it has passed.
    ghost sees: { Self → State → List Step → Origin };

    /// Whether a step gave what it looks for: then no older one matters.
    fn is_over(&self) -> bool
        ensures { result ≡ true → (at : ℕ) (t : List Step) → Passes sees self.now self.now at t };

    /// Whether it is known that no step of a segment touches what it looks for. No is a safe answer.
    fn is_left(&self, known: &Known) -> bool
        ensures { result ≡ true → (t : List Step) → Knows known.now t → (at count : ℕ)
            → Passes sees self.now self.now at (take count t) };

    /// Passes the step after so many others.
    fn pass_step(&mut self, at: usize, step: &Step) -> Result<(), NoMemory>
        requires { at < 2 ^ 31 }
        ensures { OnOk result (Passes sees self.old self.new at (step.now ∷ [])) };
}

impl Walk for CellWalk {
    ghost sees = { cell_seen };

    fn is_over(&self) -> bool {
        self.has_ended()
    }

    fn is_left(&self, known: &Known) -> bool {
        known.leaves(self.pid(), Key::Fd(self.fd()))
    }

    fn pass_step(&mut self, at: usize, step: &Step) -> Result<(), NoMemory> {
        self.pass(at + 1, step.profile, &step.line)
            .map_err(|_| NoMemory)
    }
}

impl Walk for ModeWalk {
    ghost sees = { mode_seen };

    fn is_over(&self) -> bool {
        self.has_ended()
    }

    fn is_left(&self, known: &Known) -> bool {
        known.leaves(self.pid(), Key::Mode)
    }

    fn pass_step(&mut self, at: usize, step: &Step) -> Result<(), NoMemory> {
        self.pass(at + 1, step.profile, &step.line)
            .map_err(|_| NoMemory)
    }
}

/// Walks back through a run of steps after so many others, up to the step that gave what the walk looks for.
fn walk_run<W: Walk>(walk: &mut W, at: usize, run: &[Rc<Step>]) -> Result<(), NoMemory>
    requires short { at + length run.now ≤ 2 ^ 31 }
    ensures { OnOk result (Passes W.sees walk.old walk.new at (values run.now)) }
{
    let mut rest = run;
    while let Some((step, before)) = rest.split_last() {
        if walk.is_over() {
            break;
        }
        walk.pass_step(at + before.len(), step)?;
        rest = before;
    }
    Ok(())
}

impl Node {
    /// The step after so many others.
    pub(crate) fn step(&self, count: usize) -> &Step
        requires { count < length self.now.steps }
        ensures { slice_index_or self.now.steps count result.now ≡ result.now }
    {
        match &self.content {
            Content::Run(run, _) => &run[count],
            Content::Both(a, b) => {
                if count < a.len() {
                    a.step(count)
                } else {
                    b.step(count - a.len())
                }
            }
        }
    }

    /// Whether it is known that no step touches what a walk looks for. No is a safe answer.
    fn is_left<W: Walk>(&self, walk: &W) -> bool
        ensures { result ≡ true → (at count : ℕ) → Passes W.sees walk.now walk.now at (take count self.now.steps) }
    {
        match &self.known {
            Some(known) => walk.is_left(known),
            None => false,
        }
    }

    /// Walks back through the first steps, so many, which stand after others: the right part first, and up to the step
    /// that gave what the walk looks for. A part that is known not to touch that is left out.
    pub(crate) fn walk<W: Walk>(
        &self,
        walk: &mut W,
        at: usize,
        count: usize,
    ) -> Result<(), NoMemory>
        requires within { count ≤ length self.now.steps }
        requires short { at + length self.now.steps ≤ 2 ^ 31 }
        ensures { OnOk result (Passes W.sees walk.old walk.new at (take count self.now.steps)) }
    {
        if walk.is_over() || self.is_left(walk) {
            return Ok(());
        }
        match &self.content {
            Content::Run(run, _) => walk_run(walk, at, &run[..count]),
            Content::Both(a, b) => {
                let left = &**a;
                let right = &**b;
                let len = left.len();
                if count <= len {
                    return left.walk(walk, at, count);
                }
                right.walk(walk, at + len, count - len)?;
                left.walk(walk, at, len)
            }
        }
    }
}
