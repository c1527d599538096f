//! Where each process makes its last step.

ghost use Rattle.std.specs.Prelude.{OnOk, length, ℕ, ◌+◌, ◌^◌, ◌≡◌, ◌≤◌};
ghost use Rattle.cap_summary.specs.{Lasts.AreNotedFor, Positions.last_of};

use cap_trace::Pid;
use cap_tree::NoMemory;
use std::alloc::Global;

/// By pid the position of the last step that is noted of a process.
#[derive(Drop)]
pub(crate) struct LastSteps {
    positions: Vec<usize>,
}

impl LastSteps {
    /// No step is noted.
    pub(crate) fn nothing(alloc: Global) -> LastSteps {
        LastSteps {
            positions: Vec::new(alloc),
        }
    }

    /// The position of the last step of a process; 0 where none is noted.
    pub(crate) fn of(&self, pid: Pid) -> usize
        ensures { result ≡ last_of self.now pid }
    {
        self.positions.get(pid as usize).copied().unwrap_or(0)
    }

    /// Notes a step of a process at a position.
    fn note(&mut self, pid: Pid, position: usize) -> Result<(), NoMemory>
        ensures kept { OnOk result ((p : ℕ) → last_of self.old p ≤ last_of self.new p) }
        ensures noted { OnOk result (position ≤ last_of self.new pid) }
    {
        let at = pid as usize;
        if self.positions.len() <= at {
            self.positions.resize(at + 1, 0)?;
        }
        self.positions[at] = self.positions[at].max(position);
        Ok(())
    }

    /// Notes steps of these processes, which stand after so many others.
    pub(crate) fn note_run(&mut self, pids: &[Pid], at: usize) -> Result<(), NoMemory>
        requires { at + length pids.now ≤ 2 ^ 31 }
        ensures kept { OnOk result ((p : ℕ) → last_of self.old p ≤ last_of self.new p) }
        ensures noted { OnOk result (AreNotedFor self.new at pids.now) }
    {
        if pids.len() == 0 {
            return Ok(());
        }
        self.note(pids[0], at + 1)?;
        self.note_run(&pids[1..], at + 1)
    }
}
