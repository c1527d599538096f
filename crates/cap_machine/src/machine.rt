//! [`Machine`]: what is known of all processes, moved on by one step after another.

ghost use Rattle.std.specs.Prelude.{◌≡◌, [], ◌∷◌, IfOk, OnOk};
ghost use Rattle.cap_machine.specs.Steps.{step};
ghost use Rattle.cap_machine.specs.History.{ended};
ghost use Rattle.cap_machine.specs.Check.{said};
ghost use Rattle.cap_trace.specs.Entry.{IsFd};
ghost use Rattle.std.specs.List.{All};
ghost use Rattle.cap_machine.specs.State.{start_state, with_cells, with_listed};

use crate::cell::{Cell, Mode, Profile};
use crate::checking::take_line;
use crate::start::Start;
use crate::table::Table;
use crate::verdict::Verdict;
use cap_rights::NoMemory;
use cap_trace::{Fd, Line, LineRef, Pid};
use std::alloc::Global;
use std::marker::Model;

/// What is known of all processes at one point of a trace. It keeps no line and no finding. Its size grows with the
/// processes and descriptors that the steps name.
///
/// A contract sees what is known as a list, as of a start: what one would add to the usual start for the same.
#[derive(Drop)]
pub struct Machine {
    table: Table,
}

impl Model for Machine {
    ghost use Rattle.std.specs.Prelude.{List};
    ghost use Rattle.cap_machine.specs.State.{Added};

    ghost Value = { List Added };

    ghost use Rattle.cap_machine.specs.Code.Known.{known};

    ghost view = { λ machine. known machine.table };
}

impl Machine {
    /// A machine that knows what the start says, before any step.
    ///
    /// `NoMemory` when out of memory.
    pub fn from_start(alloc: Global, start: &Start) -> Result<Machine, NoMemory>
        ensures { IfOk result (λ machine. start_state machine ≡ start_state start.now) }
    {
        let table = start.table.copy(alloc)?;
        Ok(Machine { table })
    }

    /// Judges the next step, a line in a profile, by what is known before it, and moves on to what is known after it.
    /// Each step may have a profile of its own. What is said of a step makes no difference to what is known after it.
    ///
    /// `NoMemory` when out of memory. What the machine then knows isn't promised: drop it.
    pub fn step(&mut self, profile: Profile, line: &Line) -> Result<Verdict, NoMemory>
        ensures says { IfOk result (λ verdict. verdict ≡ said (step profile line.now) (start_state self.old)) }
        ensures moves { OnOk result
            (start_state self.new ≡ ended (start_state self.old) (step profile line.now ∷ [])) }
    {
        take_line(&mut self.table, profile, line)
    }

    /// Moves on to what is known after the next step, and judges nothing.
    ///
    /// `NoMemory` when out of memory. What the machine then knows isn't promised: drop it.
    pub fn apply_line(&mut self, profile: Profile, line: &Line) -> Result<(), NoMemory>
        ensures { OnOk result
            (start_state self.new ≡ ended (start_state self.old) (step profile line.now ∷ [])) }
    {
        self.apply_line_ref(profile, &line.view())
    }

    /// Moves on to what is known after a step whose line borrows its texts, and judges nothing.
    ///
    /// `NoMemory` when out of memory. What the machine then knows isn't promised: drop it.
    pub fn apply_line_ref(&mut self, profile: Profile, line: &LineRef<'_>) -> Result<(), NoMemory>
        ensures { OnOk result
            (start_state self.new ≡ ended (start_state self.old) (step profile line.now ∷ [])) }
    {
        self.table.apply_line(profile, line)
    }

    /// Gives a process this mode, these cells where they are listed, and another one for all its other descriptors. Of a
    /// descriptor that is listed twice the last cell counts. What is known of all other processes stays.
    ///
    /// No descriptor may be above [`cap_trace::LARGEST_FD`]. `NoMemory` when out of memory. What the machine then knows
    /// isn't promised: drop it.
    pub fn put(
        &mut self,
        pid: Pid,
        mode: Mode,
        rest: Cell,
        cells: &[(Fd, Cell)],
    ) -> Result<(), NoMemory>
        requires fds { All (λ entry. IsFd entry.0) cells.now }
        ensures { OnOk result (start_state self.new ≡ with_listed (start_state self.old) pid mode rest cells.now) }
    {
        self.table.add(pid, mode, rest, cells)
    }

    /// Gives a process this mode, and these cells where they are listed. Of a descriptor that is listed twice the last
    /// cell counts. What is known of its other descriptors, and of all other processes, stays.
    ///
    /// No descriptor may be above [`cap_trace::LARGEST_FD`]. `NoMemory` when out of memory. What the machine then knows
    /// isn't promised: drop it.
    pub fn set(&mut self, pid: Pid, mode: Mode, cells: &[(Fd, Cell)]) -> Result<(), NoMemory>
        requires fds { All (λ entry. IsFd entry.0) cells.now }
        ensures { OnOk result (start_state self.new ≡ with_cells (start_state self.old) pid mode cells.now) }
    {
        self.table.set(pid, mode, cells)
    }

    /// Forgets a process: nothing is known of it from now on. What is known of all others stays.
    ///
    /// `NoMemory` when out of memory. What the machine then knows isn't promised: drop it.
    pub fn forget(&mut self, pid: Pid) -> Result<(), NoMemory>
        ensures { OnOk result (start_state self.new
            ≡ with_listed (start_state self.old) pid Mode.Unsure Cell.Unknown []) }
    {
        if !self.table.knows(pid) {
            return Ok(());
        }
        self.table.forget(pid, Mode::Unsure)
    }

    /// What is known of a descriptor of a process.
    pub fn cell(&self, pid: Pid, fd: Fd) -> Cell
        ensures { result ≡ (start_state self.now).cell pid fd }
    {
        self.table.cell(pid, fd)
    }

    /// What is known of the mode of a process.
    pub fn mode(&self, pid: Pid) -> Mode
        ensures { result ≡ (start_state self.now).mode pid }
    {
        self.table.mode(pid)
    }
}
