//! To move a machine on over a segment by its effect.

ghost use Rattle.std.specs.Prelude.{All, IfOk, IfSome, OnOk, Some, [], true, ℕ, ◌≡◌};
ghost use Rattle.cap_summary.specs.{Effects.state_before, start_state};
ghost use Rattle.cap_machine.specs.State.{with_cells, with_listed};
ghost use Rattle.cap_trace.specs.Entry.{IsFd};
ghost use Rattle.cap_summary.specs.Listing.{AreRowsOf, EffectLists, IsTaken, IsTakenRow, RowLists, listed_in, moved};
ghost use Rattle.cap_summary.specs.{Positions.AgreeAfter, Sorted.Rises, Sorted.found};

use crate::last_steps::LastSteps;
use crate::{Before, DefaultCells, Effect, Row, SharedRow};
use cap_machine::{Cell, Machine, Mode};
use cap_trace::{Fd, LARGEST_FD, Pid};
use cap_tree::NoMemory;
use std::alloc::Global;

/// Gives a process this mode, these cells, and another one for all its other descriptors.
fn put(
    machine: &mut Machine,
    pid: Pid,
    mode: Mode,
    rest: Cell,
    cells: &[(Fd, Cell)],
) -> Result<(), NoMemory>
    requires { All (λ entry. IsFd entry.0) cells.now }
    ensures { OnOk result
        (start_state machine.new ≡ with_listed (start_state machine.old) pid mode rest cells.now) }
{
    machine.put(pid, mode, rest, cells).map_err(|_| NoMemory)
}

/// Gives a process this mode, and these cells.
fn set(machine: &mut Machine, pid: Pid, mode: Mode, cells: &[(Fd, Cell)]) -> Result<(), NoMemory>
    requires { All (λ entry. IsFd entry.0) cells.now }
    ensures { OnOk result (start_state machine.new ≡ with_cells (start_state machine.old) pid mode cells.now) }
{
    machine.set(pid, mode, cells).map_err(|_| NoMemory)
}

/// Forgets a process.
pub(crate) fn forget(machine: &mut Machine, pid: Pid) -> Result<(), NoMemory>
    ensures { OnOk result
        (start_state machine.new ≡ with_listed (start_state machine.old) pid Mode.Unsure Cell.Unknown []) }
{
    machine.forget(pid).map_err(|_| NoMemory)
}

impl Row {
    /// Whether it lists what it changes of a process: it hands no table on, closes none from a descriptor on, reads no
    /// other process, and lists no descriptor above the largest.
    fn lists(&self, pid: Pid) -> bool
        ensures { result ≡ true → RowLists pid self.now }
    {
        !matches!(self.base.others, DefaultCells::Of(_, _))
            && self.base.closed_from.is_none()
            && self.reads_only(pid)
            && self.cells.entries().iter().all(|cell| cell.0 <= LARGEST_FD)
    }

    /// The cells that it lists for a process, as they are in a state.
    fn cells_in(
        &self,
        alloc: Global,
        pid: Pid,
        state: &Before<'_>,
    ) -> Result<Vec<(Fd, Cell)>, NoMemory>
        ensures { IfOk result (λ cells. cells.items ≡ listed_in (state_before state.now) pid self.now.cells) }
    {
        let listed = self.cells.entries();
        let mut cells = Vec::with_capacity(alloc, listed.len())?;
        for entry in listed {
            let cell = state.cell(pid, entry.0);
            cells.push((entry.0, cell))?;
        }
        Ok(cells)
    }
}

impl Effect {
    /// The mode of a process after a segment with this effect, and the cells that its row lists.
    fn row_from(
        &self,
        alloc: Global,
        pid: Pid,
        row: &Row,
        machine: &Machine,
    ) -> Result<(Mode, Vec<(Fd, Cell)>), NoMemory>
        ensures mode { IfOk result (λ given. given.0 ≡ (moved self.now (start_state machine.now)).mode pid) }
        ensures cells { IfOk result
            (λ given. given.1.items ≡ listed_in (moved self.now (start_state machine.now)) pid row.now.cells) }
    {
        let before = Before::Now(machine);
        let after = Before::After(&before, self);
        let cells = row.cells_in(alloc, pid, &after)?;
        Ok((after.mode(pid), cells))
    }

    /// Gives a process in a machine its row, by what the machine knows before. All is read before anything is written.
    fn take_row(
        &self,
        alloc: Global,
        pid: Pid,
        row: &Row,
        machine: &mut Machine,
    ) -> Result<(), NoMemory>
        requires row { found self.now.rows pid ≡ Some row.now }
        requires lists { RowLists pid row.now }
        ensures { OnOk result (IsTakenRow pid row.now (start_state machine.old) (start_state machine.new)) }
    {
        let (mode, cells) = self.row_from(alloc, pid, row, &*machine)?;
        match &row.base.others {
            DefaultCells::Unknown => put(machine, pid, mode, Cell::Unknown, &cells),
            DefaultCells::Closed => put(machine, pid, mode, Cell::Closed, &cells),
            _ => set(machine, pid, mode, &cells),
        }
    }
}

/// Moves a machine on by rows of processes, to the end of a segment after so many steps. A process that makes no later
/// step is forgotten.
fn take_rows(
    alloc: Global,
    effect: &Effect,
    rows: &[(u32, SharedRow)],
    machine: &mut Machine,
    at: usize,
    last: &LastSteps,
) -> Result<(), NoMemory>
    requires rising { Rises rows.now }
    requires rows { AreRowsOf effect.now rows.now }
    ensures { OnOk result (IsTaken last.now at rows.now (start_state machine.old) (start_state machine.new)) }
{
    if rows.len() == 0 {
        return Ok(());
    }
    let pid = rows[0].0;
    if last.of(pid) <= at {
        forget(machine, pid)?;
    } else {
        effect.take_row(alloc, pid, rows[0].1.get(), machine)?;
    }
    take_rows(alloc, effect, &rows[1..], machine, at, last)
}

impl Effect {
    /// Whether it lists what it changes.
    pub(crate) fn lists(&self) -> bool
        ensures { result ≡ true → EffectLists self.now }
    {
        self.rows
            .entries()
            .iter()
            .all(|entry| entry.1.get().lists(entry.0))
    }

    /// Moves a machine on over a segment with this effect, which ends after so many steps, to what is known then of the
    /// processes that make later ones.
    pub(crate) fn take(
        &self,
        alloc: Global,
        machine: &mut Machine,
        at: usize,
        last: &LastSteps,
    ) -> Result<(), NoMemory>
        requires { EffectLists self.now }
        ensures { OnOk result
            (AgreeAfter last.now at (moved self.now (start_state machine.old)) (start_state machine.new)) }
    {
        take_rows(alloc, self, self.rows.entries(), machine, at, last)
    }
}
