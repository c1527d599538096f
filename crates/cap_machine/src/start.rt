//! What is known before the first line of a trace.

ghost use Rattle.std.specs.Prelude.{◌≡◌, ◌≤◌, OnOk, OnErr, [], ◌∷◌, ◌++◌, map};
ghost use Rattle.std.specs.List.{All};
ghost use Rattle.cap_trace.specs.Entry.{IsFd};
ghost use Rattle.cap_trace.specs.Limits.{largest_pid};
ghost use Rattle.cap_machine.specs.Code.Starts.{added_by};
ghost use Rattle.cap_machine.specs.State.{last_cells, start_state, usual, with_listed};

use crate::cell::{Cell, Mode};
use crate::table::Table;
use cap_rights::NoMemory;
use cap_trace::{Fd, Pid};
use std::alloc::Global;
use std::marker::Model;

/// What was added of one process.
#[derive(Drop)]
struct Entry {
    pid: Pid,
    mode: Mode,
    rest: Cell,
    cells: Vec<(Fd, Cell)>,
}

/// What is known of each process before the first line: a mode and cells. Of a process that isn't listed nothing is.
///
/// It is the list of what was added, in order. A table of the same is kept beside it for look-ups.
#[derive(Drop)]
pub struct Start {
    added: Vec<Entry>,
    pub(crate) table: Table,
}

/// The cells that the last of these entries of a process lists; none where it has no entry.
fn last_listed(entries: &[Entry], pid: Pid) -> &[(Fd, Cell)]
    ensures { result.now ≡ last_cells [] (map added_by entries.now) pid }
{
    let mut last: &[(Fd, Cell)] = &[];
    for entry in entries {
        if pid == entry.pid {
            last = &entry.cells;
        }
    }
    last
}

impl Model for Start {
    ghost use Rattle.std.specs.Prelude.{List};
    ghost use Rattle.cap_machine.specs.State.{Added};

    ghost Value = { List Added };

    ghost use Rattle.cap_machine.specs.Code.Starts.{all_added, IsKept};

    ghost view = { all_added };

    ghost invariant = { IsKept };
}

impl Start {
    /// The usual start, in which nothing is known of any process. It takes no memory.
    #[tactic(auto, unfolding(crate::specs::State::start_state))]
    pub fn unknown(alloc: Global) -> Start
        ensures empty { result ≡ [] }
        ensures usual { start_state result ≡ usual }
    {
        Start {
            added: Vec::new(alloc),
            table: Table::unknown(alloc),
        }
    }

    /// Adds what is known of a process: its mode, the cells that are listed, and that of all its other descriptors. Its
    /// pid is at most [`LARGEST_PID`](cap_trace::LARGEST_PID), and a descriptor that is listed at most
    /// [`LARGEST_FD`](cap_trace::LARGEST_FD).
    ///
    /// A process that was added before is replaced, and of a descriptor that is listed twice the last cell counts.
    ///
    /// `NoMemory` when out of memory; the start is then as before.
    #[tactic(auto, unfolding(crate::specs::State::start_state))]
    pub fn add(
        &mut self,
        pid: Pid,
        mode: Mode,
        rest: Cell,
        cells: Vec<(Fd, Cell)>,
    ) -> Result<(), NoMemory>
        requires pid { pid ≤ largest_pid }
        requires fds { All (λ entry. IsFd entry.0) cells.items }
        ensures added { OnOk result
            (self.new ≡ self.old ++ (record { pid = pid; mode = mode; rest = rest; cells = cells.items }) ∷ []) }
        ensures unchanged { OnErr result (self.new ≡ self.old) }
        ensures ok { OnOk result (start_state self.new ≡ with_listed (start_state self.old) pid mode rest cells.items) }
        ensures err { OnErr result (start_state self.new ≡ start_state self.old) }
    {
        let entry = Entry {
            pid,
            mode,
            rest,
            cells,
        };
        self.added.reserve(1)?;
        self.table
            .add(entry.pid, entry.mode, entry.rest, &entry.cells)?;
        self.added.push_reserved(entry);
        Ok(())
    }

    /// The cells that it lists for a process: those of the last time that the process was added, none where it wasn't.
    pub fn listed(&self, pid: Pid) -> &[(Fd, Cell)]
        ensures { result.now ≡ last_cells [] self.now pid }
    {
        last_listed(&self.added, pid)
    }

    /// What is known of a descriptor of a process.
    pub fn cell(&self, pid: Pid, fd: Fd) -> Cell
        ensures { result ≡ (start_state self.now).cell pid fd }
    {
        self.table.cell(pid, fd)
    }

    /// What is known of the mode of a process.
    pub fn mode(&self, pid: Pid) -> Mode
        ensures { result ≡ (start_state self.now).mode pid }
    {
        self.table.mode(pid)
    }
}
