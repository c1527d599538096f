//! What a row and an effect say of a cell, whether a row reads another process, and how much they list.

ghost use Rattle.std.specs.Prelude.{◌≡◌, ℕ, true, false, length, IfOk, option_copied};
ghost use Rattle.cap_summary.specs.Effects.{own_row, row_cell, listed_value, row_leaves, leaves};
ghost use Rattle.cap_summary.specs.{Names.{Names, RowWithin, only, has_cell}, Keys.Cells, Keys.IsSizeOf};
ghost use Rattle.cap_summary.specs.{Keys.reads_within, declared.key.Key.Key, Sorted.{found, Rises}};

use crate::{Base, DefaultCells, Effect, Key, Map, Passing, Row, SharedRow, Value};
use cap_trace::Pid;
use cap_tree::NoMemory;
use std::alloc::{AllocError, Global};

/// How many rows there are, and cells that they list, as far as they can be counted.
pub(crate) fn counted(rows: &[(u32, SharedRow)]) -> usize
    requires { Rises rows.now }
    ensures { IsSizeOf rows.now result }
{
    let mut size = 0_usize;
    for entry in rows {
        let cells = entry.1.get().cells.entries();
        size = size.saturating_add(cells.len()).saturating_add(1);
    }
    size
}

/// A clone is the same.
impl Clone for Row {
    ghost is_clone = { λ row copy. copy ≡ row };

    fn clone(&self) -> Result<Row, AllocError> {
        Ok(Row {
            base: self.base,
            mode: self.mode.clone()?,
            cells: self.cells.clone()?,
        })
    }
}

impl Value {
    /// Whether it reads no other process than this one.
    fn reads_only(&self, pid: Pid) -> bool
        ensures { result ≡ reads_within (has_cell (only pid)) self.now }
    {
        match self {
            Value::Same(source, _) => *source == pid,
            Value::Of(source, _, _) => *source == pid,
            _ => true,
        }
    }
}

impl Row {
    /// The row of a process that is unchanged.
    pub(crate) fn own(alloc: Global) -> Row
        ensures { result ≡ own_row }
    {
        Row {
            base: Base::of(DefaultCells::Own),
            mode: None,
            cells: Map::new(alloc),
        }
    }

    /// The row of a process that gets the cells of this one of a process by a fork.
    pub(crate) fn forked(&self, pid: Pid) -> Result<Row, NoMemory>
        ensures reads { IfOk result (λ row. (cells : Cells) (p : ℕ) (k : Key)
            → row_cell cells p row k ≡ row_cell cells pid self.now k) }
        ensures leaves { IfOk result (λ row. (k : Key) → row_leaves row k ≡ false) }
        ensures names { IfOk result (λ row. (names : Names) → names.pids pid ≡ true → RowWithin names self.now
            → RowWithin names row) }
    {
        let mode = match &self.mode {
            Some(value) => value.clone()?,
            None => Value::Same(pid, Key::Mode),
        };
        Ok(Row {
            base: Base {
                others: self.base.others.pass(pid, Passing::Same),
                closed_from: self.base.closed_from,
            },
            mode: Some(mode),
            cells: self.cells.clone()?,
        })
    }

    /// The value that is listed at a key, if there is one.
    #[inline(always)]
    pub(crate) fn listed(&self, key: Key) -> Option<&Value>
        ensures { option_copied result ≡ listed_value self.now key }
    {
        match key {
            Key::Mode => self.mode.as_ref(),
            Key::Fd(fd) => self.cells.get(fd),
        }
    }

    /// Whether it is known that no line touches a cell or turns the mode, where this is listed at its key.
    #[inline(always)]
    pub(crate) fn leaves(&self, key: Key, listed: Option<&Value>) -> bool
        requires { option_copied listed ≡ listed_value self.now key }
        ensures { result ≡ row_leaves self.now key }
    {
        match key {
            Key::Mode => listed.is_none(),
            Key::Fd(fd) => {
                listed.is_none()
                    && matches!(self.base.others, DefaultCells::Own)
                    && !self.base.closes(fd)
            }
        }
    }

    /// Whether nothing in it reads another process than this one.
    pub(crate) fn reads_only(&self, pid: Pid) -> bool
        ensures { result ≡ true → RowWithin (only pid) self.now }
    {
        let mode_reads_only = match &self.mode {
            Some(value) => value.reads_only(pid),
            None => true,
        };
        let others_read_only = match &self.base.others {
            DefaultCells::Of(source, _) => *source == pid,
            _ => true,
        };
        mode_reads_only
            && others_read_only
            && self
                .cells
                .entries()
                .iter()
                .all(|cell| cell.1.reads_only(pid))
    }
}

impl Effect {
    /// The row of a process, if it has one.
    pub(crate) fn row(&self, pid: Pid) -> Option<&Row>
        ensures { option_copied result ≡ found self.now.rows pid }
    {
        match self.rows.get(pid) {
            Some(row) => Some(row.get()),
            None => None,
        }
    }

    /// Whether it is known that no line of the segment touches a cell or turns a mode.
    pub fn leaves(&self, pid: Pid, key: Key) -> bool
        ensures { result ≡ leaves self.now pid key }
    {
        match self.row(pid) {
            Some(row) => row.leaves(key, row.listed(key)),
            None => true,
        }
    }

    /// Whether both have the same rows. No is a safe answer.
    pub fn is_same(&self, other: &Effect) -> bool
        ensures { result ≡ true → self.now.rows ≡ other.now.rows }
    {
        let sized = self.size() == other.size();
        sized && self.rows == other.rows
    }

    /// How many processes have a row.
    pub fn processes(&self) -> usize
        ensures { result ≡ length self.now.rows }
    {
        self.rows.entries().len()
    }

    /// How many rows there are, and cells that they list, as far as they can be counted.
    pub fn size(&self) -> usize
        ensures { IsSizeOf self.now.rows result }
    {
        match self.size {
            Some(size) => size,
            None => counted(self.rows.entries()),
        }
    }
}
