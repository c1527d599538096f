//! Where what is known of a descriptor and of a mode comes from: the lines that it rests on, newest first.

use crate::cell::{Cell, Mode};
use cap_trace::{Fd, Pid};

/// A line that touched a descriptor of a process.
#[derive(Clone, Copy, Debug, PartialEq, Eq)]
pub struct CellLink {
    /// The position of the line, from 1.
    pub at: usize,
    /// The process.
    pub pid: Pid,
    /// The descriptor, by its number in that process.
    pub fd: Fd,
}

/// Where a chain of cells ends.
#[derive(Clone, Copy, Debug, PartialEq, Eq)]
pub enum CellEnd {
    /// The oldest line gave this cell.
    Given(Cell),
    /// No older line touched this descriptor of this process: at the start it had this cell.
    Start(Pid, Fd, Cell),
}

/// Where a cell comes from.
#[derive(Debug, Drop)]
pub struct CellProvenance {
    /// The cell itself.
    pub cell: Cell,
    /// The lines that gave, moved or changed it, newest first. Each took the cell of the next one, as it was before, or
    /// that of the start; the last one may have given it.
    pub links: Vec<CellLink>,
    /// Where the chain ends.
    pub end: CellEnd,
}

/// A line that touched the mode of a process.
#[derive(Clone, Copy, Debug, PartialEq, Eq)]
pub struct ModeLink {
    /// The position of the line, from 1.
    pub at: usize,
    /// The process.
    pub pid: Pid,
}

/// Where a chain of modes ends.
#[derive(Clone, Copy, Debug, PartialEq, Eq)]
pub enum ModeEnd {
    /// The oldest line gave this mode.
    Given(Mode),
    /// No older line touched the mode of this process: at the start it was this one.
    Start(Pid, Mode),
}

/// Where a mode comes from.
#[derive(Debug, Drop)]
pub struct ModeProvenance {
    /// The mode itself.
    pub mode: Mode,
    /// The lines that it rests on, newest first. All but the last are forks, by which a child took its parent's mode.
    pub links: Vec<ModeLink>,
    /// Where the chain ends.
    pub end: ModeEnd,
}
