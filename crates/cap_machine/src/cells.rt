//! The cells of a process: what is known of each of its descriptors. Those of the first 64 stand in one leaf, the
//! others in a tree whose parts are shared between processes until they are written, and in two lists over it.

ghost use Rattle.std.specs.Prelude.{◌≡◌, ℕ, ◌+◌, ◌≤◌, ◌<◌, OnOk, IfOk, IfSome, ◌==◌, nat_le, if◌then◌else◌};
ghost use Rattle.std.specs.List.{All};
ghost use Rattle.cap_rights.specs.Rights.{all};
ghost use Rattle.cap_trace.specs.Entry.{IsFd};
ghost use Rattle.cap_machine.specs.Code.Cells.Deferred.{with_deferred};
ghost use Rattle.cap_machine.specs.Code.Cells.{cell_in_cells};
ghost use Rattle.cap_machine.specs.Code.Cells.DeferredFree.{left_at_most};
ghost use Rattle.cap_machine.specs.Code.Cells.Parts.{in_leaf, in_shared};
ghost use Rattle.cap_machine.specs.Code.Cells.Cells1M.{in_cells_1m};
ghost use Rattle.cap_machine.specs.Code.Cells.Started.{in_started};
ghost use Rattle.cap_machine.specs.Code.Cells.WrittenCells.{written, in_written_cells};
ghost use Rattle.cap_machine.specs.Touch.{started};

mod cells_16k;
mod cells_1m;
mod cells_256;
mod deferred;
mod deferred_free;
mod kind;
mod leaf;
mod node;
mod shared;
mod started;
mod subtree;
mod written_cells;

use crate::cell::{Cell, OnExec};
use crate::cells::cells_1m::Cells1M;
pub(crate) use crate::cells::deferred::Deferred;
pub(crate) use crate::cells::deferred_free::DeferredFree;
use crate::cells::leaf::LOW_LEAF;
pub(crate) use crate::cells::leaf::{LOW_FDS, Leaf};
use crate::cells::shared::Shared;
use crate::cells::started::Started;
use crate::cells::subtree::Subtree;
use crate::cells::written_cells::{WrittenCell, WrittenCells};
use cap_rights::{NoMemory, RightSet};
use cap_trace::{Fd, LARGEST_FD};
use std::alloc::{AllocError, Global};

/// Writes a cell in the tree, and strikes it off the list of the start.
fn write_tree(
    started: &mut Started,
    high: &mut Shared<Cells1M>,
    fd: Fd,
    cell: Cell,
) -> Result<(), NoMemory>
    requires { IsFd fd }
    ensures { OnOk result ((f : ℕ) → IsFd f
        → in_started started.new (in_shared in_cells_1m high.new f) f
        ≡ (if f == fd then cell else in_started started.old (in_shared in_cells_1m high.old f) f)) }
{
    started.strike(fd);
    high.write(fd as usize, cell)?;
    Ok(())
}

/// Writes a listed cell in the tree. None is listed above the largest descriptor, where there is no tree.
fn flush_one(
    one: &WrittenCell,
    started: &mut Started,
    high: &mut Shared<Cells1M>,
) -> Result<(), NoMemory>
    ensures { OnOk result ((f : ℕ) → IsFd f
        → in_started started.new (in_shared in_cells_1m high.new f) f
        ≡ written one.now (in_started started.old (in_shared in_cells_1m high.old f) f) f) }
{
    if LARGEST_FD < one.fd() {
        return Ok(());
    }
    write_tree(started, high, one.fd(), one.cell())?;
    Ok(())
}

/// Writes these cells in the tree.
fn flush_all(
    few: &WrittenCells,
    started: &mut Started,
    high: &mut Shared<Cells1M>,
) -> Result<(), NoMemory>
    ensures { OnOk result ((f : ℕ) → IsFd f
        → in_started started.new (in_shared in_cells_1m high.new f) f
        ≡ in_written_cells few.now (in_started started.old (in_shared in_cells_1m high.old f) f) f) }
{
    for one in few.as_slice() {
        flush_one(one, started, high)?;
    }
    Ok(())
}

/// The cells of a process. Those of the first 64 descriptors stand in a leaf. Of the others a few that were written
/// since the last fork stand over those that are still as `@start` listed them, and these over a tree. No descriptor
/// above the largest one is ever written, so one cell stands for all of them.
#[derive(Drop)]
pub(crate) struct Cells {
    low: Shared<Leaf<LOW_LEAF>>,
    few: WrittenCells,
    started: Started,
    high: Shared<Cells1M>,
    above: Cell,
}

impl Cells {
    /// Each cell is this one.
    #[tactic(auto, unfolding(crate::specs::Code::Cells::cell_in_cells))]
    pub(crate) fn all(alloc: Global, cell: Cell) -> Result<Cells, NoMemory>
        ensures { IfOk result (λ cells. (f : ℕ) → cell_in_cells cells f ≡ cell) }
    {
        Ok(Cells {
            low: Shared::all(alloc, cell)?,
            few: WrittenCells::none(alloc),
            started: Started::nothing(alloc),
            high: Shared::all(alloc, cell)?,
            above: cell,
        })
    }

    /// The cell of a descriptor below the few that were written.
    fn unlisted(&self, fd: Fd) -> Cell
        requires { IsFd fd }
        ensures { result ≡ in_started self.now.started (in_shared in_cells_1m self.now.high fd) fd }
    {
        if self.started.lists(fd) {
            self.started.cell()
        } else {
            self.high.cell(fd as usize)
        }
    }

    /// The cell of a descriptor.
    #[tactic(auto, unfolding(crate::specs::Code::Cells::cell_in_cells))]
    pub(crate) fn cell(&self, fd: Fd) -> Cell
        ensures { result ≡ cell_in_cells self.now fd }
    {
        if fd < LOW_FDS {
            self.low.cell(fd as usize)
        } else if fd <= LARGEST_FD {
            self.few.over(self.unlisted(fd), fd)
        } else {
            self.above
        }
    }

    /// The leaf that has the cell of a descriptor, if it is one of the first 64 and nothing is deferred. Where it
    /// answers `None`, `cell` has the cell.
    #[tactic(auto, unfolding(crate::specs::Code::Cells::cell_in_cells))]
    #[inline(always)]
    pub(crate) fn leaf_of(&self, fd: Fd) -> Option<&Leaf<LOW_LEAF>>
        ensures low { IfSome result (λ leaf. fd < 64) }
        ensures cell { IfSome result (λ leaf. in_leaf leaf.now fd ≡ cell_in_cells self.now fd) }
    {
        if fd < LOW_FDS {
            self.low.up_to_date()
        } else {
            None
        }
    }

    /// Writes one cell.
    #[tactic(auto, unfolding(crate::specs::Code::Cells::cell_in_cells))]
    #[inline(always)]
    pub(crate) fn write(&mut self, fd: Fd, cell: Cell) -> Result<(), NoMemory>
        requires { IsFd fd }
        ensures { OnOk result
            ((f : ℕ) → cell_in_cells self.new f ≡ (if f == fd then cell else cell_in_cells self.old f)) }
    {
        if fd < LOW_FDS {
            self.low.write(fd as usize, cell)
        } else {
            self.write_high(fd, cell)
        }
    }

    /// Writes one cell at or above 64, in the list of a few while it has room. Not inlined: most writes are below 64.
    #[tactic(auto, unfolding(crate::specs::Code::Cells::cell_in_cells))]
    #[inline(never)]
    fn write_high(&mut self, fd: Fd, cell: Cell) -> Result<(), NoMemory>
        requires high { 64 ≤ fd }
        requires within { IsFd fd }
        ensures { OnOk result
            ((f : ℕ) → cell_in_cells self.new f ≡ (if f == fd then cell else cell_in_cells self.old f)) }
    {
        if self.few.takes(fd) {
            self.few.write(fd, cell)
        } else {
            write_tree(&mut self.started, &mut self.high, fd, cell)
        }
    }

    /// Writes in the tree what is listed, for a clone to share. Each listed cell is so written there once, however many
    /// clones there are, and each clone begins with an empty list.
    #[tactic(auto, unfolding(crate::specs::Code::Cells::cell_in_cells))]
    pub(crate) fn flush(&mut self, alloc: Global) -> Result<(), NoMemory>
        ensures { OnOk result ((f : ℕ) → cell_in_cells self.new f ≡ cell_in_cells self.old f) }
    {
        flush_all(&self.few, &mut self.started, &mut self.high)?;
        self.few = WrittenCells::none(alloc);
        Ok(())
    }

    /// Does this to each cell.
    #[tactic(auto, unfolding(crate::specs::Code::Cells::cell_in_cells))]
    pub(crate) fn apply_deferred(&mut self, deferred: Deferred) -> Result<(), NoMemory>
        ensures { OnOk result ((f : ℕ) → cell_in_cells self.new f ≡ with_deferred deferred (cell_in_cells self.old f)) }
    {
        self.low.apply_deferred(deferred);
        self.few.apply_deferred(deferred)?;
        self.started.apply_deferred(deferred);
        self.high.apply_deferred(deferred);
        self.above = deferred.on(self.above);
        Ok(())
    }

    /// Closes the descriptors from one on.
    #[tactic(auto, unfolding(crate::specs::Code::Cells::cell_in_cells))]
    pub(crate) fn close_from(&mut self, fd: Fd) -> Result<(), NoMemory>
        requires { IsFd fd }
        ensures { OnOk result
            ((f : ℕ) → cell_in_cells self.new f ≡ (if nat_le fd f then Cell.Closed else cell_in_cells self.old f)) }
    {
        if fd < LOW_FDS {
            self.low.close_from(fd as usize)?;
            self.high.apply_deferred(Deferred::Close);
        } else {
            self.high.close_from(fd as usize)?;
        }
        self.few.strike_from(fd);
        self.started.strike_from(fd);
        self.above = Cell::Closed;
        Ok(())
    }

    /// Holds a descriptor that was never limited, if it is below 64.
    #[tactic(auto, unfolding(crate::specs::Code::Cells::cell_in_cells))]
    fn start_one(&mut self, fd: Fd) -> Result<(), NoMemory>
        ensures low { OnOk result ((f : ℕ) → f < 64 → cell_in_cells self.new f
            ≡ (if f == fd then Cell.Held all OnExec.Unsure else cell_in_cells self.old f)) }
        ensures high { OnOk result ((f : ℕ) → 64 ≤ f → cell_in_cells self.new f ≡ cell_in_cells self.old f) }
    {
        if fd < LOW_FDS {
            self.low
                .write(fd as usize, Cell::Held(RightSet::all(), OnExec::Unsure))
        } else {
            Ok(())
        }
    }

    /// All descriptors are closed but those from 64 on that are listed, which were never limited.
    #[tactic(auto, unfolding(crate::specs::Code::Cells::cell_in_cells), using(crate::proofs::StartedLists::none_beyond))]
    fn start_high(&mut self, alloc: Global, fds: &[Fd]) -> Result<(), NoMemory>
        requires { All IsFd fds.now }
        ensures low { OnOk result ((f : ℕ) → f < 64 → cell_in_cells self.new f ≡ Cell.Closed) }
        ensures high { OnOk result ((f : ℕ) → 64 ≤ f → cell_in_cells self.new f ≡ started fds.now f) }
    {
        self.low.apply_deferred(Deferred::Close);
        self.few = WrittenCells::none(alloc);
        self.started = Started::of(alloc, fds)?;
        self.high.apply_deferred(Deferred::Close);
        self.above = Cell::Closed;
        Ok(())
    }

    /// Holds these descriptors, which were never limited, and no others.
    pub(crate) fn start(&mut self, alloc: Global, fds: &[Fd]) -> Result<(), NoMemory>
        requires { All IsFd fds.now }
        ensures { OnOk result ((f : ℕ) → cell_in_cells self.new f ≡ started fds.now f) }
    {
        self.start_high(alloc, fds)?;
        for fd in fds {
            self.start_one(*fd)?;
        }
        Ok(())
    }

    /// Hands on the tree, where nobody else has it, as these cells are to be dropped.
    pub(crate) fn hand_on(&self, deferred_free: &mut DeferredFree) -> Result<(), NoMemory>
        ensures { left_at_most deferred_free.new ≤ left_at_most deferred_free.old + 37449 }
    {
        match self.high.sole()? {
            Some(high) => deferred_free.add(high),
            None => Ok(()),
        }
    }
}

impl Clone for Cells {
    ghost is_clone = { λ a b. (f : ℕ) → cell_in_cells b f ≡ cell_in_cells a f };

    #[tactic(auto, unfolding(crate::specs::Code::Cells::cell_in_cells))]
    fn clone(&self) -> Result<Cells, AllocError> {
        Ok(Cells {
            low: self.low.clone()?,
            few: self.few.clone()?,
            started: self.started.clone()?,
            high: self.high.clone()?,
            above: self.above,
        })
    }
}
