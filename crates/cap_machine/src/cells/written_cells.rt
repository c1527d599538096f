//! The cells that a process wrote since it last forked, while there are few of them, in a list above its tree.

ghost use Rattle.std.specs.Prelude.{◌≡◌, ℕ, OnOk, IfOk, IsFalse, ◌==◌, nat_le, if◌then◌else◌};
ghost use Rattle.cap_machine.specs.Code.Cells.Deferred.{with_deferred};
ghost use Rattle.cap_machine.specs.Code.Cells.Kind.{cell_of_kind};
ghost use Rattle.cap_machine.specs.Code.Cells.WrittenCells.{written, in_written_cells};

use crate::cell::Cell;
use crate::cells::deferred::Deferred;
use crate::cells::kind::{CellKind, rights_of};
use cap_rights::{NoMemory, RightSet};
use cap_trace::Fd;
use std::alloc::{AllocError, Global};

/// The most cells that are listed: few enough to look through. A path of the tree takes as much memory as 30 of them.
const MOST_WRITTEN_CELLS: usize = 24;

/// A cell that was written.
#[derive(Clone, Copy)]
pub(crate) struct WrittenCell {
    fd: Fd,
    kind: CellKind,
    rights: RightSet,
}

impl WrittenCell {
    /// Whose cell it is.
    pub(crate) fn fd(&self) -> Fd
        ensures { result ≡ self.now.fd }
    {
        self.fd
    }

    /// What it is.
    pub(crate) fn cell(&self) -> Cell
        ensures { result ≡ cell_of_kind self.now.kind self.now.rights }
    {
        self.kind.with(self.rights)
    }

    /// What becomes of the cell of a descriptor.
    fn on(self, cell: Cell, fd: Fd) -> Cell
        ensures { result ≡ written self cell fd }
    {
        if fd == self.fd { self.cell() } else { cell }
    }
}

/// The cells that were written, which stand over others.
#[derive(Drop)]
pub(crate) struct WrittenCells {
    alloc: Global,
    cells: Vec<WrittenCell>,
}

impl WrittenCells {
    /// None is listed. It takes no memory.
    pub(crate) fn none(alloc: Global) -> WrittenCells
        ensures { (c : Cell) (f : ℕ) → in_written_cells result c f ≡ c }
    {
        WrittenCells {
            alloc,
            cells: Vec::new(alloc),
        }
    }

    /// The cell of a descriptor that has this one below.
    #[tactic(auto, using(crate::proofs::WrittenCells::after_next))]
    pub(crate) fn over(&self, below: Cell, fd: Fd) -> Cell
        ensures { result ≡ in_written_cells self.now below fd }
    {
        let mut cell = below;
        for one in &self.cells {
            cell = one.on(cell, fd);
        }
        cell
    }

    /// Those that are listed; of one descriptor the last counts.
    pub(crate) fn as_slice(&self) -> &[WrittenCell]
        ensures { result.now ≡ self.now.cells.items }
    {
        &self.cells
    }

    /// Whether a descriptor is listed.
    fn lists(&self, fd: Fd) -> bool
        ensures { IsFalse result → ((c : Cell) → in_written_cells self.now c fd ≡ c) }
    {
        for one in &self.cells {
            if one.fd == fd {
                return true;
            }
        }
        false
    }

    /// Whether a cell is to be written here: there is room for one more, or it is listed.
    pub(crate) fn takes(&self, fd: Fd) -> bool
        ensures { IsFalse result → ((c : Cell) → in_written_cells self.now c fd ≡ c) }
    {
        self.cells.len() < MOST_WRITTEN_CELLS || self.lists(fd)
    }

    /// Lists one more.
    #[tactic(auto, using(crate::proofs::WrittenCells::after_more, crate::specs::Code::Cells::Kind::kept_cell))]
    fn list(&mut self, fd: Fd, cell: Cell) -> Result<(), NoMemory>
        ensures { OnOk result
            ((c : Cell) (f : ℕ) → in_written_cells self.new c f
            ≡ (if f == fd then cell else in_written_cells self.old c f)) }
    {
        let (kind, rights) = (CellKind::of(&cell), rights_of(&cell));
        self.cells.push(WrittenCell { fd, kind, rights })?;
        Ok(())
    }

    /// Strikes a descriptor off the list.
    fn strike(&mut self, fd: Fd)
        ensures { (c : Cell) (f : ℕ) → in_written_cells self.new c f
            ≡ (if f == fd then c else in_written_cells self.old c f) }
    {
        self.cells.retain(|one| one.fd != fd);
    }

    /// Writes a cell.
    pub(crate) fn write(&mut self, fd: Fd, cell: Cell) -> Result<(), NoMemory>
        ensures { OnOk result
            ((c : Cell) (f : ℕ) → in_written_cells self.new c f
            ≡ (if f == fd then cell else in_written_cells self.old c f)) }
    {
        self.strike(fd);
        self.list(fd, cell)
    }

    /// Strikes those from a descriptor on off the list.
    pub(crate) fn strike_from(&mut self, fd: Fd)
        ensures { (c : Cell) (f : ℕ) → in_written_cells self.new c f
            ≡ (if nat_le fd f then c else in_written_cells self.old c f) }
    {
        self.cells.retain(|one| one.fd < fd);
    }

    /// What a successful exec leaves of them.
    fn executed(&self) -> Result<WrittenCells, NoMemory>
        ensures { IfOk result (λ new. (c : Cell) (f : ℕ)
            → in_written_cells new (with_deferred Deferred.Exec c) f
            ≡ with_deferred Deferred.Exec (in_written_cells self.now c f)) }
    {
        let mut new = WrittenCells::none(self.alloc);
        for one in &self.cells {
            let cell = Deferred::Exec.on(one.kind.with(one.rights));
            new.list(one.fd, cell)?;
        }
        Ok(new)
    }

    /// Does this to each.
    pub(crate) fn apply_deferred(&mut self, deferred: Deferred) -> Result<(), NoMemory>
        ensures { OnOk result ((c : Cell) (f : ℕ)
            → in_written_cells self.new (with_deferred deferred c) f
            ≡ with_deferred deferred (in_written_cells self.old c f)) }
    {
        match deferred {
            Deferred::Nothing => {}
            Deferred::Exec => *self = self.executed()?,
            Deferred::Close | Deferred::Forget => *self = WrittenCells::none(self.alloc),
        }
        Ok(())
    }
}

impl Clone for WrittenCells {
    ghost use Rattle.cap_machine.specs.declared.cell.Cell.{Cell};

    ghost is_clone = { λ a b. (c : Cell) (f : ℕ) → in_written_cells b c f ≡ in_written_cells a c f };

    fn clone(&self) -> Result<WrittenCells, AllocError> {
        Ok(WrittenCells {
            alloc: self.alloc,
            cells: self.cells.clone()?,
        })
    }
}
