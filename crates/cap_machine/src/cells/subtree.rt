//! The laws of a part of the cells: what a look-up answers after a write, after closing and after an exec. A leaf, a
//! node and a shared part keep them.

ghost use Rattle.std.specs.Prelude.{◌≡◌, ℕ, OnOk, IfOk, ◌==◌, nat_le, if◌then◌else◌};
ghost use Rattle.cap_machine.specs.Code.Cells.Deferred.{with_deferred};

use crate::cell::Cell;
use crate::cells::deferred::Deferred;
use cap_rights::NoMemory;
use std::alloc::Global;

/// The cells of descriptors that stand next to each other, counted from 0.
pub(crate) trait Subtree: Clone + Drop {
    ghost use Rattle.cap_machine.specs.declared.cell.Cell.{Cell};
    ghost use Rattle.cap_machine.specs.declared.cell.Cell.TheVariants.{Closed};

    /// The cell of a descriptor.
    ghost cell_at: { Self → ℕ → Cell };

    /// The descriptors that it has.
    ghost has: { ℕ → Type 0 };

    /// Each cell is this one.
    fn all(alloc: Global, cell: Cell) -> Result<Self, NoMemory>
        ensures { IfOk result (λ tree. (f : ℕ) → has f → cell_at tree f ≡ cell) };

    /// The cell of a descriptor.
    fn cell(&self, fd: usize) -> Cell
        requires { has fd }
        ensures { result ≡ cell_at self.now fd };

    /// Writes one cell.
    fn write(&mut self, fd: usize, cell: Cell) -> Result<(), NoMemory>
        requires { has fd }
        ensures { OnOk result ((f : ℕ) → has f → cell_at self.new f ≡ (if f == fd then cell else cell_at self.old f)) };

    /// Does this to each cell.
    fn apply_deferred(&mut self, deferred: Deferred)
        ensures { (f : ℕ) → has f → cell_at self.new f ≡ with_deferred deferred (cell_at self.old f) };

    /// Closes the descriptors from one on.
    fn close_from(&mut self, fd: usize) -> Result<(), NoMemory>
        requires { has fd }
        ensures { OnOk result
            ((f : ℕ) → has f → cell_at self.new f ≡ (if nat_le fd f then Closed else cell_at self.old f)) };

    /// A clone has the same cells.
    ghost same_in_clone: { (a b : Self) → Self.is_clone a b → (f : ℕ) → cell_at b f ≡ cell_at a f };
}
