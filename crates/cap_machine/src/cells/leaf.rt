//! The lowest part of the tree: the cells of a few descriptors, in an array.

ghost use Rattle.std.specs.Prelude.{◌≡◌, ℕ, ◌<◌, ◌==◌, if◌then◌else◌};

use crate::cell::Cell;
use crate::cells::deferred::Deferred;
use crate::cells::kind::{CellKind, rights_of};
use crate::cells::subtree::Subtree;
use cap_rights::{NoMemory, RightSet};
use cap_trace::Fd;
use std::alloc::Global;

/// So many descriptors from 0 on have their cells in one leaf. Few programs use more, and no tree is walked for them.
pub(crate) const LOW_FDS: Fd = 64;

/// The size of that leaf.
pub(crate) const LOW_LEAF: usize = LOW_FDS as usize;

/// The cells of `N` descriptors that stand next to each other: the rights of each, and the kind of each.
#[derive(Clone, Copy)]
pub(crate) struct Leaf<const N: usize> {
    rights: [RightSet; N],
    kinds: [CellKind; N],
}

impl<const N: usize> Leaf<N> {
    ghost use Rattle.cap_machine.specs.Code.Cells.Parts.{in_leaf};
    ghost use Rattle.cap_machine.specs.Code.MayHave.{may_have};

    /// The cell at a place.
    #[tactic(auto, unfolding(crate::specs::Code::Cells::Parts::in_leaf))]
    fn at(&self, place: usize) -> Cell
        requires { place < N }
        ensures { result ≡ in_leaf self.now place }
    {
        self.kinds[place].with(self.rights[place])
    }

    /// Whether the cell at a place is known to have these rights, or nothing is known of it.
    #[tactic(auto, unfolding(crate::specs::Code::Cells::Parts::in_leaf))]
    #[inline(always)]
    pub(crate) fn may_have(&self, place: usize, needs: &RightSet) -> bool
        requires { place < N }
        ensures { result ≡ may_have (in_leaf self.now place) needs.now }
    {
        match self.kinds[place] {
            CellKind::Unknown => true,
            CellKind::Closed => false,
            _ => self.rights[place].has_all(needs),
        }
    }

    /// Writes the cell at a place.
    fn put(&mut self, place: usize, cell: Cell)
        requires { place < N }
        ensures { (f : ℕ) → in_leaf self.new f ≡ (if f == place then cell else in_leaf self.old f) }
    {
        self.kinds[place] = CellKind::of(&cell);
        self.rights[place] = rights_of(&cell);
    }
}

impl<const N: usize> Subtree for Leaf<N> {
    ghost use Rattle.cap_machine.specs.Code.Cells.Parts.{in_leaf};

    ghost cell_at = { in_leaf };

    ghost has = { λ f. f < N };

    #[tactic(auto, unfolding(crate::specs::Code::Cells::Parts::in_leaf))]
    fn all(_alloc: Global, cell: Cell) -> Result<Leaf<N>, NoMemory> {
        Ok(Leaf {
            rights: [rights_of(&cell); N],
            kinds: [CellKind::of(&cell); N],
        })
    }

    fn cell(&self, fd: usize) -> Cell {
        self.at(fd)
    }

    fn write(&mut self, fd: usize, cell: Cell) -> Result<(), NoMemory> {
        self.put(fd, cell);
        Ok(())
    }

    fn apply_deferred(&mut self, deferred: Deferred) {
        for k in 0..N {
            let cell = deferred.on(self.at(k));
            self.put(k, cell);
        }
    }

    fn close_from(&mut self, fd: usize) -> Result<(), NoMemory> {
        for k in fd..N {
            self.put(k, Cell::Closed);
        }
        Ok(())
    }

    ghost same_in_clone = { λ a b same f. Prim.search rules };

    ghost use Rattle.std.proofs.Common.{rules};
}
