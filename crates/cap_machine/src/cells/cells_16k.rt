//! The cells of 16,384 descriptors: two more levels of nodes over `cells_256`, under a name of their own.

use crate::cell::Cell;
use crate::cells::cells_256::Cells256;
use crate::cells::deferred::Deferred;
use crate::cells::node::Node;
use crate::cells::subtree::Subtree;
use cap_rights::NoMemory;
use std::alloc::{AllocError, Global};

/// The cells of 16,384 descriptors that stand next to each other. A type of its own keeps what is to be proved small.
#[derive(Drop)]
pub(crate) struct Cells16K {
    pub(crate) node: Node<Node<Cells256, 256>, 2048>,
}

impl Clone for Cells16K {
    ghost use Rattle.std.specs.Prelude.{◌≡◌, ℕ};
    ghost use Rattle.cap_machine.specs.Code.Cells.Cells16K.{in_cells_16k};

    ghost is_clone = { λ a b. (f : ℕ) → in_cells_16k b f ≡ in_cells_16k a f };

    #[tactic(auto, unfolding(crate::specs::Code::Cells::Cells16K::in_cells_16k))]
    fn clone(&self) -> Result<Cells16K, AllocError> {
        Ok(Cells16K {
            node: self.node.clone()?,
        })
    }
}

impl Subtree for Cells16K {
    ghost use Rattle.std.specs.Prelude.{ℕ, ◌<◌};
    ghost use Rattle.cap_machine.specs.Code.Cells.Cells16K.{in_cells_16k};

    ghost cell_at = { in_cells_16k };

    ghost has = { λ f. f < 16384 };

    #[tactic(auto, unfolding(crate::specs::Code::Cells::Cells16K::in_cells_16k))]
    fn all(alloc: Global, cell: Cell) -> Result<Cells16K, NoMemory> {
        Ok(Cells16K {
            node: Node::all(alloc, cell)?,
        })
    }

    #[tactic(auto, unfolding(crate::specs::Code::Cells::Cells16K::in_cells_16k))]
    fn cell(&self, fd: usize) -> Cell {
        self.node.cell(fd)
    }

    #[tactic(auto, unfolding(crate::specs::Code::Cells::Cells16K::in_cells_16k))]
    fn write(&mut self, fd: usize, cell: Cell) -> Result<(), NoMemory> {
        self.node.write(fd, cell)
    }

    #[tactic(auto, unfolding(crate::specs::Code::Cells::Cells16K::in_cells_16k))]
    fn apply_deferred(&mut self, deferred: Deferred) {
        self.node.apply_deferred(deferred);
    }

    #[tactic(auto, unfolding(crate::specs::Code::Cells::Cells16K::in_cells_16k))]
    fn close_from(&mut self, fd: usize) -> Result<(), NoMemory> {
        self.node.close_from(fd)
    }

    ghost same_in_clone = { λ a b same f. same f };
}
